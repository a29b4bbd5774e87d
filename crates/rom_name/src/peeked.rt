//! A source of which the first message may be looked at.
ghost use Rattle.std.specs.Prelude.{◌≡◌, ◌≢◌, ◌⊎◌, ◌<◌, ◌≤◌, ◌++◌, ℕ, take, length, IfNone, IfSome, IsFalse, IsTrue, false};
ghost use Rattle.rom_model.specs.Faults.{FailedLast, StopsAtFault, counted};
ghost use Rattle.rom_text.specs.Limits.{CameToEnd};
ghost use Rattle.rom_text.specs.Streams.{is_idle};
ghost use Rattle.rom_frame.specs.Heads.{AreWords, head};
ghost use Rattle.rom_frame.specs.Messages.{IsCount, first_word};
ghost use Rattle.rom_frame.specs.declared.head.Head.{Head};
ghost use Rattle.rom_name.specs.Ends.{IsEndWhere, IsEndWhere-prop};

use byteorder::{ByteOrder, LittleEndian};
use rom_frame::{Head, Heard, MOST_BYTES, MessageKind, next_message, read_head};
use rom_text::{IoFailed, Source};
use std::snapshot::Snapshot;

/// What stands first in a stream.
#[derive(Clone, Copy, Debug, PartialEq, Eq)]
pub enum First {
    /// A head.
    Headed(Head),
    /// Bytes that are none.
    Headless,
    /// No byte.
    Empty,
    /// A read failed.
    Failed,
}

/// A source that gives bytes which were read already, and then those of another. What was seen of the other while
/// it was peeked into is told as if it were read now, so that nobody who reads on need know of it.
#[derive(Drop)]
pub struct Peeked<S: Source> {
    source: S,
    // The source before it was peeked into, for proofs alone.
    before: Snapshot<S>,
    // The bytes from `at` to `len` were read and not given.
    held: [u8; MOST_BYTES],
    at: usize,
    len: usize,
    // Whether the source came to its end while it was peeked into, which is yet to be told.
    pending: bool,
    // Whether the last read gave no byte.
    ended: bool,
    ghost within: { (at ≤ len) × (len ≤ 512) },
    ghost once: { IsTrue pending → S.shown.idle source ≡ counted (S.shown.idle before.value) },
    ghost last: { IsTrue pending → IsTrue (S.shown.ended source) },
    ghost at_end: { IsEndWhere pending (S.shown.left source) } by { IsEndWhere-prop pending (S.shown.left source) },
    ghost told: { IsTrue ended → IsTrue (S.shown.ended source) },
    ghost untold: { IsTrue pending → IsFalse ended },
}

impl<S: Source> Peeked<S> {
    ghost use Rattle.rom_name.specs.Peeked.{IsFirst, IsUnread, held_of, is_pending, shown_peeked, source_of};

    /// The source from its next byte on.
    pub fn over(source: S) -> Peeked<S>
        ensures source { source_of result ≡ source }
        ensures unread { IsUnread result }
        ensures left { (shown_peeked S.shown).left result ≡ S.shown.left source }
        ensures faults { (shown_peeked S.shown).faults result ≡ S.shown.faults source }
        ensures idle { (shown_peeked S.shown).idle result ≡ S.shown.idle source }
    {
        let before = Snapshot::of(&source);
        Peeked {
            source,
            before,
            held: [0; MOST_BYTES],
            at: 0,
            len: 0,
            pending: false,
            ended: false,
        }
    }

    /// The source. Bytes that were read and not given are lost.
    pub fn into_source(self) -> S
        ensures source { result ≡ source_of self }
        ensures faults { S.shown.faults result ≡ (shown_peeked S.shown).faults self }
        // If reads of this were made only so long as they gave some byte, so were those of the source.
        ensures asked_once { (idle : ℕ) →
            StopsAtFault idle ((shown_peeked S.shown).idle self) ((shown_peeked S.shown).ended self) →
            StopsAtFault idle (S.shown.idle result) (S.shown.ended result) }
        // Where the last read of this gave no byte, nor did that of the source.
        ensures failed { (idle : ℕ) →
            FailedLast idle ((shown_peeked S.shown).idle self) ((shown_peeked S.shown).ended self) →
            FailedLast idle (S.shown.idle result) (S.shown.ended result) }
    {
        let Peeked {
            source,
            before: _,
            held: _,
            at: _,
            len: _,
            pending: _,
            ended: _,
        } = self;
        source
    }

    // Gives bytes that it holds.
    fn give(&mut self, buf: &mut [u8]) -> u64
        requires some { self.old.at < self.old.len }
        requires room { 0 < length buf.old }
        ensures many { (0 < result) × (result ≤ length buf.new) }
        ensures bytes { held_of self.old ≡ take result buf.new ++ held_of self.new }
        ensures source { source_of self.new ≡ source_of self.old }
        ensures before { self.new.before ≡ self.old.before }
        ensures pending { is_pending self.new ≡ is_pending self.old }
        ensures ended { self.new.ended ≡ false }
    {
        let rest = &self.held[self.at..self.len];
        let count = rest.len().min(buf.len());
        buf[..count].copy_from_slice(&rest[..count]);
        self.at += count;
        self.ended = false;
        count as u64
    }

    // Notes that the first bytes of a block were read, and whether the source came to its end behind them.
    fn hold(&mut self, block: &[u8; MOST_BYTES], len: usize, at_end: bool)
        requires within { len ≤ 512 }
        requires once { IsTrue at_end →
            CameToEnd S.shown self.old.before.value (source_of self.old) }
        ensures held { held_of self.new ≡ take len block.now }
        ensures source { source_of self.new ≡ source_of self.old }
        ensures before { self.new.before ≡ self.old.before }
        ensures pending { is_pending self.new ≡ at_end }
    {
        self.held = *block;
        self.at = 0;
        self.len = len;
        self.pending = at_end;
        self.ended = false;
    }

    /// Looks at the first message of a stream of which nothing was read. A head is taken from it; anything else
    /// stays.
    pub fn take_first(&mut self) -> First
        requires { IsUnread self.old }
        ensures { IsFirst S.shown result self.old self.new }
    {
        let mut block = [0; MOST_BYTES];
        let heard = next_message(&mut self.source, 0, &mut block);
        if heard.kind == MessageKind::Failed {
            self.ended = true;
            return First::Failed;
        }
        if let Some(head) = head_in(&heard, &block) {
            return First::Headed(head);
        }
        self.hold(&block, heard.len, is_at_end(&heard, &block));
        if heard.len == 0 {
            First::Empty
        } else {
            First::Headless
        }
    }
}

/// The head that was heard, if one was.
fn head_in(heard: &Heard, block: &[u8; MOST_BYTES]) -> Option<Head>
    requires { heard.now.len ≤ 512 }
    ensures some { IfSome result (λ h. AreWords h × (take heard.now.len block.now ≡ head h)
        × (heard.now.kind ≡ MessageKind.Whole)) }
    ensures none { IfNone result (heard.now.kind ≡ MessageKind.Whole →
        (h : Head) → AreWords h → take heard.now.len block.now ≢ head h) }
{
    match heard.kind {
        MessageKind::Whole => read_head(&block[..heard.len]),
        _ => None,
    }
}

/// Whether a stream came to its end behind what was heard of it.
fn is_at_end(heard: &Heard, block: &[u8; MOST_BYTES]) -> bool
    ensures end { IsTrue result → (heard.now.kind ≡ MessageKind.End)
        ⊎ ((heard.now.kind ≡ MessageKind.Broken)
        × ((heard.now.len < 8) ⊎ IsCount (first_word block.now))) }
    ensures going { IsFalse result → (heard.now.kind ≢ MessageKind.End)
        × (heard.now.kind ≡ MessageKind.Broken →
        (8 ≤ heard.now.len) × (IsCount (first_word block.now) → ⊥)) }
{
    match heard.kind {
        MessageKind::End => true,
        MessageKind::Broken => {
            heard.len < 8 || (4..=64).contains(&LittleEndian::read_u64(&block[..8]))
        }
        _ => false,
    }
}

/// Whether a read gave no byte.
fn gave_none(answer: &Result<u64, IoFailed>) -> bool
    ensures { result ≡ is_idle answer.now }
{
    match answer {
        Ok(count) => *count == 0,
        Err(_) => true,
    }
}

impl<S: Source> Source for Peeked<S> {
    ghost use Rattle.rom_name.specs.Peeked.{shown_peeked};

    ghost shown = { shown_peeked S.shown };

    fn read(&mut self, buf: &mut [u8]) -> Result<u64, IoFailed> {
        if self.at < self.len {
            return Ok(self.give(buf));
        }
        if self.pending {
            self.pending = false;
            self.ended = true;
            return Ok(0);
        }
        let answer = self.source.read(buf);
        self.ended = gave_none(&answer);
        answer
    }
}
