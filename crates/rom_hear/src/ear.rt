//! Lines, as they are heard.
ghost use Rattle.std.specs.Prelude.{◌≡◌, ◌⊎◌, ℕ, ◌+◌, ◌-◌, ◌<◌, ◌≤◌, List, [], ◌∷◌, ◌++◌, true, false, length, take, drop, slice_index, is_none, IfNone, IfSome, IfOk, IfErr, OnErr, Some, None, if◌then◌else◌};
ghost use Rattle.rom_text.specs.Lines.{without_cr};
ghost use Rattle.rom_hear.specs.Events.{EndsAt, ends_in};
ghost use Rattle.rom_hear.specs.declared.ear.TheConstants.{ROOM};
ghost use Rattle.rom_hear.specs.declared.ear.Next.TheVariants.{Line, Long};

use crate::peer::Peer;
use memchr::memchr;
use rom_text::IoFailed;

/// How many bytes of a line are kept, with its end. No command is half as long, so a longer line is unread, and its
/// bytes are passed over.
pub const ROOM: usize = 4096;

/// What an ear hands out.
#[derive(Clone, Copy, Debug, PartialEq, Eq)]
pub enum Next {
    /// A line: `Ear::line` has its bytes.
    Line,
    /// A line that is longer than is kept.
    Long,
    /// There is no more.
    End,
    /// The peer failed.
    Failed,
}

/// Bytes that were heard, up to the end of a line and some behind it.
#[derive(Drop)]
pub struct Ear {
    bytes: [u8; ROOM],
    // The bytes that were heard and not handed out are those from `start` to `end`.
    start: usize,
    end: usize,
    // The line that was handed out last.
    line_start: usize,
    line_end: usize,
    // Whether the front of the line that is being heard was passed over.
    long: bool,
    // Whether nothing more comes.
    ended: bool,
    ghost waiting: { start ≤ end },
    ghost within: { end ≤ ROOM },
    ghost line_order: { line_start ≤ line_end },
    ghost line_within: { line_end ≤ ROOM },
}

/// How many bytes stand before the first LF.
fn first_end(bytes: &[u8]) -> Option<usize>
    ensures some { IfSome result (λ n. EndsAt n bytes.now) }
    ensures none { IfNone result (ends_in bytes.now ≡ 0) }
{
    memchr(b'\n', bytes)
}

/// How many bytes there are without a CR at their end.
fn len_without_cr(bytes: &[u8]) -> usize
    ensures within { result ≤ length bytes.now }
    ensures line { take result bytes.now ≡ without_cr bytes.now }
{
    if bytes.last() == Some(&b'\r') {
        bytes.len() - 1
    } else {
        bytes.len()
    }
}

impl Ear {
    ghost use Rattle.rom_hear.specs.Hearing.{AsksOnce, AsksOnceMore, HandsNext, HasHeardNothing, IsAt, IsHandedOn, KeepsHearing, StepsOn, line_in, waiting_in};

    /// An ear that has heard nothing.
    pub fn new() -> Ear
        ensures { HasHeardNothing result }
    {
        Ear {
            bytes: [0; ROOM],
            start: 0,
            end: 0,
            line_start: 0,
            line_end: 0,
            long: false,
            ended: false,
        }
    }

    /// The line that was handed out last, without its LF and one CR before it.
    pub fn line(&self) -> &[u8]
        ensures { result.now ≡ line_in self.now }
    {
        &self.bytes[self.line_start..self.line_end]
    }

    /// What was heard and not handed out.
    fn waiting(&self) -> &[u8]
        ensures { result.now ≡ waiting_in self.now }
    {
        &self.bytes[self.start..self.end]
    }

    /// Hands out the line of so many bytes, behind which the next one begins, so many bytes from here.
    fn cut(&mut self, len: usize, past: usize) -> Next
        requires order { len ≤ past }
        requires there { past ≤ length (waiting_in self.old) }
        ensures handed { result ≡ (if self.old.long then Long else Line) }
        ensures line { line_in self.new ≡ without_cr (take len (waiting_in self.old)) }
        ensures waiting { waiting_in self.new ≡ drop past (waiting_in self.old) }
        ensures long { self.new.long ≡ false }
        ensures ended { self.new.ended ≡ self.old.ended }
    {
        let line = &self.bytes[self.start..self.start + len];
        let kept = len_without_cr(line);
        self.line_start = self.start;
        self.line_end = self.start + kept;
        self.start += past;
        if self.long {
            self.long = false;
            Next::Long
        } else {
            Next::Line
        }
    }

    /// Passes over what waits, where it leaves no room for more.
    fn make_way(&mut self)
        requires unbroken { ends_in (waiting_in self.old) ≡ 0 }
        ensures kept { IsHandedOn self.old self.new }
        ensures room { length (waiting_in self.new) < ROOM }
        ensures unbroken { ends_in (waiting_in self.new) ≡ 0 }
        ensures ended { self.new.ended ≡ self.old.ended }
    {
        if self.waiting().len() >= ROOM {
            self.start = 0;
            self.end = 0;
            self.long = true;
        }
    }

    /// Moves what waits to the front, so that there is room behind it.
    fn make_room(&mut self)
        requires { length (waiting_in self.old) < ROOM }
        ensures room { self.new.end < ROOM }
        ensures waiting { waiting_in self.new ≡ waiting_in self.old }
        ensures long { self.new.long ≡ self.old.long }
        ensures ended { self.new.ended ≡ self.old.ended }
    {
        if self.start > 0 {
            self.bytes.copy_within(self.start..self.end, 0);
            self.end -= self.start;
            self.start = 0;
        }
    }

    /// Asks for more bytes, once.
    fn more<K, P: Peer<K>>(&mut self, peer: &mut P) -> Result<(), IoFailed>
        requires room { length (waiting_in self.old) < ROOM }
        requires going { self.old.ended ≡ false }
        ensures { KeepsHearing P.shown self.old self.new peer.old peer.new result }
    {
        self.make_room();
        match peer.hear(&mut self.bytes[self.end..]) {
            Ok(count) => {
                self.end += count as usize;
                self.ended = count == 0;
                Ok(())
            }
            Err(failed) => Err(failed),
        }
    }

    /// Hands out what is left where nothing more comes, or asks for more bytes, once. No line has its LF.
    fn step_on<K, P: Peer<K>>(&mut self, peer: &mut P) -> Option<Next>
        requires unbroken { ends_in (waiting_in self.old) ≡ 0 }
        ensures steps { (lines : List (List ℕ)) → IsAt self.old (P.shown.log peer.old) lines →
            StepsOn self.new (P.shown.log peer.old) (P.shown.log peer.new) lines result }
        ensures asks { AsksOnceMore P.shown self.old self.new peer.old peer.new result }
    {
        if self.ended {
            let waits = self.waiting().len();
            if waits == 0 && !self.long {
                return Some(Next::End);
            }
            return Some(self.cut(waits, waits));
        }
        self.make_way();
        match self.more(peer) {
            Ok(()) => None,
            Err(_) => Some(Next::Failed),
        }
    }

    /// Hands out what there is, or asks for more bytes, once.
    fn step<K, P: Peer<K>>(&mut self, peer: &mut P) -> Option<Next>
        ensures steps { (lines : List (List ℕ)) → IsAt self.old (P.shown.log peer.old) lines →
            StepsOn self.new (P.shown.log peer.old) (P.shown.log peer.new) lines result }
        ensures asks { AsksOnceMore P.shown self.old self.new peer.old peer.new result }
    {
        match first_end(self.waiting()) {
            Some(len) => Some(self.cut(len, len + 1)),
            None => self.step_on(peer),
        }
    }

    /// The next line. More is asked for only where no line is known that was not handed out. It takes no memory.
    pub fn hear<K, P: Peer<K>>(&mut self, peer: &mut P) -> Next
        // Whatever lines were handed out of what was heard, the next one is.
        ensures next { (lines : List (List ℕ)) → IsAt self.old (P.shown.log peer.old) lines →
            HandsNext self.new (P.shown.log peer.old) (P.shown.log peer.new) lines result }
        // `Failed` comes only where the peer failed. Of the askings all brought some bytes, or all but the last one;
        // and there is none once the end was heard.
        ensures asks { AsksOnce P.shown self.old self.new peer.old peer.new result }
    {
        // Each round takes some bytes, so no line that can be written reaches the last one.
        for _round in 0..u64::MAX {
            match self.step(peer) {
                Some(next) => return next,
                None => {}
            }
        }
        Next::End
    }
}
