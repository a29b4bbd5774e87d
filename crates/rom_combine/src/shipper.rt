//! Who hands on what is done, batch by batch: to a copy of the heap elsewhere, say.
ghost use Rattle.std.specs.Prelude.{◌≡◌, ◌+◌, ◌<◌, ◌≤◌, IfSome, IsTrue, false, length, map, slice_index_or, take, []};
ghost use Rattle.rom_lr.specs.Seats.{plan};
ghost use Rattle.rom_model.specs.History.{LAST_COUNT};
ghost use Rattle.rom_model.specs.declared.limits.TheConstants.{MAX_CALLERS};
ghost use Rattle.rom_model.specs.declared.words.TheConstants.{CALL_WORDS, REPLY_WORDS};
ghost use Rattle.rom_combine.specs.Shipping.{AreLast, Ships, ShownShipper, reply_in, text_from, unshipped, updates_of};
ghost use Rattle.rom_rule.specs.Views.{Each};

use crate::answering::CallAnswer;
use crate::scanning::Posted;
use rom_lr::WriterSeat;
use std::marker::Model;

/// The updates of a batch that were done, in the order of their places. A pass makes it once the batch is
/// certain, and before it answers any of its calls. A query may see the batch earlier.
#[derive(Drop)]
pub struct Batch<'a> {
    pub(crate) place: u64,
    pub(crate) found: &'a [Posted],
    pub(crate) answers: &'a [CallAnswer],
    pub(crate) seat: &'a WriterSeat,
}

// The invariant says that the updates are the last ones of the published history, which grows by a batch only once
// that is certain on the device; and that none of the calls that the pass found is answered. It needs the writer's
// seat, which is here for that alone.
impl<'a> Model for Batch<'a> {
    ghost use Rattle.std.specs.Prelude.{◌≡◌, ◌+◌, ◌≤◌, length, false};
    ghost use Rattle.rom_combine.specs.Shipping.{AreLast, BatchSeen, updates_of};
    ghost use Rattle.rom_lr.specs.Seats.{plan};
    ghost use Rattle.rom_model.specs.History.{LAST_COUNT};
    ghost use Rattle.rom_model.specs.declared.limits.TheConstants.{MAX_CALLERS};
    ghost use Rattle.rom_rule.specs.Views.{Each};

    ghost Value = { BatchSeen };

    ghost view = { λ b. record {
      place = b.place;
      updates = updates_of b.found.now b.answers.now;
    } };

    ghost invariant = { λ b. (length b.found.now ≡ length b.answers.now)
        × (length b.found.now ≤ MAX_CALLERS) × (b.place + length b.found.now ≤ LAST_COUNT)
        × Each (λ _ f. f.answered ≡ false) (plan b.seat.now).requests
        × AreLast (plan b.seat.now).history (updates_of b.found.now b.answers.now) };
}

impl<'a> Batch<'a> {
    /// How many updates there are, at most one for each caller.
    pub fn len(&self) -> usize
        ensures many { result ≡ length self.now.updates }
        ensures few { result ≤ MAX_CALLERS }
        ensures fits { self.now.place + result ≤ LAST_COUNT }
    {
        self.found.len()
    }

    /// The place of the first. Each other one has the place behind that of the one before.
    pub fn place(&self) -> u64
        ensures { result ≡ self.now.place }
    {
        self.place
    }

    /// The words of the call of the update at an index.
    pub fn args(&self, at: usize) -> &[u64]
        requires { at < length self.now.updates }
        ensures words { result.now ≡ (slice_index_or self.now.updates at ([], [])).0 }
        ensures few { length result.now ≤ CALL_WORDS }
    {
        let found = self.found;
        found[at].args.as_slice()
    }

    /// The words of the reply to it.
    pub fn reply(&self, at: usize) -> &[u64]
        requires { at < length self.now.updates }
        ensures words { result.now ≡ (slice_index_or self.now.updates at ([], [])).1 }
        ensures few { length result.now ≤ REPLY_WORDS }
    {
        let answers = self.answers;
        answers[at].reply.as_slice()
    }
}

/// Who is handed each batch that is done, under the lock, so that no other batch comes between. It may wait, and
/// then callers who update wait too; those who read go on. What it cannot hand on changes no reply: it says so by
/// what it shows, and takes no more.
pub trait Shipper {
    /// What it makes of an update, and what it shows of all that it has handed on.
    ghost shown: { ShownShipper Self };

    /// Hands on the updates of a batch that were done.
    fn ship(&mut self, batch: &Batch<'_>)
        // All of their text was taken, or its first bytes, and then it has failed.
        ensures ships { IsTrue shown.tells → Ships (shown.state self.old) (shown.state self.new)
            (text_from shown.text batch.now.place batch.now.updates) }
        // Where it keeps the replies of a batch, it keeps those of this one, and of no other.
        ensures last { IfSome (shown.last self.new) (λ replies.
            replies ≡ map reply_in batch.now.updates) };

    /// Whether handing on has failed.
    fn has_failed(&self) -> bool
        ensures failed { result ≡ (shown.state self.now).failing };
}

/// It hands on nothing.
pub struct NoShipper;

impl Shipper for NoShipper {
    ghost shown = { unshipped };

    fn ship(&mut self, _batch: &Batch<'_>) {}

    fn has_failed(&self) -> bool {
        false
    }
}

/// Hands on the first of the found calls, so many: those that were done, from a place on.
pub(crate) fn hand_on<W: Shipper>(
    shipper: &mut W,
    seat: &WriterSeat,
    place: u64,
    done: usize,
    found: &[Posted],
    answers: &[CallAnswer],
)
    requires many { length answers.now ≡ length found.now }
    requires few { length found.now ≤ MAX_CALLERS }
    requires within { done ≤ length found.now }
    requires fits { place + done ≤ LAST_COUNT }
    requires unanswered { Each (λ _ f. f.answered ≡ false) (plan seat.now).requests }
    requires published { AreLast (plan seat.now).history
        (take done (updates_of found.now answers.now)) }
    ensures ships { IsTrue W.shown.tells → Ships (W.shown.state shipper.old) (W.shown.state shipper.new)
        (text_from W.shown.text place (take done (updates_of found.now answers.now))) }
    ensures last { IfSome (W.shown.last shipper.new) (λ replies.
        replies ≡ map reply_in (take done (updates_of found.now answers.now))) }
{
    shipper.ship(&Batch {
        place,
        found: &found[..done],
        answers: &answers[..done],
        seat,
    });
}
