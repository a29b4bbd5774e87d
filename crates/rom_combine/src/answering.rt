//! How a pass answers the found calls.
ghost use Rattle.std.specs.Prelude.{◌≡◌, ℕ, ◌+◌, ◌<◌, ◌≤◌, List, [], ◌∷◌, length, map, true};
ghost use Rattle.rom_model.specs.Machine.{on_words};
ghost use Rattle.rom_model.specs.declared.limits.TheConstants.{MAX_CALLERS};
ghost use Rattle.rom_model.specs.declared.record.Fate.{Fate};
ghost use Rattle.rom_combine.specs.Answering.{HasGiven, IsRecordedBy, SameCalls, refused};
ghost use Rattle.rom_combine.specs.Scanning.{but_requests};
ghost use Rattle.rom_lr.specs.Seats.{IsWriterOf, plan, writer_view};
ghost use Rattle.rom_lr.specs.Writing.{SetsPlan};
ghost use Rattle.rom_rule.specs.Views.{Each, is_made, plan_of};

use crate::per_caller::PerCaller;
use crate::scanning::Posted;
use rom_announce::answer;
use rom_lr::{Shared, WriterSeat};
use rom_model::{Back, Object};

/// What a found call is to be told: its caller, its place in the history or a code, and its reply. It is
/// plain data, as the slot will have it: so one loop answers what was done, what found the count at its limit
/// and what failed.
#[derive(Clone, Copy)]
pub struct CallAnswer {
    pub caller: u32,
    pub place: u64,
    pub reply: Back,
}

impl Default for CallAnswer {
    fn default() -> Self {
        CallAnswer {
            caller: 0,
            place: 0,
            reply: Back::new(),
        }
    }
}

/// Answers that tell each found call the same code, with no reply.
pub(crate) fn refuse(found: &[Posted], code: u64, answers: &mut PerCaller<CallAnswer>)
    requires { length found.now ≤ MAX_CALLERS }
    ensures { answers.new.items ≡ map (refused code) found.now }
{
    answers.clear();
    for i in 0..found.len() {
        answers.push(CallAnswer {
            caller: found[i].caller,
            place: code,
            reply: Back::new(),
        });
    }
}

/// Gives each found call its answer, in order. Where the pass has no record yet, the first answer
/// makes it; `before` and `after` are the device's counts of faults at the pass's start and now.
/// Afterwards each found call is answered, and no word of a region, neither `side` nor `version`, and
/// no indicator was stored.
pub(crate) fn answer_all<O: Object>(
    shared: &Shared<O>,
    seat: &mut WriterSeat,
    answers: &[CallAnswer],
    before: u64,
    after: u64,
)
    requires of { IsWriterOf shared.now seat.old }
    requires left { let v = writer_view seat.old in (fate : Fate)
        × HasGiven O.Contents (on_words O.machine) v.base fate before after (plan_of v) 0
        answers.now }
    ensures same { SetsPlan seat.old seat.new (plan seat.new) }
    ensures kept { let p = plan seat.old in is_made p.mine ≡ true →
        but_requests (plan seat.new) ≡ but_requests p }
    ensures calls { SameCalls (plan seat.old) (plan seat.new) }
    ensures recorded { let v = writer_view seat.old in
        IsRecordedBy O.Contents (on_words O.machine) v.base (plan_of v)
        (plan seat.new) before after answers.now }
    ensures answered { Each (λ _ f. f.answered ≡ true) (plan seat.new).requests }
{
    // A pass that publishes has its record from the store of `side` on, since history and record must change
    // in one step. Where nothing is published, no reader could load a change, so the first answer makes the
    // record.
    for i in 0..answers.len() {
        let one = &answers[i];
        answer(
            shared, seat, one.caller, one.place, &one.reply, before, after,
        );
    }
}
