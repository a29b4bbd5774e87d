//! How a pass finds the posted calls.
ghost use Rattle.std.specs.Prelude.{◌≡◌, ℕ, ◌+◌, ◌<◌, ◌≤◌, List, [], ◌∷◌, ◌++◌, length, true};
ghost use Rattle.rom_model.specs.Machine.{on_words};
ghost use Rattle.rom_model.specs.declared.limits.TheConstants.{MAX_CALLERS};
ghost use Rattle.rom_announce.specs.Scanning.{MayScan, scanned_from, with_words};
ghost use Rattle.rom_combine.specs.Scanning.{IsScan, IsVisit};
ghost use Rattle.rom_lr.specs.Seats.{IsWriterOf, plan, writer_view};
ghost use Rattle.rom_lr.specs.Writing.{SetsPlan};
ghost use Rattle.rom_rule.specs.CallKinds.{IsPending, altered};
ghost use Rattle.rom_rule.specs.Calls.{packed};
ghost use Rattle.rom_rule.specs.Records.{IsCall};
ghost use Rattle.rom_rule.specs.Views.{Each, plan_of};
ghost use Rattle.rom_rule.specs.declared.views.Request.{Request};

use crate::per_caller::PerCaller;
use rom_announce::{arguments_into, posted};
use rom_lr::{Shared, WriterSeat};
use rom_model::{Args, Object};

/// A posted call that a scan found: whose it is, and its words.
#[derive(Clone, Copy)]
pub struct Posted {
    pub caller: u32,
    pub args: Args,
}

impl Default for Posted {
    fn default() -> Self {
        Posted {
            caller: 0,
            args: Args::new(),
        }
    }
}

/// Begins a pass: it looks at each caller's turn once, from the first caller to the last, and takes
/// the words of each call that is posted. Callers are in rising order, each at most once.
pub(crate) fn scan<O: Object>(
    shared: &Shared<O>,
    seat: &mut WriterSeat,
    found: &mut PerCaller<Posted>,
)
    requires of { IsWriterOf shared.now seat.old }
    requires answered { Each (λ _ f. f.answered ≡ true) (plan seat.old).requests }
    ensures scanned { let v = writer_view seat.old in
        IsScan (IsCall (on_words O.machine) v.base) (plan_of v) (plan seat.new)
        shared.now.layout.callers found.new.items }
    ensures same { SetsPlan seat.old seat.new (plan seat.new) }
{
    // In the order of the callers' numbers nothing need be sorted, and no caller can stand twice. Only the
    // load of caller 1's turn begins a pass, also one that finds nothing. So a body that looks at no turn
    // cannot keep `scanned`.
    found.clear();
    visit(shared, seat, 1, found);
    for caller in 2..shared.layout.callers() + 1 {
        visit(shared, seat, caller, found);
    }
}

// One caller's turn and, where it has a call posted, its words.
fn visit<O: Object>(
    shared: &Shared<O>,
    seat: &mut WriterSeat,
    caller: u32,
    found: &mut PerCaller<Posted>,
)
    requires of { IsWriterOf shared.now seat.old }
    requires within { (1 ≤ caller) × (caller ≤ shared.now.layout.callers) }
    requires next { MayScan (plan seat.old) caller }
    requires others { Each (λ _ f. f.caller < caller)
        (scanned_from caller (plan seat.old)).requests }
    requires room { length found.old.items < MAX_CALLERS }
    ensures visited { let v = writer_view seat.old in
        IsVisit (IsCall (on_words O.machine) v.base) (scanned_from caller (plan_of v))
        (plan seat.new) caller found.old.items found.new.items }
    ensures same { SetsPlan seat.old seat.new (plan seat.new) }
{
    if posted(shared, seat, caller) {
        find(shared, seat, caller, found);
    }
}

// The words of a posted call, loaded where they stay.
fn find<O: Object>(
    shared: &Shared<O>,
    seat: &mut WriterSeat,
    caller: u32,
    found: &mut PerCaller<Posted>,
)
    requires of { IsWriterOf shared.now seat.old }
    requires within { (1 ≤ caller) × (caller ≤ shared.now.layout.callers) }
    requires posted { (f : Request) × IsPending (plan seat.old) caller f }
    requires room { length found.old.items < MAX_CALLERS }
    ensures found { (args : List ℕ) × IsCall (on_words O.machine) (writer_view seat.old).base args
        × SetsPlan seat.old seat.new
        (altered caller (with_words (packed args)) (plan seat.old))
        × (found.new.items ≡ found.old.items ++ record { caller = caller; args = args } ∷ []) }
{
    let next = &mut found.cells[found.count];
    next.caller = caller;
    arguments_into(shared, seat, caller, &mut next.args);
    found.count += 1;
}
