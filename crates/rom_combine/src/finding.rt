//! How a pass finds the calls that it is to do: all that are posted, or just those that are wanted.
ghost use Rattle.std.specs.Prelude.{◌≡◌, ◌<◌, length, true};
ghost use Rattle.std.specs.Bool.{OnTrue};
ghost use Rattle.rom_combine.specs.Scanning.{IsScan};
ghost use Rattle.rom_combine.specs.Wanted.{posted_from};
ghost use Rattle.rom_lr.specs.Seats.{IsWriterOf, plan, writer_view};
ghost use Rattle.rom_lr.specs.Writing.{SetsPlan};
ghost use Rattle.rom_model.specs.Machine.{on_words};
ghost use Rattle.rom_rule.specs.Records.{IsCall};
ghost use Rattle.rom_rule.specs.Views.{Each, plan_of};

use crate::per_caller::PerCaller;
use crate::scanning::{Posted, scan};
use rom_lr::{Shared, WriterSeat};
use rom_model::{Args, Object};
use std::sync::Wait;

/// Whether this is the call, and a caller's with that number.
fn is_posted(found: &Posted, caller: usize, args: &Args) -> bool
    ensures is { OnTrue result (found.now ≡ record { caller = caller; args = args.now }) }
{
    found.caller as usize == caller && found.args.as_slice() == args.as_slice()
}

/// Whether these are the wanted calls, posted by the callers from 1 on, one each, in their order.
fn are_wanted(found: &[Posted], wanted: &[Args]) -> bool
    ensures are { OnTrue result (found.now ≡ posted_from 1 wanted.now) }
{
    if found.len() != wanted.len() {
        return false;
    }
    for i in 0..wanted.len() {
        if !is_posted(&found[i], i + 1, &wanted[i]) {
            return false;
        }
    }
    true
}

/// Returns never.
#[cold]
fn wait_for_ever<R: Wait>(rt: &R)
    ensures never { ⊥ }
{
    for _ in rt.forever() {}
}

/// Begins a pass, as `scan`. Where some calls are wanted it finds just these: who asks for them has posted them, and
/// no other caller has posted one. The rule of the shared words says that a call which is found was posted. It does
/// not say that a call which was posted is found. So what was found is compared before any of it is done, and this
/// function does not return where it differs.
pub(crate) fn find<O: Object, R: Wait>(
    rt: &R,
    shared: &Shared<O>,
    seat: &mut WriterSeat,
    found: &mut PerCaller<Posted>,
    wanted: &[Args],
)
    requires of { IsWriterOf shared.now seat.old }
    requires answered { Each (λ _ f. f.answered ≡ true) (plan seat.old).requests }
    ensures scanned { let v = writer_view seat.old in
        IsScan (IsCall (on_words O.machine) v.base) (plan_of v) (plan seat.new)
        shared.now.layout.callers found.new.items }
    ensures same { SetsPlan seat.old seat.new (plan seat.new) }
    ensures wanted { 0 < length wanted.now → found.new.items ≡ posted_from 1 wanted.now }
{
    scan(shared, seat, found);
    if !wanted.is_empty() && !are_wanted(found.as_slice(), wanted) {
        wait_for_ever(rt);
    }
}
