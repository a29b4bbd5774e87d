//! What lies behind the lock.
ghost use Rattle.std.specs.Prelude.{◌≡◌, ◌<◌, IfSome, drop, length, map};
ghost use Rattle.rom_combine.specs.Passing.{IsPass};
ghost use Rattle.rom_combine.specs.Shipping.{reply_in, update_of};
ghost use Rattle.rom_combine.specs.Told.{fate_of};
ghost use Rattle.rom_combine.specs.Wanted.{calls_found, posted_from};
ghost use Rattle.rom_model.specs.Machine.{on_words};
ghost use Rattle.rom_model.specs.Passes.{HasFault};
ghost use Rattle.rom_lr.specs.Seats.{opened_with};
ghost use Rattle.rom_rule.specs.Views.{plan_of};
ghost use Rattle.rom_store.specs.Held.{HasShipped, IsBehindLock};

use crate::awaited::Awaited;
use crate::label::Label;
use crate::pace::Pace;
use rom_combine::{Core, Gate, Passed, Shipper};
use rom_device::Device;
use rom_lr::Shared;
use rom_model::{Args, Object};
use std::marker::{Model, PhantomData};
use std::sync::Wait;

/// Runs a pass of a heap's core, of which this holds whenever no pass is under way. Where some calls are wanted, it
/// finds just these.
pub(crate) fn pass_behind<D: Device, O: Object, N: Label, W: Shipper, R: Wait, G: Gate>(
    rt: &R,
    shared: &Shared<O>,
    core: &mut Core<D, O>,
    shipper: &mut W,
    gate: &G,
    wanted: &[Args],
) -> Passed
    requires table { shared.now.table.shared.table_id ≡ N.table }
    requires base { opened_with shared.now ≡ N.base }
    requires held { IsBehindLock D.shown O.Contents (on_words O.machine) N.table N.base N.start
        N.since core.old }
    requires shipped { HasShipped O.Contents W.shown N.base N.ships shipper.old
        (plan_of core.old.view).history }
    ensures held { IsBehindLock D.shown O.Contents (on_words O.machine) N.table N.base N.start
        N.since core.new }
    ensures shipped { HasShipped O.Contents W.shown N.base N.ships shipper.new
        (plan_of core.new.view).history }
    // What the pass did to the history, the records and the callers, as `Core::pass` says.
    ensures passed { IsPass O.Contents (on_words O.machine) core.old.view.base
        (plan_of core.old.view) (plan_of core.new.view) shared.now.layout.callers
        (D.shown.faults core.old.twin.device) (D.shown.faults core.new.twin.device) result }
    ensures cause { HasFault (fate_of result.outcome) (D.shown.faults core.old.twin.device)
        (D.shown.faults core.new.twin.device) }
    ensures last { 0 < result.done → IfSome (W.shown.last shipper.new) (λ replies.
        replies ≡ map reply_in (map update_of (drop (length (plan_of core.old.view).history)
        (plan_of core.new.view).history))) }
    ensures wanted { 0 < length wanted.now →
        calls_found (plan_of core.new.view) ≡ posted_from 1 wanted.now }
{
    core.pass(rt, shared, gate, shipper, wanted)
}

/// The heap and the writer's seat, behind the one lock. Whenever the lock is free, each image that a
/// stop at some moment since the start might have left could be left by then, or is one of the session; and
/// the shipper was handed all of the published history, and nothing else.
#[derive(Drop)]
pub(crate) struct Held<D: Device, O: Object, N: Label, W: Shipper> {
    // The lock's word lies before this, and others write it while a pass runs. So no cache line has both that
    // word and what the pass loads and stores.
    apart: [u64; 8],
    core: Core<D, O>,
    awaited: Awaited,
    shipper: W,
    of: PhantomData<N>,
}

impl<D: Device, O: Object, N: Label, W: Shipper> Model for Held<D, O, N, W> {
    ghost use Rattle.rom_combine.specs.AtRest.{Locked};
    ghost use Rattle.rom_model.specs.Machine.{on_words};
    ghost use Rattle.rom_rule.specs.Views.{plan_of};
    ghost use Rattle.rom_store.specs.Held.{HasShipped, IsBehindLock};

    ghost Value = { Locked D };

    ghost view = { λ h. h.core };

    ghost invariant = { λ h. IsBehindLock D.shown O.Contents (on_words O.machine) N.table N.base N.start
        N.since h.core
        × HasShipped O.Contents W.shown N.base N.ships h.shipper (plan_of h.core.view).history };
}

impl<D: Device, O: Object, N: Label, W: Shipper> Held<D, O, N, W> {
    pub fn new(core: Core<D, O>, shipper: W) -> Self
        requires held { IsBehindLock D.shown O.Contents (on_words O.machine) N.table N.base N.start
            N.since core }
        requires shipped { HasShipped O.Contents W.shown N.base N.ships shipper
            (plan_of core.view).history }
        ensures core { result ≡ core }
    {
        Held {
            apart: [0; 8],
            core,
            awaited: Awaited::new(),
            shipper,
            of: PhantomData,
        }
    }

    /// Runs a pass, before which calls gather.
    pub fn pass<R: Wait, G: Gate>(&mut self, rt: &R, shared: &Shared<O>, gate: &G, pace: Pace)
        requires table { shared.now.table.shared.table_id ≡ N.table }
        requires base { opened_with shared.now ≡ N.base }
    {
        self.awaited.gather(shared, pace);
        pass_behind::<D, O, N, W, R, G>(rt, shared, &mut self.core, &mut self.shipper, gate, &[]);
    }

    pub fn into_parts(self) -> (Core<D, O>, W)
        ensures core { result.0 ≡ self }
        ensures held { IsBehindLock D.shown O.Contents (on_words O.machine) N.table N.base N.start
            N.since result.0 }
        ensures shipped { HasShipped O.Contents W.shown N.base N.ships result.1
            (plan_of result.0.view).history }
    {
        let Held {
            apart: _,
            core,
            awaited: _,
            shipper,
            of: _,
        } = self;
        (core, shipper)
    }
}
