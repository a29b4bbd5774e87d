//! A store whose callers all work in one thread: it does batches of their making, without a lock.
ghost use Rattle.std.specs.Prelude.{◌≡◌, ℕ, ◌+◌, ◌<◌, ◌≤◌, IsSome, length};
ghost use Rattle.std.specs.List.{AllByRecursion};
ghost use Rattle.rom_lr.specs.Seats.{IsPosted, IsSameSeat, IsSeatOf, opened_with, view};
ghost use Rattle.rom_model.specs.History.{LAST_COUNT};
ghost use Rattle.rom_model.specs.Leaving.{IsClosed, IsKept};
ghost use Rattle.rom_model.specs.Machine.{on_words};
ghost use Rattle.rom_model.specs.VecSpace.{words_of_space};
ghost use Rattle.rom_rule.specs.Views.{plan_of, records_of};
ghost use Rattle.rom_store.specs.Callers.{IsNewCaller};
ghost use Rattle.rom_store.specs.Closing.{IsClosedFrom};
ghost use Rattle.rom_store.specs.Held.{IsBehindLock};
ghost use Rattle.rom_store.specs.Indexed.{Indexed};
ghost use Rattle.rom_store.specs.Lone.{HasDoneCalls, HaveWorked, IsLone, MayPost};
ghost use Rattle.rom_store.specs.Moments.{LastsFor};
ghost use Rattle.rom_store.specs.Sessions.{EachStory};
ghost use Rattle.rom_store.specs.Updating.{HasBeenTold};

use crate::begun::Begun;
use crate::closed::Closed;
use crate::closing::end_session;
use crate::held::pass_behind;
use crate::label::Label;
use crate::pass::Pass;
use rom_announce::{answered, post_words};
use rom_combine::{Core, Gate, Passed, Replies};
use rom_device::Device;
use rom_lr::{Seat, Shared};
use rom_model::{Args, Object};
use std::marker::{Model, PhantomData};
use std::sync::Wait;

/// A heap of which one thread has all callers. It does calls in batches: those of one batch share the syncs of
/// one pass, and have places one behind another, in the order in which they were handed in.
#[derive(Drop)]
pub struct Lone<D: Device, O: Object, N: Label> {
    shared: Shared<O>,
    core: Core<D, O>,
    passes: Vec<Pass>,
    begun: Begun,
    // How many batches were asked for.
    turns: u64,
    of: PhantomData<N>,
}

impl<D: Device, O: Object, N: Label> Model for Lone<D, O, N> {
    ghost use Rattle.std.specs.Prelude.{length};
    ghost use Rattle.rom_lr.specs.Seats.{opened_with};
    ghost use Rattle.rom_model.specs.Machine.{on_words};
    ghost use Rattle.rom_store.specs.Lone.{IsLone, LoneSeen};

    ghost Value = { LoneSeen D };

    ghost view = { λ l. record { core = l.core; many = length l.passes.items; turns = l.turns } };

    ghost invariant = { λ l. IsLone D.shown O.Contents (on_words O.machine) N.table N.base N.start
        N.since l.shared.table.shared.table_id (opened_with l.shared) l.begun l.core l.passes.items
        l.turns };
}

/// Until the posted call is answered, which the pass that found it has done.
fn await_told<O: Object, R: Wait>(rt: &R, shared: &Shared<O>, seat: &mut Seat)
    requires of { IsSeatOf shared.now seat.old }
    requires posted { IsPosted seat.old }
    ensures same { IsSameSeat seat.old seat.new }
    ensures told { HasBeenTold O.Contents (on_words O.machine) (view seat.old) (view seat.new) }
{
    for _ in rt.forever() {
        if answered(shared, seat) {
            break;
        }
    }
}

/// Runs one pass of these calls, which their callers have posted.
fn do_pass<D: Device, O: Object, N: Label, R: Wait, G: Gate>(
    rt: &R,
    shared: &Shared<O>,
    core: &mut Core<D, O>,
    calls: &[Args],
    replies: &mut Replies,
    gate: &G,
) -> Passed
    requires table { shared.now.table.shared.table_id ≡ N.table }
    requires base { opened_with shared.now ≡ N.base }
    requires held { IsBehindLock D.shown O.Contents (on_words O.machine) N.table N.base N.start
        N.since core.old }
    requires some { 0 < length calls.now }
    requires calls { AllByRecursion (λ words. IsSome (O.machine.words_call words)) calls.now }
    ensures held { IsBehindLock D.shown O.Contents (on_words O.machine) N.table N.base N.start
        N.since core.new }
    ensures passed { HasDoneCalls D.shown O.Contents (on_words O.machine) core.old core.new
        calls.now replies.new result }
{
    pass_behind::<D, O, N, Replies, R, G>(rt, shared, core, replies, gate, calls)
}

/// Posts the calls that are left, one for each of these callers in turn, and then runs one pass of all calls.
/// Each call that was posted is answered then.
fn do_posted<D: Device, O: Object, N: Label, R: Wait, G: Gate>(
    rt: &R,
    shared: &Shared<O>,
    core: &mut Core<D, O>,
    passes: &mut [Pass],
    left: &[Args],
    calls: &[Args],
    replies: &mut Replies,
    gate: &G,
) -> Passed
    requires table { shared.now.table.shared.table_id ≡ N.table }
    requires base { opened_with shared.now ≡ N.base }
    requires held { IsBehindLock D.shown O.Contents (on_words O.machine) N.table N.base N.start
        N.since core.old }
    requires callers { MayPost O.Contents N.table N.base LAST_COUNT passes.old }
    requires enough { length left.now ≤ length passes.old }
    requires left { AllByRecursion (λ words. IsSome (O.machine.words_call words)) left.now }
    requires calls { AllByRecursion (λ words. IsSome (O.machine.words_call words)) calls.now }
    requires some { 0 < length calls.now }
    ensures held { IsBehindLock D.shown O.Contents (on_words O.machine) N.table N.base N.start
        N.since core.new }
    ensures passed { HasDoneCalls D.shown O.Contents (on_words O.machine) core.old core.new
        calls.now replies.new result }
    ensures callers { HaveWorked O.Contents N.table N.base passes.old passes.new }
{
    // Each call of this function has one pass in its hands, so that a pass is whole again when it returns.
    if let Some((call, others)) = left.split_first() {
        if let Some((pass, more)) = passes.split_first_mut() {
            post_words(shared, &mut pass.seat, call.as_slice());
            let passed = do_posted::<D, O, N, R, G>(
                rt, shared, core, more, others, calls, replies, gate,
            );
            await_told(rt, shared, &mut pass.seat);
            return passed;
        }
    }
    do_pass::<D, O, N, R, G>(rt, shared, core, calls, replies, gate)
}

impl<D: Device, O: Object, N: Label> Lone<D, O, N> {
    /// The store of a core, in which nothing is done yet.
    pub(crate) fn of(core: Core<D, O>, shared: Shared<O>, passes: Vec<Pass>, begun: Begun) -> Self
        requires held { IsBehindLock D.shown O.Contents (on_words O.machine) N.table N.base N.start
            N.since core }
        requires named { shared.table.shared.table_id ≡ N.table }
        requires based { opened_with shared ≡ N.base }
        requires ordered { begun.order ≡ N.base.order }
        requires imaged { words_of_space begun.image.value ≡ N.base.image }
        requires counted { begun.faults ≡ N.base.faults }
        requires passes { Indexed (IsNewCaller O.Contents N.table N.base) passes.items }
        requires all { length passes.items ≡ N.base.callers }
        ensures is { result ≡ record { core = core; many = N.base.callers; turns = 0 } }
    {
        Lone {
            shared,
            core,
            passes,
            begun,
            turns: 0,
            of: PhantomData,
        }
    }

    /// The count of updates in the heap.
    pub fn count(&mut self) -> u64
        // It is that of the opening, and one more for each entry of the history.
        ensures count { (s : O.State) (k : ℕ) → O.Contents N.base.order N.base.image s k →
            result ≡ k + length (plan_of self.old.core.view).history }
        ensures within { result ≤ LAST_COUNT }
        ensures history { (plan_of self.new.core.view).history
            ≡ (plan_of self.old.core.view).history }
        ensures records { records_of (plan_of self.new.core.view)
            ≡ records_of (plan_of self.old.core.view) }
        ensures base { self.new.core.view.base ≡ self.old.core.view.base }
        ensures faults { D.shown.faults self.new.core.twin.device
            ≡ D.shown.faults self.old.core.twin.device }
        ensures many { self.new.many ≡ self.old.many }
        ensures turns { self.new.turns ≡ self.old.turns }
    {
        self.core.count(&self.shared)
    }

    /// How many batches were asked for.
    pub fn turns(&self) -> u64
        ensures { result ≡ self.now.turns }
    {
        self.turns
    }

    /// Does these calls as one batch, at most one for each caller, and keeps their replies. All are done, or none:
    /// but where the count comes to its limit, the first ones are. It takes no memory. It waits as a pass
    /// does.
    pub fn update_all<R: Wait, G: Gate>(
        &mut self,
        rt: &R,
        calls: &[Args],
        replies: &mut Replies,
        gate: &G,
    ) -> Passed
        requires some { 0 < length calls.now }
        requires few { length calls.now ≤ self.old.many }
        requires calls { AllByRecursion (λ words. IsSome (O.machine.words_call words)) calls.now }
        requires turns { self.old.turns < LAST_COUNT }
        // One pass found these calls, in their order, and no others.
        ensures passed { HasDoneCalls D.shown O.Contents (on_words O.machine) self.old.core
            self.new.core calls.now replies.new result }
        ensures base { self.new.core.view.base ≡ self.old.core.view.base }
        ensures many { self.new.many ≡ self.old.many }
        ensures turns { self.new.turns ≡ self.old.turns + 1 }
    {
        let passed = do_posted::<D, O, N, R, G>(
            rt,
            &self.shared,
            &mut self.core,
            self.passes.as_mut_slice(),
            calls,
            calls,
            replies,
            gate,
        );
        self.turns += 1;
        passed
    }

    /// Ends the session. It takes no memory.
    pub fn close(self) -> Closed<D, O>
        // The history and the records are those of the batches.
        ensures history { result.session.history ≡ (plan_of self.core.view).history }
        ensures records { result.session.records ≡ records_of (plan_of self.core.view) }
        ensures ended { IsClosedFrom D.shown O.machine O.Contents N.base N.start N.since result }
        // The history is the one that the records make, and they have no updates but those of the callers.
        ensures closed { EachStory O.machine O.Contents result.session (λ story.
            IsClosed O.machine story N.base.callers) }
        // All that a caller has seen was committed at the moments that it knows, and each image that a stop has
        // left since the moment of an entry holds the history up to this entry.
        ensures lasts { EachStory O.machine O.Contents result.session (λ story. AllByRecursion
            (LastsFor D.shown O.Contents (on_words O.machine) story result.device)
            result.session.callers) }
    {
        let Lone {
            shared,
            core,
            passes,
            begun,
            turns: _,
            of: _,
        } = self;
        end_session::<D, O, N>(core, shared, begun, passes)
    }
}
