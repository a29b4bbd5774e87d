//! How a store is closed.
ghost use Rattle.std.specs.Prelude.{◌≡◌, ◌++◌, length, map};
ghost use Rattle.std.specs.List.{AllByRecursion};
ghost use Rattle.rom_model.specs.Leaving.{IsClosed, IsKept};
ghost use Rattle.rom_model.specs.Machine.{on_words};
ghost use Rattle.rom_model.specs.VecSpace.{words_of_space};
ghost use Rattle.rom_lr.specs.Seats.{IsSameWriter, IsWriterOf, opened_with, steps_of, writer_view};
ghost use Rattle.rom_rule.specs.Views.{plan_of, records_of};
ghost use Rattle.rom_store.specs.Callers.{IsCallerOf, IsNumberedCaller};
ghost use Rattle.rom_store.specs.Closing.{IsClosedFrom, joined_of, kept_in};
ghost use Rattle.rom_store.specs.Held.{HasShipped, IsBehindLock};
ghost use Rattle.rom_store.specs.Indexed.{Indexed};
ghost use Rattle.rom_store.specs.Moments.{LastsFor};
ghost use Rattle.rom_store.specs.Sessions.{EachStory};

use crate::begun::Begun;
use crate::closed::Closed;
use crate::label::Label;
use crate::pass::Pass;
use crate::store::Store;
use rom_combine::{Core, NoShipper, Shipper};
use rom_device::Device;
use rom_lr::{Shared, WriterSeat};
use rom_model::{COUNT, Object};
use std::sync::Wait;

// The writer keeps what each of these callers knew, in their order.
fn take_in_all<O: Object>(shared: &Shared<O>, writer: &mut WriterSeat, passes: Vec<Pass>)
    requires of { IsWriterOf shared.now writer.old }
    requires passes { Indexed (λ _ p. IsCallerOf O.Contents shared.now.table.shared.table_id
        (opened_with shared.now) p) passes.items }
    ensures same { IsSameWriter writer.old writer.new }
    ensures joined { let v = writer_view writer.old in writer_view writer.new ≡ record v {
      joined = v.joined ++ joined_of passes.items;
      steps = steps_of writer.new;
    } }
{
    for pass in passes {
        let Pass { seat } = pass;
        shared.take_in(writer, seat);
    }
}

/// The session of a core whose callers are done. It takes their passes in.
pub(crate) fn end_session<D: Device, O: Object, N: Label>(
    core: Core<D, O>,
    shared: Shared<O>,
    begun: Begun,
    passes: Vec<Pass>,
) -> Closed<D, O>
    requires held { IsBehindLock D.shown O.Contents (on_words O.machine) N.table N.base N.start
        N.since core }
    requires named { shared.table.shared.table_id ≡ N.table }
    requires based { opened_with shared ≡ N.base }
    requires ordered { begun.order ≡ N.base.order }
    requires imaged { words_of_space begun.image.value ≡ N.base.image }
    requires counted { begun.faults ≡ N.base.faults }
    requires passes { Indexed (IsNumberedCaller O.Contents N.table N.base) passes.items }
    requires all { length passes.items ≡ N.base.callers }
    // The history and the records are those that the core knew.
    ensures history { result.session.history ≡ (plan_of core.view).history }
    ensures records { result.session.records ≡ records_of (plan_of core.view) }
    // The others are as of `close`.
    ensures ended { IsClosedFrom D.shown O.machine O.Contents N.base N.start N.since result }
    ensures closed { EachStory O.machine O.Contents result.session (λ story.
        IsClosed O.machine story (length passes.items)) }
    ensures callers { result.session.callers ≡ joined_of passes.items }
    ensures kept { EachStory O.machine O.Contents result.session (λ story.
        Indexed (λ _ v. IsKept O.machine story v) (map kept_in passes.items)) }
    ensures lasts { EachStory O.machine O.Contents result.session (λ story. AllByRecursion
        (LastsFor D.shown O.Contents (on_words O.machine) story result.device)
        result.session.callers) }
{
    let (twin, mut seat) = core.into_parts();
    // What a caller knew and what the records told it must stand in one view, the writer's. So all
    // callers are taken in first, and one step reviews them.
    take_in_all(&shared, &mut seat, passes);
    shared.review(&mut seat);
    let count = shared.load_main(&mut seat, COUNT);
    Closed {
        twin,
        shared,
        seat,
        begun,
        count,
    }
}

impl<D: Device, O: Object, N: Label, W: Shipper> Store<D, O, N, W> {
    /// Takes the passes back, which are those of this store in the order of their numbers, and ends the
    /// session. A note that is still out is of no use afterwards. It takes no memory. It does not wait, but
    /// takes `rt` as a closing that had to wait would. It gives the shipper back.
    pub fn close_shipping<R: Wait>(self, _rt: &R, passes: Vec<Pass>) -> (Closed<D, O>, W)
        requires passes { Indexed (IsNumberedCaller O.Contents N.table N.base) passes.items }
        requires all { length passes.items ≡ N.base.callers }
        ensures ended { IsClosedFrom D.shown O.machine O.Contents N.base N.start N.since result.0 }
        // The history is the one that the records make, and they have no updates but those of the callers.
        ensures closed { EachStory O.machine O.Contents result.0.session (λ story.
            IsClosed O.machine story (length passes.items)) }
        // The session has what each of these callers keeps, and what it had learnt of others.
        ensures callers { result.0.session.callers ≡ joined_of passes.items }
        // Of each caller: what it has seen begins the history, each of its fronts is the count at the opening
        // or after a pass, and it was told of its updates what the records tell.
        ensures kept { EachStory O.machine O.Contents result.0.session (λ story.
            Indexed (λ _ v. IsKept O.machine story v) (map kept_in passes.items)) }
        // All that a caller has seen was committed at the moments that it knows, and each image that a stop has
        // left since the moment of an entry holds the history up to this entry.
        ensures lasts { EachStory O.machine O.Contents result.0.session (λ story. AllByRecursion
            (LastsFor D.shown O.Contents (on_words O.machine) story result.0.device)
            result.0.session.callers) }
        // The shipper was handed all of the session's history, and nothing else.
        ensures shipped { HasShipped O.Contents W.shown N.base N.ships result.1
            result.0.session.history }
    {
        let Store {
            shared,
            pace: _,
            apart: _,
            held,
            begun,
        } = self;
        let (core, shipper) = held.into_inner().into_parts();
        let closed = end_session::<D, O, N>(core, shared, begun, passes);
        (closed, shipper)
    }
}

impl<D: Device, O: Object, N: Label> Store<D, O, N> {
    /// As [`close_shipping`](Store::close_shipping), of a store that ships nothing.
    pub fn close<R: Wait>(self, rt: &R, passes: Vec<Pass>) -> Closed<D, O>
        requires passes { Indexed (IsNumberedCaller O.Contents N.table N.base) passes.items }
        requires all { length passes.items ≡ N.base.callers }
        ensures ended { IsClosedFrom D.shown O.machine O.Contents N.base N.start N.since result }
        // The history is the one that the records make, and they have no updates but those of the callers.
        ensures closed { EachStory O.machine O.Contents result.session (λ story.
            IsClosed O.machine story (length passes.items)) }
        // The session has what each of these callers keeps, and what it had learnt of others.
        ensures callers { result.session.callers ≡ joined_of passes.items }
        // Of each caller: what it has seen begins the history, each of its fronts is the count at the opening
        // or after a pass, and it was told of its updates what the records tell.
        ensures kept { EachStory O.machine O.Contents result.session (λ story.
            Indexed (λ _ v. IsKept O.machine story v) (map kept_in passes.items)) }
        // All that a caller has seen was committed at the moments that it knows, and each image that a stop has
        // left since the moment of an entry holds the history up to this entry.
        ensures lasts { EachStory O.machine O.Contents result.session (λ story. AllByRecursion
            (LastsFor D.shown O.Contents (on_words O.machine) story result.device)
            result.session.callers) }
    {
        let (closed, NoShipper) = self.close_shipping(rt, passes);
        closed
    }
}
