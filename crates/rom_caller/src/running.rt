//! Callers on a heap that is opened, until it is closed.
ghost use Rattle.std.specs.Prelude.{◌≡◌, ◌*◌, ℕ, List, IsTrue, length};
ghost use Rattle.std.specs.List.{AllByRecursion};
ghost use Rattle.rom_model.specs.Leaving.{IsClosed};
ghost use Rattle.rom_model.specs.Machine.{on_words};
ghost use Rattle.rom_rule.specs.Views.{base_of};
ghost use Rattle.rom_store.specs.Callers.{IsNewCaller};
ghost use Rattle.rom_store.specs.Closing.{IsClosedFrom};
ghost use Rattle.rom_store.specs.Indexed.{Indexed};
ghost use Rattle.rom_store.specs.Moments.{LastsFor};
ghost use Rattle.rom_store.specs.Sessions.{EachStory};
ghost use Rattle.rom_store.specs.Start.{device_start};
ghost use Rattle.rom_caller.specs.Worked.{AreDone, IsRunOn};
ghost use Rattle.rom_caller.specs.Working.{HasRooms};

use crate::job::{Room, work_jobs};
use crate::rooms::{Rooms, deal, gather};
use crate::work::Work;
use rom_device::Device;
use rom_model::Object;
use rom_store::{Closed, Label, Opening};
use std::marker::Brand;
use std::sync::Wait;
use std::thread::Threads;

/// What callers gave back, in the order of their indices, and the heap that was closed behind them.
#[derive(Drop)]
pub struct Ran<D: Device, O: Object, T> {
    pub results: Vec<T>,
    pub closed: Closed<D, O>,
}

// All that follows the opening, with a label.
fn run_as<
    D: Device + Send,
    O: Object + Send + Sync,
    N: Label + Send + Sync,
    W: Work<O, R> + Sync,
    R: Threads + Wait + Sync,
>(rt: &R, opening: Opening<D, O>, rooms: Rooms<W::Out>, many: usize, work: &W) -> Ran<D, O, W::Out>
where
    O::Call: Send + Sync,
    O::Query: Send + Sync,
    O::Reply: Send + Sync,
    O::Answer: Send + Sync,
    W::Out: Send,
    requires table { N.table ≡ opening.table_id }
    requires base { N.base ≡ base_of opening.key }
    requires started { N.start ≡ device_start D.shown opening.device }
    requires since { IsTrue D.shown.tells_images → (t : ℕ) (i : List ℕ) →
        (N.since t i → D.shown.left_since opening.device t i)
        × (D.shown.left_since opening.device t i → N.since t i) }
    requires opened { (s : O.State) × (k : ℕ) × O.Contents N.base.order N.base.image s k }
    requires many { (length opening.passes ≡ many) × (N.base.callers ≡ many) }
    requires new { Indexed (IsNewCaller O.Contents N.table N.base) opening.passes }
    requires rooms { HasRooms many rooms.jobs rooms.passes rooms.results }
    ensures ended { IsClosedFrom D.shown O.machine O.Contents N.base N.start N.since result.closed }
    ensures alone { EachStory O.machine O.Contents result.closed.session (λ story.
        IsClosed O.machine story many) }
    ensures done { AreDone D.shown O.machine O.Contents (W.Did work.now) many result.results.items
        result.closed.session }
    ensures lasts { let closed = result.closed in EachStory O.machine O.Contents closed.session (λ story.
        AllByRecursion (LastsFor D.shown O.Contents (on_words O.machine) story closed.device)
        closed.session.callers) }
{
    let Rooms {
        mut jobs,
        passes: mut back,
        mut results,
    } = rooms;
    let (store, passes) = opening.start::<N>();
    deal::<O, N, W::Out>(passes, &mut jobs);
    let room = Room {
        store: &store,
        work,
    };
    work_jobs(rt, &room, &mut jobs);
    gather::<O, N, W, R>(work, jobs, &mut back, &mut results);
    let closed = store.close(rt, back);
    Ran { results, closed }
}

/// Has so many callers work on an opened heap, which is closed then. It picks the label that tells what the
/// store was started on.
#[inline(never)]
pub(crate) fn run_on<
    D: Device + Send,
    O: Object + Send + Sync,
    W: Work<O, R> + Sync,
    R: Threads + Wait + Sync,
>(rt: &R, opening: Opening<D, O>, rooms: Rooms<W::Out>, many: usize, work: &W) -> Ran<D, O, W::Out>
where
    O::Call: Send + Sync,
    O::Query: Send + Sync,
    O::Reply: Send + Sync,
    O::Answer: Send + Sync,
    W::Out: Send,
    requires opened { let b = base_of opening.key in
        (s : O.State) × (k : ℕ) × O.Contents b.order b.image s k }
    requires many { (length opening.passes ≡ many) × ((base_of opening.key).callers ≡ many) }
    requires new { Indexed (IsNewCaller O.Contents opening.table_id (base_of opening.key))
        opening.passes }
    requires rooms { HasRooms many rooms.jobs rooms.passes rooms.results }
    ensures { IsRunOn D.shown O.machine O.Contents (W.Did work.now) many result.results.items
        (base_of opening.key) opening.device result.closed }
{
    run_as::<D, O, Brand, W, R>(rt, opening, rooms, many, work)
}
