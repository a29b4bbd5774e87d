//! Scripts on an opened heap, one caller each, in threads, and its closing.
ghost use Rattle.std.specs.Prelude.{◌≡◌, ℕ, List, map, IsTrue};
ghost use Rattle.rom_model.specs.Lawful.{IsLawful};
ghost use Rattle.rom_rule.specs.Views.{base_of};
ghost use Rattle.rom_store.specs.Closing.{IsClosedFrom};
ghost use Rattle.rom_store.specs.Playing.{CanPlay, IsForGood, IsPlayed};
ghost use Rattle.rom_store.specs.Sessions.{EachStory};
ghost use Rattle.rom_store.specs.Start.{device_start};

use crate::closed::Closed;
use crate::label::Label;
use crate::opening::Opening;
use crate::rooms::{Rooms, deal, gather};
use crate::work::{Room, work_jobs};
use rom_combine::Gate;
use rom_device::Device;
use rom_lines::{Results, Script};
use rom_model::Object;
use std::marker::Brand;
use std::sync::Wait;
use std::thread::Threads;

/// What the lines of all scripts were told, in their order, and the store that was closed.
#[derive(Drop)]
pub struct Played<D: Device, O: Object> {
    pub results: Vec<Results<O>>,
    pub closed: Closed<D, O>,
}

// All that follows the opening, with a label.
fn play_as<
    D: Device + Send,
    O: Object + Send + Sync,
    N: Label + Send + Sync,
    R: Threads + Wait + Sync,
    G: Gate + Sync,
>(rt: &R, opening: Opening<D, O>, rooms: Rooms<O>, scripts: &[Script<O>], gate: &G) -> Played<D, O>
where
    O::Call: Send + Sync,
    O::Query: Send + Sync,
    O::Reply: Send + Sync,
    O::Answer: Send + Sync,
    requires table { N.table ≡ opening.table_id }
    requires base { N.base ≡ base_of opening.key }
    requires started { N.start ≡ device_start D.shown opening.device }
    requires since { IsTrue D.shown.tells_images → (t : ℕ) (i : List ℕ) →
        (N.since t i → D.shown.left_since opening.device t i)
        × (D.shown.left_since opening.device t i → N.since t i) }
    requires ready { CanPlay O.Contents O.machine.call_words N.table N.base opening.passes
        scripts.now rooms.results rooms.jobs }
    ensures ended { IsClosedFrom D.shown O.machine O.Contents N.base N.start N.since result.closed }
    ensures lawful { EachStory O.machine O.Contents result.closed.session (λ story.
        IsLawful O.machine story (map (λ v. v.items) scripts.now)
        (map (λ v. v.items) result.results.items)) }
    ensures lasts { EachStory O.machine O.Contents result.closed.session (λ story.
        IsForGood D.shown O.machine O.Contents scripts.now result.results.items
        result.closed.session.callers story result.closed.device) }
{
    let Rooms {
        mut results,
        mut jobs,
    } = rooms;
    let (store, mut passes) = opening.start::<N>();
    deal::<O, N>(scripts, &mut passes, &mut results, &mut jobs);
    let room = Room {
        store: &store,
        scripts,
        gate,
    };
    work_jobs(rt, &room, &mut jobs);
    gather::<O, N>(scripts, &mut jobs, &mut passes, &mut results);
    let closed = store.close(rt, passes);
    Played { results, closed }
}

/// The scripts on an opened heap, which is closed then. It picks the label that tells what the store
/// was started on.
#[inline(never)]
pub(crate) fn play_on<
    D: Device + Send,
    O: Object + Send + Sync,
    R: Threads + Wait + Sync,
    G: Gate + Sync,
>(rt: &R, opening: Opening<D, O>, rooms: Rooms<O>, scripts: &[Script<O>], gate: &G) -> Played<D, O>
where
    O::Call: Send + Sync,
    O::Query: Send + Sync,
    O::Reply: Send + Sync,
    O::Answer: Send + Sync,
    requires ready { CanPlay O.Contents O.machine.call_words opening.table_id
        (base_of opening.key) opening.passes scripts.now rooms.results rooms.jobs }
    ensures played { IsPlayed D.shown O.machine O.Contents scripts.now result.results.items
        (base_of opening.key) opening.device result.closed }
{
    play_as::<D, O, Brand, R, G>(rt, opening, rooms, scripts, gate)
}
