//! One answer.
ghost use Rattle.std.specs.Prelude.{◌≡◌, ℕ};
ghost use Rattle.rom_model.specs.Space.{Looks};
ghost use Rattle.rom_model.specs.State.{State, tell};
ghost use Rattle.rom_model.specs.Walks.{cost};
ghost use Rattle.rom_model.specs.Blocks.{IsOrder};
ghost use Rattle.rom_model.specs.Region.{IsWellFormed, Contents};
ghost use Rattle.rom_model.specs.declared.call.Query.TheVariants.{Len};

use rom_map::{map_fresh, map_get, map_len, map_total};
use rom_model::{Answer, Look, Query};
use rom_queue::{queue_front, queue_len};
use rom_set::{set_has, set_len};

/// How many elements each structure has.
fn sizes<M: Look>(space: &mut M, order: u32) -> Answer
    requires order { IsOrder order }
    requires region { IsWellFormed order (M.shown.image space.old) }
    ensures told { (s : State) (k : ℕ) → Contents order (M.shown.image space.old) s k
        → result ≡ tell s Len }
    ensures looks { Looks M.shown 3 space.old space.new }
{
    Answer::Sizes {
        queue: queue_len(space, order),
        set: set_len(space, order),
        map: map_len(space, order),
    }
}

/// Answers a query. Nothing is stored.
#[inline(always)]
pub(crate) fn answer<M: Look>(space: &mut M, order: u32, query: &Query) -> Answer
    requires order { IsOrder order }
    requires region { IsWellFormed order (M.shown.image space.old) }
    ensures told { (s : State) (k : ℕ) → Contents order (M.shown.image space.old) s k
        → result ≡ tell s query.now }
    ensures looks { (s : State) (k : ℕ) → Contents order (M.shown.image space.old) s k
        → Looks M.shown (cost order s query.now) space.old space.new }
{
    match *query {
        Query::Has(key) => {
            if set_has(space, order, key) {
                Answer::Yes
            } else {
                Answer::No
            }
        }
        Query::Get(key) => match map_get(space, order, key) {
            Some(value) => Answer::Value(value),
            None => Answer::Missing,
        },
        Query::Peek => match queue_front(space, order) {
            Some(value) => Answer::Head(value),
            None => Answer::Empty,
        },
        Query::Len => sizes(space, order),
        Query::Total => Answer::Total(map_total(space, order)),
        Query::Fresh(place) => Answer::Fresh(map_fresh(space, order, place)),
    }
}
