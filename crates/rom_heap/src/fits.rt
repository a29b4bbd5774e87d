//! Whether the members of a group fit, found out by loads alone.
//!
//! Nothing is done here of what the members do. Of each it is known how much room those before it
//! leave, and whether its number or its key is there then: the last one before it that puts this
//! number or key in, or takes it out, tells that, and where there is none, the region does.
//!
//! So it is known before a group's first store whether the group fits, and to find it out takes no memory. A
//! group of eight makes at most 28 comparisons of members, and a walk for each member whose number or key no
//! earlier one touched.
ghost use Rattle.std.specs.Prelude.{◌≡◌, ℕ, ◌^◌, ◌<◌, not, is_some, None, false};
ghost use Rattle.std.specs.FinSet as set;
ghost use Rattle.std.specs.FinMap as map;
ghost use Rattle.rom_model.specs.State.{State, state_after, replies_to, any_full};
ghost use Rattle.rom_model.specs.Blocks.{IsOrder};
ghost use Rattle.rom_model.specs.Region.{IsWellFormed, Contents};
ghost use Rattle.rom_heap.specs.Fits as plan;

use crate::free::free_elements;
use rom_map::map_get;
use rom_model::{Look, Single};
use rom_queue::queue_len;
use rom_set::set_has;

/// The room that some updates leave.
#[derive(Clone, Copy)]
pub(crate) struct Room {
    /// How many more elements there is room for.
    pub free: u64,
    /// How many the queue has.
    pub queue: u64,
}

/// Whether the set has a number after an update, as far as that is known; `told` is what was known
/// before it.
fn set_tells(key: u64, call: &Single, told: Option<bool>) -> Option<bool>
    ensures { result ≡ plan.set_tells key call.now told }
{
    match *call {
        Single::Add(k) if key == k => Some(true),
        Single::Rem(k) if key == k => Some(false),
        _ => told,
    }
}

/// Whether the map has a key after an update, as far as that is known; `told` is what was known
/// before it.
fn map_tells(key: u64, call: &Single, told: Option<bool>) -> Option<bool>
    ensures { result ≡ plan.map_tells key call.now told }
{
    match *call {
        Single::Put(k, _) if key == k => Some(true),
        Single::Del(k) if key == k => Some(false),
        _ => told,
    }
}

/// Whether the set has a number after these updates, as far as they tell.
fn set_told(key: u64, calls: &[Single]) -> Option<bool>
    ensures { result ≡ plan.told_by (plan.set_tells key) None calls.now }
{
    let mut told = None;
    for call in calls {
        told = set_tells(key, call, told);
    }
    told
}

/// Whether the map has a key after these updates, as far as they tell.
fn map_told(key: u64, calls: &[Single]) -> Option<bool>
    ensures { result ≡ plan.told_by (plan.map_tells key) None calls.now }
{
    let mut told = None;
    for call in calls {
        told = map_tells(key, call, told);
    }
    told
}

/// Whether the set has a number after these updates, of which none is refused.
fn in_set<M: Look>(space: &mut M, order: u32, before: &[Single], key: u64) -> bool
    requires order { IsOrder order }
    requires region { IsWellFormed order (M.shown.image space.old) }
    ensures is { (s : State) (j k : ℕ) → Contents order (M.shown.image space.old) s k
        → any_full (replies_to order s j before.now) ≡ false
        → result ≡ set.contains (state_after order s j before.now).members key }
    ensures looks { plan.OnlyLooks M.shown space.old space.new }
{
    match set_told(key, before) {
        Some(told) => told,
        None => set_has(space, order, key),
    }
}

/// Whether the map has a key after these updates, of which none is refused.
fn in_map<M: Look>(space: &mut M, order: u32, before: &[Single], key: u64) -> bool
    requires order { IsOrder order }
    requires region { IsWellFormed order (M.shown.image space.old) }
    ensures is { (s : State) (j k : ℕ) → Contents order (M.shown.image space.old) s k
        → any_full (replies_to order s j before.now) ≡ false
        → result ≡ is_some (map.get (state_after order s j before.now).pairs key) }
    ensures looks { plan.OnlyLooks M.shown space.old space.new }
{
    match map_told(key, before) {
        Some(told) => told,
        None => map_get(space, order, key).is_some(),
    }
}

/// Whether the number or the key of an update is there after the updates before it, of which none
/// is refused.
fn is_there<M: Look>(space: &mut M, order: u32, before: &[Single], call: &Single) -> bool
    requires order { IsOrder order }
    requires region { IsWellFormed order (M.shown.image space.old) }
    ensures is { (s : State) (j k : ℕ) → Contents order (M.shown.image space.old) s k
        → any_full (replies_to order s j before.now) ≡ false
        → result ≡ plan.is_there (state_after order s j before.now) call.now }
    ensures looks { plan.OnlyLooks M.shown space.old space.new }
{
    match *call {
        Single::Add(key) => in_set(space, order, before, key),
        Single::Rem(key) => in_set(space, order, before, key),
        Single::Put(key, _) => in_map(space, order, before, key),
        Single::Del(key) => in_map(space, order, before, key),
        Single::Enq(_) | Single::Deq | Single::Move(_, _, _) => false,
    }
}

/// The room with one element more, where there is room for it.
fn taken(room: Room) -> Option<Room>
    ensures { result ≡ plan.taken room }
{
    if room.free == 0 {
        return None;
    }
    Some(Room {
        free: room.free - 1,
        queue: room.queue,
    })
}

/// The room with one element fewer.
fn given(room: Room) -> Room
    requires { room.free < 2 ^ 63 }
    ensures { result ≡ plan.given room }
{
    Room {
        free: room.free + 1,
        queue: room.queue,
    }
}

/// The room after an update, or `None` where it would be refused. `there` says whether its number
/// or its key is there.
fn next_room(there: bool, call: &Single, room: Room) -> Option<Room>
    requires free { room.free < 2 ^ 63 }
    requires queue { room.queue < 2 ^ 63 }
    ensures { result ≡ plan.next_room there call.now room }
{
    match *call {
        Single::Enq(_) => {
            let Room { free, queue } = taken(room)?;
            Some(Room {
                free,
                queue: queue + 1,
            })
        }
        Single::Deq if room.queue == 0 => Some(room),
        Single::Deq => {
            let Room { free, queue } = given(room);
            Some(Room {
                free,
                queue: queue - 1,
            })
        }
        Single::Add(_) | Single::Put(_, _) if there => Some(room),
        Single::Add(_) | Single::Put(_, _) => taken(room),
        Single::Rem(_) | Single::Del(_) if there => Some(given(room)),
        Single::Rem(_) | Single::Del(_) | Single::Move(_, _, _) => Some(room),
    }
}

/// Whether none of these updates is refused, taken in order. Nothing is stored.
pub(crate) fn fits<M: Look>(space: &mut M, order: u32, calls: &[Single]) -> bool
    requires order { IsOrder order }
    requires region { IsWellFormed order (M.shown.image space.old) }
    ensures is { (s : State) (j k : ℕ) → Contents order (M.shown.image space.old) s k
        → result ≡ not (any_full (replies_to order s j calls.now)) }
    ensures looks { plan.OnlyLooks M.shown space.old space.new }
{
    let mut room = Room {
        free: free_elements(space, order),
        queue: queue_len(space, order),
    };
    for (i, call) in calls.iter().enumerate() {
        let there = is_there(space, order, &calls[..i], call);
        let Some(next) = next_room(there, call, room) else {
            return false;
        };
        room = next;
    }
    true
}
