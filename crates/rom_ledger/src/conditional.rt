//! Updates that depend on what is there.
ghost use Rattle.rom_model.specs.Blocks.{IsOrder};
ghost use Rattle.rom_model.specs.Region.{IsWellFormed};
ghost use Rattle.rom_model.specs.Space.{HasRoom};
ghost use Rattle.rom_heap.specs.Updates.{HasStamp};
ghost use Rattle.rom_ledger.specs.Does.{DoesConditional};
ghost use Rattle.rom_ledger.specs.declared.call.Conditional.TheVariants as call;

use crate::call::{Conditional, LedgerTold};
use rom_map::{Put, map_get, map_put};
use rom_model::{SingleReply, Space};
use rom_queue::{queue_front, queue_pop};

/// Adds an amount to the value of a key that has one.
fn inc<M: Space>(space: &mut M, order: u32, key: u64, amount: u64, stamp: u64) -> LedgerTold
    requires order { IsOrder order }
    requires region { HasStamp order (M.shown.image space.old) stamp }
    requires room { HasRoom M.shown 31 space.old }
    ensures does { DoesConditional M.shown order (call.Inc key amount) result space.old space.new }
{
    let Some(was) = map_get(space, order, key) else {
        return LedgerTold::Heap(SingleReply::Absent);
    };
    let Some(sum) = was.checked_add(amount) else {
        return LedgerTold::Heap(SingleReply::Over);
    };
    map_put(space, order, key, sum, stamp);
    LedgerTold::Heap(SingleReply::Was(was))
}

/// Gives a value to a key that has none.
fn make<M: Space>(space: &mut M, order: u32, key: u64, value: u64, stamp: u64) -> LedgerTold
    requires order { IsOrder order }
    requires region { HasStamp order (M.shown.image space.old) stamp }
    requires room { HasRoom M.shown 31 space.old }
    ensures does { DoesConditional M.shown order (call.New key value) result space.old space.new }
{
    if map_get(space, order, key).is_some() {
        return LedgerTold::Heap(SingleReply::Present);
    }
    match map_put(space, order, key, value, stamp) {
        Put::Full => LedgerTold::Heap(SingleReply::Full),
        Put::New | Put::Was(_) => LedgerTold::Heap(SingleReply::Added),
    }
}

/// Gives another value to a key that has the value named.
fn cas<M: Space>(
    space: &mut M,
    order: u32,
    key: u64,
    was: u64,
    value: u64,
    stamp: u64,
) -> LedgerTold
    requires order { IsOrder order }
    requires region { HasStamp order (M.shown.image space.old) stamp }
    requires room { HasRoom M.shown 31 space.old }
    ensures does { DoesConditional M.shown order (call.Cas key was value) result space.old space.new }
{
    let Some(now) = map_get(space, order, key) else {
        return LedgerTold::Heap(SingleReply::Absent);
    };
    if now != was {
        return LedgerTold::Other(now);
    }
    map_put(space, order, key, value, stamp);
    LedgerTold::Heap(SingleReply::Was(now))
}

/// Takes the queue's first number where it is this one.
fn deq_if<M: Space>(space: &mut M, order: u32, value: u64) -> LedgerTold
    requires order { IsOrder order }
    requires region { IsWellFormed order (M.shown.image space.old) }
    requires room { HasRoom M.shown 31 space.old }
    ensures does { DoesConditional M.shown order (call.DeqIf value) result space.old space.new }
{
    let Some(first) = queue_front(space, order) else {
        return LedgerTold::Heap(SingleReply::Empty);
    };
    if first != value {
        return LedgerTold::Other(first);
    }
    queue_pop(space, order);
    LedgerTold::Heap(SingleReply::Head(first))
}

/// Does a conditional update that is counted already. What it writes of the map has this stamp.
pub(crate) fn update_conditional<M: Space>(
    space: &mut M,
    order: u32,
    call: &Conditional,
    stamp: u64,
) -> LedgerTold
    requires order { IsOrder order }
    requires region { HasStamp order (M.shown.image space.old) stamp }
    requires room { HasRoom M.shown 31 space.old }
    ensures does { DoesConditional M.shown order call.now result space.old space.new }
{
    match *call {
        Conditional::Inc(key, amount) => inc(space, order, key, amount, stamp),
        Conditional::New(key, value) => make(space, order, key, value, stamp),
        Conditional::Cas(key, was, value) => cas(space, order, key, was, value, stamp),
        Conditional::DeqIf(value) => deq_if(space, order, value),
    }
}
