//! One update, and one answer.
ghost use Rattle.std.specs.Prelude.{◌≡◌, ◌+◌, ◌<◌, ℕ, length, slice_index};
ghost use Rattle.rom_model.specs.Space.{ChangesOnly, Counts, HasRoom, Looks, Stores};
ghost use Rattle.rom_model.specs.History.{LAST_COUNT};
ghost use Rattle.rom_model.specs.Blocks.{IsOrder};
ghost use Rattle.rom_order_region.specs.State.{Pairs, index_step, index_tell, index_cost};
ghost use Rattle.rom_order_region.specs.Region.{IndexContents, IsIndexWellFormed};

use crate::call::{OrderAnswer, OrderCall, OrderQuery, OrderReply};
use crate::ordered::{order_del, order_from, order_get, order_put, order_range};
use rom_model::{COUNT, Look, Space};

/// Counts one update more.
fn raise_count<M: Space>(space: &mut M)
    requires long { COUNT < length (M.shown.image space.old) }
    requires within { slice_index (M.shown.image space.old) COUNT < LAST_COUNT }
    requires room { HasRoom M.shown 1 space.old }
    ensures raised { slice_index (M.shown.image space.new) COUNT
        ≡ slice_index (M.shown.image space.old) COUNT + 1 }
    ensures others { ChangesOnly COUNT 1 (M.shown.image space.old) (M.shown.image space.new) }
    ensures counts { Counts M.shown 1 1 space.old space.new }
{
    let count = space.load(COUNT);
    space.store(COUNT, count + 1);
}

/// Does an update that is counted already.
fn update<M: Space>(space: &mut M, order: u32, call: &OrderCall) -> OrderReply
    requires order { IsOrder order }
    requires region { IsIndexWellFormed order (M.shown.image space.old) }
    requires room { HasRoom M.shown 255 space.old }
    ensures done { (s : Pairs) (k j : ℕ) → IndexContents order (M.shown.image space.old) s k
        → let after = index_step order s j call.now in
        (result ≡ after.1) × IndexContents order (M.shown.image space.new) after.0 k }
    ensures stores { Stores M.shown 255 space.old space.new }
{
    match *call {
        OrderCall::Put(key, value) => order_put(space, order, key, value),
        OrderCall::Del(key) => order_del(space, order, key),
    }
}

/// Does an update. The raised count is stored first, also where nothing else changes.
pub fn apply_order<M: Space>(space: &mut M, order: u32, call: &OrderCall) -> OrderReply
    requires order { IsOrder order }
    requires region { (s : Pairs) × (k : ℕ) × IndexContents order (M.shown.image space.old) s k
        × (k < LAST_COUNT) }
    requires room { HasRoom M.shown 256 space.old }
    // The reply is the step's. The region then stands for the map after it, and counts one update more.
    ensures done { (s : Pairs) (k : ℕ) → IndexContents order (M.shown.image space.old) s k
        → let after = index_step order s k call.now in
        (result ≡ after.1) × IndexContents order (M.shown.image space.new) after.0 (k + 1) }
    ensures stores { Stores M.shown 256 space.old space.new }
{
    raise_count(space);
    update(space, order, call)
}

/// Answers a query. Nothing is stored.
pub fn answer_order<M: Look>(space: &mut M, order: u32, query: &OrderQuery) -> OrderAnswer
    requires order { IsOrder order }
    requires region { IsIndexWellFormed order (M.shown.image space.old) }
    // The answer is what the query is told of the map that the region stands for.
    ensures told { (s : Pairs) (k : ℕ) → IndexContents order (M.shown.image space.old) s k
        → result ≡ index_tell s query.now }
    // No word changes, and at most `index_cost` loads are made, where they are counted.
    ensures looks { (s : Pairs) (k : ℕ) → IndexContents order (M.shown.image space.old) s k
        → Looks M.shown (index_cost order s query.now) space.old space.new }
{
    match *query {
        OrderQuery::Get(key) => order_get(space, order, key),
        OrderQuery::From(key) => order_from(space, order, key),
        OrderQuery::Range(low, high) => order_range(space, order, low, high),
    }
}
