//! The calls on an ordered index.
ghost use Rattle.std.specs.Prelude.{◌≡◌, ℕ};
ghost use Rattle.std.specs.FinMap as map;
ghost use Rattle.rom_model.specs.Space.{Looks, Stores, HasRoom};
ghost use Rattle.rom_model.specs.Blocks.{IsOrder};
ghost use Rattle.rom_order_region.specs.State.{Pairs, put_pair, delete_pair, index_tell, index_cost};
ghost use Rattle.rom_order_region.specs.Region.{IndexContents, IsIndexWellFormed};
ghost use Rattle.rom_order_region.specs.declared.call.OrderQuery.TheVariants as query;

use crate::call::{OrderAnswer, OrderReply};
use crate::root::{SIZE, TOP, set_tree};
use crate::tree::{VALUE, attach, detach, fill_single, find_from, find_node, sum_between};
use rom_block::Blocks;
use rom_model::{Look, Space, store_changed};

/// The value of a key.
pub fn order_get<M: Look>(space: &mut M, order: u32, key: u64) -> OrderAnswer
    requires order { IsOrder order }
    requires region { IsIndexWellFormed order (M.shown.image space.old) }
    // The answer is the value of the key, and `Missing` exactly where the map does not have it.
    ensures told { (s : Pairs) (k : ℕ) → IndexContents order (M.shown.image space.old) s k
        → result ≡ index_tell s (query.Get key) }
    // The words stay, and at most 1 + 2h loads are counted. Here h is the greatest height that a balanced
    // tree of so many keys can have (`high`).
    ensures looks { (s : Pairs) (k : ℕ) → IndexContents order (M.shown.image space.old) s k
        → Looks M.shown (index_cost order s (query.Get key)) space.old space.new }
{
    let top = space.load(TOP);
    let node = find_node(space, order, top, key);
    if node == 0 {
        return OrderAnswer::Missing;
    }
    let value = space.load(node + VALUE);
    OrderAnswer::Value(value)
}

/// The least key that is at least this one, with its value.
pub fn order_from<M: Look>(space: &mut M, order: u32, key: u64) -> OrderAnswer
    requires order { IsOrder order }
    requires region { IsIndexWellFormed order (M.shown.image space.old) }
    // The answer is the least key that is not below this one, and `Missing` exactly where there is none.
    ensures told { (s : Pairs) (k : ℕ) → IndexContents order (M.shown.image space.old) s k
        → result ≡ index_tell s (query.From key) }
    // The words stay, and at most 2 + 2h loads are counted. Here h is the greatest height that a balanced
    // tree of so many keys can have (`high`).
    ensures looks { (s : Pairs) (k : ℕ) → IndexContents order (M.shown.image space.old) s k
        → Looks M.shown (index_cost order s (query.From key)) space.old space.new }
{
    let top = space.load(TOP);
    match find_from(space, order, top, key) {
        None => OrderAnswer::Missing,
        Some(near) => {
            let value = space.load(near.node + VALUE);
            OrderAnswer::Pair(near.key, value)
        }
    }
}

/// How many keys lie from `low` to `high`, both included, and the sum of their values.
pub fn order_range<M: Look>(space: &mut M, order: u32, low: u64, high: u64) -> OrderAnswer
    requires order { IsOrder order }
    requires region { IsIndexWellFormed order (M.shown.image space.old) }
    // The answer counts all keys of the map from `low` to `high`, and sums up their values.
    ensures told { (s : Pairs) (k : ℕ) → IndexContents order (M.shown.image space.old) s k
        → result ≡ index_tell s (query.Range low high) }
    // The words stay. With c keys in the range, at most (c + 1)(2 + 2h) loads are counted. Here h is the
    // greatest height that a balanced tree of all keys can have (`high`).
    ensures looks { (s : Pairs) (k : ℕ) → IndexContents order (M.shown.image space.old) s k
        → Looks M.shown (index_cost order s (query.Range low high)) space.old space.new }
{
    let top = space.load(TOP);
    let all = sum_between(space, order, top, low, high);
    OrderAnswer::Range {
        count: all.count,
        sum: all.sum,
    }
}

/// Gives a key a value. `Full` comes exactly where the key is new and there is no room for it.
pub fn order_put<M: Space>(space: &mut M, order: u32, key: u64, value: u64) -> OrderReply
    requires order { IsOrder order }
    requires region { IsIndexWellFormed order (M.shown.image space.old) }
    requires room { HasRoom M.shown 255 space.old }
    // `Full` comes exactly where the key is new and the map has no fewer than 2^(order - 1) keys. Then the
    // map stays. Else the key has the value, and the answer is the value before, or `NoPrior`. The count
    // stays.
    ensures done { (s : Pairs) (k : ℕ) → IndexContents order (M.shown.image space.old) s k
        → let after = put_pair order s key value (map.get s key) in
        (result ≡ after.1) × IndexContents order (M.shown.image space.new) after.0 k }
    // At most 255 stores are counted, and any number of loads.
    ensures stores { Stores M.shown 255 space.old space.new }
{
    let top = space.load(TOP);
    let node = find_node(space, order, top, key);
    if node != 0 {
        let before = space.load(node + VALUE);
        store_changed(space, node + VALUE, value);
        return OrderReply::Was(before);
    }
    let Some(fresh) = Blocks::take(space, order, 1) else {
        return OrderReply::Full;
    };
    fill_single(space, order, fresh, key, value);
    let top = attach(space, order, top, fresh, key);
    let size = space.load(SIZE);
    set_tree(space, order, top, size + 1);
    OrderReply::NoPrior
}

/// Takes a key out.
pub fn order_del<M: Space>(space: &mut M, order: u32, key: u64) -> OrderReply
    requires order { IsOrder order }
    requires region { IsIndexWellFormed order (M.shown.image space.old) }
    requires room { HasRoom M.shown 255 space.old }
    // Afterwards the map does not have the key. The answer is the value that the key had. If the key was
    // absent, the answer is `NoPrior`, and the map stays. The count stays.
    ensures done { (s : Pairs) (k : ℕ) → IndexContents order (M.shown.image space.old) s k
        → let after = delete_pair s key (map.get s key) in
        (result ≡ after.1) × IndexContents order (M.shown.image space.new) after.0 k }
    // At most 255 stores are counted, and any number of loads.
    ensures stores { Stores M.shown 255 space.old space.new }
{
    let top = space.load(TOP);
    let node = find_node(space, order, top, key);
    if node == 0 {
        return OrderReply::NoPrior;
    }
    let before = space.load(node + VALUE);
    let top = detach(space, order, top, key);
    let size = space.load(SIZE);
    set_tree(space, order, top, size - 1);
    Blocks::give(space, order, node, 1);
    OrderReply::Was(before)
}
