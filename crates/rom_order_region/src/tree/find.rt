//! Walks down the tree.
ghost use Rattle.std.specs.Prelude.{◌≡◌, ◌≢◌, ℕ, ◌+◌, ◌-◌, ◌*◌, ◌≤◌, length, IfSome};
ghost use Rattle.rom_model.specs.Space.{Looks};
ghost use Rattle.rom_model.specs.Blocks.{IsOrder, region_len};
ghost use Rattle.rom_order_region.specs.Tree.{Tree, entries};
ghost use Rattle.rom_order_region.specs.Nodes.{IsTree, HasTree, level_at};
ghost use Rattle.rom_order_region.specs.Keys.{EntriesRise};
ghost use Rattle.rom_order_region.specs.Find.{IsFound, HasOrdered};
ghost use Rattle.rom_order_region.specs.Query.{inside, total};
ghost use Rattle.rom_order_region.specs.Near.{IsNear};

use crate::tree::node::{LEFT, RIGHT, VALUE};
use rom_model::Look;

/// Where the node of a key begins, in the tree whose top node begins there, or 0.
pub fn find_node<M: Look>(space: &mut M, order: u32, top: u64, key: u64) -> u64
    requires order { IsOrder order }
    requires sized { length (M.shown.image space.old) ≡ region_len order }
    requires tree { HasTree order (M.shown.image space.old) top }
    // In a tree whose keys rise the answer is the key's node, and 0 exactly where the tree has no such key.
    ensures found { (t : Tree) → IsTree order (M.shown.image space.old) top t → EntriesRise (entries t)
        → IsFound order (M.shown.image space.old) t key result }
    // All eight words of a node that is found are within the region.
    ensures within { result ≢ 0 → result + 8 ≤ length (M.shown.image space.old) }
    // Where a node is found the tree has a height of 1 or more.
    ensures level { result ≢ 0 → 1 ≤ level_at (M.shown.image space.old) top }
    // The words stay. At most two loads for each level are counted.
    ensures looks { Looks M.shown (2 * level_at (M.shown.image space.old) top) space.old space.new }
    // Where a node is found, the bound is one load less.
    ensures soon { result ≢ 0 → Looks M.shown (2 * level_at (M.shown.image space.old) top - 1) space.old space.new }
{
    if top == 0 {
        return 0;
    }
    let there = space.load(top);
    if there == key {
        return top;
    }
    if key < there {
        let left = space.load(top + LEFT);
        return find_node(space, order, left, key);
    }
    let right = space.load(top + RIGHT);
    find_node(space, order, right, key)
}

/// A node and its key.
#[derive(Clone, Copy)]
pub struct Near {
    pub node: u64,
    pub key: u64,
}

/// The node of the least key that is at least this one.
pub fn find_from<M: Look>(space: &mut M, order: u32, top: u64, key: u64) -> Option<Near>
    requires order { IsOrder order }
    requires sized { length (M.shown.image space.old) ≡ region_len order }
    requires tree { HasTree order (M.shown.image space.old) top }
    // In a tree whose keys rise: the least key from this one on with its node, and `None` if there is none.
    ensures found { (t : Tree) → IsTree order (M.shown.image space.old) top t → EntriesRise (entries t)
        → IsNear (M.shown.image space.old) t key result }
    // All eight words of a node that is found are within the region.
    ensures within { IfSome result (λ near. near.node + 8 ≤ length (M.shown.image space.old)) }
    // The words stay. At most two loads for each level are counted.
    ensures looks { Looks M.shown (2 * level_at (M.shown.image space.old) top) space.old space.new }
{
    if top == 0 {
        return None;
    }
    let there = space.load(top);
    if there < key {
        let right = space.load(top + RIGHT);
        return find_from(space, order, right, key);
    }
    let left = space.load(top + LEFT);
    match find_from(space, order, left, key) {
        Some(near) => Some(near),
        None => Some(Near {
            node: top,
            key: there,
        }),
    }
}

/// How many keys lie in a range, and the sum of their values.
#[derive(Clone, Copy)]
pub struct Sum {
    pub count: u64,
    pub sum: u128,
}

/// Adds the keys from `low` to `high`, both included, to what was found before. The sum is carried along
/// and not handed up, so that the last step of each way is a call of the function itself, and the walk to
/// either end of the range is a loop.
fn add_between<M: Look>(space: &mut M, order: u32, top: u64, low: u64, high: u64, all: &mut Sum)
    requires order { IsOrder order }
    requires sized { length (M.shown.image space.old) ≡ region_len order }
    requires tree { (t : Tree) × IsTree order (M.shown.image space.old) top t × EntriesRise (entries t)
        × (all.old.count + length (inside low high (entries t)) ≤ 32768) }
    requires small { all.old.sum ≤ all.old.count * 0xFFFF_FFFF_FFFF_FFFF }
    ensures count { (t : Tree) → IsTree order (M.shown.image space.old) top t → EntriesRise (entries t)
        → all.new.count ≡ all.old.count + length (inside low high (entries t)) }
    ensures sum { (t : Tree) → IsTree order (M.shown.image space.old) top t → EntriesRise (entries t)
        → all.new.sum ≡ all.old.sum + total (inside low high (entries t)) }
    ensures small { all.new.sum ≤ all.new.count * 0xFFFF_FFFF_FFFF_FFFF }
    ensures looks { (c : ℕ) → all.new.count ≡ all.old.count + c
        → Looks M.shown ((c + 1) * (2 * level_at (M.shown.image space.old) top)) space.old space.new }
{
    if top == 0 {
        return;
    }
    let there = space.load(top);
    if there < low {
        let higher = space.load(top + RIGHT);
        return add_between(space, order, higher, low, high, all);
    }
    if high < there {
        let lower = space.load(top + LEFT);
        return add_between(space, order, lower, low, high, all);
    }
    let value = space.load(top + VALUE);
    let left = space.load(top + LEFT);
    let right = space.load(top + RIGHT);
    all.count += 1;
    all.sum += value as u128;
    add_between(space, order, left, low, high, all);
    add_between(space, order, right, low, high, all);
}

/// The keys from `low` to `high`, both included.
pub fn sum_between<M: Look>(space: &mut M, order: u32, top: u64, low: u64, high: u64) -> Sum
    requires order { IsOrder order }
    requires sized { length (M.shown.image space.old) ≡ region_len order }
    requires tree { HasOrdered order (M.shown.image space.old) top }
    // In a tree whose keys rise: how many keys lie from `low` to `high`, both included.
    ensures count { (t : Tree) → IsTree order (M.shown.image space.old) top t → EntriesRise (entries t)
        → result.count ≡ length (inside low high (entries t)) }
    // In a tree whose keys rise: the sum of the values of the keys from `low` to `high`.
    ensures sum { (t : Tree) → IsTree order (M.shown.image space.old) top t → EntriesRise (entries t)
        → result.sum ≡ total (inside low high (entries t)) }
    // The sum is at most 2^64 - 1 for each key that was counted.
    ensures small { result.sum ≤ result.count * 0xFFFF_FFFF_FFFF_FFFF }
    // The words stay. With c keys in the range, and a tree of height h, at most 2h(c + 1) loads are counted.
    ensures looks { Looks M.shown ((result.count + 1) * (2 * level_at (M.shown.image space.old) top))
        space.old space.new }
{
    let mut all = Sum { count: 0, sum: 0 };
    add_between(space, order, top, low, high, &mut all);
    all
}
