//! The calls on the set.
ghost use Rattle.std.specs.Prelude.{◌≡◌, ℕ, ◌+◌, ◌*◌, true, false};
ghost use Rattle.std.specs.Bool.{MatchBool, OnTrue, OnFalse};
ghost use Rattle.std.specs.FinSet as set;
ghost use Rattle.rom_model.specs.Space.{Costs, Looks, HasRoom, IsSparing};
ghost use Rattle.rom_model.specs.State.{State};
ghost use Rattle.rom_model.specs.Walks.{keys_below};
ghost use Rattle.rom_model.specs.Blocks.{IsOrder};
ghost use Rattle.rom_model.specs.Region.{Chains, IsRegion, IsWellFormed, Contents};
ghost use Rattle.rom_set.specs.Set.{with_members, IsInserted, IsAddedToSet, IsRemoved, OnNew, KeepsUnlessNew};

use crate::link::{link_node, unlink_node};
use crate::walk::find;
use rom_block::Blocks;
use rom_model::{Look, SET_LEN, Space};

/// What an insertion tells.
#[derive(Clone, Copy, Debug, PartialEq, Eq)]
pub enum Inserted {
    /// The number is in the set now, and was not before.
    New,
    /// The set had it.
    There,
    /// There is no room for it.
    Full,
}

/// Puts a number into the set. Unless it is new there, nothing is stored.
pub fn set_insert<M: Space>(space: &mut M, order: u32, key: u64) -> Inserted
    requires order { IsOrder order }
    requires region { IsWellFormed order (M.shown.image space.old) }
    requires room { HasRoom M.shown 31 space.old }
    // `There` comes exactly where the set had the number, `Full` exactly where it was absent and the heap was
    // full. After `New` the set has the number, and all else of the state and the count stay.
    ensures contents { (s : State) (k : ℕ) → Contents order (M.shown.image space.old) s k
        → IsInserted order s k key result (M.shown.image space.new) }
    // A new number takes the first free block, and each other element keeps its own. No word differs but
    // those of the set and of the allocator.
    ensures others { (p : Chains) (s : State) (k : ℕ) →
        IsRegion order (M.shown.image space.old) p s k
        → OnNew result (IsAddedToSet order (M.shown.image space.old) p s k key
        (M.shown.image space.new)) }
    ensures region { IsWellFormed order (M.shown.image space.new) }
    // Unless the answer is `New`, the words stay. At most order + 3 loads, and 2 more for each smaller number
    // of the set, are counted.
    ensures kept { (s : State) (k : ℕ) → Contents order (M.shown.image space.old) s k
        → KeepsUnlessNew M.shown order (keys_below s.members key) result space.old space.new }
    // At most 3 * order + 8 loads, 2 more for each smaller number of the set, and order + 7 stores are
    // counted.
    ensures costs { (s : State) (k : ℕ) → Contents order (M.shown.image space.old) s k
        → Costs M.shown (3 * order + 8 + 2 * keys_below s.members key) (order + 7)
        space.old space.new }
    // No more stores are counted than words differ afterwards.
    ensures sparing { IsSparing M.shown space.old space.new }
{
    let place = find(space, order, key);
    if place.found {
        return Inserted::There;
    }
    let Some(node) = Blocks::take(space, order, 0) else {
        return Inserted::Full;
    };
    link_node(space, order, place, node, key);
    Inserted::New
}

/// Takes a number out of the set. It is false exactly where the set has not got it, and then nothing
/// is stored.
pub fn set_remove<M: Space>(space: &mut M, order: u32, key: u64) -> bool
    requires order { IsOrder order }
    requires region { IsWellFormed order (M.shown.image space.old) }
    requires room { HasRoom M.shown 31 space.old }
    // `true` comes exactly where the set had the number. Then the number is gone, and all else of the state
    // and the count stay.
    ensures contents { (s : State) (k : ℕ) →
        Contents order (M.shown.image space.old) s k → MatchBool result
        ((set.contains s.members key ≡ true)
        × Contents order (M.shown.image space.new) (with_members s (set.remove s.members key)) k)
        (set.contains s.members key ≡ false) }
    // A number that was there leaves the chain, and the words of its block stay. Each other element keeps its
    // block. No word differs but those of the set and of the allocator.
    ensures others { (p : Chains) (s : State) (k : ℕ) →
        IsRegion order (M.shown.image space.old) p s k
        → OnTrue result (IsRemoved order (M.shown.image space.old) p s k key
        (M.shown.image space.new)) }
    ensures region { IsWellFormed order (M.shown.image space.new) }
    // If the set did not have the number, the words stay. At most 2 loads, and 2 more for each smaller number
    // of the set, are counted.
    ensures kept { (s : State) (k : ℕ) → Contents order (M.shown.image space.old) s k
        → OnFalse result (Looks M.shown (2 + 2 * keys_below s.members key) space.old space.new) }
    // At most 2 * order + 4 loads, 2 more for each smaller number of the set, and order + 3 stores are
    // counted.
    ensures costs { (s : State) (k : ℕ) → Contents order (M.shown.image space.old) s k
        → Costs M.shown (2 * order + 4 + 2 * keys_below s.members key) (order + 3)
        space.old space.new }
    // No more stores are counted than words differ afterwards.
    ensures sparing { IsSparing M.shown space.old space.new }
{
    let place = find(space, order, key);
    if !place.found {
        return false;
    }
    unlink_node(space, order, place);
    Blocks::give(space, order, place.node, 0);
    true
}

/// Whether the set has a number.
pub fn set_has<M: Look>(space: &mut M, order: u32, key: u64) -> bool
    requires order { IsOrder order }
    requires region { IsWellFormed order (M.shown.image space.old) }
    // The answer is true exactly where the number is in the set that the region stands for.
    ensures is { (s : State) (k : ℕ) → Contents order (M.shown.image space.old) s k
        → result ≡ set.contains s.members key }
    // The words stay. Two loads, and two for each smaller number of the set, are counted at most.
    ensures looks { (s : State) (k : ℕ) → Contents order (M.shown.image space.old) s k
        → Looks M.shown (2 + 2 * keys_below s.members key) space.old space.new }
{
    let place = find(space, order, key);
    place.found
}

/// How many numbers the set has.
pub fn set_len<M: Look>(space: &mut M, order: u32) -> u64
    requires order { IsOrder order }
    requires region { IsWellFormed order (M.shown.image space.old) }
    ensures len { (s : State) (k : ℕ) → Contents order (M.shown.image space.old) s k
        → result ≡ set.len s.members }
    ensures looks { Looks M.shown 1 space.old space.new }
{
    space.load(SET_LEN)
}
