//! Moving an amount from one key's value to another's.
ghost use Rattle.std.specs.Prelude.{◌≡◌, ◌⊎◌, ℕ, ◌+◌, ◌^◌, ◌<◌, ◌≤◌, length, slice_index};
ghost use Rattle.rom_model.specs.Space.{Costs, Looks, HasRoom, IsSparing};
ghost use Rattle.rom_model.specs.State.{State};
ghost use Rattle.rom_model.specs.Blocks.{IsOrder};
ghost use Rattle.rom_model.specs.Region.{Chains, IsRegion, IsWellFormed, Contents};
ghost use Rattle.rom_map.specs.Map.{get_loads, with_entry};
ghost use Rattle.rom_map.specs.Shift.{IsMoved, MoveLeaves, KeepsUnlessMoved, IsPlan};

use crate::entry::{Entry, find_entry, replace_entry};
use rom_model::{Look, Space};

/// What a move tells.
#[derive(Clone, Copy, Debug, PartialEq, Eq)]
pub enum Moved {
    /// The one key has the amount less and the other has it more; where they are one key, nothing
    /// changed.
    Done,
    /// One of the keys is not in the map.
    Absent,
    /// The first key has this value, which is less than the amount.
    Short(u64),
    /// The other key's value would pass 2^64 - 1.
    Over,
}

/// What is to be done for a move.
enum Plan {
    /// Each word stays, and this is told.
    Stays(Moved),
    /// The first key's node gets the one value, and the other key's the other.
    Changes(Entry, Entry),
}

/// Finds out by loads alone what a move has to do.
fn plan_move<M: Look>(space: &mut M, order: u32, from: u64, to: u64, amount: u64) -> Plan
    requires order { IsOrder order }
    requires region { IsWellFormed order (M.shown.image space.old) }
    ensures is { (p : Chains) (s : State) (k : ℕ) → IsRegion order (M.shown.image space.old) p s k
        → IsPlan order (M.shown.image space.old) p s from to amount result }
    ensures looks { (s : State) (k : ℕ) → Contents order (M.shown.image space.old) s k
        → Looks M.shown (get_loads order s.pairs from + get_loads order s.pairs to)
        space.old space.new }
    ensures alone { from ≡ to → (s : State) (k : ℕ) → Contents order (M.shown.image space.old) s k
        → Looks M.shown (get_loads order s.pairs from) space.old space.new }
{
    let Some(source) = find_entry(space, order, from) else {
        return Plan::Stays(Moved::Absent);
    };
    if from == to {
        if source.value < amount {
            return Plan::Stays(Moved::Short(source.value));
        }
        return Plan::Stays(Moved::Done);
    }
    let Some(target) = find_entry(space, order, to) else {
        return Plan::Stays(Moved::Absent);
    };
    if source.value < amount {
        return Plan::Stays(Moved::Short(source.value));
    }
    let Some(more) = target.value.checked_add(amount) else {
        return Plan::Stays(Moved::Over);
    };
    Plan::Changes(
        Entry {
            node: source.node,
            value: source.value - amount,
        },
        Entry {
            node: target.node,
            value: more,
        },
    )
}

/// Gives two nodes their values and one stamp. Of these words one that stays is not stored.
fn replace_both<M: Space>(space: &mut M, source: Entry, target: Entry, stamp: u64)
    requires source { source.node + 4 ≤ length (M.shown.image space.old) }
    requires target { target.node + 4 ≤ length (M.shown.image space.old) }
    requires small { length (M.shown.image space.old) < 2 ^ 63 }
    requires room { HasRoom M.shown 4 space.old }
    ensures image { M.shown.image space.new ≡ with_entry
        (with_entry (M.shown.image space.old) source.node source.value stamp)
        target.node target.value stamp }
    ensures costs { Costs M.shown 4 4 space.old space.new }
    ensures sparing { (source.node + 4 ≤ target.node) ⊎ (target.node + 4 ≤ source.node)
        → IsSparing M.shown space.old space.new }
{
    replace_entry(space, source.node, source.value, stamp);
    replace_entry(space, target.node, target.value, stamp);
}

/// Moves an amount from one key's value to another's. It looks for each key once, and stores nothing
/// unless the move is done between two keys. Then both get the stamp, which is no more than the
/// region's count; of their words one that stays is not stored either.
///
/// An amount of 0 is moved like any other: if the move is done between two keys, both get the stamp, so they
/// count as written. A move of a key to itself asks whether the key has the amount, and changes nothing. No
/// move needs a free block.
pub fn map_move<M: Space>(
    space: &mut M,
    order: u32,
    from: u64,
    to: u64,
    amount: u64,
    stamp: u64,
) -> Moved
    requires order { IsOrder order }
    requires region { IsWellFormed order (M.shown.image space.old) }
    requires stamp { stamp ≤ slice_index (M.shown.image space.old) 2 }
    requires room { HasRoom M.shown 4 space.old }
    // The answer is the one that fits the two values. The map is then as that answer says, and all
    // else of the state and the count stay.
    ensures contents { (s : State) (k : ℕ) → Contents order (M.shown.image space.old) s k
        → IsMoved order s k from to amount stamp result (M.shown.image space.new) }
    ensures region { IsWellFormed order (M.shown.image space.new) }
    // Each element keeps its block. No word differs but, if the move is done, two values and two stamps.
    ensures others { (p : Chains) (s : State) (k : ℕ) →
        IsRegion order (M.shown.image space.old) p s k
        → MoveLeaves order (M.shown.image space.old) p s k from to amount stamp result
        (M.shown.image space.new) }
    // Beside the loads that find the two keys at most 4 are counted, and at most 4 stores.
    ensures costs { (s : State) (k : ℕ) → Contents order (M.shown.image space.old) s k
        → Costs M.shown (4 + get_loads order s.pairs from + get_loads order s.pairs to) 4
        space.old space.new }
    // With one key on both sides the words stay, and only the loads that look for it once are counted.
    ensures alone { from ≡ to → (s : State) (k : ℕ) → Contents order (M.shown.image space.old) s k
        → Looks M.shown (get_loads order s.pairs from) space.old space.new }
    // Unless the move is done the words stay, and only the loads that look for the two keys are counted.
    ensures kept { (s : State) (k : ℕ) → Contents order (M.shown.image space.old) s k
        → KeepsUnlessMoved M.shown (get_loads order s.pairs from + get_loads order s.pairs to)
        result space.old space.new }
    // No more stores are counted than words differ afterwards.
    ensures sparing { IsSparing M.shown space.old space.new }
{
    // All is decided by loads, before the first store: so no refusal is found half way.
    match plan_move(space, order, from, to, amount) {
        Plan::Stays(told) => told,
        Plan::Changes(source, target) => {
            replace_both(space, source, target, stamp);
            Moved::Done
        }
    }
}
