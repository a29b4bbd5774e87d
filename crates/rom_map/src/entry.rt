//! A key's node with its value.
ghost use Rattle.std.specs.Prelude.{◌≡◌, ℕ, ◌+◌, ◌^◌, ◌<◌, ◌≤◌, None, Some, MatchOption, length, slice_index, slice_set};
ghost use Rattle.rom_model.specs.Space.{Costs, Looks, HasRoom, IsSparing};
ghost use Rattle.rom_model.specs.State.{State, value_of};
ghost use Rattle.rom_model.specs.Blocks.{IsOrder};
ghost use Rattle.rom_model.specs.Region.{Chains, IsRegion, IsWellFormed, Contents};
ghost use Rattle.rom_map.specs.Map.{get_loads, with_entry};
ghost use Rattle.rom_map.specs.Shift.{HasNode};

use crate::node::{MAP_STAMP, MAP_VALUE};
use rom_bucket::find_rising;
use rom_model::{Look, Space};

/// A node, and a value for it.
#[derive(Clone, Copy)]
pub struct Entry {
    /// Where the node begins.
    pub node: u64,
    /// The value that it has, or is to have.
    pub value: u64,
}

/// The node of a key with the key's value, where the map has the key.
pub fn find_entry<M: Look>(space: &mut M, order: u32, key: u64) -> Option<Entry>
    requires order { IsOrder order }
    requires region { IsWellFormed order (M.shown.image space.old) }
    ensures is { (p : Chains) (s : State) (k : ℕ) → IsRegion order (M.shown.image space.old) p s k
        → MatchOption result (value_of s key ≡ None) (λ entry.
        (value_of s key ≡ Some entry.value)
        × HasNode order (M.shown.image space.old) p key entry.node) }
    ensures looks { (s : State) (k : ℕ) → Contents order (M.shown.image space.old) s k
        → Looks M.shown (get_loads order s.pairs key) space.old space.new }
{
    let sought = find_rising(space, order, key);
    if !sought.found {
        return None;
    }
    let node = sought.place.node;
    let value = space.load(node + MAP_VALUE);
    Some(Entry { node, value })
}

/// Replaces the word at an offset, and tells the one that stood there. One that stays is not stored.
fn replace_word<M: Space>(space: &mut M, at: u64, word: u64) -> u64
    requires within { at < length (M.shown.image space.old) }
    requires room { HasRoom M.shown 1 space.old }
    ensures was { result ≡ slice_index (M.shown.image space.old) at }
    ensures image { M.shown.image space.new ≡ slice_set (M.shown.image space.old) at word }
    ensures costs { Costs M.shown 1 1 space.old space.new }
    ensures sparing { IsSparing M.shown space.old space.new }
{
    let was = space.load(at);
    if was != word {
        space.store(at, word);
    }
    was
}

/// Gives the node that begins there a value and a stamp, and tells the value that it had. Of the two
/// words one that stays is not stored.
pub fn replace_entry<M: Space>(space: &mut M, node: u64, value: u64, stamp: u64) -> u64
    requires within { node + 4 ≤ length (M.shown.image space.old) }
    requires small { node < 2 ^ 63 }
    requires room { HasRoom M.shown 2 space.old }
    ensures was { result ≡ slice_index (M.shown.image space.old) (node + MAP_VALUE) }
    ensures image { M.shown.image space.new
        ≡ with_entry (M.shown.image space.old) node value stamp }
    ensures costs { Costs M.shown 2 2 space.old space.new }
    ensures sparing { IsSparing M.shown space.old space.new }
{
    let was = replace_word(space, node + MAP_VALUE, value);
    replace_word(space, node + MAP_STAMP, stamp);
    was
}
