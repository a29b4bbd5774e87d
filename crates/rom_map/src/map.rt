//! The calls on a key of the map.
ghost use Rattle.std.specs.Prelude.{◌≡◌, ℕ, ◌+◌, ◌*◌, ◌≤◌, IfSome, IfNone, slice_index};
ghost use Rattle.std.specs.FinMap as map;
ghost use Rattle.rom_model.specs.Space.{Costs, Looks, HasRoom, IsSparing};
ghost use Rattle.rom_model.specs.State.{State, value_of};
ghost use Rattle.rom_model.specs.Blocks.{IsOrder};
ghost use Rattle.rom_model.specs.Region.{Chains, IsRegion, IsWellFormed, Contents};
ghost use Rattle.rom_map.specs.Map.{get_loads, with_pairs, IsPut, PutLeaves, PutCosts, IsDeleted};

use crate::entry::{find_entry, replace_entry};
use crate::node::MAP_VALUE;
use rom_block::Blocks;
use rom_bucket::{Node, find_rising, link_at, unlink_node};
use rom_model::{Look, MAP_LEN, Space};

/// What a put tells.
#[derive(Clone, Copy, Debug, PartialEq, Eq)]
pub enum Put {
    /// The key has the value now, and was not in the map before.
    New,
    /// The key has the value now, and had this one before.
    Was(u64),
    /// The key is not in the map, and there is no room for it.
    Full,
}

/// Gives a key a value and a stamp, which is no more than the region's count.
pub fn map_put<M: Space>(space: &mut M, order: u32, key: u64, value: u64, stamp: u64) -> Put
    requires order { IsOrder order }
    requires region { IsWellFormed order (M.shown.image space.old) }
    requires stamp { stamp ≤ slice_index (M.shown.image space.old) 2 }
    requires room { HasRoom M.shown 31 space.old }
    // `Full` comes exactly where the key is absent and the heap is full. Else the key has the value and the
    // stamp then, and all else of the state and the count stay. `Was` tells the value before.
    ensures contents { (s : State) (k : ℕ) → Contents order (M.shown.image space.old) s k
        → IsPut order s k key value stamp result (M.shown.image space.new) }
    // Unless the answer is `Full`, each other element keeps its block, and a new key takes the first free
    // one. No word differs but those of the map and of the allocator.
    ensures others { (p : Chains) (s : State) (k : ℕ) →
        IsRegion order (M.shown.image space.old) p s k
        → PutLeaves order (M.shown.image space.old) p s k key value stamp result
        (M.shown.image space.new) }
    ensures region { IsWellFormed order (M.shown.image space.new) }
    // At most `order` + 7 stores are counted for `New`, and two for `Was`. After `Full` the words stay.
    ensures each { (s : State) (k : ℕ) → Contents order (M.shown.image space.old) s k
        → PutCosts M.shown order (get_loads order s.pairs key) result space.old space.new }
    // Beside the loads that find the key at most 3 * order + 6 are counted, and at most order + 7 stores.
    ensures costs { (s : State) (k : ℕ) → Contents order (M.shown.image space.old) s k
        → Costs M.shown (3 * order + 6 + get_loads order s.pairs key) (order + 7)
        space.old space.new }
    // No more stores are counted than words differ afterwards.
    ensures sparing { IsSparing M.shown space.old space.new }
{
    let sought = find_rising(space, order, key);
    if sought.found {
        return Put::Was(replace_entry(space, sought.place.node, value, stamp));
    }
    let Some(node) = Blocks::take(space, order, 0) else {
        return Put::Full;
    };
    let added = Node {
        key,
        second: value,
        last: stamp,
    };
    link_at(space, MAP_LEN, sought.place, node, added);
    Put::New
}

/// Takes a key out of the map, and tells the value that it had. It is `None` exactly where the key is
/// not in the map, and then nothing is stored.
pub fn map_del<M: Space>(space: &mut M, order: u32, key: u64) -> Option<u64>
    requires order { IsOrder order }
    requires region { IsWellFormed order (M.shown.image space.old) }
    requires room { HasRoom M.shown 31 space.old }
    // The answer is the value that the key had, and `None` exactly where the key was absent.
    ensures was { (s : State) (k : ℕ) → Contents order (M.shown.image space.old) s k
        → result ≡ value_of s key }
    // Afterwards the map does not have the key. All else of the state and the count stay.
    ensures contents { (s : State) (k : ℕ) → Contents order (M.shown.image space.old) s k
        → Contents order (M.shown.image space.new) (with_pairs s (map.remove s.pairs key)) k }
    // A key that was there leaves its chain, and the words of its block stay. Each other element keeps its
    // block. No word differs but those of the map and of the allocator.
    ensures others { (p : Chains) (s : State) (k : ℕ) →
        IsRegion order (M.shown.image space.old) p s k
        → IfSome result (λ value. IsDeleted order (M.shown.image space.old) p s k key
        (M.shown.image space.new)) }
    ensures region { IsWellFormed order (M.shown.image space.new) }
    // Where the key was absent the words stay, and only the loads that look for it are counted.
    ensures none { (s : State) (k : ℕ) → Contents order (M.shown.image space.old) s k
        → IfNone result (Looks M.shown (get_loads order s.pairs key) space.old space.new) }
    // Beside the loads that find the key at most 2 * order + 2 are counted, and at most order + 3 stores.
    ensures costs { (s : State) (k : ℕ) → Contents order (M.shown.image space.old) s k
        → Costs M.shown (2 * order + 2 + get_loads order s.pairs key) (order + 3)
        space.old space.new }
    // No more stores are counted than words differ afterwards.
    ensures sparing { IsSparing M.shown space.old space.new }
{
    let sought = find_rising(space, order, key);
    if !sought.found {
        return None;
    }
    let place = sought.place;
    let was = space.load(place.node + MAP_VALUE);
    unlink_node(space, MAP_LEN, place);
    Blocks::give(space, order, place.node, 0);
    Some(was)
}

/// The value of a key.
pub fn map_get<M: Look>(space: &mut M, order: u32, key: u64) -> Option<u64>
    requires order { IsOrder order }
    requires region { IsWellFormed order (M.shown.image space.old) }
    // The answer is the value of the key, and `None` exactly where the map does not have the key.
    ensures is { (s : State) (k : ℕ) → Contents order (M.shown.image space.old) s k
        → result ≡ value_of s key }
    // The words stay. At most 3 loads, and 2 for each lesser key of the bucket, are counted.
    ensures looks { (s : State) (k : ℕ) → Contents order (M.shown.image space.old) s k
        → Looks M.shown (get_loads order s.pairs key) space.old space.new }
{
    find_entry(space, order, key).map(|entry| entry.value)
}

/// How many keys the map has.
pub fn map_len<M: Look>(space: &mut M, order: u32) -> u64
    requires order { IsOrder order }
    requires region { IsWellFormed order (M.shown.image space.old) }
    ensures len { (s : State) (k : ℕ) → Contents order (M.shown.image space.old) s k
        → result ≡ map.len s.pairs }
    ensures looks { Looks M.shown 1 space.old space.new }
{
    space.load(MAP_LEN)
}
