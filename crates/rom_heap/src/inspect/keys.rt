//! Keys of nodes beside those that were reached before in their chain.
ghost use Rattle.std.specs.Prelude.{◌≡◌, ℕ, ◌<◌, List, length, not, ◌==◌};
ghost use Rattle.rom_model.specs.Blocks.{IsOrder, block_of, region_len};
ghost use Rattle.rom_model.specs.Chains.{times, each_word};
ghost use Rattle.rom_model.specs.Region.{buckets};
ghost use Rattle.rom_heap.specs.declared.inspect.walk.Walk.TheVariants as along;
ghost use Rattle.rom_heap.specs.Tests.{newest};
ghost use Rattle.rom_heap.specs.Walks.{key_of, is_above, Reaches};

use crate::inspect::walk::Reached;
use rom_map::MAP_LINK;
use rom_model::blocks_at;

/// Whether one of the first `count` nodes of a bucket's chain has that key, in a region of version 1.
/// They were reached, so the walk goes along them again.
pub fn has_key(region: &[u64], order: u32, number: u64, count: u64, key: u64) -> bool
    requires order { IsOrder order }
    requires sized { length region.now ≡ region_len order }
    requires number { number < buckets order }
    requires reached { (seen : List ℕ) × (before : List ℕ)
        × Reaches order region.now (along.OldBucket number) seen before × (count ≡ length before) }
    ensures { (seen before : List ℕ) → Reaches order region.now (along.OldBucket number) seen before
        → count ≡ length before
        → result ≡ not (times key (each_word order region.now 0 before) == 0) }
{
    let mut link = blocks_at(order) + number;
    for _passed in 0..count {
        let node = region[link as usize];
        if region[node as usize] == key {
            return true;
        }
        link = node + MAP_LINK;
    }
    false
}

/// Whether the key of a node is above that of the last one, or there is none.
pub fn is_above(region: &[u64], reached: Reached, node: u64) -> bool
    requires last { 0 < reached.count → reached.last < length region.now }
    requires node { node < length region.now }
    ensures { (n : ℕ) (before : List ℕ) (b : ℕ) → reached.last ≡ newest n before
        → reached.count ≡ length before → node ≡ block_of n b
        → result ≡ is_above n region.now before (key_of n region.now b) }
{
    reached.count == 0 || region[reached.last as usize] < region[node as usize]
}
