//! Keys of nodes beside those that were reached before in their chain.
ghost use Rattle.std.specs.Prelude.{◌≡◌, ℕ, ◌<◌, List, length, not, ◌==◌};
ghost use Rattle.rom_model.specs.Blocks.{IsOrder, region_len};
ghost use Rattle.rom_model.specs.Chains.{times, each_word};
ghost use Rattle.rom_blob_region.specs.Walks.{IsBlobWay};

use crate::node::LINK;

/// Whether one of the first `count` nodes from that link on has that key. They were reached, so this goes
/// along them again. The link is in words from the region's start.
pub fn has_key(region: &[u64], order: u32, link: u64, count: u64, key: u64) -> bool
    requires order { IsOrder order }
    requires sized { length region.now ≡ region_len order }
    requires link { link < length region.now }
    requires way { (units : List ℕ) × IsBlobWay order region.now link units × (count ≡ length units) }
    ensures { (units : List ℕ) → IsBlobWay order region.now link units → count ≡ length units
        → result ≡ not (times key (each_word order region.now 0 units) == 0) }
{
    let mut at = link;
    for _passed in 0..count {
        let node = region[at as usize];
        if region[node as usize] == key {
            return true;
        }
        at = node + LINK;
    }
    false
}
