//! The keys of a map.
ghost use Rattle.std.specs.Prelude.{◌≡◌, [], ℕ, OnOk, length};
ghost use Rattle.std.specs.FinMap as map;
ghost use Rattle.rom_model.specs.Blocks.{IsOrder, region_len};
ghost use Rattle.rom_model.specs.Region.{Chains, Contents, IsRegion, IsWellFormed, all_of, buckets};
ghost use Rattle.rom_model.specs.Chains.{each_word};
ghost use Rattle.rom_model.specs.State.{State};
ghost use Rattle.rom_text.specs.Phrases.{NumbersFit};

use crate::elements::chain::collect_chain;
use rom_map::MAP_LINK;
use rom_model::{blocks_at, power_of_two};
use std::alloc::AllocError;

/// Puts the keys of all buckets into a list that is empty, one bucket after another.
fn collect_buckets(words: &[u64], order: u32, into: &mut Vec<u64>) -> Result<(), AllocError>
    requires order { IsOrder order }
    requires region { IsWellFormed order words.now }
    requires none { into.old.items ≡ [] }
    ensures collected { OnOk result ((p : Chains) (s : State) (k : ℕ) → IsRegion order words.now p s k →
        into.new.items ≡ each_word order words.now 0 (all_of p.bucket (buckets order))) }
    ensures fit { NumbersFit into.new.items }
{
    for number in 0..power_of_two(order - 2) {
        collect_chain(words, order, blocks_at(order) + number, MAP_LINK, into)?;
    }
    Ok(())
}

/// Puts the keys of the map into a list that is empty. They rise.
pub fn collect_keys(words: &[u64], order: u32, into: &mut Vec<u64>) -> Result<(), AllocError>
    requires order { IsOrder order }
    requires region { IsWellFormed order words.now }
    requires none { into.old.items ≡ [] }
    ensures keys { OnOk result ((s : State) (k : ℕ) → Contents order words.now s k →
        into.new.items ≡ map.keys s.pairs) }
    ensures fit { NumbersFit into.new.items }
{
    collect_buckets(words, order, into)?;
    into.sort_unstable();
    Ok(())
}
