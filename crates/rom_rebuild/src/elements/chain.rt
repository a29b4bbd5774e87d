//! The walk along a chain, which takes the first word of each node.
ghost use Rattle.std.specs.Prelude.{◌≡◌, ◌++◌, ◌<◌, List, ℕ, OnOk, length};
ghost use Rattle.rom_model.specs.Blocks.{IsOrder, region_len};
ghost use Rattle.rom_model.specs.Chains.{Chain, each_word};
ghost use Rattle.rom_text.specs.Phrases.{NumbersFit};
ghost use Rattle.rom_rebuild.specs.Chains.{HoldsChain};

use rom_model::power_of_two;
use std::alloc::AllocError;

/// Puts the first word of each node of a chain behind the numbers that are there. The chain begins at
/// that link word, and the word `next` of a node is its link.
pub fn collect_chain(
    words: &[u64],
    order: u32,
    link: u64,
    next: u64,
    into: &mut Vec<u64>,
) -> Result<(), AllocError>
    requires order { IsOrder order }
    requires sized { length words.now ≡ region_len order }
    requires link { link < length words.now }
    requires next { next < 4 }
    requires chain { HoldsChain order words.now link next }
    ensures collected { OnOk result ((blocks : List ℕ) → Chain order words.now link next blocks →
        into.new.items ≡ into.old.items ++ each_word order words.now 0 blocks) }
    ensures fit { NumbersFit into.old.items → NumbersFit into.new.items }
{
    let mut node = words[link as usize];
    // A chain has no more nodes than the region has blocks.
    for _ in 0..power_of_two(order) {
        if node == 0 {
            return Ok(());
        }
        into.push(words[node as usize])?;
        node = words[(node + next) as usize];
    }
    Ok(())
}
