//! The words that the tree must hold for blocks that are taken, and their comparison with a region.
ghost use Rattle.std.specs.Prelude.{◌≡◌, ℕ, ◌+◌, ◌-◌, ◌*◌, ◌^◌, ◌<◌, ◌≤◌, Bool, List, length, IfOk, MatchOption, slice_index};
ghost use Rattle.rom_model.specs.Blocks.{AreWords, nothing, word};
ghost use Rattle.rom_block.specs.Levels.{AreForNodes, IsMarked, AreNodesBelow, AreExpected};
ghost use Rattle.rom_block.specs.Walk.{HoldsTree, IsNodeOf};
ghost use Rattle.rom_block.specs.Taken.{among, AreBlocks, DiffersFirst};

use crate::blocks::Taken;
use crate::node::{join, node_at};
use rom_model::{TREE, power_of_two};
use std::alloc::{AllocError, Global};

/// Marks the nodes of taken blocks.
fn mark_nodes(order: u32, taken: &[Taken], marks: &mut [bool])
    requires most { order ≤ 16 }
    requires blocks { AreBlocks order taken.now }
    requires len { length marks.old ≡ 2 * 2 ^ order }
    requires bare { IsMarked nothing marks.old }
    ensures marked { IsMarked (among order taken.now) marks.new }
    ensures len { length marks.new ≡ length marks.old }
{
    for block in taken {
        let node = node_at(order, block.at, block.order);
        marks[node as usize] = true;
    }
}

/// The word of a node, from those of its halves. The node has that order.
fn node_word(order: u32, level: u32, marks: &[bool], words: &[u64], node: u64) -> u64
    requires sized { AreForNodes order marks.now words.now }
    requires node { IsNodeOf order level node }
    ensures { (taken : ℕ → Bool) → IsMarked taken marks.now → AreNodesBelow order taken level words.now
        → result ≡ word taken level node }
{
    if marks[node as usize] {
        return 0;
    }
    if level == 0 {
        return 1;
    }
    let left = 2 * node as usize;
    join(level - 1, words[left], words[left + 1])
}

/// Fills in the words of the nodes of one order, from those of lower orders.
fn fill_level(order: u32, level: u32, marks: &[bool], words: &mut [u64])
    requires sized { AreForNodes order marks.now words.old }
    requires level { level ≤ order }
    ensures filled { (taken : ℕ → Bool) → IsMarked taken marks.now
        → AreNodesBelow order taken level words.old → AreNodesBelow order taken (level + 1) words.new }
    ensures sized { AreForNodes order marks.now words.new }
{
    let first = power_of_two(order - level);
    for node in first..2 * first {
        let word = node_word(order, level, marks, words, node);
        words[node as usize] = word;
    }
}

/// Fills in the words of all nodes, those of the units first.
fn fill_levels(order: u32, marks: &[bool], words: &mut [u64])
    requires sized { AreForNodes order marks.now words.old }
    ensures filled { (taken : ℕ → Bool) → IsMarked taken marks.now
        → AreExpected order taken words.new }
    ensures sized { AreForNodes order marks.now words.new }
{
    for level in 0..order + 1 {
        fill_level(order, level, marks, words);
    }
}

/// Marks of the nodes of these taken blocks, by the numbers of the nodes.
pub fn marked(alloc: Global, order: u32, taken: &[Taken]) -> Result<Vec<bool>, AllocError>
    requires most { order ≤ 16 }
    requires blocks { AreBlocks order taken.now }
    ensures marks { IfOk result (λ marks. IsMarked (among order taken.now) marks.items) }
    ensures len { IfOk result (λ marks. length marks.items ≡ 2 * 2 ^ order) }
{
    let mut marks = vec![in alloc; false; 2 * power_of_two(order) as usize]?;
    mark_nodes(order, taken, &mut marks);
    Ok(marks)
}

/// The words of the tree for the taken blocks whose nodes are marked, by the numbers of the nodes.
pub fn expected_words(alloc: Global, order: u32, marks: &[bool]) -> Result<Vec<u64>, AllocError>
    requires most { order ≤ 16 }
    requires marks { length marks.now ≡ 2 * 2 ^ order }
    ensures words { (taken : ℕ → Bool) → IsMarked taken marks.now
        → IfOk result (λ words. AreExpected order taken words.items) }
    ensures len { IfOk result (λ words. length words.items ≡ 2 * 2 ^ order) }
{
    let mut words = vec![in alloc; 0; 2 * power_of_two(order) as usize]?;
    fill_levels(order, marks, &mut words);
    Ok(words)
}

/// The offset of the first word of a region's tree that is another than the one it must hold.
pub fn first_difference(region: &[u64], order: u32, words: &[u64]) -> Option<u64>
    requires tree { HoldsTree order region.now }
    requires words { length words.now ≡ 2 * 2 ^ order }
    ensures { (taken : ℕ → Bool) → AreExpected order taken words.now
        → MatchOption result (AreWords order taken region.now)
        (DiffersFirst order taken region.now) }
{
    for node in 1..2 * power_of_two(order) {
        if region[(TREE + node) as usize] != words[node as usize] {
            return Some(TREE + node);
        }
    }
    None
}
