//! The inspection of a region.
ghost use Rattle.std.specs.Prelude.{IfErr, IfOk, OnOk, replicate, false, nat_le, ◌≡◌, ◌≢◌, ℕ, ◌+◌, ◌-◌, ◌*◌, ◌^◌, ◌<◌, ◌≤◌, ◌&&◌, List, [], length, MatchOption, MatchResult, slice_index};
ghost use Rattle.rom_model.specs.Blocks.{IsOrder, region_len};
ghost use Rattle.rom_model.specs.Tests.{checked};
ghost use Rattle.rom_model.specs.declared.unfit.Rule.TheVariants.{Link};
ghost use Rattle.rom_model.specs.Inspected.{IsReason};
ghost use Rattle.rom_model.specs.declared.unfit.Unfit.{Unfit};
ghost use Rattle.rom_order_region.specs.Nodes.{node_at};
ghost use Rattle.rom_order_region.specs.Tree.{Tree, height};
ghost use Rattle.rom_order_region.specs.Inspection.{most_levels, LeadsToNode, is_over, is_under, entry_tests, height_tests, index_root_tests, RejectsIndex};
ghost use Rattle.rom_order_region.specs.State.{Pairs};
ghost use Rattle.rom_order_region.specs.Region.{IndexContents};
ghost use Rattle.rom_order_region.specs.Marks.{AreNodeMarks, AreSomeNodeMarks, Leads, AnswersSub, AnswersNodes, IsIndexInspected};

use crate::fresh::ORDERED;
use crate::root::{SIZE, TOP};
use crate::tree::{HEIGHT, LEFT, RIGHT, ZEROS};
use rom_block::{Blocks, check, check_word, check_zeros};
use rom_model::{
    Break, COUNT, KIND, LAST_COUNT, Rule, TREE, Unfit, VERSION, blocks_at, power_of_two,
};
use std::alloc::{AllocError, Global};

/// What is known of a subtree that was walked.
#[derive(Clone, Copy)]
pub struct Reached {
    pub height: u64,
    /// How many nodes it has.
    pub count: u64,
}

/// The number of the block of two units that begins there. The offset is in words from the region's
/// start.
fn pair_at(order: u32, offset: u64) -> Option<u64>
    requires order { IsOrder order }
    ensures { MatchOption result ((b : ℕ) → b < 2 ^ (order - 1) → offset ≢ node_at order b)
        (λ b. (offset ≡ node_at order b) × (b < 2 ^ (order - 1))) }
{
    let first = blocks_at(order);
    if offset < first || (offset - first) % 8 != 0 {
        return None;
    }
    let pair = (offset - first) / 8;
    if pair >= power_of_two(order - 1) {
        return None;
    }
    Some(pair)
}

/// Where the node begins that the link at that offset leads to, whose block was not reached before.
/// It is marked. After an `Err` the marks are as they were.
fn follow(region: &[u64], order: u32, link: u64, marks: &mut [bool]) -> Result<u64, Break>
    requires order { IsOrder order }
    requires link { link < length region.now }
    requires marks { AreSomeNodeMarks order marks.old }
    ensures { (seen : List ℕ) → AreNodeMarks order seen marks.old → MatchResult result
        (λ node. Leads order region.now seen link node marks.new)
        (λ e. ((b : ℕ) → LeadsToNode order region.now seen link b → ⊥)
        × (e ≡ record { offset = link; rule = Link })) }
{
    let node = region[link as usize];
    let broken = Break {
        offset: link,
        rule: Rule::Link,
    };
    let Some(pair) = pair_at(order, node) else {
        return Err(broken);
    };
    let place = (power_of_two(order - 1) + pair) as usize;
    if marks[place] {
        return Err(broken);
    }
    marks[place] = true;
    Ok(node)
}

/// Whether a key lies between the two, where there are such.
fn is_between(key: u64, low: Option<u64>, high: Option<u64>) -> bool
    ensures { result ≡ (is_over low key && is_under high key) }
{
    let over = match low {
        Some(low) => low < key,
        None => true,
    };
    let under = match high {
        Some(high) => key < high,
        None => true,
    };
    over && under
}

/// Tests the zeros of the node that begins there, and its key.
fn inspect_entry(
    region: &[u64],
    order: u32,
    node: u64,
    low: Option<u64>,
    high: Option<u64>,
) -> Result<(), Break>
    requires within { node + 8 ≤ length region.now }
    requires small { length region.now ≤ 393232 }
    ensures { (b : ℕ) → node ≡ node_at order b
        → result ≡ checked (entry_tests order region.now low high b) }
{
    check_zeros(region, node + ZEROS, 3, Rule::Pad)?;
    check(
        is_between(region[node as usize], low, high),
        node,
        Rule::Order,
    )
}

/// Whether two heights differ by at most one.
fn are_even(left: u64, right: u64) -> bool
    requires left { left ≤ 32768 }
    requires right { right ≤ 32768 }
    ensures { result ≡ (nat_le left (right + 1) && nat_le right (left + 1)) }
{
    left <= right + 1 && right <= left + 1
}

/// Tests the height of the node that begins there, by those of its two subtrees, and their balance.
fn inspect_height(region: &[u64], order: u32, node: u64, left: u64, right: u64) -> Result<(), Break>
    requires within { node + 8 ≤ length region.now }
    requires small { length region.now ≤ 393232 }
    requires left { left ≤ 32768 }
    requires right { right ≤ 32768 }
    ensures { (b : ℕ) (l r : Tree) → node ≡ node_at order b → left ≡ height l → right ≡ height r
        → result ≡ checked (height_tests order region.now b l r) }
{
    check_word(region, node + HEIGHT, Rule::Count, left.max(right) + 1)?;
    check(are_even(left, right), node + HEIGHT, Rule::Ends)
}

/// Walks a subtree from the link at that offset on, so many levels above the one where a link must be
/// 0, and marks its nodes. Its keys must lie between the two.
fn inspect_subtree(
    region: &[u64],
    order: u32,
    levels: u32,
    link: u64,
    low: Option<u64>,
    high: Option<u64>,
    marks: &mut [bool],
) -> Result<Reached, Break>
    requires order { IsOrder order }
    requires sized { length region.now ≡ region_len order }
    requires link { link < length region.now }
    requires marks { AreSomeNodeMarks order marks.old }
    ensures { (seen : List ℕ) → AreNodeMarks order seen marks.old
        → AnswersSub levels order region.now seen link low high result marks.new }
{
    if levels == 0 {
        check_word(region, link, Rule::Link, 0)?;
        return Ok(Reached {
            height: 0,
            count: 0,
        });
    }
    if region[link as usize] == 0 {
        return Ok(Reached {
            height: 0,
            count: 0,
        });
    }
    let node = follow(region, order, link, marks)?;
    inspect_entry(region, order, node, low, high)?;
    let key = Some(region[node as usize]);
    let left = inspect_subtree(region, order, levels - 1, node + LEFT, low, key, marks)?;
    let right = inspect_subtree(region, order, levels - 1, node + RIGHT, key, high, marks)?;
    inspect_height(region, order, node, left.height, right.height)?;
    Ok(Reached {
        height: left.height.max(right.height) + 1,
        count: left.count + right.count + 1,
    })
}

/// The most levels of nodes that an inspection follows: on the last of them each link must be 0. It may trust
/// no height, so it counts levels. A balanced tree has at most 21 levels, at order 16.
#[tactic(auto, unfolding(crate::specs::Inspection::most_levels))]
fn levels() -> u32
    ensures { result ≡ most_levels }
{
    25
}

/// Tests the root words but those of the tree.
fn inspect_root(region: &[u64], order: u32) -> Result<(), Break>
    requires order { IsOrder order }
    requires sized { length region.now ≡ region_len order }
    ensures { result ≡ checked (index_root_tests region.now) }
{
    check_word(region, KIND, Rule::Root, ORDERED)?;
    check_word(region, VERSION, Rule::Root, 1)?;
    check(region[COUNT as usize] <= LAST_COUNT, COUNT, Rule::Root)?;
    check_zeros(region, SIZE + 1, TREE - SIZE, Rule::Root)
}

/// Walks the tree, and tests the size.
fn inspect_nodes(region: &[u64], order: u32, marks: &mut [bool]) -> Result<(), Break>
    requires order { IsOrder order }
    requires sized { length region.now ≡ region_len order }
    requires marks { AreNodeMarks order [] marks.old }
    ensures { AnswersNodes order region.now result marks.new }
{
    inspect_root(region, order)?;
    let reached = inspect_subtree(region, order, levels(), TOP, None, None, marks)?;
    check_word(region, SIZE, Rule::Count, reached.count)
}

/// No marks, one for each node of the allocator's tree.
fn no_marks(alloc: Global, order: u32) -> Result<Vec<bool>, AllocError>
    requires order { IsOrder order }
    ensures { IfOk result (λ marks. marks.items ≡ replicate (2 * 2 ^ order) false) }
{
    vec![in alloc; false; 2 * power_of_two(order) as usize]
}

/// Whether the words are a well-formed region of that order. Else it names the first test that does
/// not hold.
fn inspect_words(alloc: Global, region: &[u64], order: u32) -> Result<(), Unfit>
    requires order { IsOrder order }
    requires sized { length region.now ≡ region_len order }
    ensures { IsIndexInspected order region.now result }
{
    let Ok(mut marks) = no_marks(alloc, order) else {
        return Err(Unfit::OutOfMemory);
    };
    inspect_nodes(region, order, &mut marks)?;
    Blocks::inspect_marked(alloc, region, order, &marks)
}

/// Whether the words are a well-formed region of that order. Else it names the first test that does
/// not hold. It takes memory for a mark and a word a node of the allocator's tree. `OutOfMemory` says
/// that there was none, and then nothing is known of the words.
pub fn inspect_order(alloc: Global, region: &[u64], order: u32) -> Result<(), Unfit>
    requires order { IsOrder order }
    requires sized { length region.now ≡ region_len order }
    ensures fit { OnOk result ((s : Pairs) × (k : ℕ) × IndexContents order region.now s k) }
    ensures reason { IfErr result (IsReason (RejectsIndex order region.now)) }
    // A region that some test rejects stands for no map.
    ensures refused { (e : Unfit) → RejectsIndex order region.now e → (s : Pairs) (k : ℕ)
        → IndexContents order region.now s k → ⊥ }
    ensures one { (e d : Unfit) → RejectsIndex order region.now e → RejectsIndex order region.now d → e ≡ d }
{
    inspect_words(alloc, region, order)
}
