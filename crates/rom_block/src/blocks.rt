//! The allocator of a region's blocks.
ghost use Rattle.std.specs.Prelude.{◌≡◌, ℕ, ◌+◌, ◌-◌, ◌*◌, ◌^◌, ◌≤◌, Bool, true, false, length, MatchOption, IfNone, slice_index};
ghost use Rattle.rom_model.specs.Space.{Costs, Looks, HasRoom, IsSparing, ChangesOnly};
ghost use Rattle.rom_model.specs.Blocks.{IsOrder, IsNode, AreWords, IsDisjoint, NoneFree, IsGreatest, nothing, giving, block_at, region_len};
ghost use Rattle.rom_block.specs.Levels.{IsMarked};
ghost use Rattle.rom_block.specs.Walk.{ChangesTree};
ghost use Rattle.rom_block.specs.Taken.{Takes, IsSomeTree, IsTakenAt, among, AreBlocks, IsTreeAnswer};

use crate::expected::{expected_words, first_difference, marked};
use crate::fresh::fill_depth;
use crate::node::{node_at, offset};
use crate::tree::{find, replace};
use rom_model::{Look, Rule, Space, TREE, Unfit};
use std::alloc::Global;

/// A block that is taken.
#[derive(Clone, Copy, Debug, PartialEq, Eq)]
pub struct Taken {
    /// Where it begins, in words from the region's start.
    pub at: u64,
    /// It has 2 to this power units, of four words each.
    pub order: u32,
}

/// The allocator of a region of order 4 to 16, which has 2^order units of four words each. Its
/// calls store to the words 17 to 16 + 2 * 2^order - 1 alone, which are the tree; `format` stores 0
/// to word 16 too. A block of the order `want` is 2^want neighbouring units, the first of which has
/// a number that 2^want divides.
///
/// In the clauses a set of taken blocks is a test, which says of each node of the tree whether its block is
/// taken. A clause that begins with `(taken : ℕ → Bool)` speaks of every set of disjoint blocks whose words
/// the tree holds. There is at most one, so a caller may read the clause for the set that it has in mind.
pub struct Blocks;

impl Blocks {
    /// Makes all blocks free. A new region begins so, before its bucket table is taken.
    pub fn format<M: Space>(space: &mut M, order: u32)
        requires order { IsOrder order }
        requires sized { length (M.shown.image space.old) ≡ region_len order }
        requires free { M.shown.has_limit ≡ false }
        // The tree's words are those of a region in which no block is taken.
        ensures words { AreWords order nothing (M.shown.image space.new) }
        ensures zero { slice_index (M.shown.image space.new) 16 ≡ 0 }
        // No word differs but those of the tree and the one before them.
        ensures others { ChangesOnly 16 (2 * 2 ^ order) (M.shown.image space.old)
            (M.shown.image space.new) }
        ensures costs { Costs M.shown 0 (2 * 2 ^ order) space.old space.new }
    {
        space.store(TREE, 0);
        for depth in 0..order + 1 {
            fill_depth(space, order, depth);
        }
    }

    /// Takes the first free block of an order, and tells where it begins, in words from the
    /// region's start. `None` where no block of the order is free; then nothing is stored.
    pub fn take<M: Space>(space: &mut M, order: u32, want: u32) -> Option<u64>
        requires order { IsOrder order }
        requires sized { length (M.shown.image space.old) ≡ region_len order }
        requires want { want ≤ order }
        requires blocks { IsSomeTree order (M.shown.image space.old) }
        requires room { HasRoom M.shown (order + 1) space.old }
        // The first free block of the order begins where the answer says, and is taken then. The answer is
        // `None` exactly where no block of the order is free.
        ensures taken { (taken : ℕ → Bool) → IsDisjoint order taken
            → AreWords order taken (M.shown.image space.old)
            → MatchOption result (NoneFree order taken want)
            (Takes order want taken (M.shown.image space.new)) }
        // After `None` the words are as they were.
        ensures none { IfNone result (Looks M.shown (order + 1) space.old space.new) }
        // No word differs but those of the tree.
        ensures others { ChangesTree M.shown order space.old space.new }
        ensures costs { Costs M.shown (3 * order + 1) (order + 1) space.old space.new }
        // No more stores are counted than words differ afterwards.
        ensures sparing { IsSparing M.shown space.old space.new }
    {
        let node = find(space, order, want)?;
        replace(space, order, node, want, 0);
        Some(offset(order, node, want))
    }

    /// Gives back the block that begins there, in words from the region's start, and was taken as
    /// one of the order `want`. Halves that are both free are one free block again.
    pub fn give<M: Space>(space: &mut M, order: u32, at: u64, want: u32)
        requires order { IsOrder order }
        requires sized { length (M.shown.image space.old) ≡ region_len order }
        requires want { want ≤ order }
        requires taken { IsTakenAt order want at (M.shown.image space.old) }
        requires room { HasRoom M.shown (order + 1) space.old }
        // The tree is then that of all taken blocks but this one.
        ensures given { (taken : ℕ → Bool) (x : ℕ) → IsDisjoint order taken
            → AreWords order taken (M.shown.image space.old)
            → IsNode (order - want) x → at ≡ block_at order want x → taken x ≡ true
            → IsDisjoint order (giving x taken)
            × AreWords order (giving x taken) (M.shown.image space.new) }
        // No word differs but those of the tree.
        ensures others { ChangesTree M.shown order space.old space.new }
        ensures costs { Costs M.shown (2 * order) (order + 1) space.old space.new }
        // No more stores are counted than words differ afterwards.
        ensures sparing { IsSparing M.shown space.old space.new }
    {
        let node = node_at(order, at, want);
        replace(space, order, node, want, want as u64 + 1);
    }

    /// The greatest order of a free block. `None` where no block is free.
    pub fn largest_free<M: Look>(space: &mut M, order: u32) -> Option<u32>
        requires order { IsOrder order }
        requires sized { length (M.shown.image space.old) ≡ region_len order }
        requires blocks { IsSomeTree order (M.shown.image space.old) }
        // The answer is the greatest order that has a free block, and `None` exactly where no order has one.
        ensures greatest { (taken : ℕ → Bool) → IsDisjoint order taken
            → AreWords order taken (M.shown.image space.old)
            → MatchOption result ((j : ℕ) → j ≤ order → NoneFree order taken j)
            (IsGreatest order taken) }
        ensures looks { Looks M.shown 1 space.old space.new }
    {
        let word = space.load(TREE + 1);
        if word == 0 {
            return None;
        }
        Some((word - 1) as u32)
    }

    /// Whether the tree of a whole region has the words of these taken blocks. Else it names the
    /// first that is another. It takes memory for two entries a node, and where there is none
    /// nothing is known of the region.
    pub fn inspect(alloc: Global, region: &[u64], order: u32, taken: &[Taken]) -> Result<(), Unfit>
        requires order { IsOrder order }
        requires sized { length region.now ≡ region_len order }
        requires blocks { AreBlocks order taken.now }
        requires apart { IsDisjoint order (among order taken.now) }
        // `Ok`: the tree has the words of these blocks. `Malformed`: the offset of its first word that has
        // not.
        ensures { IsTreeAnswer order (among order taken.now) region.now result }
    {
        let Ok(marks) = marked(alloc, order, taken) else {
            return Err(Unfit::OutOfMemory);
        };
        Blocks::inspect_marked(alloc, region, order, &marks)
    }

    /// The same for the taken blocks whose nodes are marked, by the numbers of the nodes, so that a
    /// caller that has marked them needs no list of them. It takes memory for one entry a node.
    pub fn inspect_marked(
        alloc: Global,
        region: &[u64],
        order: u32,
        marks: &[bool],
    ) -> Result<(), Unfit>
        requires order { IsOrder order }
        requires sized { length region.now ≡ region_len order }
        requires marks { length marks.now ≡ 2 * 2 ^ order }
        ensures { (taken : ℕ → Bool) → IsMarked taken marks.now
            → IsTreeAnswer order taken region.now result }
    {
        let Ok(words) = expected_words(alloc, order, marks) else {
            return Err(Unfit::OutOfMemory);
        };
        match first_difference(region, order, &words) {
            None => Ok(()),
            Some(offset) => Err(Unfit::Malformed {
                offset,
                rule: Rule::Tree,
            }),
        }
    }
}
