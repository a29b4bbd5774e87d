//! The parts of the inspection before the tree: the root words, the queue, the set and the map.
ghost use Rattle.std.specs.Prelude.{◌≡◌, ℕ, List, length};
ghost use Rattle.rom_model.specs.Blocks.{IsOrder, region_len};
ghost use Rattle.rom_model.specs.Region.{buckets};
ghost use Rattle.rom_model.specs.Tests.{checked};
ghost use Rattle.rom_heap.specs.Tests.{root_tests};
ghost use Rattle.rom_heap.specs.Walks.{bucket_walk, AreMarks, AreSomeMarks};
ghost use Rattle.rom_heap.specs.Parts.{Queue, Set, Map, IsPart, AnswersWalks};

use crate::inspect::version::Version;
use crate::inspect::walk::Walk;
use rom_block::{check, check_word, check_zeros};
use rom_model::{
    Break, COUNT, KIND, LAST_COUNT, MAP_LEN, QUEUE_LEN, QUEUE_TAIL, Rule, SET_LEN, TABLE, TREE,
    VERSION, blocks_at, power_of_two,
};

/// Tests the words up to the tree that belong to none of the structures.
pub fn inspect_root(version: Version, region: &[u64], order: u32) -> Result<(), Break>
    requires order { IsOrder order }
    requires sized { length region.now ≡ region_len order }
    ensures { result ≡ checked (root_tests version order region.now) }
{
    check_word(region, KIND, Rule::Root, 1)?;
    check_word(region, VERSION, Rule::Root, version.number())?;
    check(region[COUNT as usize] <= LAST_COUNT, COUNT, Rule::Root)?;
    check_word(region, TABLE, Rule::Root, blocks_at(order))?;
    check_zeros(region, MAP_LEN + 1, TREE - MAP_LEN, Rule::Root)
}

/// Walks along the queue, and tests its tail and its length.
pub fn inspect_queue(region: &[u64], order: u32, marks: &mut [bool]) -> Result<(), Break>
    requires order { IsOrder order }
    requires sized { length region.now ≡ region_len order }
    requires marks { AreSomeMarks order marks.old }
    ensures { IsPart order (Queue order region.now) marks.old result marks.new }
{
    let reached = Walk::Queue.go(region, order, marks)?;
    check_word(region, QUEUE_TAIL, Rule::Ends, reached.last)?;
    check_word(region, QUEUE_LEN, Rule::Count, reached.count)
}

/// Walks along the set, and tests its size.
pub fn inspect_set(region: &[u64], order: u32, marks: &mut [bool]) -> Result<(), Break>
    requires order { IsOrder order }
    requires sized { length region.now ≡ region_len order }
    requires marks { AreSomeMarks order marks.old }
    ensures { IsPart order (Set order region.now) marks.old result marks.new }
{
    let reached = Walk::Set.go(region, order, marks)?;
    check_word(region, SET_LEN, Rule::Count, reached.count)
}

/// Walks along the chains of all buckets, and counts their nodes.
fn inspect_buckets(
    version: Version,
    region: &[u64],
    order: u32,
    marks: &mut [bool],
) -> Result<u64, Break>
    requires order { IsOrder order }
    requires sized { length region.now ≡ region_len order }
    requires marks { AreSomeMarks order marks.old }
    ensures { (seen : List ℕ) → AreMarks order seen marks.old
        → AnswersWalks order region.now (bucket_walk version) seen (buckets order) result
        marks.new }
{
    let mut count = 0;
    for number in 0..power_of_two(order - 2) {
        let reached = version.bucket(number).go(region, order, marks)?;
        count += reached.count;
    }
    Ok(count)
}

/// Walks along the chains of all buckets, and tests the map's size.
pub fn inspect_map(
    version: Version,
    region: &[u64],
    order: u32,
    marks: &mut [bool],
) -> Result<(), Break>
    requires order { IsOrder order }
    requires sized { length region.now ≡ region_len order }
    requires marks { AreSomeMarks order marks.old }
    ensures { IsPart order (Map version order region.now) marks.old result marks.new }
{
    let count = inspect_buckets(version, region, order, marks)?;
    check_word(region, MAP_LEN, Rule::Count, count)
}
