//! The inspection of a whole region.
ghost use Rattle.std.specs.Prelude.{◌≡◌, [], length, IfOk, IfErr, OnOk, ℕ};
ghost use Rattle.rom_model.specs.Blocks.{IsOrder, region_len};
ghost use Rattle.rom_model.specs.Region.{buckets};
ghost use Rattle.rom_model.specs.Inspected.{IsReason};
ghost use Rattle.rom_model.specs.Tests.{checked};
ghost use Rattle.rom_model.specs.declared.unfit.Unfit.{Unfit};
ghost use Rattle.rom_blob_region.specs.State.{BlobState};
ghost use Rattle.rom_blob_region.specs.Region.{BlobContents};
ghost use Rattle.rom_blob_region.specs.Tests.{blob_root_tests};
ghost use Rattle.rom_blob_region.specs.Walks.{AreBlobMarks};
ghost use Rattle.rom_blob_region.specs.Parts.{AnswersBlobWalks, AnswersKeys};
ghost use Rattle.rom_blob_region.specs.Answers.{RejectsBlobs, AreBlobsInspected};

use crate::KEYS;
use crate::inspect::walk::walk_bucket;
use rom_block::{Blocks, check, check_word, check_zeros};
use rom_model::{
    Break, COUNT, KIND, LAST_COUNT, Rule, TABLE, TREE, Unfit, VERSION, blocks_at, power_of_two,
};
use std::alloc::{AllocError, Global};

/// The node of the bucket table in the tree of each region.
const TABLE_NODE: usize = 16;

/// Marks of the nodes of the tree, of which the bucket table's alone is marked.
fn table_marks(alloc: Global, order: u32) -> Result<Vec<bool>, AllocError>
    requires order { IsOrder order }
    ensures { IfOk result (λ marks. AreBlobMarks order [] marks.items) }
{
    let mut marks = vec![in alloc; false; 2 * power_of_two(order) as usize]?;
    marks[TABLE_NODE] = true;
    Ok(marks)
}

/// Tests the words up to the tree but for the number of keys.
fn inspect_root(region: &[u64], order: u32) -> Result<(), Break>
    requires order { IsOrder order }
    requires sized { length region.now ≡ region_len order }
    ensures { result ≡ checked (blob_root_tests order region.now) }
{
    check_word(region, KIND, Rule::Root, 2)?;
    check_word(region, VERSION, Rule::Root, 1)?;
    check(region[COUNT as usize] <= LAST_COUNT, COUNT, Rule::Root)?;
    check_zeros(region, KEYS + 1, TABLE - KEYS - 1, Rule::Root)?;
    check_word(region, TABLE, Rule::Root, blocks_at(order))?;
    check_zeros(region, TABLE + 1, TREE - TABLE, Rule::Root)
}

/// Walks along the chains of all buckets, and counts their nodes.
fn inspect_buckets(region: &[u64], order: u32, marks: &mut [bool]) -> Result<u64, Break>
    requires order { IsOrder order }
    requires sized { length region.now ≡ region_len order }
    requires marks { AreBlobMarks order [] marks.old }
    ensures { AnswersBlobWalks order region.now (buckets order) result marks.new }
{
    let mut count = 0;
    for number in 0..power_of_two(order - 2) {
        count += walk_bucket(region, order, number, marks)?;
    }
    Ok(count)
}

/// Tests the root words and the keys of all buckets, and marks the blocks that it reaches.
fn inspect_keys(region: &[u64], order: u32, marks: &mut [bool]) -> Result<(), Break>
    requires order { IsOrder order }
    requires sized { length region.now ≡ region_len order }
    requires marks { AreBlobMarks order [] marks.old }
    ensures { AnswersKeys order region.now result marks.new }
{
    inspect_root(region, order)?;
    let count = inspect_buckets(region, order, marks)?;
    check_word(region, KEYS, Rule::Count, count)
}

/// The whole inspection, as far as there is memory.
fn inspect_all(alloc: Global, region: &[u64], order: u32) -> Result<(), Unfit>
    requires order { IsOrder order }
    requires sized { length region.now ≡ region_len order }
    ensures { AreBlobsInspected order region.now result }
{
    let Ok(mut marks) = table_marks(alloc, order) else {
        return Err(Unfit::OutOfMemory);
    };
    inspect_keys(region, order, &mut marks)?;
    Blocks::inspect_marked(alloc, region, order, &marks)
}

/// Whether the words are a well-formed region of that order. Else it names the first test that does not
/// hold, by the word's offset from the region's start and the rule that it breaks. It takes memory for a
/// mark and a word a node of the allocator's tree. `OutOfMemory` says that there was none, and then
/// nothing is known of the words.
pub fn inspect_blobs(alloc: Global, region: &[u64], order: u32) -> Result<(), Unfit>
    requires order { IsOrder order }
    requires sized { length region.now ≡ region_len order }
    // `Ok` tells that the words are a well-formed region.
    ensures fit { OnOk result ((s : BlobState) × (k : ℕ) × BlobContents order region.now s k) }
    // Any error but `OutOfMemory` is true of the words.
    ensures reason { IfErr result (IsReason (RejectsBlobs order region.now)) }
    // Words that are rejected stand for no state.
    ensures refused { (e : Unfit) → RejectsBlobs order region.now e → (s : BlobState) (k : ℕ)
        → BlobContents order region.now s k → ⊥ }
    // Words are rejected for at most one reason.
    ensures one { (e d : Unfit) → RejectsBlobs order region.now e → RejectsBlobs order region.now d → e ≡ d }
{
    inspect_all(alloc, region, order)
}
