//! The inspection of a whole region.
ghost use Rattle.std.specs.Prelude.{◌≡◌, ◌↔◌, [], length, slice_index, Err, IfOk, IfErr, OnOk};
ghost use Rattle.rom_model.specs.Blocks.{IsOrder, region_len};
ghost use Rattle.rom_model.specs.Inspected.{IsReason};
ghost use Rattle.rom_model.specs.Region.{IsWellFormed};
ghost use Rattle.rom_model.specs.declared.unfit.Unfit.{Unfit};
ghost use Rattle.rom_model.specs.declared.unfit.Unfit.TheVariants.{Old};
ghost use Rattle.rom_heap.specs.Answers.{Rejects, OldRejects, IsOldWellFormed, IsInspected};
ghost use Rattle.rom_heap.specs.Walks.{AreMarks};
ghost use Rattle.rom_heap.specs.Parts.{Structures, AnswersPart};

use crate::inspect::parts::{inspect_map, inspect_queue, inspect_root, inspect_set};
use crate::inspect::version::Version;
use rom_block::Blocks;
use rom_model::{Break, KIND, Unfit, VERSION, power_of_two};
use std::alloc::{AllocError, Global};

/// The node of the bucket table in the tree of each region.
const TABLE_NODE: usize = 16;

/// Marks of the nodes of the tree, of which the bucket table's alone is marked.
fn table_marks(alloc: Global, order: u32) -> Result<Vec<bool>, AllocError>
    requires order { IsOrder order }
    ensures { IfOk result (λ marks. AreMarks order [] marks.items) }
{
    let mut marks = vec![in alloc; false; 2 * power_of_two(order) as usize]?;
    marks[TABLE_NODE] = true;
    Ok(marks)
}

/// Tests the root words, walks along all chains, and marks the nodes that it reaches.
fn inspect_structures(
    version: Version,
    region: &[u64],
    order: u32,
    marks: &mut [bool],
) -> Result<(), Break>
    requires order { IsOrder order }
    requires sized { length region.now ≡ region_len order }
    requires marks { AreMarks order [] marks.old }
    ensures { AnswersPart order (Structures version order region.now) result marks.new }
{
    inspect_root(version, region, order)?;
    inspect_queue(region, order, marks)?;
    inspect_set(region, order, marks)?;
    inspect_map(version, region, order, marks)
}

/// Whether the words are a well-formed region of that order, in that version. Else it names the first
/// test that does not hold.
fn inspect_as(version: Version, alloc: Global, region: &[u64], order: u32) -> Result<(), Unfit>
    requires order { IsOrder order }
    requires sized { length region.now ≡ region_len order }
    ensures { IsInspected version order region.now result }
{
    let Ok(mut marks) = table_marks(alloc, order) else {
        return Err(Unfit::OutOfMemory);
    };
    inspect_structures(version, region, order, &mut marks)?;
    Blocks::inspect_marked(alloc, region, order, &marks)
}

/// Whether the words are a well-formed region of that order. Else it names the first test that does
/// not hold, by the word's offset from the region's start and the rule that it breaks. Words that say
/// that they are a region of version 1 are `Old`, before any other test and before it takes memory.
/// It takes memory for a mark and a word a node of the allocator's tree. `OutOfMemory` says that there
/// was none, and then nothing is known of the words but that they are not `Old`.
pub fn inspect(alloc: Global, region: &[u64], order: u32) -> Result<(), Unfit>
    requires order { IsOrder order }
    requires sized { length region.now ≡ region_len order }
    // `Old` comes exactly where the words 0 and 1 are both 1, whether or not memory is short.
    ensures old { (result ≡ Err Old)
        ↔ ((slice_index region.now 0 ≡ 1) × (slice_index region.now 1 ≡ 1)) }
    // `Ok` comes of a well-formed region alone.
    ensures fit { OnOk result (IsWellFormed order region.now) }
    // A refusal but `OutOfMemory` is the reason why the words are rejected.
    ensures reason { IfErr result (IsReason (Rejects order region.now)) }
    // Words for whose rejection there is a reason are no well-formed region.
    ensures refused { (e : Unfit) → Rejects order region.now e → IsWellFormed order region.now
        → ⊥ }
    // There is at most one reason to reject the words.
    ensures one { (e d : Unfit) → Rejects order region.now e → Rejects order region.now d → e ≡ d }
{
    if region[KIND as usize] == 1 && region[VERSION as usize] == 1 {
        return Err(Unfit::Old);
    }
    inspect_as(Version::Now, alloc, region, order)
}

/// Whether the words are a well-formed region of version 1 of that order. Else it names the first test
/// that does not hold, as `inspect` does, and it never answers `Old`: the upgrade asks it of words of
/// which `inspect` said so. After `OutOfMemory` nothing is known of the words.
pub fn inspect_old(alloc: Global, region: &[u64], order: u32) -> Result<(), Unfit>
    requires order { IsOrder order }
    requires sized { length region.now ≡ region_len order }
    // `Ok` comes of a well-formed region of version 1 alone.
    ensures fit { OnOk result (IsOldWellFormed order region.now) }
    // A refusal but `OutOfMemory` is the reason why the words are rejected. `Old` never is one.
    ensures reason { IfErr result (IsReason (OldRejects order region.now)) }
    // Words for whose rejection there is a reason are no well-formed region of version 1.
    ensures refused { (e : Unfit) → OldRejects order region.now e
        → IsOldWellFormed order region.now → ⊥ }
    // There is at most one reason to reject the words.
    ensures one { (e d : Unfit) → OldRejects order region.now e → OldRejects order region.now d
        → e ≡ d }
{
    inspect_as(Version::Old, alloc, region, order)
}
