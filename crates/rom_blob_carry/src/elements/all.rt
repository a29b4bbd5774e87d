//! All elements of a region.
ghost use Rattle.std.specs.Prelude.{◌≡◌, ◌++◌, ℕ, OnOk};
ghost use Rattle.std.specs.List.{AllByRecursion};
ghost use Rattle.rom_model.specs.Blocks.{IsOrder};
ghost use Rattle.rom_model.specs.VecSpace.{words_of_space};
ghost use Rattle.rom_blob_region.specs.State.{BlobState};
ghost use Rattle.rom_blob_region.specs.Region.{BlobContents};
ghost use Rattle.rom_blob_carry.specs.Elements.{EntryFits, entries_in, all_sized};

use crate::elements::kept::Kept;
use crate::elements::keys::collect_keys;
use crate::elements::sized::collect_sized;
use rom_blob_region::KEYS;
use rom_model::VecSpace;
use std::alloc::{AllocError, Global};

/// The elements of a region: its keys with their bytes. Those whose bytes have large blocks come first, and
/// where the blocks have one size the keys rise.
///
/// In this order each finds room in a new heap. In another one a large block might find none, though as many units
/// are free as it has.
#[derive(Drop)]
pub struct BlobElements {
    kept: Vec<Kept>,
}

/// Puts these keys with their bytes behind the elements that are there. Those come first whose bytes have large
/// blocks: of 8 units, of 4, of 2 and of 1, and then those that have none.
fn collect_all(
    alloc: Global,
    space: &mut VecSpace,
    order: u32,
    keys: &[u64],
    into: &mut Vec<Kept>,
) -> Result<(), AllocError>
    requires order { IsOrder order }
    requires region { (s : BlobState) × (k : ℕ) × BlobContents order (words_of_space space.old) s k }
    ensures collected { OnOk result ((s : BlobState) (k : ℕ) →
        BlobContents order (words_of_space space.old) s k →
        entries_in into.new.items ≡ entries_in into.old.items ++ all_sized s keys.now) }
    ensures fit { AllByRecursion EntryFits (entries_in into.old.items) →
        AllByRecursion EntryFits (entries_in into.new.items) }
    ensures words { words_of_space space.new ≡ words_of_space space.old }
{
    collect_sized(alloc, space, order, keys, 8, into)?;
    collect_sized(alloc, space, order, keys, 4, into)?;
    collect_sized(alloc, space, order, keys, 2, into)?;
    collect_sized(alloc, space, order, keys, 1, into)?;
    collect_sized(alloc, space, order, keys, 0, into)?;
    Ok(())
}

impl BlobElements {
    ghost use Rattle.std.specs.Prelude.{IfOk};
    ghost use Rattle.rom_blob_carry.specs.Elements.{elements_of};

    /// Those of a region, whose words stay. They take the memory of their bytes, and 40 bytes more for each key.
    pub fn of(alloc: Global, space: &mut VecSpace, order: u32) -> Result<BlobElements, AllocError>
        requires order { IsOrder order }
        requires region { (s : BlobState) × (k : ℕ) × BlobContents order (words_of_space space.old) s k }
        // The elements are those of the state that the region stands for, in the order of a script.
        ensures are { IfOk result (λ elements. (s : BlobState) (k : ℕ) →
            BlobContents order (words_of_space space.old) s k →
            entries_in elements.kept.items ≡ elements_of s) }
        // Their keys have at most 64 bits, and their bytes are bytes.
        ensures fit { IfOk result (λ elements. AllByRecursion EntryFits (entries_in elements.kept.items)) }
        ensures words { words_of_space space.new ≡ words_of_space space.old }
    {
        let words = space.words();
        let mut keys = Vec::with_capacity(alloc, words[KEYS as usize] as usize)?;
        collect_keys(words, order, &mut keys)?;
        let mut kept = Vec::with_capacity(alloc, keys.len())?;
        collect_all(alloc, space, order, &keys, &mut kept)?;
        Ok(BlobElements { kept })
    }

    /// They themselves, in order.
    pub fn kept(&self) -> &[Kept]
        ensures { result.now ≡ self.now.kept.items }
    {
        &self.kept
    }
}
