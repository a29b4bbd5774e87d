//! The keys whose bytes have blocks of one size.
ghost use Rattle.std.specs.Prelude.{◌≡◌, ◌++◌, ℕ, OnOk};
ghost use Rattle.std.specs.List.{AllByRecursion};
ghost use Rattle.std.specs.FinMap as finite;
ghost use Rattle.rom_model.specs.Blocks.{IsOrder};
ghost use Rattle.rom_model.specs.VecSpace.{words_of_space};
ghost use Rattle.rom_blob_region.specs.State.{BlobState};
ghost use Rattle.rom_blob_region.specs.Region.{BlobContents};
ghost use Rattle.rom_blob_carry.specs.Elements.{EntryFits, entries_in, one_sized, sized_in};

use crate::elements::kept::{Kept, body_units};
use rom_blob_region::{BlobAnswer, fetch_blob};
use rom_model::VecSpace;
use std::alloc::{AllocError, Global};

/// Puts a key with its bytes behind the elements that are there, if the block of its bytes has so many units.
fn keep_sized(
    alloc: Global,
    space: &mut VecSpace,
    order: u32,
    key: u64,
    units: u64,
    into: &mut Vec<Kept>,
) -> Result<(), AllocError>
    requires order { IsOrder order }
    requires region { (s : BlobState) × (k : ℕ) × BlobContents order (words_of_space space.old) s k }
    ensures kept { OnOk result ((s : BlobState) (k : ℕ) →
        BlobContents order (words_of_space space.old) s k →
        entries_in into.new.items ≡ entries_in into.old.items ++ one_sized units key (finite.get s key)) }
    ensures fit { AllByRecursion EntryFits (entries_in into.old.items) →
        AllByRecursion EntryFits (entries_in into.new.items) }
    ensures words { words_of_space space.new ≡ words_of_space space.old }
{
    match fetch_blob(space, order, key) {
        BlobAnswer::Bytes(bytes) => {
            if body_units(bytes.len()) == units {
                into.push(Kept::of(alloc, key, &bytes)?)?;
            }
            Ok(())
        }
        BlobAnswer::Missing => Ok(()),
        // No answer to this query.
        BlobAnswer::Keys(_) => Ok(()),
    }
}

/// Puts those of these keys with their bytes behind the elements that are there, in order, the blocks of whose
/// bytes have so many units.
pub fn collect_sized(
    alloc: Global,
    space: &mut VecSpace,
    order: u32,
    keys: &[u64],
    units: u64,
    into: &mut Vec<Kept>,
) -> Result<(), AllocError>
    requires order { IsOrder order }
    requires region { (s : BlobState) × (k : ℕ) × BlobContents order (words_of_space space.old) s k }
    ensures collected { OnOk result ((s : BlobState) (k : ℕ) →
        BlobContents order (words_of_space space.old) s k →
        entries_in into.new.items ≡ entries_in into.old.items ++ sized_in units s keys.now) }
    ensures fit { AllByRecursion EntryFits (entries_in into.old.items) →
        AllByRecursion EntryFits (entries_in into.new.items) }
    ensures words { words_of_space space.new ≡ words_of_space space.old }
{
    for key in keys {
        keep_sized(alloc, space, order, *key, units, into)?;
    }
    Ok(())
}
