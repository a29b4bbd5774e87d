//! A region of a greater order with the same elements.
ghost use Rattle.std.specs.Prelude.{◌≡◌, ◌≤◌, [], ◌∷◌, ℕ, IfOk};
ghost use Rattle.rom_model.specs.Blocks.{IsOrder};
ghost use Rattle.rom_model.specs.History.{LAST_COUNT};
ghost use Rattle.rom_model.specs.VecSpace.{words_of_space};
ghost use Rattle.rom_blob_region.specs.State.{BlobState, no_blobs};
ghost use Rattle.rom_blob_region.specs.Region.{BlobContents};
ghost use Rattle.rom_blob_carry.specs.Elements.{elements_of, entries_in};
ghost use Rattle.rom_blob_carry.specs.Grown.{after_sets};

use crate::elements::{BlobElements, Kept};
use rom_blob_region::{Chunk, format_blobs, set_blob};
use rom_model::{COUNT, Space, VecSpace, region_len};
use std::alloc::{AllocError, Global};

/// A region that holds nothing, and has counted so many updates.
fn fresh(alloc: Global, order: u32, count: u64) -> Result<VecSpace, AllocError>
    requires order { IsOrder order }
    requires count { count ≤ LAST_COUNT }
    ensures made { IfOk result (λ space. BlobContents order (words_of_space space) no_blobs count) }
{
    let mut space = VecSpace::zeroed(alloc, region_len(order))?;
    format_blobs(&mut space, order);
    space.store(COUNT, count);
    Ok(space)
}

/// Gives a key its bytes.
fn set_kept(space: &mut VecSpace, order: u32, kept: &Kept)
    requires order { IsOrder order }
    requires region { (s : BlobState) × (k : ℕ) × BlobContents order (words_of_space space.old) s k }
    ensures set { (s : BlobState) (k : ℕ) → BlobContents order (words_of_space space.old) s k →
        BlobContents order (words_of_space space.new)
        (after_sets order s (entries_in (kept.now ∷ []))) k }
{
    // They are no more than a key may have.
    if let Some(bytes) = Chunk::of(kept.bytes()) {
        set_blob(space, order, kept.key(), &bytes);
    }
}

/// Gives all keys their bytes, in order.
fn set_all(space: &mut VecSpace, order: u32, kept: &[Kept])
    requires order { IsOrder order }
    requires region { (s : BlobState) × (k : ℕ) × BlobContents order (words_of_space space.old) s k }
    ensures set { (s : BlobState) (k : ℕ) → BlobContents order (words_of_space space.old) s k →
        BlobContents order (words_of_space space.new) (after_sets order s (entries_in kept.now)) k }
{
    for one in kept {
        set_kept(space, order, one);
    }
}

/// A region of a greater order, in which the elements of a region were set in their order. It has counted as many
/// updates as that region, and not one for each key.
pub(crate) fn grow_region(
    alloc: Global,
    space: &mut VecSpace,
    order: u32,
    greater: u32,
) -> Result<VecSpace, AllocError>
    requires order { IsOrder order }
    requires greater { IsOrder greater }
    requires region { (s : BlobState) × (k : ℕ) × BlobContents order (words_of_space space.old) s k }
    ensures grown { IfOk result (λ region. (s : BlobState) (k : ℕ) →
        BlobContents order (words_of_space space.old) s k →
        BlobContents greater (words_of_space region) (after_sets greater no_blobs (elements_of s)) k) }
    ensures words { words_of_space space.new ≡ words_of_space space.old }
{
    let elements = BlobElements::of(alloc, space, order)?;
    let mut region = fresh(alloc, greater, space.words()[COUNT as usize])?;
    set_all(&mut region, greater, elements.kept());
    Ok(region)
}
