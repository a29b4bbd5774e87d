//! The keys of a region.
ghost use Rattle.std.specs.Prelude.{◌≡◌, ◌++◌, ◌<◌, ℕ, List, [], OnOk, length};
ghost use Rattle.std.specs.FinMap as finite;
ghost use Rattle.rom_model.specs.Blocks.{IsOrder, region_len};
ghost use Rattle.rom_model.specs.Chains.{each_word};
ghost use Rattle.rom_model.specs.Region.{buckets};
ghost use Rattle.rom_text.specs.Phrases.{NumbersFit};
ghost use Rattle.rom_bucket.specs.Buckets.{blocks_of_buckets};
ghost use Rattle.rom_bucket.specs.Walk.{HoldsBucket, IsBucket};
ghost use Rattle.rom_blob_region.specs.State.{BlobState};
ghost use Rattle.rom_blob_region.specs.Region.{BlobContents, IsBlobs};

use rom_bucket::BUCKET_LINK;
use rom_model::{blocks_at, power_of_two};
use std::alloc::AllocError;

/// Puts the keys of a bucket behind the numbers that are there, as they stand in its chain.
fn collect_bucket(
    words: &[u64],
    order: u32,
    number: u64,
    into: &mut Vec<u64>,
) -> Result<(), AllocError>
    requires order { IsOrder order }
    requires number { number < buckets order }
    requires sized { length words.now ≡ region_len order }
    requires bucket { HoldsBucket order number words.now }
    ensures collected { OnOk result ((blocks : List ℕ) → IsBucket order words.now number blocks →
        into.new.items ≡ into.old.items ++ each_word order words.now 0 blocks) }
    ensures fit { NumbersFit into.old.items → NumbersFit into.new.items }
{
    let mut node = words[(blocks_at(order) + number) as usize];
    while node != 0 {
        into.push(words[node as usize])?;
        node = words[(node + BUCKET_LINK) as usize];
    }
    Ok(())
}

/// Puts the keys of all buckets into a list that is empty, one bucket after another.
fn collect_buckets(words: &[u64], order: u32, into: &mut Vec<u64>) -> Result<(), AllocError>
    requires order { IsOrder order }
    requires region { (s : BlobState) × (k : ℕ) × BlobContents order words.now s k }
    requires none { into.old.items ≡ [] }
    ensures collected { OnOk result ((bucket : ℕ → List ℕ) (s : BlobState) (k : ℕ) →
        IsBlobs order words.now bucket s k →
        into.new.items ≡ each_word order words.now 0 (blocks_of_buckets order bucket)) }
    ensures fit { NumbersFit into.new.items }
{
    for number in 0..power_of_two(order - 2) {
        collect_bucket(words, order, number, into)?;
    }
    Ok(())
}

/// Puts the keys of a region into a list that is empty. They rise.
pub fn collect_keys(words: &[u64], order: u32, into: &mut Vec<u64>) -> Result<(), AllocError>
    requires order { IsOrder order }
    requires region { (s : BlobState) × (k : ℕ) × BlobContents order words.now s k }
    requires none { into.old.items ≡ [] }
    ensures keys { OnOk result ((s : BlobState) (k : ℕ) → BlobContents order words.now s k →
        into.new.items ≡ finite.keys s) }
    ensures fit { NumbersFit into.new.items }
{
    collect_buckets(words, order, into)?;
    into.sort_unstable();
    Ok(())
}
