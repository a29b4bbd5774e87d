//! Sums over all keys of a region.
ghost use Rattle.std.specs.Prelude.{◌≡◌, ℕ, ◌*◌, ◌<◌, ◌≤◌, ◌^◌, List, length};
ghost use Rattle.std.specs.List.{sum_by};
ghost use Rattle.rom_model.specs.Blocks.{IsOrder, region_len};
ghost use Rattle.rom_model.specs.Region.{buckets};
ghost use Rattle.rom_bucket.specs.Walk.{HoldsBucket, IsBucket};
ghost use Rattle.rom_blob_region.specs.State.{BlobState};
ghost use Rattle.rom_blob_region.specs.Region.{BlobContents};
ghost use Rattle.rom_blob_carry.specs.Sizes.{amount, counted_at, total_of};

use crate::elements::body_units;
use rom_bucket::{BUCKET_LINK, BUCKET_SECOND};
use rom_model::{blocks_at, power_of_two};

/// What a sum counts of each key.
#[derive(Clone, Copy)]
pub(crate) enum Measure {
    /// How many bytes it has.
    Bytes,
    /// How many units its blocks have.
    Units,
}

impl Measure {
    /// What is counted of a key with so many bytes.
    fn of(self, len: u64) -> u64
        ensures { result ≡ amount self len }
    {
        match self {
            Measure::Bytes => len,
            Measure::Units => 1 + body_units(len),
        }
    }
}

/// The sum over a bucket's keys. A bucket has no more than 65,536 nodes.
fn bucket_total(words: &[u64], order: u32, number: u64, measure: Measure) -> u128
    requires order { IsOrder order }
    requires number { number < buckets order }
    requires sized { length words.now ≡ region_len order }
    requires bucket { HoldsBucket order number words.now }
    ensures sum { (blocks : List ℕ) → IsBucket order words.now number blocks →
        result ≡ sum_by (counted_at measure order words.now) blocks }
    ensures fits { (blocks : List ℕ) → IsBucket order words.now number blocks →
        result ≤ length blocks * 2 ^ 64 }
{
    let mut total = 0;
    let mut node = words[(blocks_at(order) + number) as usize];
    while node != 0 {
        total += u128::from(measure.of(words[(node + BUCKET_SECOND) as usize]));
        node = words[(node + BUCKET_LINK) as usize];
    }
    total
}

/// The sum over all keys of a region, in one walk along all chains.
pub(crate) fn total(words: &[u64], order: u32, measure: Measure) -> u128
    requires order { IsOrder order }
    requires region { (s : BlobState) × (k : ℕ) × BlobContents order words.now s k }
    ensures sum { (s : BlobState) (k : ℕ) → BlobContents order words.now s k →
        result ≡ total_of measure s }
    ensures fits { result < 2 ^ 80 }
{
    let mut total = 0;
    for number in 0..power_of_two(order - 2) {
        total += bucket_total(words, order, number, measure);
    }
    total
}
