//! The sizes of a heap, and how they are told.
ghost use Rattle.std.specs.Prelude.{◌≡◌, ℕ, ◌≤◌, ◌<◌};
ghost use Rattle.rom_model.specs.Blocks.{IsOrder};
ghost use Rattle.rom_text.specs.Streams.{Prints};
ghost use Rattle.rom_blob_region.specs.State.{BlobState};
ghost use Rattle.rom_blob_region.specs.Region.{BlobContents};
ghost use Rattle.rom_blob_carry.specs.Sizes.{AreSizes, measures_text, room_in, sizes_text};

use crate::totals::{Measure, total};
use itoa::Buffer;
use rom_blob_region::KEYS;
use rom_carry::{percent_of, print_gauge};
use rom_model::{COUNT, power_of_two};
use rom_text::{IoFailed, Sink, print_pieces};

/// The sizes of a heap: how many updates it counted, how many keys it has and how many bytes these have, and how
/// many units are free.
#[derive(Clone, Copy)]
pub(crate) struct Sizes {
    count: u64,
    keys: u64,
    bytes: u128,
    free: u64,
}

/// How many units are free in a new heap: all but those of the bucket table.
fn room(order: u32) -> u64
    requires order { IsOrder order }
    ensures is { result ≡ room_in order }
    ensures some { 0 < result }
    ensures few { result ≤ 65536 }
{
    15 * power_of_two(order - 4)
}

/// The sizes of the heap in a region.
pub(crate) fn sizes_of(words: &[u64], order: u32) -> Sizes
    requires order { IsOrder order }
    requires region { (s : BlobState) × (k : ℕ) × BlobContents order words.now s k }
    ensures are { (s : BlobState) (k : ℕ) → BlobContents order words.now s k →
        AreSizes order s k result }
    ensures few { result.free ≤ 65536 }
{
    Sizes {
        count: words[COUNT as usize],
        keys: words[KEYS as usize],
        bytes: total(words, order, Measure::Bytes),
        free: room(order) - total(words, order, Measure::Units) as u64,
    }
}

/// Prints the sizes of a heap of that order, in lines.
pub(crate) fn print_sizes<K: Sink>(out: &mut K, order: u32, sizes: Sizes) -> Result<(), IoFailed>
    ensures prints { (s : BlobState) (k : ℕ) → AreSizes order s k sizes →
        Prints K.shown out.old out.new result (sizes_text order s k) }
{
    let mut of_order = Buffer::new();
    let mut of_count = Buffer::new();
    let mut of_keys = Buffer::new();
    let mut of_bytes = Buffer::new();
    let mut of_free = Buffer::new();
    print_pieces(
        out,
        &[
            "order ",
            of_order.format(order),
            "\ncount ",
            of_count.format(sizes.count),
            "\nkeys ",
            of_keys.format(sizes.keys),
            " bytes ",
            of_bytes.format(sizes.bytes),
            "\nfree ",
            of_free.format(sizes.free),
            "\n",
        ],
    )
}

/// Prints what a monitor watches of a heap of that order.
pub(crate) fn print_measures<K: Sink>(out: &mut K, order: u32, sizes: Sizes) -> Result<(), IoFailed>
    requires order { IsOrder order }
    requires few { sizes.free ≤ 65536 }
    ensures prints { (s : BlobState) (k : ℕ) → AreSizes order s k sizes →
        Prints K.shown out.old out.new result (measures_text order s) }
{
    print_gauge(out, "keys", u128::from(sizes.keys))?;
    print_gauge(out, "bytes", sizes.bytes)?;
    print_gauge(out, "free_units", u128::from(sizes.free))?;
    let percent = percent_of(sizes.free, room(order));
    print_gauge(out, "free_percent", u128::from(percent))
}
