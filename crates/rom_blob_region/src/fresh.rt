//! The region of a new heap.
ghost use Rattle.std.specs.Prelude.{◌≡◌, ℕ, ◌+◌, ◌-◌, ◌*◌, ◌^◌, ◌<◌, ◌≤◌, length, false, slice_index};
ghost use Rattle.rom_model.specs.Space.{Costs, ChangesOnly};
ghost use Rattle.rom_model.specs.Blocks.{IsOrder, block_of, region_len};
ghost use Rattle.rom_model.specs.Region.{buckets};
ghost use Rattle.rom_blob_region.specs.State.{no_blobs};
ghost use Rattle.rom_blob_region.specs.Region.{BlobContents};
ghost use Rattle.rom_blob_region.specs.Fresh.{IsFreshBlobRoot};

use rom_block::Blocks;
use rom_model::{KIND, Space, TABLE, VERSION, blocks_at, power_of_two};

/// Stores 0 at each offset from one on, so many.
fn store_zeros<M: Space>(space: &mut M, from: u64, len: u64)
    requires fits { from + len ≤ length (M.shown.image space.old) }
    requires small { from + len < 2 ^ 63 }
    requires free { M.shown.has_limit ≡ false }
    ensures zeros { (k : ℕ) → from ≤ k → k < from + len
        → slice_index (M.shown.image space.new) k ≡ 0 }
    ensures others { ChangesOnly from len (M.shown.image space.old) (M.shown.image space.new) }
    ensures costs { Costs M.shown 0 len space.old space.new }
{
    for offset in from..from + len {
        space.store(offset, 0);
    }
}

/// Stores the root words of an empty region that has counted no update.
fn format_root<M: Space>(space: &mut M, order: u32)
    requires most { order ≤ 16 }
    requires sized { length (M.shown.image space.old) ≡ region_len order }
    requires free { M.shown.has_limit ≡ false }
    ensures root { IsFreshBlobRoot order (M.shown.image space.new) }
    ensures others { ChangesOnly 0 16 (M.shown.image space.old) (M.shown.image space.new) }
    ensures costs { Costs M.shown 0 19 space.old space.new }
{
    store_zeros(space, 0, 16);
    space.store(KIND, 2);
    space.store(VERSION, 1);
    space.store(TABLE, blocks_at(order));
}

/// Makes the words those of a new heap: nothing in it, no update counted, and the bucket table as
/// the one block that is taken. The words may be any before; those of free blocks stay as they were.
pub fn format_blobs<M: Space>(space: &mut M, order: u32)
    requires order { IsOrder order }
    requires sized { length (M.shown.image space.old) ≡ region_len order }
    requires free { M.shown.has_limit ≡ false }
    // The region stands for the state that has no key, and for the count 0.
    ensures made { BlobContents order (M.shown.image space.new) no_blobs 0 }
    // The words of the blocks behind the bucket table stay as they were.
    ensures free { (k : ℕ) → block_of order (2 ^ (order - 4)) ≤ k
        → slice_index (M.shown.image space.new) k ≡ slice_index (M.shown.image space.old) k }
    ensures costs { Costs M.shown (3 * order + 1) (20 + order + 2 * 2 ^ order + buckets order)
        space.old space.new }
{
    format_root(space, order);
    Blocks::format(space, order);
    // The first free block of that order begins where the blocks do, as the root word says.
    Blocks::take(space, order, order - 4);
    store_zeros(space, blocks_at(order), power_of_two(order - 2));
}
