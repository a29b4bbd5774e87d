//! The region of a new ordered index.
ghost use Rattle.std.specs.Prelude.{◌≡◌, ℕ, ◌+◌, ◌^◌, ◌<◌, ◌≤◌, length, false, slice_index};
ghost use Rattle.std.specs.FinMap as map;
ghost use Rattle.rom_model.specs.Space.{Costs, ChangesOnly, KeepsSpace};
ghost use Rattle.rom_model.specs.Blocks.{IsOrder, region_len};
ghost use Rattle.rom_order_region.specs.Region.{IndexContents};

use rom_block::Blocks;
use rom_model::{KIND, Space, VERSION};

/// The number of the kind.
pub const ORDERED: u64 = 3;

/// Stores 0 at each offset from one on, so many.
fn store_zeros<M: Space>(space: &mut M, from: u64, len: u64)
    requires fits { from + len ≤ length (M.shown.image space.old) }
    requires small { from + len < 2 ^ 63 }
    requires free { M.shown.has_limit ≡ false }
    ensures zeros { (k : ℕ) → from ≤ k → k < from + len
        → slice_index (M.shown.image space.new) k ≡ 0 }
    ensures others { ChangesOnly from len (M.shown.image space.old) (M.shown.image space.new) }
    ensures costs { Costs M.shown 0 len space.old space.new }
{
    for offset in from..from + len {
        space.store(offset, 0);
    }
}

/// Makes the words those of a new heap: no key, and no update counted. Those of free blocks stay.
pub fn format_order<M: Space>(space: &mut M, order: u32)
    requires order { IsOrder order }
    requires sized { length (M.shown.image space.old) ≡ region_len order }
    requires free { M.shown.has_limit ≡ false }
    ensures made { IndexContents order (M.shown.image space.new) map.empty 0 }
    ensures space { KeepsSpace M.shown space.old space.new }
{
    store_zeros(space, 0, 16);
    space.store(KIND, ORDERED);
    space.store(VERSION, 1);
    Blocks::format(space, order);
}
