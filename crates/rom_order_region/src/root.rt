//! The root words of the tree.
ghost use Rattle.std.specs.Prelude.{◌≡◌, length, slice_set};
ghost use Rattle.rom_model.specs.Space.{Costs, HasRoom};
ghost use Rattle.rom_model.specs.Blocks.{IsOrder, region_len};

use rom_model::{Space, store_changed};

/// Where the top node begins, or 0, in the root words of a region.
pub const TOP: u64 = 3;

/// How many keys there are.
pub const SIZE: u64 = 4;

/// Stores where the top node begins, and how many keys there are.
pub fn set_tree<M: Space>(space: &mut M, order: u32, top: u64, size: u64)
    requires order { IsOrder order }
    requires sized { length (M.shown.image space.old) ≡ region_len order }
    requires room { HasRoom M.shown 2 space.old }
    ensures image { M.shown.image space.new ≡ slice_set (slice_set (M.shown.image space.old) 3 top) 4 size }
    ensures costs { Costs M.shown 2 2 space.old space.new }
{
    store_changed(space, TOP, top);
    store_changed(space, SIZE, size);
}
