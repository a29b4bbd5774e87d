//! The region that elements go into.
ghost use Rattle.std.specs.Prelude.{◌≤◌, IfOk};
ghost use Rattle.rom_model.specs.Blocks.{IsOrder};
ghost use Rattle.rom_model.specs.History.{LAST_COUNT};
ghost use Rattle.rom_model.specs.Region.{Contents};
ghost use Rattle.rom_model.specs.State.{empty};
ghost use Rattle.rom_model.specs.VecSpace.{words_of_space};

use rom_heap::Trio;
use rom_model::{COUNT, Space, VecSpace, new_region};
use std::alloc::{AllocError, Global};

/// A region of that order that has no element, and has counted so many updates.
pub fn empty_region(alloc: Global, order: u32, count: u64) -> Result<VecSpace, AllocError>
    requires order { IsOrder order }
    requires count { count ≤ LAST_COUNT }
    ensures made { IfOk result (λ space. Contents order (words_of_space space) empty count) }
{
    let mut space = new_region::<Trio>(alloc, order)?;
    space.store(COUNT, count);
    Ok(space)
}
