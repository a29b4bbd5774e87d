//! The room that is left.
ghost use Rattle.std.specs.Prelude.{◌≡◌, ℕ, ◌-◌};
ghost use Rattle.rom_model.specs.Space.{Looks};
ghost use Rattle.rom_model.specs.State.{State, cap, live};
ghost use Rattle.rom_model.specs.Blocks.{IsOrder};
ghost use Rattle.rom_model.specs.Region.{IsWellFormed, Contents};

use rom_map::map_len;
use rom_model::{Look, power_of_two};
use rom_queue::queue_len;
use rom_set::set_len;

/// How many more elements there is room for. Nothing is stored.
pub fn free_elements<M: Look>(space: &mut M, order: u32) -> u64
    requires order { IsOrder order }
    requires region { IsWellFormed order (M.shown.image space.old) }
    ensures free { (s : State) (k : ℕ) → Contents order (M.shown.image space.old) s k
        → result ≡ cap order - live s }
    ensures looks { Looks M.shown 3 space.old space.new }
{
    let queue = queue_len(space, order);
    let set = set_len(space, order);
    let map = map_len(space, order);
    15 * power_of_two(order - 4) - queue - set - map
}
