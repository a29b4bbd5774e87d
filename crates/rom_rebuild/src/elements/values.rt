//! The values of a map's keys.
ghost use Rattle.std.specs.Prelude.{◌≡◌, ℕ, IfOk, map, length};
ghost use Rattle.std.specs.Option.{unwrap_or};
ghost use Rattle.rom_model.specs.Blocks.{IsOrder};
ghost use Rattle.rom_model.specs.Region.{Contents, IsWellFormed};
ghost use Rattle.rom_model.specs.State.{State, value_of};
ghost use Rattle.rom_model.specs.VecSpace.{words_of_space};
ghost use Rattle.rom_text.specs.Phrases.{NumbersFit};

use rom_map::map_get;
use rom_model::VecSpace;
use std::alloc::{AllocError, Global};

/// The value of each key, in order.
pub fn values_of(
    alloc: Global,
    space: &mut VecSpace,
    order: u32,
    keys: &[u64],
) -> Result<Vec<u64>, AllocError>
    requires order { IsOrder order }
    requires region { IsWellFormed order (words_of_space space.old) }
    ensures values { IfOk result (λ values. (s : State) (k : ℕ) →
        Contents order (words_of_space space.old) s k →
        values.items ≡ map (λ key. unwrap_or (value_of s key) 0) keys.now) }
    ensures many { IfOk result (λ values. length values.items ≡ length keys.now) }
    ensures fit { IfOk result (λ values. NumbersFit values.items) }
    ensures words { words_of_space space.new ≡ words_of_space space.old }
{
    let mut values = Vec::with_capacity(alloc, keys.len())?;
    for key in keys {
        // Each key of the map has a value.
        let value = map_get(space, order, *key).unwrap_or(0);
        values.push(value)?;
    }
    Ok(values)
}
