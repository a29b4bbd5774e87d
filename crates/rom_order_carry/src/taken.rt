//! The entries of a region, taken out of it.
ghost use Rattle.std.specs.Prelude.{◌≡◌, ◌≤◌, ℕ, IfOk, length};
ghost use Rattle.std.specs.FinMap as map;
ghost use Rattle.std.specs.List.{AllByRecursion};
ghost use Rattle.rom_model.specs.Blocks.{IsOrder};
ghost use Rattle.rom_model.specs.VecSpace.{words_of_space};
ghost use Rattle.rom_order_region.specs.Region.{IndexContents, room_for};
ghost use Rattle.rom_order_region.specs.State.{Pairs};
ghost use Rattle.rom_order_carry.specs.Entries.{EntryFits};

use crate::known::know_entries;
use crate::totals::totals_of;
use rom_model::VecSpace;
use rom_order_region::{OrderAnswer, order_from};
use std::alloc::{AllocError, Global};

/// The keys of an index with their values, keys rising. It takes memory for them alone.
pub fn entries_of(
    alloc: Global,
    space: &mut VecSpace,
    order: u32,
) -> Result<Vec<(u64, u64)>, AllocError>
    requires order { IsOrder order }
    requires region { (s : Pairs) × (k : ℕ) × IndexContents order (words_of_space space.old) s k }
    ensures entries { IfOk result (λ entries. (s : Pairs) (k : ℕ) →
        IndexContents order (words_of_space space.old) s k → entries.items ≡ map.entries s) }
    ensures fit { IfOk result (λ entries. AllByRecursion EntryFits entries.items) }
    ensures few { IfOk result (λ entries. length entries.items ≤ room_for order) }
    ensures words { words_of_space space.new ≡ words_of_space space.old }
{
    know_entries(space.words());
    let keys = totals_of(space, order).keys;
    let mut entries = Vec::with_capacity(alloc, keys as usize)?;
    let mut low = 0;
    for _ in 0..keys {
        let OrderAnswer::Pair(key, value) = order_from(space, order, low) else {
            unreachable!();
        };
        entries.push((key, value))?;
        // Behind the greatest number no key is left to ask for.
        low = key.saturating_add(1);
    }
    Ok(entries)
}
