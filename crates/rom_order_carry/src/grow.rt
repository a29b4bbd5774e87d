//! An index in a region of a greater order.
ghost use Rattle.std.specs.Prelude.{◌≡◌, ◌≤◌, ◌<◌, ℕ, IfOk, length};
ghost use Rattle.std.specs.FinMap as map;
ghost use Rattle.rom_model.specs.Blocks.{IsOrder};
ghost use Rattle.rom_model.specs.VecSpace.{words_of_space};
ghost use Rattle.rom_order_region.specs.Keys.{EntriesRise};
ghost use Rattle.rom_order_region.specs.Region.{IndexContents, room_for};
ghost use Rattle.rom_order_region.specs.State.{Pairs};
ghost use Rattle.rom_order_carry.specs.Entries.{Holds};

use crate::taken::entries_of;
use rom_model::{COUNT, Space, VecSpace, region_len};
use rom_order_region::{OrderCall, apply_order, format_order};
use std::alloc::{AllocError, Global};

/// Puts entries into a new index, one after another. Each is one update.
fn put_all(space: &mut VecSpace, order: u32, entries: &[(u64, u64)])
    requires order { IsOrder order }
    requires empty { IndexContents order (words_of_space space.old) map.empty 0 }
    requires rise { EntriesRise entries.now }
    requires few { length entries.now ≤ room_for order }
    ensures { Holds order (words_of_space space.new) entries.now (length entries.now) }
{
    for entry in entries {
        apply_order(space, order, &OrderCall::Put(entry.0, entry.1));
    }
}

/// A region of a greater order with the same entries and the same count.
pub fn grown(
    alloc: Global,
    space: &mut VecSpace,
    order: u32,
    greater: u32,
) -> Result<VecSpace, AllocError>
    requires order { IsOrder order }
    requires greater { (order < greater) × IsOrder greater }
    requires region { (s : Pairs) × (k : ℕ) × IndexContents order (words_of_space space.old) s k }
    ensures { IfOk result (λ region. (s : Pairs) (k : ℕ) → IndexContents order (words_of_space space.old) s k
        → IndexContents greater (words_of_space region) s k) }
{
    let count = space.words()[COUNT as usize];
    let entries = entries_of(alloc, space, order)?;
    let mut region = VecSpace::zeroed(alloc, region_len(greater))?;
    format_order(&mut region, greater);
    put_all(&mut region, greater, &entries);
    region.store(COUNT, count);
    Ok(region)
}
