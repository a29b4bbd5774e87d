//! How much an index holds.
ghost use Rattle.std.specs.Prelude.{◌≡◌, ◌≤◌, ℕ};
ghost use Rattle.std.specs.FinMap as map;
ghost use Rattle.rom_model.specs.Blocks.{IsOrder};
ghost use Rattle.rom_model.specs.VecSpace.{words_of_space};
ghost use Rattle.rom_order_region.specs.Query.{total};
ghost use Rattle.rom_order_region.specs.Region.{IndexContents, room_for};
ghost use Rattle.rom_order_region.specs.State.{Pairs};

use crate::known::know_entries;
use rom_model::VecSpace;
use rom_order_region::{OrderAnswer, order_range};

/// How many keys an index has, and the sum of their values.
#[derive(Clone, Copy)]
pub struct Totals {
    pub keys: u64,
    pub total: u128,
}

/// Those of the index in a region.
pub fn totals_of(space: &mut VecSpace, order: u32) -> Totals
    requires order { IsOrder order }
    requires region { (s : Pairs) × (k : ℕ) × IndexContents order (words_of_space space.old) s k }
    ensures keys { (s : Pairs) (k : ℕ) → IndexContents order (words_of_space space.old) s k
        → result.keys ≡ map.len s }
    ensures total { (s : Pairs) (k : ℕ) → IndexContents order (words_of_space space.old) s k
        → result.total ≡ total (map.entries s) }
    ensures room { result.keys ≤ room_for order }
    ensures words { words_of_space space.new ≡ words_of_space space.old }
{
    know_entries(space.words());
    let OrderAnswer::Range { count, sum } = order_range(space, order, 0, u64::MAX) else {
        unreachable!();
    };
    Totals {
        keys: count,
        total: sum,
    }
}
