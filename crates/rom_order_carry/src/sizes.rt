//! What is told of the size of an index.
ghost use Rattle.std.specs.Prelude.{ℕ};
ghost use Rattle.rom_model.specs.Blocks.{IsOrder};
ghost use Rattle.rom_model.specs.VecSpace.{words_of_space};
ghost use Rattle.rom_order_region.specs.Region.{IndexContents};
ghost use Rattle.rom_order_region.specs.State.{Pairs};
ghost use Rattle.rom_text.specs.Streams.{Prints};
ghost use Rattle.rom_order_carry.specs.Sizes.{measures_text, sizes_text};

use crate::totals::totals_of;
use itoa::Buffer;
use rom_carry::{percent_of, print_gauge};
use rom_model::{COUNT, VecSpace, power_of_two};
use rom_text::{IoFailed, Sink, print_pieces};

/// Prints the sizes of an index: its order, its count, its keys, for how many more there is room, and the sum of
/// their values.
pub fn print_order_sizes<K: Sink>(
    space: &mut VecSpace,
    order: u32,
    out: &mut K,
) -> Result<(), IoFailed>
    requires order { IsOrder order }
    requires region { (s : Pairs) × (k : ℕ) × IndexContents order (words_of_space space.old) s k }
    ensures prints { (s : Pairs) (k : ℕ) → IndexContents order (words_of_space space.old) s k
        → Prints K.shown out.old out.new result (sizes_text order s k) }
{
    let count = space.words()[COUNT as usize];
    let all = totals_of(space, order);
    let free = power_of_two(order - 1) - all.keys;
    let mut of_order = Buffer::new();
    let mut of_count = Buffer::new();
    let mut of_keys = Buffer::new();
    let mut of_free = Buffer::new();
    let mut of_total = Buffer::new();
    let order = of_order.format(order);
    let count = of_count.format(count);
    let keys = of_keys.format(all.keys);
    let free = of_free.format(free);
    let total = of_total.format(all.total);
    print_pieces(
        out,
        &[
            "order ", order, "\ncount ", count, "\nkeys ", keys, "\nfree ", free, "\ntotal ",
            total, "\n",
        ],
    )
}

/// Prints what a monitor watches of it: its keys, for how many more there is room, which part of all room that is,
/// and the sum of the values.
pub fn print_order_measures<K: Sink>(
    space: &mut VecSpace,
    order: u32,
    out: &mut K,
) -> Result<(), IoFailed>
    requires order { IsOrder order }
    requires region { (s : Pairs) × (k : ℕ) × IndexContents order (words_of_space space.old) s k }
    ensures prints { (s : Pairs) (k : ℕ) → IndexContents order (words_of_space space.old) s k
        → Prints K.shown out.old out.new result (measures_text order s k) }
{
    let all = totals_of(space, order);
    let room = power_of_two(order - 1);
    let free = room - all.keys;
    print_gauge(out, "keys", all.keys as u128)?;
    print_gauge(out, "free_keys", free as u128)?;
    print_gauge(out, "free_percent", percent_of(free, room) as u128)?;
    print_gauge(out, "total", all.total)
}
