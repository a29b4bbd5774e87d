//! The five lines that tell the sizes of a heap: its order, its count of updates, how many elements each
//! structure has, how many more there is room for, and the sum of the map's values.
//!
//! Every program of a queue, a set and a map that shows a heap prints them so. The contract promises that
//! the lines are those of the state and the count that the region stands for.
ghost use Rattle.std.specs.Prelude.{◌≡◌, ◌-◌, ◌++◌, ℕ};
ghost use Rattle.std.specs.List.{flat_map};
ghost use Rattle.rom_model.specs.Blocks.{IsOrder};
ghost use Rattle.rom_model.specs.Region.{Contents};
ghost use Rattle.rom_model.specs.State.{State, cap, live};
ghost use Rattle.rom_model.specs.State as state;
ghost use Rattle.rom_model.specs.VecSpace.{words_of_space};
ghost use Rattle.rom_model.specs.declared.call.Query.TheVariants.{Len, Total};
ghost use Rattle.rom_script.specs.Trio.{answer_text};
ghost use Rattle.rom_script.specs.Stat.{stat_lines, stat_text};
ghost use Rattle.rom_text.specs.Streams.{Prints};
ghost use Rattle.rom_text.specs.Text.{line_text};

use itoa::Buffer;
use rom_heap::{Trio, free_elements};
use rom_model::{Answer, COUNT, Look, Object, Query, VecSpace};
use rom_text::{IoFailed, Print, Sink, print_pieces, print_text};

/// What is printed of a heap.
#[derive(Clone, Copy)]
struct Sizes {
    order: u32,
    count: u64,
    sizes: Answer,
    free: u64,
    total: Answer,
}

impl Sizes {
    /// Those of a region.
    fn of(space: &mut VecSpace, order: u32) -> Sizes
        requires order { IsOrder order }
        requires region { (s : State) × (k : ℕ) × Contents order (words_of_space space.old) s k }
        ensures sizes { (s : State) (k : ℕ) → Contents order (words_of_space space.old) s k →
            result ≡ record {
              order = order;
              count = k;
              sizes = state.tell s Len;
              free = cap order - live s;
              total = state.tell s Total;
            } }
    {
        Sizes {
            order,
            count: space.load(COUNT),
            sizes: Trio::answer(space, order, &Query::Len),
            free: free_elements(space, order),
            total: Trio::answer(space, order, &Query::Total),
        }
    }

    /// Prints the five lines.
    fn print<O: Sink>(&self, out: &mut O) -> Result<(), IoFailed>
        ensures prints { Prints O.shown out.old out.new result
            (stat_lines self.now.order self.now.count self.now.sizes self.now.free self.now.total) }
    {
        let mut of_order = Buffer::new();
        let mut of_count = Buffer::new();
        let mut of_free = Buffer::new();
        let order = of_order.format(self.order);
        let count = of_count.format(self.count);
        let free = of_free.format(self.free);
        print_before(
            out,
            &["order ", order, "\ncount ", count, "\n"],
            &self.sizes,
        )?;
        print_before(out, &["free ", free, "\n"], &self.total)
    }
}

/// Prints these pieces, and then the line of an answer.
fn print_before<O: Sink>(out: &mut O, pieces: &[&str], answer: &Answer) -> Result<(), IoFailed>
    ensures prints { Prints O.shown out.old out.new result
        (flat_map (λ piece. piece.now) pieces.now ++ line_text (answer_text answer.now)) }
{
    print_pieces(out, pieces)?;
    answer.print(out)?;
    print_text(out, "\n")
}

/// Prints the five lines of the heap in a region, of which it only loads words. After `IoFailed` the sink has taken some
/// of them, from their front.
pub fn print_stat<O: Sink>(space: &mut VecSpace, order: u32, out: &mut O) -> Result<(), IoFailed>
    requires order { IsOrder order }
    requires region { (s : State) × (k : ℕ) × Contents order (words_of_space space.old) s k }
    // The lines are those of the state and the count that the region stands for.
    ensures prints { (s : State) (k : ℕ) → Contents order (words_of_space space.old) s k →
        Prints O.shown out.old out.new result (stat_text order s k) }
{
    Sizes::of(space, order).print(out)
}
