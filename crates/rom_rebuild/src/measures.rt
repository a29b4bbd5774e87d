//! What a monitor watches of a heap.
ghost use Rattle.std.specs.Prelude.{◌≡◌, ℕ};
ghost use Rattle.rom_model.specs.Blocks.{IsOrder};
ghost use Rattle.rom_model.specs.Region.{Contents, IsWellFormed};
ghost use Rattle.rom_model.specs.State.{State};
ghost use Rattle.rom_model.specs.VecSpace.{words_of_space};
ghost use Rattle.rom_rebuild.specs.Measures.{gauges_text, measures_of};
ghost use Rattle.rom_text.specs.Streams.{Prints};

use rom_carry::{percent_of, print_gauge};
use rom_heap::free_elements;
use rom_map::{map_len, map_total};
use rom_model::{VecSpace, power_of_two};
use rom_queue::queue_len;
use rom_set::set_len;
use rom_text::{IoFailed, Sink};

/// What a monitor watches, each as wide as a gauge is.
#[derive(Clone, Copy)]
pub struct Measures {
    queue: u128,
    members: u128,
    keys: u128,
    free: u128,
    percent: u128,
    total: u128,
}

impl Measures {
    /// The measures of a region.
    pub fn of(space: &mut VecSpace, order: u32) -> Measures
        requires order { IsOrder order }
        requires region { IsWellFormed order (words_of_space space.old) }
        ensures measures { (s : State) (k : ℕ) → Contents order (words_of_space space.old) s k →
            result ≡ measures_of order s }
    {
        let queue = queue_len(space, order);
        let members = set_len(space, order);
        let keys = map_len(space, order);
        let free = free_elements(space, order);
        let total = map_total(space, order);
        let percent = percent_of(free, 15 * power_of_two(order - 4));
        Measures {
            queue: u128::from(queue),
            members: u128::from(members),
            keys: u128::from(keys),
            free: u128::from(free),
            percent: u128::from(percent),
            total,
        }
    }

    /// Prints them, each as a gauge.
    pub fn print<O: Sink>(&self, out: &mut O) -> Result<(), IoFailed>
        ensures prints { Prints O.shown out.old out.new result (gauges_text self.now) }
    {
        print_gauge(out, "queue_elements", self.queue)?;
        print_gauge(out, "set_elements", self.members)?;
        print_gauge(out, "map_elements", self.keys)?;
        print_gauge(out, "free_elements", self.free)?;
        print_gauge(out, "free_percent", self.percent)?;
        print_gauge(out, "total", self.total)
    }
}
