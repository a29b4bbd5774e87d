//! The elements of an ordered index.
use crate::line::{line_len, print_line};
use rom_carry::Written;
use rom_text::{IoFailed, Sink};

/// The keys of an ordered index with their values, keys rising. Each is written `put K V`.
#[derive(Drop)]
pub struct Entries {
    items: Vec<(u64, u64)>,
}

impl Entries {
    ghost use Rattle.std.specs.Prelude.{◌≡◌};
    ghost use Rattle.rom_order_carry.specs.Entries.{entries_in};

    /// These.
    pub(crate) fn of(items: Vec<(u64, u64)>) -> Entries
        ensures { entries_in result ≡ items.items }
    {
        Entries { items }
    }
}

impl Written for Entries {
    ghost use Rattle.std.specs.Prelude.{map};
    ghost use Rattle.rom_order_carry.specs.Entries.{ORDER_BOUNDS, entries_in, entry_line};
    ghost use Rattle.rom_order_carry.specs.Laws.{part_is, part_fits, at_most};

    ghost lines = { λ entries. map entry_line (entries_in entries) };

    ghost bounds = { ORDER_BOUNDS };

    ghost PART = { 20480 };

    const PART: u64 = 20480;

    fn len(&self) -> u64 {
        self.items.len() as u64
    }

    fn print_lines<K: Sink>(&self, from: u64, to: u64, out: &mut K) -> Result<(), IoFailed> {
        for index in from..to {
            print_line(out, self.items[index as usize])?;
        }
        Ok(())
    }

    fn lines_len(&self, from: u64, to: u64) -> u64 {
        let mut total = 0;
        for index in from..to {
            total += line_len(self.items[index as usize]);
        }
        total
    }

    ghost part_is = { part_is };

    ghost part_fits = { part_fits };

    ghost at_most = { at_most };
}
