//! How heaps of an ordered index are carried over.
ghost use Rattle.rom_carry.specs.Carried.{CarriesOver, StaysIn, TellsOf};
ghost use Rattle.rom_order_region.specs.Region.{IndexContents};
ghost use Rattle.rom_order_carry.specs.Carries.{CarriesIndex, SameIndex, TellsMeasures, TellsSizes};
ghost use Rattle.rom_order_carry.specs.Laws.{some_index_measures, some_index_sizes};

use crate::entries::Entries;
use crate::grow::grown;
use crate::sizes::{print_order_measures, print_order_sizes};
use crate::taken::entries_of;
use rom_carry::Carry;
use rom_model::VecSpace;
use rom_order::Ordered;
use rom_text::{IoFailed, Sink};
use std::alloc::{AllocError, Global};

/// An ordered index is carried over by a line for each key. Its state stays the very same, and no key is refused.
#[derive(Clone, Copy, Debug)]
pub struct CarryOrdered;

impl Carry<Ordered> for CarryOrdered {
    ghost Carrying = { CarriesOver IndexContents CarriesIndex };

    ghost Sized = { TellsOf IndexContents TellsSizes };

    ghost Measured = { TellsOf IndexContents TellsMeasures };

    ghost Grown = { StaysIn IndexContents SameIndex };

    type Elements = Entries;

    fn elements(alloc: Global, space: &mut VecSpace, order: u32) -> Result<Entries, AllocError> {
        Ok(Entries::of(entries_of(alloc, space, order)?))
    }

    fn print_sizes<K: Sink>(space: &mut VecSpace, order: u32, out: &mut K) -> Result<(), IoFailed> {
        print_order_sizes(space, order, out)
    }

    fn print_measures<K: Sink>(
        space: &mut VecSpace,
        order: u32,
        out: &mut K,
    ) -> Result<(), IoFailed> {
        print_order_measures(space, order, out)
    }

    fn grow(
        alloc: Global,
        space: &mut VecSpace,
        order: u32,
        greater: u32,
    ) -> Result<VecSpace, AllocError> {
        grown(alloc, space, order, greater)
    }

    ghost some_sizes = { some_index_sizes };

    ghost some_measures = { some_index_measures };
}
