//! How heaps of a queue, a set and a map are carried over.
ghost use Rattle.rom_rebuild.specs.Carried as carried;
ghost use Rattle.rom_rebuild.specs.Laws as laws;

use crate::elements::Elements;
use crate::grow::grow_region;
use crate::measures::Measures;
use rom_carry::Carry;
use rom_heap::Trio;
use rom_model::VecSpace;
use rom_script::print_stat;
use rom_text::{IoFailed, Sink};
use std::alloc::{AllocError, Global};

/// How heaps of a queue, a set and a map are carried over.
#[derive(Clone, Copy, Debug)]
pub struct CarryTrio;

impl Carry<Trio> for CarryTrio {
    ghost Carrying = { carried.Carrying };

    ghost Sized = { carried.Sized };

    ghost Measured = { carried.Measured };

    ghost Grown = { carried.Grown };

    type Elements = Elements;

    fn elements(alloc: Global, space: &mut VecSpace, order: u32) -> Result<Elements, AllocError> {
        Elements::of(alloc, space, order)
    }

    fn print_sizes<K: Sink>(space: &mut VecSpace, order: u32, out: &mut K) -> Result<(), IoFailed> {
        print_stat(space, order, out)
    }

    fn print_measures<K: Sink>(
        space: &mut VecSpace,
        order: u32,
        out: &mut K,
    ) -> Result<(), IoFailed> {
        Measures::of(space, order).print(out)
    }

    fn grow(
        alloc: Global,
        space: &mut VecSpace,
        order: u32,
        greater: u32,
    ) -> Result<VecSpace, AllocError> {
        grow_region(alloc, space, order, greater)
    }

    ghost some_sizes = { laws.some_sizes };

    ghost some_measures = { laws.some_measures };
}
