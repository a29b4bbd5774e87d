//! A region of a greater order with what a region holds.
//!
//! The elements go into an empty region by the structures' own calls. Numbers and keys go in falling, so that
//! each stands before those that are there, and no walk passes one. A key keeps its stamp.
ghost use Rattle.std.specs.Prelude.{◌<◌, IfOk};
ghost use Rattle.rom_model.specs.Blocks.{IsOrder};
ghost use Rattle.rom_model.specs.Region.{IsWellFormed};
ghost use Rattle.rom_model.specs.VecSpace.{words_of_space};
ghost use Rattle.rom_rebuild.specs.Carried.{Grown};

mod empty;
mod fill;
mod keys;

use crate::elements::Elements;
use crate::grow::empty::empty_region;
use crate::grow::fill::{insert_members, push_values};
use crate::grow::keys::put_keys;
use rom_model::{COUNT, Look, VecSpace};
use std::alloc::{AllocError, Global};

/// A region of a greater order that stands for the same state, and for the same count.
pub fn grow_region(
    alloc: Global,
    space: &mut VecSpace,
    order: u32,
    greater: u32,
) -> Result<VecSpace, AllocError>
    requires order { IsOrder order }
    requires greater { (order < greater) × IsOrder greater }
    requires region { IsWellFormed order (words_of_space space.old) }
    ensures grown { IfOk result (λ region.
        Grown order (words_of_space space.old) greater (words_of_space region)) }
{
    let elements = Elements::of(alloc, space, order)?;
    let count = space.load(COUNT);
    let mut region = empty_region(alloc, greater, count)?;
    push_values(&mut region, greater, elements.queue());
    insert_members(&mut region, greater, elements.members());
    put_keys(space, order, elements.keys(), &mut region, greater);
    Ok(region)
}
