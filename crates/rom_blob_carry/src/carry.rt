//! How heaps of keys with bytes are carried over.
ghost use Rattle.rom_blob_carry.specs.Carried.{BlobsCarried, BlobsGrown, BlobsMeasured, BlobsSized};
ghost use Rattle.rom_blob_carry.specs.Carried.{some_blob_measures, some_blob_sizes};

use crate::elements::BlobElements;
use crate::grow::grow_region;
use crate::sizes::{print_measures, print_sizes, sizes_of};
use rom_blob::Blobs;
use rom_carry::Carry;
use rom_model::VecSpace;
use rom_text::{IoFailed, Sink};
use std::alloc::{AllocError, Global};

/// How heaps of keys with bytes are carried over: a line `set` for each key, and the same bytes in another heap.
#[derive(Clone, Copy, Debug)]
pub struct CarryBlobs;

impl Carry<Blobs> for CarryBlobs {
    ghost Carrying = { BlobsCarried };

    ghost Sized = { BlobsSized };

    ghost Measured = { BlobsMeasured };

    ghost Grown = { BlobsGrown };

    type Elements = BlobElements;

    fn elements(
        alloc: Global,
        space: &mut VecSpace,
        order: u32,
    ) -> Result<BlobElements, AllocError> {
        BlobElements::of(alloc, space, order)
    }

    fn print_sizes<K: Sink>(space: &mut VecSpace, order: u32, out: &mut K) -> Result<(), IoFailed> {
        let sizes = sizes_of(space.words(), order);
        print_sizes(out, order, sizes)
    }

    fn print_measures<K: Sink>(
        space: &mut VecSpace,
        order: u32,
        out: &mut K,
    ) -> Result<(), IoFailed> {
        let sizes = sizes_of(space.words(), order);
        print_measures(out, order, sizes)
    }

    fn grow(
        alloc: Global,
        space: &mut VecSpace,
        order: u32,
        greater: u32,
    ) -> Result<VecSpace, AllocError> {
        grow_region(alloc, space, order, greater)
    }

    ghost some_sizes = { some_blob_sizes };

    ghost some_measures = { some_blob_measures };
}
