//! The inspection of a region of words in memory.
ghost use Rattle.std.specs.Prelude.{◌≡◌, IfErr, OnOk, ℕ, length, slice_index};
ghost use Rattle.rom_model.specs.Blocks.{region_len};
ghost use Rattle.rom_open.specs.Refusals.{IsUnfit};

use crate::reasons::Why;
use rom_header::Geometry;
use rom_model::{Object, Unfit};
use std::alloc::Global;

/// The word at an offset of a region, or 0 outside of it.
pub(crate) fn word_at(image: &[u64], offset: u64) -> u64
    ensures { result ≡ slice_index image.now offset }
{
    image.get(offset as usize).copied().unwrap_or(0)
}

/// Inspects a region of words.
pub fn inspect_image<O: Object>(alloc: Global, image: &[u64], geometry: Geometry) -> Result<(), Why>
    requires { length image.now ≡ region_len geometry }
    // After `Ok` the region stands for some state and count of the object.
    ensures fit { OnOk result ((s : O.State) × (k : ℕ) × O.Contents geometry image.now s k) }
    // Else the region is of version 1 or breaks a rule, and this is the one reason; or there was no memory.
    ensures refused { IfErr result (IsUnfit O.Contents O.Rejects geometry image.now) }
{
    match O::inspect(alloc, image, geometry.order()) {
        Ok(()) => Ok(()),
        Err(Unfit::Malformed { offset, rule }) => {
            let found = word_at(image, offset);
            Err(Why::Malformed {
                offset,
                rule,
                found,
            })
        }
        Err(Unfit::Old) => Err(Why::OldRegion),
        Err(Unfit::OutOfMemory) => Err(Why::OutOfMemory),
    }
}
