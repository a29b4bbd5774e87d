//! The inspection of a region of words in memory as one of version 1.
ghost use Rattle.std.specs.Prelude.{◌≡◌, IfErr, OnOk, ℕ, length};
ghost use Rattle.rom_model.specs.Blocks.{region_len};
ghost use Rattle.rom_open.specs.Upgrading.{IsUnfitOld};

use crate::Why;
use crate::image::word_at;
use rom_header::Geometry;
use rom_model::{KIND, Renew, Unfit, VERSION};
use std::alloc::Global;

/// The version that a region is made.
const NEXT: u64 = 2;

/// Inspects a region of words as one of version 1. One of version 2 is told by its first two words
/// alone, and looked at no further.
pub(crate) fn inspect_earlier<O: Renew>(
    alloc: Global,
    image: &[u64],
    geometry: Geometry,
) -> Result<(), Why>
    requires { length image.now ≡ region_len geometry }
    ensures fit { OnOk result ((s : O.State) × (k : ℕ) × O.earlier.Contents geometry image.now s k) }
    ensures refused { IfErr result (IsUnfitOld O.earlier geometry image.now) }
{
    if image[KIND as usize] == O::KIND && image[VERSION as usize] == NEXT {
        return Err(Why::NewRegion);
    }
    match O::inspect_old(alloc, image, geometry.order()) {
        Ok(()) => Ok(()),
        Err(Unfit::Malformed { offset, rule }) => {
            let found = word_at(image, offset);
            Err(Why::Malformed {
                offset,
                rule,
                found,
            })
        }
        Err(Unfit::OutOfMemory) => Err(Why::OutOfMemory),
        // There is no version before version 1.
        Err(Unfit::Old) => unreachable!(),
    }
}
