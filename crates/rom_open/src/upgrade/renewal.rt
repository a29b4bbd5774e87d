//! A region of version 1 made one of version 2 in memory.
ghost use Rattle.std.specs.Prelude.{◌≡◌, ℕ, IfOk, IfErr, length};
ghost use Rattle.rom_model.specs.Blocks.{region_len};
ghost use Rattle.rom_model.specs.VecSpace.{words_of_space};
ghost use Rattle.rom_open.specs.Upgrading.{IsUnfitOld};

use crate::Why;
use crate::upgrade::inspection::inspect_earlier;
use rom_header::Geometry;
use rom_model::{Renew, VecSpace};
use std::alloc::Global;

/// Inspects a region as one of version 1, and makes it one of version 2.
pub(crate) fn renew_region<O: Renew>(
    alloc: Global,
    image: Vec<u64>,
    geometry: Geometry,
) -> Result<VecSpace, Why>
    requires { length image.items ≡ region_len geometry }
    ensures renewed { IfOk result (λ region. (s : O.State) × (k : ℕ)
        × O.earlier.Contents geometry image.items s k × O.Contents geometry (words_of_space region) s k) }
    ensures sized { IfOk result (λ region. length (words_of_space region) ≡ region_len geometry) }
    ensures refused { IfErr result (IsUnfitOld O.earlier geometry image.items) }
{
    inspect_earlier::<O>(alloc, image.as_slice(), geometry)?;
    let mut region = VecSpace::of(image);
    O::renew(alloc, &mut region, geometry.order())?;
    Ok(region)
}
