//! A region rewritten whole, where a batch did not come to its end.
ghost use Rattle.std.specs.Prelude.{◌≡◌, ◌≤◌, length};
ghost use Rattle.rom_model.specs.Blocks.{region_len};
ghost use Rattle.rom_header.specs.Layout.{words_needed};
ghost use Rattle.rom_twin.specs.Calls.{Restores};

use crate::phase::Phase;
use crate::ranges::put_ranges;
use crate::state::set_state;
use rom_device::{Device, Failed};
use rom_header::{Geometry, State};
use rom_model::Look;
use rom_ranges::Range;

/// All offsets of a region.
fn whole(geometry: Geometry) -> Range
    ensures start { result.start ≡ 0 }
    ensures end { result.end ≡ region_len geometry }
{
    Range {
        start: 0,
        end: geometry.region(),
    }
}

/// Makes MUTATING certain, and then rewrites main, as in each phase but `Redo`. Nothing else is
/// written before MUTATING is certain, since until then a stop may leave COPYING, under which main
/// counts.
fn restore_main<D: Device, M: Look>(
    device: &mut D,
    geometry: Geometry,
    image: &mut M,
) -> Result<(), Failed>
    requires fits { words_needed geometry ≤ D.shown.size device.old }
    requires image { length (M.shown.image image.old) ≡ region_len geometry }
    ensures restores { Restores D.shown M.shown geometry Phase.Undo
        device.old device.new image.old image.new result }
{
    set_state(device, State::Mutating)?;
    let ranges = [whole(geometry)];
    put_ranges(device, image, geometry.main(), &ranges)
}

/// Rewrites back under COPYING, which is certain.
fn restore_back<D: Device, M: Look>(
    device: &mut D,
    geometry: Geometry,
    image: &mut M,
) -> Result<(), Failed>
    requires fits { words_needed geometry ≤ D.shown.size device.old }
    requires image { length (M.shown.image image.old) ≡ region_len geometry }
    ensures restores { Restores D.shown M.shown geometry Phase.Redo
        device.old device.new image.old image.new result }
{
    let ranges = [whole(geometry)];
    put_ranges(device, image, geometry.back(), &ranges)
}

/// Rewrites from the committed image the region that may differ from it, and makes it certain.
pub fn restore<D: Device, M: Look>(
    device: &mut D,
    geometry: Geometry,
    phase: Phase,
    image: &mut M,
) -> Result<(), Failed>
    requires fits { words_needed geometry ≤ D.shown.size device.old }
    requires image { length (M.shown.image image.old) ≡ region_len geometry }
    ensures restores { Restores D.shown M.shown geometry phase
        device.old device.new image.old image.new result }
{
    match phase {
        Phase::Redo => restore_back(device, geometry, image),
        _ => restore_main(device, geometry, image),
    }
}
