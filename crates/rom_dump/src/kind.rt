//! The kind of the heap that a device holds.
ghost use Rattle.std.specs.Prelude.{◌≡◌, IfOk, IsTrue};
ghost use Rattle.rom_device.specs.Device.{OnlyReads};
ghost use Rattle.rom_model.specs.Faults.{HasCause};
ghost use Rattle.rom_dump.specs.Kinds.{IsKindFound, looked_at};

use rom_device::{Device, Failed};
use rom_header::{Geometry, State};
use rom_open::Region;

/// Where the region begins that is looked at first: the one of this name, or the one that counts in this state.
fn region_at(geometry: Geometry, from: Option<Region>, state: u64) -> u64
    ensures { result ≡ looked_at from geometry state }
{
    match from {
        Some(Region::Main) => geometry.main(),
        Some(Region::Back) => geometry.back(),
        None if state == State::Mutating.word() => geometry.back(),
        None => geometry.main(),
    }
}

/// The number of the kind of the heap on a device: the first word of the region of this name, or of the one that
/// counts. It is `None` where no header names an order for which there are words enough. `main` chooses by it of which
/// object a heap is looked for, and no more: whatever it is, the object's own inspection decides.
pub fn kind_of<D: Device>(device: &mut D, from: Option<Region>) -> Result<Option<u64>, Failed>
    // Where the device tells its words: it is the word where that region begins, in a heap of the order that word 2
    // names; or there are too few words for one, or it names none.
    ensures kind { IsTrue D.shown.tells_words →
        IfOk result (IsKindFound from (D.shown.words device.old)) }
    // It fails only where the device did, at its last call.
    ensures cause { HasCause (D.shown.faults device.old) (D.shown.faults device.new)
        (D.shown.failing device.new) result }
    ensures only { OnlyReads D.shown device.old device.new }
{
    if device.len() < 8 {
        return Ok(None);
    }
    let Some(geometry) = Geometry::of(device.read(2)?) else {
        return Ok(None);
    };
    if device.len() < geometry.need() {
        return Ok(None);
    }
    let state = device.read(3)?;
    let kind = device.read(region_at(geometry, from, state))?;
    Ok(Some(kind))
}
