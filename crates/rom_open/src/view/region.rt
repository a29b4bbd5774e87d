//! A region, read into memory: the one that counts, or one from any place on.
ghost use Rattle.std.specs.Prelude.{◌≡◌, ◌+◌, ◌≤◌, IfErr, OnOk, IsTrue, length, slice_index};
ghost use Rattle.rom_model.specs.Blocks.{region_len};
ghost use Rattle.rom_device.specs.Device.{OnlyReads};
ghost use Rattle.rom_header.specs.Headers.{state_word};
ghost use Rattle.rom_header.specs.Layout.{STATE, part, words_needed};
ghost use Rattle.rom_header.specs.Regions.{IsHeap};
ghost use Rattle.rom_recover.specs.Image.{IsEmptyOrFull};
ghost use Rattle.rom_open.specs.Calls.{HasOpeningFaults};
ghost use Rattle.rom_open.specs.Refusals.{IsUnready, NamesTooFew};
ghost use Rattle.rom_open.specs.View.{HasCounted, IsFault};

use crate::Why;
use rom_device::Device;
use rom_header::{Header, State};
use rom_recover::compare;

/// Reads as many words as the image has, from that place on.
pub fn read_image<D: Device>(device: &mut D, at: u64, image: &mut [u64]) -> Result<(), Why>
    requires { at + length image.old ≤ D.shown.size device.old }
    ensures as_long { length image.new ≡ length image.old }
    ensures read { IsTrue D.shown.tells_words →
        OnOk result (image.new ≡ part at (length image.new) (D.shown.words device.old)) }
    ensures failed { IfErr result IsFault }
    ensures only { OnlyReads D.shown device.old device.new }
    ensures faults { HasOpeningFaults result
        (D.shown.faults device.old) (D.shown.faults device.new) (D.shown.failing device.new) }
{
    if device.read_words(at, image) < image.len() {
        return Err(Why::Device);
    }
    Ok(())
}

/// Reads the region that counts by this header, which was accepted. Under IDLE both count, and are
/// compared. The image keeps the region where it has words; an empty one keeps nothing.
pub fn read_region<D: Device>(device: &mut D, header: Header, image: &mut [u64]) -> Result<(), Why>
    requires fits { words_needed header.geometry ≤ D.shown.size device.old }
    requires heap { IsTrue D.shown.tells_words →
        IsHeap header.geometry (D.shown.words device.old) }
    requires state { IsTrue D.shown.tells_words →
        slice_index (D.shown.words device.old) STATE ≡ state_word header.state }
    requires room { IsEmptyOrFull (region_len header.geometry) image.old }
    ensures as_long { length image.new ≡ length image.old }
    ensures counted { IsTrue D.shown.tells_words → OnOk result
        (HasCounted header.geometry (D.shown.words device.old) image.new) }
    ensures refused { IsTrue D.shown.tells_words →
        IfErr result (IsUnready (D.shown.words device.old)) }
    ensures sizes { IfErr result (NamesTooFew (D.shown.size device.old)) }
    ensures only { OnlyReads D.shown device.old device.new }
    ensures faults { HasOpeningFaults result
        (D.shown.faults device.old) (D.shown.faults device.new) (D.shown.failing device.new) }
{
    let geometry = header.geometry;
    match header.state {
        State::Idle => {
            compare(device, geometry, image)?;
            Ok(())
        }
        State::Mutating => read_image(device, geometry.back(), image),
        State::Copying => read_image(device, geometry.main(), image),
    }
}
