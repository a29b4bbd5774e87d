//! A heap whose header is accepted and that is recovered.
ghost use Rattle.std.specs.Prelude.{◌≡◌, ◌≤◌, IfOk, IfErr, IsTrue, length};
ghost use Rattle.rom_model.specs.Blocks.{region_len};
ghost use Rattle.rom_header.specs.Layout.{words_needed};
ghost use Rattle.rom_header.specs.Regions.{IsCurrentRegion};
ghost use Rattle.rom_open.specs.AtRest.{IsHeapAtRest};
ghost use Rattle.rom_open.specs.Opens.{Opens, told_by};
ghost use Rattle.rom_open.specs.Refusals.{IsRefusedBy, IsUnkept};
ghost use Rattle.rom_open.specs.Within.{CallsOfOrder};

use crate::reasons::Why;
use rom_device::Device;
use rom_header::{Geometry, read_header};
use rom_recover::recover_into;
use std::alloc::Global;

/// A heap that was recovered, without its device.
#[derive(Drop)]
pub struct Ready {
    /// That of the order in word 2.
    pub geometry: Geometry,
    /// The words of the region that counts.
    pub image: Vec<u64>,
}

/// Reads the header, recovers the heap, and keeps the region that counts. No object has looked at the
/// region yet. Want of memory is told once the heap is recovered, so that a header or regions that are
/// refused are told before it.
pub fn make_ready<D: Device>(alloc: Global, device: &mut D) -> Result<Ready, Why>
    // What becomes of the device, by the answer.
    ensures opens { Opens D.shown device.old device.new (told_by result) }
    // The header was accepted, and the image is the region that counted in the heap of that order.
    ensures current { IsTrue D.shown.tells_words → IfOk result (λ ready.
        IsCurrentRegion ready.geometry (D.shown.words device.old) ready.image.items) }
    // After `Ok` the device is at rest: its state is IDLE, and both regions are the image.
    ensures rest { IsTrue D.shown.tells_words → IfOk result (λ ready.
        IsHeapAtRest ready.geometry ready.image.items (D.shown.words device.new)) }
    ensures sized { IfOk result (λ ready. length ready.image.items ≡ region_len ready.geometry) }
    // The device has room for the heap.
    ensures fits { IfOk result (λ ready. words_needed ready.geometry ≤ D.shown.size device.old) }
    // The words are refused by their header, or else by the first difference of the regions under IDLE, or
    // else there was no memory. `Device` may stand in place of any.
    ensures refused { IsTrue D.shown.tells_words →
        IfErr result (IsRefusedBy IsUnkept (D.shown.words device.old)) }
    // Also where words are not told, the device was called no more than the longest opening of a heap of this
    // order calls it.
    ensures by_order { IfOk result (λ ready.
        CallsOfOrder D.shown ready.geometry device.old device.new) }
{
    let geometry = read_header(device)?.geometry;
    let Ok(mut image) = vec![in alloc; 0u64; geometry.region() as usize] else {
        recover_into(device, geometry, &mut [])?;
        return Err(Why::OutOfMemory);
    };
    recover_into(device, geometry, image.as_mut_slice())?;
    Ok(Ready { geometry, image })
}
