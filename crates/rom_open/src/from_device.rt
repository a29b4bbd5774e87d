//! The opening of a heap on a device.
ghost use Rattle.std.specs.Prelude.{◌≡◌, ◌≤◌, ℕ, IfOk, IsTrue, length};
ghost use Rattle.rom_model.specs.Blocks.{region_len};
ghost use Rattle.rom_header.specs.Held.{HoldsOne};
ghost use Rattle.rom_header.specs.Layout.{words_needed};
ghost use Rattle.rom_open.specs.AtRest.{IsHeapAtRest};
ghost use Rattle.rom_open.specs.Opening.{IsHeldSince, IsOpeningAnswer, device_of, refusal_of};
ghost use Rattle.rom_open.specs.Opens.{Opens};
ghost use Rattle.rom_open.specs.Within.{CallsOfOrder};

use crate::image::inspect_image;
use crate::ready::make_ready;
use crate::reasons::Why;
use rom_device::Device;
use rom_header::Geometry;
use rom_model::Object;
use std::alloc::Global;

/// A heap on a device that was opened.
#[derive(Drop)]
pub struct Opened<D> {
    /// The device. It has been recovered.
    pub device: D,
    /// That of the order in word 2.
    pub geometry: Geometry,
    /// The words of the region that counts, which is well-formed.
    pub image: Vec<u64>,
}

/// A device that was not opened. It is handed back, since [`open_device`] takes it by value: what is opened
/// owns it. Its words are as they were where the header or the regions were refused. It has been recovered
/// where the region that counts was refused, or there was no memory.
/// Where it failed either may hold, or it is recovered in part; then it can be opened again.
#[derive(Drop)]
pub struct Refused<D> {
    pub device: D,
    pub why: Why,
}

/// Opens the heap on a device: reads the header, recovers the heap, and inspects the region that
/// counts. The device comes back whatever is answered.
///
/// It may be stopped at any moment and run again: every image that a stop leaves could be left
/// before, or has the same region that counts. Under IDLE it writes nothing.
pub fn open_device<D: Device, O: Object>(alloc: Global, device: D) -> Result<Opened<D>, Refused<D>>
    // Where the device tells its words, the answer is exactly theirs.
    ensures answer { IsTrue D.shown.tells_words →
        IsOpeningAnswer O.Contents O.Rejects (D.shown.words device) result }
    // What becomes of the device, by the answer.
    ensures opens { Opens D.shown device (device_of result) (refusal_of result) }

    // The image is well-formed: it stands for some state and count.
    ensures fit { IfOk result (λ opened.
        (s : O.State) × (k : ℕ) × O.Contents opened.geometry opened.image.items s k) }
    ensures sized { IfOk result (λ opened. length opened.image.items ≡ region_len opened.geometry) }
    // What the image stands for, the device's words held at the call and hold now; and each image that a stop
    // might have left by now could be left before the call, or holds it.
    ensures held { IfOk result (λ opened.
        (s : O.State) (k : ℕ) → O.Contents opened.geometry opened.image.items s k →
        IsHeldSince O.Contents D.shown opened.geometry s k device opened.device) }
    // Words hold at most one order, one state and one count.
    ensures one { HoldsOne O.Contents }

    // After `Ok` the device has room for the heap.
    ensures fits { IfOk result (λ opened.
        words_needed opened.geometry ≤ D.shown.size opened.device) }
    // After `Ok` the device is at rest: its state is IDLE, and both regions are the image.
    ensures rest { IsTrue D.shown.tells_words → IfOk result (λ opened.
        IsHeapAtRest opened.geometry opened.image.items (D.shown.words opened.device)) }
    // Also where words are not told, the device was called no more than the longest opening of a heap of this
    // order calls it.
    ensures by_order { IfOk result (λ opened.
        CallsOfOrder D.shown opened.geometry device opened.device) }
{
    let mut device = device;
    match make_ready(alloc, &mut device) {
        Ok(ready) => match inspect_image::<O>(alloc, ready.image.as_slice(), ready.geometry) {
            Ok(()) => Ok(Opened {
                device,
                geometry: ready.geometry,
                image: ready.image,
            }),
            Err(why) => Err(Refused { device, why }),
        },
        Err(why) => Err(Refused { device, why }),
    }
}
