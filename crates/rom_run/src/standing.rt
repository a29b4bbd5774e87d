//! The heap that a device has, opened to be shown.
ghost use Rattle.std.specs.Prelude.{◌≡◌, ℕ, [], IfErr, IfOk, OnOk};
ghost use Rattle.rom_model.specs.Blocks.{IsOrder};
ghost use Rattle.rom_model.specs.VecSpace.{words_of_space};
ghost use Rattle.rom_run.specs.Played.{AreAnswered};
ghost use Rattle.rom_run.specs.Working.{HasNoHeap, HasSession, IsAsBefore, IsDeviceKept};
ghost use Rattle.rom_run.specs.declared.heap.Heap.TheVariants.{Standing};
ghost use Rattle.rom_text.specs.Streams.{StopsWriting};
ghost use Rattle.rom_store.specs.Sessions.{EachStory};

use crate::play::end_unopened;
use crate::worked::Worked;
use rom_device::Device;
use rom_model::{Object, VecSpace};
use rom_open::{Opened, open_device};
use rom_store::Session;
use rom_text::Sink;
use std::alloc::Global;

/// A heap that was opened to be shown.
#[derive(Drop)]
pub struct OpenHeap<D> {
    pub device: D,
    pub order: u32,
    /// The words of the region that counts.
    pub space: VecSpace,
    /// The session in which nothing was done on it.
    pub session: Session,
}

/// Opens the heap on the device, or prints why it is refused.
pub fn open_heap<O: Object, D: Device, K: Sink>(
    alloc: Global,
    device: D,
    out: &mut K,
) -> Result<OpenHeap<D>, Worked<D>>
    ensures order { IfOk result (λ heap. IsOrder heap.order) }
    // After `Ok` the words in memory are a well-formed region.
    ensures region { IfOk result (λ heap.
        (s : O.State) × (k : ℕ) × O.Contents heap.order (words_of_space heap.space) s k) }
    // After `Ok` each story of the session begins with what the region's words stand for.
    ensures story { IfOk result (λ heap. EachStory O.machine O.Contents heap.session (λ story.
        (story.order ≡ heap.order)
        × O.Contents heap.order (words_of_space heap.space) story.opening story.opening_count)) }
    // After `Ok` there is a session on the heap that stands. It has no callers.
    ensures session { IfOk result (λ heap. HasSession O.machine O.Contents D.shown Standing device
        heap.device (AreAnswered O.machine [] []) heap.session) }
    // After `Ok` no pass was made. As far as the device tells, it and whatever a stop leaves hold what the
    // story begins with.
    ensures still { IfOk result (λ heap. EachStory O.machine O.Contents heap.session
        (IsAsBefore O.Contents D.shown device heap.device)) }
    // After `Ok` the device has kept its length and, where it tells its words, those outside of the heap.
    ensures kept { IfOk result (λ heap. IsDeviceKept D.shown Standing device heap.device) }
    // After `Ok` the device's count of faults is what it was.
    ensures unfailed { IfOk result (λ heap. D.shown.faults heap.device ≡ D.shown.faults device) }
    ensures unprinted { OnOk result (out.new ≡ out.old) }
    // After an error there is no heap to work on: it is refused by name (3), memory was short (6), or the device
    // failed (7).
    ensures none { IfErr result (HasNoHeap O.machine O.Contents D.shown K.shown O.KIND O.Rejects O.earlier
        Standing device out.old out.new) }
    ensures writing { StopsWriting K.shown out.old out.new }
    ensures rest { K.shown.rest out.new ≡ K.shown.rest out.old }
{
    match open_device::<D, O>(alloc, device) {
        Ok(
            Opened {
                device,
                geometry,
                image,
            },
        ) => {
            let faults = device.fault_count();
            let order = geometry.order();
            let space = VecSpace::of(image);
            let session = Session::unchanged(order, &space, faults);
            Ok(OpenHeap {
                device,
                order,
                space,
                session,
            })
        }
        Err(refused) => Err(end_unopened(O::KIND, refused, out)),
    }
}
