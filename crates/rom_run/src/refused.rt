//! A heap that was to be opened for callers, and is refused.
ghost use Rattle.std.specs.Prelude.{◌≡◌, ◌⊎◌, IsNone};
ghost use Rattle.rom_run.specs.Working.{HasNoHeap};
ghost use Rattle.rom_run.specs.declared.heap.Heap.TheVariants.{Standing};
ghost use Rattle.rom_text.specs.Streams.{StopsWriting};
ghost use Rattle.rom_store.specs.Openings.{HasBeenRefused};

use crate::play::end_unopened;
use crate::status::Status;
use crate::worked::Worked;
use rom_device::Device;
use rom_model::Object;
use rom_open::Refused;
use rom_text::Sink;

/// Prints why the heap of a device was not opened for callers, and hands the device on. Who opened it by
/// `open_store` knows on which device it was.
pub fn end_refused<O: Object, D: Device, K: Sink>(refused: Refused<D>, out: &mut K) -> Worked<D>
    // If it was refused on the device `was`, there is no heap to work on there.
    ensures none { (was : D) →
        HasBeenRefused D.shown O.Contents O.Rejects was refused.device refused.why →
        HasNoHeap O.machine O.Contents D.shown K.shown O.KIND O.Rejects O.earlier Standing was out.old out.new result }
    // It was refused by name (3), memory was short (6), or the device failed (7).
    ensures statuses { (result.status ≡ Status.HeapRefused) ⊎ (result.status ≡ Status.NoMemory)
        ⊎ (result.status ≡ Status.DeviceFailed) }
    ensures ran { IsNone result.session }
    ensures writing { StopsWriting K.shown out.old out.new }
    ensures rest { K.shown.rest out.new ≡ K.shown.rest out.old }
{
    end_unopened(O::KIND, refused, out)
}
