//! A new heap on a device.
ghost use Rattle.std.specs.Prelude.{◌≡◌, ◌≢◌, ◌⊎◌, IsTrue, codes};
ghost use Rattle.rom_model.specs.Blocks.{IsOrder};
ghost use Rattle.rom_text.specs.Runs.{IsLineWrittenOrCutShort};
ghost use Rattle.rom_text.specs.Streams.{StopsWriting};
ghost use Rattle.rom_open.specs.Within.{WithinMaking};
ghost use Rattle.rom_run.specs.Keeping.{HasDeviceFailed, IsLeft, IsMade, IsUnmade};
ghost use Rattle.rom_run.specs.Statuses.{exit_number};
ghost use Rattle.rom_run.specs.Working.{IsDeviceKept};
ghost use Rattle.rom_run.specs.declared.heap.Heap.TheVariants.{New};

use crate::refusals::{tell_unmade, unmade_status};
use crate::status::Status;
use crate::telling::tell;
use itoa::Buffer;
use rom_device::Device;
use rom_model::Object;
use rom_open::format_device;
use rom_text::Sink;
use std::alloc::Global;

/// Makes a heap of this order on the device, and prints so or why not.
pub fn make_heap<O: Object, D: Device, K: Sink>(
    alloc: Global,
    device: &mut D,
    order: u32,
    out: &mut K,
) -> Status
    requires order { IsOrder order }
    // The device keeps its length and, where it tells its words, those behind the heap, or all of them where
    // the heap is refused.
    ensures kept { IsDeviceKept D.shown (New order) device.old device.new }
    // Want of memory comes before any call of the device.
    ensures uncalled { exit_number result ≡ 6 → device.new ≡ device.old }
    // A heap is made (0), refused by name (3), there is no memory (6), or the device failed (7).
    ensures statuses { (exit_number result ≡ 0) ⊎ (exit_number result ≡ 3)
        ⊎ (exit_number result ≡ 6) ⊎ (exit_number result ≡ 7) }
    // The device is called no more often than it takes to make one heap, and not after a call that failed.
    ensures calls { WithinMaking D.shown order device.old device.new }
    // With 0 the device and whatever a stop leaves hold an empty heap of this order, as far as they are told.
    ensures made { exit_number result ≡ 0 → IsMade D.shown K.shown O.Contents O.machine.empty order
        device.old device.new out.old out.new }
    // Where images are told, a stop leaves what it could before, or no heap, or an empty one of this order.
    ensures images { IsTrue D.shown.tells_images →
        IsLeft O.machine O.Contents D.shown O.earlier (New order) device.old device.new }
    // With 3 the line, whole or cut short, names why: that is true of the words, where these are told.
    ensures heap_refused { exit_number result ≡ 3 →
        IsUnmade D.shown K.shown order device.old device.new out.old out.new }
    // With 7 the last call of the device failed, and no other.
    ensures device_failed { exit_number result ≡ 7 →
        HasDeviceFailed D.shown K.shown device.old device.new out.old out.new }
    // With any status but 7 the device's count of faults stays.
    ensures unfailed { exit_number result ≢ 7 →
        D.shown.faults device.new ≡ D.shown.faults device.old }
    ensures no_memory { exit_number result ≡ 6 → IsLineWrittenOrCutShort K.shown out.old out.new (codes "no memory") }
    ensures writing { StopsWriting K.shown out.old out.new }
    ensures rest { K.shown.rest out.new ≡ K.shown.rest out.old }
{
    match format_device::<D, O>(alloc, device, order) {
        Ok(()) => {
            tell(out, &["formatted order ", Buffer::new().format(order)]);
            Status::Done
        }
        Err(why) => {
            tell_unmade(out, why);
            unmade_status(why)
        }
    }
}
