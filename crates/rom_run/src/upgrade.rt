//! A heap of version 1 on a device, made one of version 2.
ghost use Rattle.std.specs.Prelude.{◌≡◌, ◌⊎◌, IsNone};
ghost use Rattle.rom_text.specs.Streams.{StopsWriting};
ghost use Rattle.rom_run.specs.Keeping.{IsUpgraded};
ghost use Rattle.rom_run.specs.Statuses.{exit_number};
ghost use Rattle.rom_run.specs.Working.{HasNone, IsDeviceKept};
ghost use Rattle.rom_run.specs.declared.heap.Heap.TheVariants.{Upgraded};

use crate::play::end_unopened;
use crate::status::Status;
use crate::telling::tell;
use crate::worked::Worked;
use itoa::Buffer;
use rom_device::Device;
use rom_model::Renew;
use rom_open::upgrade_device;
use rom_text::Sink;
use std::alloc::Global;

/// Gives the heap of version 1 on the device a region of version 2, with the same state and the same
/// count, and prints so or why not. There is no session: an upgrade is no update.
pub fn upgrade_heap<O: Renew, D: Device, K: Sink>(
    alloc: Global,
    device: D,
    out: &mut K,
) -> Worked<D>
    // It is upgraded (0), refused by name (3), memory is short (6), or the device failed (7).
    ensures statuses { (exit_number result.status ≡ 0) ⊎ (exit_number result.status ≡ 3)
        ⊎ (exit_number result.status ≡ 6) ⊎ (exit_number result.status ≡ 7) }
    ensures none_ran { IsNone result.session }
    // There is no session: what a stop may leave, the most calls of the device, and the cause of 3, 6 or 7.
    ensures none { HasNone O.machine O.Contents D.shown K.shown O.KIND O.Rejects O.earlier Upgraded device
        result.device out.old out.new (exit_number result.status) }
    // With 0 the device holds in version 2 the state and the count that it held in version 1, and so does
    // what a stop leaves, as far as it tells.
    ensures made { exit_number result.status ≡ 0 → IsUpgraded D.shown K.shown O.Contents O.earlier
        device result.device out.old out.new }
    // The device keeps its length and, where it tells its words, those outside of the heap.
    ensures kept { IsDeviceKept D.shown Upgraded device result.device }
    // With 6 the device's count of faults is what it was.
    ensures unfailed { exit_number result.status ≡ 6 →
        D.shown.faults result.device ≡ D.shown.faults device }
    ensures writing { StopsWriting K.shown out.old out.new }
    ensures rest { K.shown.rest out.new ≡ K.shown.rest out.old }
{
    match upgrade_device::<D, O>(alloc, device) {
        Ok((device, order)) => {
            tell(out, &["upgraded order ", Buffer::new().format(order)]);
            Worked {
                device,
                status: Status::Done,
                session: None,
            }
        }
        Err(refused) => end_unopened(O::KIND, refused, out),
    }
}
