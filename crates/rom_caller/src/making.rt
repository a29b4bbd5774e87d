//! A heap that is made where none stands.
ghost use Rattle.std.specs.Prelude.{◌≡◌, ◌≢◌, ◌⊎◌, ◌*◌, ◌<◌, ◌≤◌, ℕ, List, Err, IfErr, IfSome, IsErr, IsSome, IsTrue, OnOk, Some, slice_index};
ghost use Rattle.rom_device.specs.Device.{Leaves, OnlyReads};
ghost use Rattle.rom_header.specs.Layout.{MAGIC, words_needed};
ghost use Rattle.rom_header.specs.Writing.{Alters};
ghost use Rattle.rom_model.specs.Blocks.{IsOrder};
ghost use Rattle.rom_model.specs.Faults.{Rose};
ghost use Rattle.rom_model.specs.Space.{ChangesOnly};
ghost use Rattle.rom_open.specs.Making.{NoneOrHolds};
ghost use Rattle.rom_open.specs.Within.{WithinMaking};
ghost use Rattle.rom_open.specs.declared.reasons.Why.TheVariants.{Device, NotAHeap, OutOfMemory};
ghost use Rattle.rom_caller.specs.Worked.{HasMadeNone, IsMade, IsReady, order_asked};

use rom_device::Device;
use rom_header::{FormatRefused, Geometry, MAGIC};
use rom_model::Object;
use rom_store::{NotFormatted, Why, format_device};
use std::alloc::Global;

/// Whether a heap may be made.
#[derive(Clone, Copy, Debug, PartialEq, Eq)]
pub enum Mode {
    /// Opens the heap that stands there.
    Open,
    /// The same, and where the first word is 0, as in a file that was just made, makes a heap of this order
    /// first, from 4 to 16. A heap that stands there keeps its order.
    OpenOrCreate(u32),
}

// Makes a heap where the first word is 0 and there are words enough.
fn make_new<D: Device, O: Object>(alloc: Global, device: &mut D, order: u32) -> Result<(), Why>
    requires order { IsOrder order }
    requires room { words_needed order ≤ D.shown.size device.old }
    requires zero { IsTrue D.shown.tells_words → slice_index (D.shown.words device.old) 0 ≡ 0 }
    // A device that tells no words may have got another first word since. Who opens it looks at it again.
    ensures made { IsTrue D.shown.tells_words → OnOk result
        (IsMade D.shown O.Contents O.machine.empty order device.old device.new) }
    ensures why { IfErr result (λ why. (why ≡ OutOfMemory) ⊎ (why ≡ Device)) }
    ensures memory { result ≡ Err OutOfMemory → device.new ≡ device.old }
    ensures failed { IfErr result (λ why. why ≡ Device →
        Rose (D.shown.faults device.old) (D.shown.faults device.new)) }
    ensures alters { Alters D.shown (ChangesOnly 0 (words_needed order)) device.old device.new }
    ensures images { IsTrue D.shown.tells_images →
        Leaves D.shown (NoneOrHolds O.Contents order O.machine.empty) device.old device.new }
    ensures within { WithinMaking D.shown order device.old device.new }
    ensures faults { OnOk result (D.shown.faults device.new ≡ D.shown.faults device.old) }
{
    match format_device::<D, O>(alloc, device, order) {
        Ok(()) => Ok(()),
        Err(NotFormatted::OutOfMemory) => Err(Why::OutOfMemory),
        Err(NotFormatted::Refused(FormatRefused::Device)) => Err(Why::Device),
        Err(NotFormatted::Refused(_)) => Ok(()),
    }
}

/// Makes a heap where the first word is 0 and one is asked for. Where another word stands there, the device is
/// only read: it may be the first word of a heap that was damaged, and a new heap would take the place of that
/// one.
pub(crate) fn make_ready<D: Device, O: Object>(
    alloc: Global,
    device: &mut D,
    mode: Mode,
) -> Result<(), Why>
    requires order { IfSome (order_asked mode) IsOrder }
    ensures ready { OnOk result (IsReady D.shown O.Contents O.machine.empty (order_asked mode)
        device.old device.new) }
    ensures other { IsTrue D.shown.tells_words → IsSome (order_asked mode) → 0 < D.shown.size device.old →
        slice_index (D.shown.words device.old) 0 ≢ 0 →
        slice_index (D.shown.words device.old) 0 ≢ MAGIC →
        IfErr result (λ why. (why ≡ NotAHeap) ⊎ (why ≡ Device)) × IsErr result }
    ensures roomy { IsTrue D.shown.tells_words → (n : ℕ) → order_asked mode ≡ Some n →
        words_needed n ≤ D.shown.size device.old → slice_index (D.shown.words device.old) 0 ≡ 0 →
        IfErr result (λ why. (why ≡ OutOfMemory) ⊎ (why ≡ Device)) }
    ensures heap { IsTrue D.shown.tells_words → slice_index (D.shown.words device.old) 0 ≡ MAGIC →
        0 < D.shown.size device.old → IfErr result (λ why. why ≡ Device) }
    ensures read { IsTrue D.shown.tells_words → slice_index (D.shown.words device.old) 0 ≢ 0 →
        OnlyReads D.shown device.old device.new }
    ensures unmade { IfErr result (HasMadeNone D.shown O.Contents O.machine.empty (order_asked mode)
        device.old device.new) }
{
    let Mode::OpenOrCreate(order) = mode else {
        return Ok(());
    };
    let need = Geometry::of_order(order).need();
    let have = device.len();
    if have == 0 {
        return Err(Why::TooSmall { need, have });
    }
    match device.read(0) {
        Ok(0) if have < need => Err(Why::TooSmall { need, have }),
        Ok(0) => make_new::<D, O>(alloc, device, order),
        Ok(MAGIC) => Ok(()),
        Ok(_) => Err(Why::NotAHeap),
        Err(_) => Err(Why::Device),
    }
}
