//! The making of a heap with the empty state.
ghost use Rattle.std.specs.Prelude.{◌≡◌, ◌≤◌, ℕ, List, OnOk, IfErr, IsTrue, Err};
ghost use Rattle.rom_model.specs.Blocks.{IsOrder};
ghost use Rattle.rom_model.specs.Space.{ChangesOnly};
ghost use Rattle.rom_model.specs.VecSpace.{words_of_space};
ghost use Rattle.rom_device.specs.Device.{Does, IsSynced, Leaves, Makes, Stays};
ghost use Rattle.rom_header.specs.Calls.{format_fault, format_reads, format_writes, format_syncs};
ghost use Rattle.rom_header.specs.Fresh.{HasTooFewFor, IsFormatAnswer, IsFormatRefused, IsNewHeap};
ghost use Rattle.rom_header.specs.Layout.{words_needed};
ghost use Rattle.rom_header.specs.Writing.{Alters};
ghost use Rattle.rom_header.specs.Held.{Holds};
ghost use Rattle.rom_open.specs.Making.{IfMade, IsNewWith, NamesTooFewFor, NoneOrHolds};
ghost use Rattle.rom_open.specs.Within.{WithinMaking};
ghost use Rattle.rom_open.specs.declared.new_heap.NotFormatted.TheVariants.{OutOfMemory};

use rom_device::Device;
use rom_header::{FormatRefused, write_new};
use rom_model::{Object, VecSpace, new_region};
use std::alloc::{AllocError, Global};

/// Why no heap was made.
#[derive(Clone, Copy, Debug, PartialEq, Eq)]
pub enum NotFormatted {
    /// The device was refused, or failed.
    Refused(FormatRefused),
    /// There was no memory for a region. The device was not called.
    OutOfMemory,
}

impl From<FormatRefused> for NotFormatted {
    ghost use Rattle.std.specs.Prelude.{◌≡◌};
    ghost use Rattle.rom_open.specs.declared.new_heap.NotFormatted.TheVariants.{Refused};

    ghost from_gives = { λ refused why. why ≡ Refused refused };

    fn from(refused: FormatRefused) -> NotFormatted {
        NotFormatted::Refused(refused)
    }
}

impl From<AllocError> for NotFormatted {
    ghost use Rattle.std.specs.Prelude.{◌≡◌};
    ghost use Rattle.rom_open.specs.declared.new_heap.NotFormatted.TheVariants.{OutOfMemory};

    ghost from_gives = { λ _ why. why ≡ OutOfMemory };

    fn from(_: AllocError) -> NotFormatted {
        NotFormatted::OutOfMemory
    }
}

/// Makes a heap of this order in the words of this region, which hold the object's empty state and
/// the count 0, unless a heap stands there. It takes no memory.
///
/// Stopped at any moment, it leaves the device as a stop might have left it before, or without a
/// heap, or with the whole new one; so it can be run again. Words behind the heap's stay.
pub fn write_heap<D: Device, O: Object>(
    device: &mut D,
    order: u32,
    region: &VecSpace,
) -> Result<(), FormatRefused>
    requires order { IsOrder order }
    requires region { O.Contents order (words_of_space region.now) O.machine.empty 0 }

    // The answer is exactly that of the device's words, where it tells them.
    ensures answer { IsTrue D.shown.tells_words →
        IsFormatAnswer order (D.shown.words device.old) result }
    ensures fits { OnOk result (words_needed order ≤ D.shown.size device.old) }
    // `TooSmall` names how many words are needed and how many there are, also where words are not told.
    ensures sizes { IfErr result (HasTooFewFor order (D.shown.size device.old)) }

    // After `Ok` the device's words are the new heap, with the region twice.
    ensures made { IsTrue D.shown.tells_words →
        OnOk result (IsNewHeap order (words_of_space region.now) (D.shown.words device.new)) }
    // After `Ok` the device's words hold the empty state and the count 0.
    ensures held { IsTrue D.shown.tells_words →
        OnOk result (Holds O.Contents order (D.shown.words device.new) O.machine.empty 0) }
    // After `Ok` no write is unsynced: a stop leaves the words as they read.
    ensures certain { OnOk result (IsSynced D.shown device.new) }
    // After `Ok` each image that a stop leaves holds the empty state and the count 0.
    ensures held_images { IsTrue D.shown.tells_images → OnOk result ((i : List ℕ) →
        D.shown.leaves device.new i → Holds O.Contents order i O.machine.empty 0) }
    // Whatever the answer, only words that the heap has, or would have, may differ.
    ensures alters { Alters D.shown (ChangesOnly 0 (words_needed order)) device.old device.new }

    // Each image that a stop might have left by now could be left before the call, or has no heap, or holds
    // the empty state and the count 0.
    ensures images { IsTrue D.shown.tells_images →
        Leaves D.shown (NoneOrHolds O.Contents order O.machine.empty) device.old device.new }
    // Where a heap stood, or there are too few words, every word stays, and a stop leaves no other image than
    // before.
    ensures refused { IsTrue D.shown.tells_words →
        IsFormatRefused order (D.shown.words device.old) → Does D.shown Stays device.old device.new }

    // No call follows one that failed, and the counts are exact unless one did.
    ensures makes { Makes D.shown (format_reads result) (format_writes order result)
        (format_syncs result)
        device.old device.new (format_fault result) }
    // The device was called no more than one making calls it, and not after a call that failed.
    ensures within { WithinMaking D.shown order device.old device.new }
{
    write_new(device, order, region.words())
}

/// Makes a heap of this order that holds the object's empty state and the count 0, unless a heap
/// stands there.
///
/// Stopped at any moment, it leaves the device as a stop might have left it before, or without a
/// heap, or with the whole new one; so it can be run again. Words behind the heap's stay.
pub fn format_device<D: Device, O: Object>(
    alloc: Global,
    device: &mut D,
    order: u32,
) -> Result<(), NotFormatted>
    requires order { IsOrder order }

    // For want of memory the device was not called.
    ensures memory { result ≡ Err OutOfMemory → device.new ≡ device.old }
    // Else the answer is exactly that of the device's words, where it tells them.
    ensures answer { IsTrue D.shown.tells_words →
        IfMade result (IsFormatAnswer order (D.shown.words device.old)) }
    ensures fits { OnOk result (words_needed order ≤ D.shown.size device.old) }
    // `TooSmall` names how many words are needed and how many there are, also where words are not told.
    ensures sizes { IfMade result (NamesTooFewFor order (D.shown.size device.old)) }

    // After `Ok` the device's words are a new heap with the empty state.
    ensures made { IsTrue D.shown.tells_words →
        OnOk result (IsNewWith O.Contents order O.machine.empty (D.shown.words device.new)) }
    // After `Ok` the device's words hold the empty state and the count 0.
    ensures held { IsTrue D.shown.tells_words →
        OnOk result (Holds O.Contents order (D.shown.words device.new) O.machine.empty 0) }
    // After `Ok` no write is unsynced: a stop leaves the words as they read.
    ensures certain { OnOk result (IsSynced D.shown device.new) }
    // After `Ok` each image that a stop leaves holds the empty state and the count 0.
    ensures held_images { IsTrue D.shown.tells_images → OnOk result ((i : List ℕ) →
        D.shown.leaves device.new i → Holds O.Contents order i O.machine.empty 0) }
    // Whatever the answer, only words that the heap has, or would have, may differ.
    ensures alters { Alters D.shown (ChangesOnly 0 (words_needed order)) device.old device.new }

    // Each image that a stop might have left by now could be left before the call, or has no heap, or holds
    // the empty state and the count 0.
    ensures images { IsTrue D.shown.tells_images →
        Leaves D.shown (NoneOrHolds O.Contents order O.machine.empty) device.old device.new }
    // Where a heap stood, or there are too few words, every word stays, and a stop leaves no other image than
    // before.
    ensures refused { IsTrue D.shown.tells_words →
        IsFormatRefused order (D.shown.words device.old) → Does D.shown Stays device.old device.new }

    // No call follows one that failed, and the counts are exact unless one did.
    ensures makes { IfMade result (λ made.
        Makes D.shown (format_reads made) (format_writes order made) (format_syncs made)
        device.old device.new (format_fault made)) }
    // The device was called no more than one making calls it, and not after a call that failed.
    ensures within { WithinMaking D.shown order device.old device.new }
{
    // The region is made in memory first, so that want of memory comes before any call of the device. Who
    // goes on with the region makes it itself, and calls `write_heap`.
    let region = new_region::<O>(alloc, order)?;
    write_heap::<D, O>(device, order, &region)?;
    Ok(())
}
