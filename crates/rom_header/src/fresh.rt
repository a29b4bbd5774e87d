//! The making of a new heap.
ghost use Rattle.std.specs.Prelude.{◌*◌, ◌≡◌, ◌≢◌, ◌+◌, ◌<◌, ◌≤◌, ◌↔◌};
ghost use Rattle.std.specs.Prelude.{IfOk, IfErr, OnOk, IsTrue, length, slice_index};
ghost use Rattle.rom_model.specs.Blocks.{IsOrder, region_len};
ghost use Rattle.rom_model.specs.Space.{ChangesOnly};
ghost use Rattle.rom_device.specs.Device.{Does, IsSynced, Leaves, Makes, Stays};
ghost use Rattle.rom_header.specs.Calls.{format_fault, format_reads, format_writes, format_syncs};
ghost use Rattle.rom_header.specs.Fresh.{IsNewHeap, NoneOrNew, IsFormatRefused, IsFormatAnswer, HasTooFewFor, IsLaid};
ghost use Rattle.rom_header.specs.Layout.{words_needed, MAGIC};
ghost use Rattle.rom_header.specs.Writing.{Alters};

use crate::geometry::Geometry;
use crate::header::{HEADER_VERSION, MAGIC, State};
use rom_device::{Device, Failed, write_certain};

/// Why no heap was made. The first two leave every word as it was.
#[derive(Clone, Copy, Debug, PartialEq, Eq)]
pub enum FormatRefused {
    /// Word 0 is the magic.
    AlreadyAHeap,
    /// The device has fewer words than a heap of this order needs.
    TooSmall { need: u64, have: u64 },
    /// The device failed. It holds what it held, or no heap, or the whole new one.
    Device,
}

impl From<Failed> for FormatRefused {
    ghost use Rattle.rom_header.specs.declared.fresh.FormatRefused.TheVariants.{Device};

    ghost from_gives = { λ _ e. e ≡ Device };

    fn from(_: Failed) -> Self {
        FormatRefused::Device
    }
}

/// Writes all of a new heap but its magic.
fn lay_out<D: Device>(device: &mut D, geometry: Geometry, image: &[u64]) -> Result<(), Failed>
    requires fits { words_needed geometry ≤ D.shown.size device.old }
    requires image { length image.now ≡ region_len geometry }
    ensures laid { IsTrue D.shown.tells_words →
        OnOk result (IsLaid geometry image.now (D.shown.words device.new)) }
    ensures does { Does D.shown (ChangesOnly 1 (7 + 2 * region_len geometry))
        device.old device.new }
    ensures makes { Makes D.shown 0 (7 + 2 * region_len geometry) 0 device.old device.new result }
{
    device.write_words(geometry.main(), image)?;
    device.write_words(geometry.back(), image)?;
    let idle = State::Idle.word();
    let header = [
        HEADER_VERSION,
        u64::from(geometry.order()),
        idle,
        0,
        0,
        0,
        0,
    ];
    device.write_words(1, &header)?;
    Ok(())
}

/// Makes the heap where no magic stands and no write is unsynced.
fn build<D: Device>(device: &mut D, geometry: Geometry, image: &[u64]) -> Result<(), Failed>
    requires fits { words_needed geometry ≤ D.shown.size device.old }
    requires order { IsOrder geometry }
    requires image { length image.now ≡ region_len geometry }
    requires none { IsTrue D.shown.tells_words → slice_index (D.shown.words device.old) 0 ≢ MAGIC }
    requires certain { IsSynced D.shown device.old }
    ensures made { IsTrue D.shown.tells_words →
        OnOk result (IsNewHeap geometry image.now (D.shown.words device.new)) }
    ensures certain { OnOk result (IsSynced D.shown device.new) }
    ensures alters { Alters D.shown (ChangesOnly 0 (words_needed geometry)) device.old device.new }
    ensures images { IsTrue D.shown.tells_images →
        Leaves D.shown (NoneOrNew geometry image.now) device.old device.new }
    ensures makes { Makes D.shown 0 (words_needed geometry) 2 device.old device.new result }
{
    lay_out(device, geometry, image)?;
    write_certain(device, 0, MAGIC)
}

/// Makes certain what the words are, and says whether a heap stands there.
fn is_heap<D: Device>(device: &mut D) -> Result<bool, Failed>
    requires { 0 < D.shown.size device.old }
    ensures answer { IsTrue D.shown.tells_words →
        IfOk result (λ is. IsTrue is ↔ (slice_index (D.shown.words device.old) 0 ≡ MAGIC)) }
    ensures certain { OnOk result (IsSynced D.shown device.new) }
    ensures does { Does D.shown Stays device.old device.new }
    ensures makes { Makes D.shown 1 0 1 device.old device.new result }
{
    device.sync()?;
    let magic = device.read(0)?;
    Ok(magic == MAGIC)
}

/// Makes a new heap of this order with this image as its region, unless a heap stands there. The
/// region is read by nobody here; it is to be that of a new heap.
///
/// Stopped at any moment, it leaves the device as a stop might have left it before, or without a
/// heap, or with the whole new one; so it can be run again. Words behind the heap's stay.
pub fn write_new<D: Device>(device: &mut D, order: u32, image: &[u64]) -> Result<(), FormatRefused>
    requires order { IsOrder order }
    requires image { length image.now ≡ region_len order }

    // Where the device tells its words: with `AlreadyAHeap` word 0 was the magic. With `TooSmall` it was not,
    // and the words were too few. With `Ok` neither was so.
    ensures answer { IsTrue D.shown.tells_words →
        IsFormatAnswer order (D.shown.words device.old) result }
    ensures fits { OnOk result (words_needed order ≤ D.shown.size device.old) }
    // `TooSmall` names how many words a heap of this order needs, and how many the device has.
    ensures sizes { IfErr result (HasTooFewFor order (D.shown.size device.old)) }

    // Where the device tells its words: after `Ok` a heap whose state is IDLE stands there, with the image in
    // both regions.
    ensures made { IsTrue D.shown.tells_words →
        OnOk result (IsNewHeap order image.now (D.shown.words device.new)) }
    // Where images are told, a stop after `Ok` leaves the words as they read.
    ensures certain { OnOk result (IsSynced D.shown device.new) }
    // The size stays. Where the device tells its words, none behind those of the heap differs.
    ensures alters { Alters D.shown (ChangesOnly 0 (words_needed order)) device.old device.new }

    // Where images are told, what a stop since the call began leaves could be left before, or has no heap, or
    // has the whole new one.
    ensures images { IsTrue D.shown.tells_images →
        Leaves D.shown (NoneOrNew order image.now) device.old device.new }
    // Where the device tells its words, and has a heap already or too few words for one, no word changes.
    ensures refused { IsTrue D.shown.tells_words →
        IsFormatRefused order (D.shown.words device.old) → Does D.shown Stays device.old device.new }

    // No call follows one that failed, and the counts are exact unless one did.
    ensures makes { Makes D.shown (format_reads result) (format_writes order result)
        (format_syncs result)
        device.old device.new (format_fault result) }
{
    let have = device.len();
    let geometry = Geometry::of_order(order);
    let need = geometry.need();
    if have == 0 {
        return Err(FormatRefused::TooSmall { need, have });
    }
    if is_heap(device)? {
        return Err(FormatRefused::AlreadyAHeap);
    }
    if have < need {
        return Err(FormatRefused::TooSmall { need, have });
    }
    build(device, geometry, image)?;
    Ok(())
}
