//! A whole heap, put on a device that has none.
ghost use Rattle.std.specs.Prelude.{◌≡◌, ◌≢◌, ◌+◌, ◌-◌, ◌<◌, ◌≤◌, ◌↔◌, IfErr, IfOk, IsTrue, OnOk, length, slice_index};
ghost use Rattle.rom_model.specs.Space.{ChangesOnly};
ghost use Rattle.rom_device.specs.Device.{Does, IsSynced, Leaves, Makes, Stays};
ghost use Rattle.rom_header.specs.Calls.{format_fault, format_reads, format_syncs};
ghost use Rattle.rom_header.specs.Layout.{MAGIC};
ghost use Rattle.rom_header.specs.Writing.{Alters};
ghost use Rattle.rom_copy.specs.Putting.{BeginsWith, HasTooFewFor, IsPutAnswer, IsPutRefused, NoneOrWhole, put_writes};

use rom_device::{Device, Failed, write_certain};
use rom_header::{FormatRefused, MAGIC};

/// Writes all words but the first, and then the first, which makes them a heap.
fn write_whole<D: Device>(device: &mut D, words: &[u64]) -> Result<(), Failed>
    requires some { 0 < length words.now }
    requires fits { length words.now ≤ D.shown.size device.old }
    requires none { IsTrue D.shown.tells_words → slice_index (D.shown.words device.old) 0 ≢ MAGIC }
    requires certain { IsSynced D.shown device.old }
    ensures made { IsTrue D.shown.tells_words →
        OnOk result (BeginsWith words.now (D.shown.words device.new)) }
    ensures certain { OnOk result (IsSynced D.shown device.new) }
    ensures alters { Alters D.shown (ChangesOnly 0 (length words.now)) device.old device.new }
    ensures images { IsTrue D.shown.tells_images →
        Leaves D.shown (NoneOrWhole words.now) device.old device.new }
    ensures makes { Makes D.shown 0 (length words.now) 2 device.old device.new result }
{
    device.write_words(1, &words[1..])?;
    write_certain(device, 0, words[0])
}

/// Makes certain what the words are, and says whether a heap stands there.
fn is_heap<D: Device>(device: &mut D) -> Result<bool, Failed>
    requires { 0 < D.shown.size device.old }
    ensures answer { IsTrue D.shown.tells_words →
        IfOk result (λ is. IsTrue is ↔ (slice_index (D.shown.words device.old) 0 ≡ MAGIC)) }
    ensures certain { OnOk result (IsSynced D.shown device.new) }
    ensures does { Does D.shown Stays device.old device.new }
    ensures makes { Makes D.shown 1 0 1 device.old device.new result }
{
    device.sync()?;
    let magic = device.read(0)?;
    Ok(magic == MAGIC)
}

/// Puts these words on a device, unless a heap stands there. They are to be those of a whole heap.
///
/// Stopped at any moment, it leaves the device as a stop might have left it before, or without a heap, or with the
/// whole one; so it can be run again. Words behind the heap's stay.
pub fn put_whole<D: Device>(device: &mut D, words: &[u64]) -> Result<(), FormatRefused>
    requires some { 0 < length words.now }
    // Where the device tells its words: with `AlreadyAHeap` word 0 was the magic. With `TooSmall` it was not,
    // and the words were too few. With `Ok` neither was so.
    ensures answer { IsTrue D.shown.tells_words →
        IsPutAnswer words.now (D.shown.words device.old) result }
    ensures fits { OnOk result (length words.now ≤ D.shown.size device.old) }
    // `TooSmall` names how many words there are to put, and how many the device has.
    ensures sizes { IfErr result (HasTooFewFor (length words.now) (D.shown.size device.old)) }
    // Where the device tells its words: after `Ok` it begins with these.
    ensures made { IsTrue D.shown.tells_words →
        OnOk result (BeginsWith words.now (D.shown.words device.new)) }
    // Where images are told, a stop after `Ok` leaves the words as they read.
    ensures certain { OnOk result (IsSynced D.shown device.new) }
    // The size stays. Where the device tells its words, none behind those of the heap differs.
    ensures alters { Alters D.shown (ChangesOnly 0 (length words.now)) device.old device.new }
    // Where images are told, what a stop since the call began leaves could be left before, or has no heap, or
    // begins with all of these words.
    ensures images { IsTrue D.shown.tells_images →
        Leaves D.shown (NoneOrWhole words.now) device.old device.new }
    // Where the device tells its words, and has a heap already or too few words for these, no word changes.
    ensures refused { IsTrue D.shown.tells_words →
        IsPutRefused words.now (D.shown.words device.old) → Does D.shown Stays device.old device.new }
    // No call follows one that failed, and the counts are exact unless one did.
    ensures makes { Makes D.shown (format_reads result) (put_writes (length words.now) result)
        (format_syncs result)
        device.old device.new (format_fault result) }
{
    let (need, have) = (words.len() as u64, device.len());
    if have == 0 {
        return Err(FormatRefused::TooSmall { need, have });
    }
    if is_heap(device)? {
        return Err(FormatRefused::AlreadyAHeap);
    }
    if have < need {
        return Err(FormatRefused::TooSmall { need, have });
    }
    write_whole(device, words)?;
    Ok(())
}
