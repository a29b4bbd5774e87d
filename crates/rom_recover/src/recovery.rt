//! Recovery of a heap on a device.
ghost use Rattle.std.specs.Prelude.{◌≡◌, ◌<◌, ◌≤◌, ℕ, List, IfOk, IfErr, OnOk, IsTrue, length, slice_index};
ghost use Rattle.rom_model.specs.Blocks.{region_len};
ghost use Rattle.rom_model.specs.Faults.{AtMost};
ghost use Rattle.rom_device.specs.Device.{IsSynced, Leaves, Makes, OnlyReads};
ghost use Rattle.rom_header.specs.Headers.{IsIdle, state_word};
ghost use Rattle.rom_header.specs.Layout.{STATE, words_needed};
ghost use Rattle.rom_header.specs.Regions.{IsHeap, SameRegion};
ghost use Rattle.rom_header.specs.Writing.{Alters};
ghost use Rattle.rom_recover.specs.Calls.{Calls, SyncsOnce, WithinRecovery, reads_at_most};
ghost use Rattle.rom_recover.specs.Doubt.{IsImageRecovered, IsLeftInDoubt};
ghost use Rattle.rom_recover.specs.Image.{IsEmptyOrFull, KeepsMain};
ghost use Rattle.rom_recover.specs.Recovered.{IsDone, IsFirst, IsStateOf, Mended, Mends};

use crate::comparison::compare;
use crate::restore::redo;
use rom_device::{Device, Failed};
use rom_header::{Geometry, STATE, State};

/// What recovery found.
#[derive(Clone, Copy, Debug, PartialEq, Eq)]
pub struct Recovered {
    /// The state at the start.
    pub found: State,
}

/// Why a heap was not recovered.
#[derive(Clone, Copy, Debug, PartialEq, Eq)]
pub enum RecoverRefused {
    /// The state is IDLE and the regions differ: the least offset at which they do, in words from a
    /// region's start, and the words there. Nothing is changed. A word of back behind these may
    /// have failed to be read; then that was the last call.
    Twins { offset: u64, main: u64, back: u64 },
    /// The device failed. Recovery may be run again.
    Device,
}

impl From<Failed> for RecoverRefused {
    ghost use Rattle.rom_recover.specs.declared.recovery.RecoverRefused.TheVariants.{Device};

    ghost from_gives = { λ _ e. e ≡ Device };

    fn from(_: Failed) -> Self {
        RecoverRefused::Device
    }
}

/// Reads the state. A device that does not tell its words may read any word there; one that is no
/// state's counts as IDLE, which changes nothing.
fn read_state<D: Device>(device: &mut D) -> Result<State, Failed>
    requires { STATE < D.shown.size device.old }
    ensures state { IsTrue D.shown.tells_words →
        IfOk result (IsStateOf (slice_index (D.shown.words device.old) STATE)) }
    ensures only { OnlyReads D.shown device.old device.new }
    ensures makes { Makes D.shown 1 0 0 device.old device.new result }
{
    let word = device.read(STATE)?;
    Ok(State::of(word).unwrap_or(State::Idle))
}

/// Makes both regions the one that counts and the state IDLE, and every word certain. The header
/// is one that was accepted with this geometry.
///
/// It may be stopped at any moment and run again: every image that a stop leaves could be left
/// before, or has the same region that counts; and whatever the answer, the words are as they were
/// or have the same region that counts. Under IDLE it writes nothing. It takes no memory.
///
/// The image keeps the region where it has words; it is filled by what is read anyway. After a
/// refusal its words may be anything.
pub fn recover_into<D: Device>(
    device: &mut D,
    geometry: Geometry,
    image: &mut [u64],
) -> Result<Recovered, RecoverRefused>
    requires fits { words_needed geometry ≤ D.shown.size device.old }
    requires heap { IsTrue D.shown.tells_words → IsHeap geometry (D.shown.words device.old) }
    requires room { IsEmptyOrFull (region_len geometry) image.old }

    // An image that has words is main, which then is the region that counted. It costs no read.
    ensures as_long { length image.new ≡ length image.old }
    ensures kept { IsTrue D.shown.tells_words →
        OnOk result (KeepsMain geometry (D.shown.words device.new) image.new) }
    // Where words are told, it makes at most as many reads as the state and one region have words. Under
    // IDLE the other region is added.
    ensures most { IsTrue D.shown.tells_words →
        AtMost (reads_at_most geometry (slice_index (D.shown.words device.old) STATE))
        (D.shown.reads device.old) (D.shown.reads device.new) }

    // Where words are told: the state that is answered after `Ok` is the one that stood there.
    ensures found { IsTrue D.shown.tells_words →
        IfOk result (λ done. slice_index (D.shown.words device.old) STATE ≡ state_word done.found) }
    // Where words are told: after `Ok` the state is IDLE, and both regions are the one that counted.
    ensures done { IsTrue D.shown.tells_words →
        OnOk result (IsDone geometry (D.shown.words device.old) (D.shown.words device.new)) }
    ensures certain { OnOk result (IsSynced D.shown device.new) }

    // Refused only at the first difference of the regions, or where the device failed.
    ensures twins { IsTrue D.shown.tells_words →
        IfErr result (IsFirst geometry (D.shown.words device.old)) }
    // After `Ok`, where it found IDLE it made no write and one sync. In another state it made four syncs,
    // and two writes more than a region has words. No call follows one that failed.
    ensures calls { Calls D.shown geometry device.old device.new result }

    // Whatever the words are, it calls the device no more often than the longest recovery of a heap
    // of this order does.
    ensures within { WithinRecovery D.shown geometry device.old device.new }

    // Whatever the answer, only the state and the regions change, each word of a region to its
    // twin's at most, the region that counts stays, and under IDLE nothing changes.
    ensures left { Alters D.shown (Mends geometry) device.old device.new }
    // Where images are told, a stop leaves what it might have left before, or a heap in which the same
    // region counts. There each word of a region is as it was, or the other region's at that offset.
    ensures images { IsTrue D.shown.tells_images →
        Leaves D.shown (Mended geometry (D.shown.words device.old)) device.old device.new }

    // An earlier program may have left words in doubt, and have been told so by a sync or not: nothing
    // is lost, and what counts is certain then.
    ensures doubts { IsTrue D.shown.tells_doubts →
        IsLeftInDoubt D.shown geometry device.old →
        Leaves D.shown (SameRegion (D.shown.words device.old)) device.old device.new }
    // With words in doubt as `IsLeftInDoubt` allows: after `Ok` a stop leaves a heap in which the same
    // region counts. It leaves each word as it reads, but for the state where that read IDLE at the start.
    ensures recovers { IsTrue D.shown.tells_doubts →
        IsLeftInDoubt D.shown geometry device.old →
        OnOk result ((i : List ℕ) → D.shown.leaves device.new i →
        IsImageRecovered (D.shown.words device.old) (D.shown.words device.new) i) }
    // Where words are told: under IDLE nothing changes, and it makes one sync and no write.
    ensures idle { IsTrue D.shown.tells_words →
        IsIdle (D.shown.words device.old) → SyncsOnce D.shown device.old device.new }
{
    device.sync()?;
    match read_state(device)? {
        State::Idle => {
            compare(device, geometry, image)?;
            Ok(Recovered { found: State::Idle })
        }
        found => {
            redo(device, geometry, found, image)?;
            Ok(Recovered { found })
        }
    }
}

/// Recovers as `recover_into` does, and keeps nothing.
pub fn recover<D: Device>(device: &mut D, geometry: Geometry) -> Result<Recovered, RecoverRefused>
    requires fits { words_needed geometry ≤ D.shown.size device.old }
    requires heap { IsTrue D.shown.tells_words → IsHeap geometry (D.shown.words device.old) }

    // Where words are told: the state that is answered after `Ok` is the one that stood there.
    ensures found { IsTrue D.shown.tells_words →
        IfOk result (λ done. slice_index (D.shown.words device.old) STATE ≡ state_word done.found) }
    // Where words are told: after `Ok` the state is IDLE, and both regions are the one that counted.
    ensures done { IsTrue D.shown.tells_words →
        OnOk result (IsDone geometry (D.shown.words device.old) (D.shown.words device.new)) }
    ensures certain { OnOk result (IsSynced D.shown device.new) }

    // Refused only at the first difference of the regions, or where the device failed.
    ensures twins { IsTrue D.shown.tells_words →
        IfErr result (IsFirst geometry (D.shown.words device.old)) }
    // After `Ok`, where it found IDLE it made no write and one sync. In another state it made four syncs,
    // and two writes more than a region has words. No call follows one that failed.
    ensures calls { Calls D.shown geometry device.old device.new result }

    // Whatever the words are, it calls the device no more often than the longest recovery of a heap
    // of this order does.
    ensures within { WithinRecovery D.shown geometry device.old device.new }

    // Whatever the answer, only the state and the regions change, each word of a region to its
    // twin's at most, the region that counts stays, and under IDLE nothing changes.
    ensures left { Alters D.shown (Mends geometry) device.old device.new }
    // Where images are told, a stop leaves what it might have left before, or a heap in which the same
    // region counts. There each word of a region is as it was, or the other region's at that offset.
    ensures images { IsTrue D.shown.tells_images →
        Leaves D.shown (Mended geometry (D.shown.words device.old)) device.old device.new }

    // An earlier program may have left words in doubt, and have been told so by a sync or not: nothing
    // is lost, and what counts is certain then.
    ensures doubts { IsTrue D.shown.tells_doubts →
        IsLeftInDoubt D.shown geometry device.old →
        Leaves D.shown (SameRegion (D.shown.words device.old)) device.old device.new }
    // With words in doubt as `IsLeftInDoubt` allows: after `Ok` a stop leaves a heap in which the same
    // region counts. It leaves each word as it reads, but for the state where that read IDLE at the start.
    ensures recovers { IsTrue D.shown.tells_doubts →
        IsLeftInDoubt D.shown geometry device.old →
        OnOk result ((i : List ℕ) → D.shown.leaves device.new i →
        IsImageRecovered (D.shown.words device.old) (D.shown.words device.new) i) }
    // Where words are told: under IDLE nothing changes, and it makes one sync and no write.
    ensures idle { IsTrue D.shown.tells_words →
        IsIdle (D.shown.words device.old) → SyncsOnce D.shown device.old device.new }
{
    recover_into(device, geometry, &mut [])
}
