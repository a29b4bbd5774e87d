//! The copy of the region that counts over the other one.
ghost use Rattle.std.specs.Prelude.{◌≡◌, ◌≢◌, ◌+◌, ◌<◌, ◌≤◌, ℕ, List, OnOk, IsTrue, length, slice_index};
ghost use Rattle.rom_model.specs.Blocks.{region_len};
ghost use Rattle.rom_device.specs.Device.{AreSettled, DoubtsNoMore, IsRenewed, IsSynced, Leaves, Makes, Runs, Stays, WritesWord};
ghost use Rattle.rom_header.specs.Headers.{state_word};
ghost use Rattle.rom_header.specs.Layout.{STATE, words_needed};
ghost use Rattle.rom_header.specs.Regions.{IsHeap, SameRegion};
ghost use Rattle.rom_header.specs.Writing.{Alters};
ghost use Rattle.rom_recover.specs.Doubt.{IsCertainBut, IsImageRecovered, IsOfOther, MayBeInDoubt};
ghost use Rattle.rom_recover.specs.Image.{IsEmptyOrFull, KeepsMain};
ghost use Rattle.rom_recover.specs.Recovered.{IsDone, IsWay, Mended, Mends};

use crate::copy::copy_words;
use rom_device::{Device, Failed, write_certain};
use rom_header::{Geometry, STATE, State};

/// From where to where a region is copied in a state that is not IDLE.
fn way(geometry: Geometry, state: State) -> (u64, u64)
    requires { state ≢ State.Idle }
    ensures { IsWay geometry state result.0 result.1 }
{
    match state {
        State::Mutating => (geometry.back(), geometry.main()),
        _ => (geometry.main(), geometry.back()),
    }
}

/// Writes the state once more, as it reads, and makes it certain. Where it was certain before, nothing
/// changes; where it was in doubt, it is so no longer.
fn renew_state<D: Device>(device: &mut D, state: State) -> Result<(), Failed>
    requires there { STATE < D.shown.size device.old }
    requires state { IsTrue D.shown.tells_words →
        slice_index (D.shown.words device.old) STATE ≡ state_word state }
    requires certain { IsSynced D.shown device.old }
    ensures size { D.shown.size device.new ≡ D.shown.size device.old }
    ensures words { IsTrue D.shown.tells_words →
        D.shown.words device.new ≡ D.shown.words device.old }
    ensures images { IsTrue D.shown.tells_images → Runs D.shown Stays device.old device.new }
    ensures certain { OnOk result (IsSynced D.shown device.new) }
    ensures doubts { IsTrue D.shown.tells_doubts →
        Runs D.shown (WritesWord STATE (state_word state)) device.old device.new }
    ensures settles { IsTrue D.shown.tells_doubts → OnOk result (AreSettled D.shown device.new) }
    ensures renews { OnOk result (IsRenewed D.shown STATE device.new) }
    ensures fewer { DoubtsNoMore D.shown device.old device.new }
    ensures makes { Makes D.shown 0 1 1 device.old device.new result }
{
    device.write(STATE, state.word())?;
    device.sync()
}

/// Copies the region that counts in this state over the other one, and leaves the state IDLE. Where the
/// copy fails the state is as it was. The image keeps the region where it has words.
fn copy_over<D: Device>(
    device: &mut D,
    geometry: Geometry,
    state: State,
    image: &mut [u64],
) -> Result<(), Failed>
    requires fits { words_needed geometry ≤ D.shown.size device.old }
    requires heap { IsTrue D.shown.tells_words → IsHeap geometry (D.shown.words device.old) }
    requires state { IsTrue D.shown.tells_words →
        slice_index (D.shown.words device.old) STATE ≡ state_word state }
    requires busy { state ≢ State.Idle }
    requires certain { IsSynced D.shown device.old }
    requires room { IsEmptyOrFull (region_len geometry) image.old }
    ensures as_long { length image.new ≡ length image.old }
    ensures kept { IsTrue D.shown.tells_words →
        OnOk result (KeepsMain geometry (D.shown.words device.new) image.new) }
    ensures done { IsTrue D.shown.tells_words →
        OnOk result (IsDone geometry (D.shown.words device.old) (D.shown.words device.new)) }
    ensures certain { OnOk result (IsSynced D.shown device.new) }
    ensures left { Alters D.shown (Mends geometry) device.old device.new }
    ensures images { IsTrue D.shown.tells_images →
        Leaves D.shown (Mended geometry (D.shown.words device.old)) device.old device.new }

    // The state must be certain before: only words of the region that is written may be in doubt.
    ensures doubts { IsTrue D.shown.tells_doubts →
        IsCertainBut D.shown (IsOfOther geometry (state_word state)) device.old →
        Leaves D.shown (SameRegion (D.shown.words device.old)) device.old device.new }
    ensures recovers { IsTrue D.shown.tells_doubts →
        IsCertainBut D.shown (IsOfOther geometry (state_word state)) device.old →
        OnOk result ((i : List ℕ) → D.shown.leaves device.new i →
        IsImageRecovered (D.shown.words device.old) (D.shown.words device.new) i) }
    ensures makes { Makes D.shown (region_len geometry) (region_len geometry + 1) 2
        device.old device.new result }
{
    let (from, to) = way(geometry, state);
    copy_words(device, from, to, geometry.region(), image)?;
    write_certain(device, STATE, State::Idle.word())
}

/// Copies the region that counts in this state, which is not IDLE, over the other one, and leaves
/// the state IDLE. Where the copy fails the state is as it was. The image keeps the region where it has
/// words.
///
/// The state is written first, as it reads. An earlier program may have written it, and have had it refused
/// by a sync; the system may then have it in memory alone, and say nothing of that to a sync of this
/// program. What this program writes, its own sync makes certain; and the copy must not begin before the
/// state that it goes by is.
pub fn redo<D: Device>(
    device: &mut D,
    geometry: Geometry,
    state: State,
    image: &mut [u64],
) -> Result<(), Failed>
    requires fits { words_needed geometry ≤ D.shown.size device.old }
    requires heap { IsTrue D.shown.tells_words → IsHeap geometry (D.shown.words device.old) }
    requires state { IsTrue D.shown.tells_words →
        slice_index (D.shown.words device.old) STATE ≡ state_word state }
    requires busy { state ≢ State.Idle }
    requires certain { IsSynced D.shown device.old }
    requires room { IsEmptyOrFull (region_len geometry) image.old }
    ensures as_long { length image.new ≡ length image.old }
    ensures kept { IsTrue D.shown.tells_words →
        OnOk result (KeepsMain geometry (D.shown.words device.new) image.new) }
    ensures done { IsTrue D.shown.tells_words →
        OnOk result (IsDone geometry (D.shown.words device.old) (D.shown.words device.new)) }
    ensures certain { OnOk result (IsSynced D.shown device.new) }
    ensures left { Alters D.shown (Mends geometry) device.old device.new }
    ensures images { IsTrue D.shown.tells_images →
        Leaves D.shown (Mended geometry (D.shown.words device.old)) device.old device.new }

    // The state may be in doubt, and words of the region that does not count.
    ensures doubts { IsTrue D.shown.tells_doubts →
        IsCertainBut D.shown (MayBeInDoubt geometry (state_word state)) device.old →
        Leaves D.shown (SameRegion (D.shown.words device.old)) device.old device.new }
    ensures recovers { IsTrue D.shown.tells_doubts →
        IsCertainBut D.shown (MayBeInDoubt geometry (state_word state)) device.old →
        OnOk result ((i : List ℕ) → D.shown.leaves device.new i →
        IsImageRecovered (D.shown.words device.old) (D.shown.words device.new) i) }
    ensures makes { Makes D.shown (region_len geometry) (region_len geometry + 2) 3
        device.old device.new result }
{
    renew_state(device, state)?;
    copy_over(device, geometry, state, image)
}
