//! The writing of a heap's identity, so that a stop leaves no half of it.
ghost use Rattle.std.specs.Prelude.{◌≡◌, ◌⊎◌, ◌+◌, ◌<◌, ◌≤◌, ℕ, List, [], ◌∷◌, length, slice_index, OnOk, IsTrue};
ghost use Rattle.rom_device.specs.Device.{Does, IsSynced, Makes};
ghost use Rattle.rom_model.specs.Space.{ChangesOnly};
ghost use Rattle.rom_name.specs.Identities.{IsNamed, KeepsRegion, WritesEpoch, WritesGuarded, WritesIdentity, WritesName, identity_of};

use crate::identity::{EPOCH, Identity, LOW, NAME, SINCE};
use rom_device::{Device, Failed};
use rom_frame::HeapName;

/// Writes words from a place on and makes them certain, and then writes and makes certain the word that says that
/// they are there.
fn write_guarded<D: Device>(
    device: &mut D,
    at: u64,
    values: &[u64],
    place: u64,
    guard: u64,
) -> Result<(), Failed>
    requires fits { at + length values.now ≤ D.shown.size device.old }
    requires apart { (place < at) ⊎ (at + length values.now ≤ place) }
    requires inside { place < D.shown.size device.old }
    ensures guarded { IsTrue D.shown.tells_words →
        OnOk result (slice_index (D.shown.words device.new) place ≡ guard) }
    ensures written { IsTrue D.shown.tells_words → OnOk result ((k : ℕ) → k < length values.now →
        slice_index (D.shown.words device.new) (at + k) ≡ slice_index values.now k) }
    ensures certain { OnOk result (IsSynced D.shown device.new) }
    ensures does { Does D.shown (WritesGuarded at values.now place guard) device.old device.new }
    ensures makes { Makes D.shown 0 (length values.now + 1) 2 device.old device.new result }
{
    device.write_words(at, values)?;
    device.sync()?;
    device.write(place, guard)?;
    device.sync()
}

/// Writes the name of a heap. What the heap holds stays (`keeps` of `write_identity`).
pub fn write_name<D: Device>(device: &mut D, name: HeapName) -> Result<(), Failed>
    requires { 8 ≤ D.shown.size device.old }
    ensures written { IsTrue D.shown.tells_words →
        OnOk result ((identity_of (D.shown.words device.new)).name ≡ name) }
    ensures certain { OnOk result (IsSynced D.shown device.new) }
    // Whatever it answers, and where it is stopped: the name is as it was, or it is this one, and nothing else
    // differs that is read.
    ensures does { Does D.shown (WritesName name) device.old device.new }
    ensures makes { Makes D.shown 0 2 2 device.old device.new result }
{
    write_guarded(device, LOW, &[name.low], NAME, name.high)
}

/// Writes the epoch of a heap, and then the count at which it began. So a stop leaves no old epoch with a count that
/// is too high: copies that have parted would follow it. A new epoch with the old count is only followed by fewer.
pub fn write_epoch<D: Device>(device: &mut D, epoch: u64, since: u64) -> Result<(), Failed>
    requires { 8 ≤ D.shown.size device.old }
    ensures epoch { IsTrue D.shown.tells_words →
        OnOk result (slice_index (D.shown.words device.new) 6 ≡ epoch) }
    ensures since { IsTrue D.shown.tells_words →
        OnOk result (slice_index (D.shown.words device.new) 7 ≡ since) }
    ensures certain { OnOk result (IsSynced D.shown device.new) }
    // Whatever it answers, and where it is stopped: the count is as it was, or it is this one with its epoch.
    ensures does { Does D.shown (WritesEpoch epoch since) device.old device.new }
    ensures makes { Makes D.shown 0 2 2 device.old device.new result }
{
    write_guarded(device, EPOCH, &[epoch], SINCE, since)
}

/// Writes all of a heap's identity.
pub fn write_identity<D: Device>(device: &mut D, identity: &Identity) -> Result<(), Failed>
    requires { 8 ≤ D.shown.size device.old }
    ensures written { IsTrue D.shown.tells_words →
        OnOk result (identity_of (D.shown.words device.new) ≡ identity.now) }
    ensures certain { OnOk result (IsSynced D.shown device.new) }
    // Whatever it answers, and where it is stopped: the first word of the name is as it was, or the identity is
    // this one. So a heap without a name has none still, or all of this.
    ensures does { Does D.shown (WritesIdentity identity.now) device.old device.new }
    // Where these four words alone differ, the same region counts, with the same words: what a heap holds stays.
    ensures keeps { (x y : List ℕ) → ChangesOnly 4 4 x y → KeepsRegion x y }
    ensures makes { Makes D.shown 0 4 2 device.old device.new result }
{
    let Identity { name, epoch, since } = *identity;
    write_guarded(device, LOW, &[name.low, epoch, since], NAME, name.high)
}
