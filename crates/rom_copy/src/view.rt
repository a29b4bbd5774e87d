//! A heap that a device holds, taken with the words of its name.
ghost use Rattle.std.specs.Prelude.{◌≡◌, ◌≢◌, ◌≤◌, ◌<◌, ◌↔◌, ℕ, IfErr, IfOk, IsTrue, OnOk, length};
ghost use Rattle.std.specs.Bool.{OnFalse, OnTrue};
ghost use Rattle.rom_model.specs.Blocks.{IsOrder, region_len};
ghost use Rattle.rom_device.specs.Device.{Does, IsSynced, Makes, OnlyReads, Stays};
ghost use Rattle.rom_header.specs.Layout.{back_of, words_needed};
ghost use Rattle.rom_header.specs.declared.header.State.TheVariants.{Copying};
ghost use Rattle.rom_open.specs.Calls.{HasOpeningFaults};
ghost use Rattle.rom_steady.specs.Seen.{AreNameWords};
ghost use Rattle.rom_copy.specs.Viewing.{HasTakingFaults, IsUnread, IsUntaken};
ghost use Rattle.rom_copy.specs.Whole.{HoldsWhole};

use crate::untaken::Untaken;
use rom_device::{Device, Failed};
use rom_header::{Geometry, State};
use rom_model::Object;
use rom_open::{Why, view_device};
use rom_steady::{NameWords, Steady};
use std::alloc::Global;

/// Reads the words of the name.
fn read_names<D: Device>(device: &mut D) -> Result<NameWords, Failed>
    requires { 8 ≤ D.shown.size device.old }
    ensures is { IsTrue D.shown.tells_words →
        IfOk result (AreNameWords (D.shown.words device.old)) }
    ensures only { OnlyReads D.shown device.old device.new }
    ensures makes { Makes D.shown 4 0 0 device.old device.new result }
{
    let high = device.read(4)?;
    let low = device.read(5)?;
    let epoch = device.read(6)?;
    let since = device.read(7)?;
    Ok(NameWords {
        high,
        low,
        epoch,
        since,
    })
}

/// Reads back.
fn read_back<D: Device>(device: &mut D, geometry: Geometry, back: &mut [u64]) -> Result<(), Why>
    requires fits { words_needed geometry ≤ D.shown.size device.old }
    requires sized { length back.old ≡ region_len geometry }
    ensures as_long { length back.new ≡ length back.old }
    ensures read { IsTrue D.shown.tells_words →
        OnOk result (back.new ≡ back_of geometry (D.shown.words device.old)) }
    ensures unread { IfErr result IsUnread }
    ensures only { OnlyReads D.shown device.old device.new }
    ensures faults { HasOpeningFaults result
        (D.shown.faults device.old) (D.shown.faults device.new) (D.shown.failing device.new) }
{
    if device.read_words(geometry.back(), back) < back.len() {
        return Err(Why::Device);
    }
    Ok(())
}

/// Whether these are the same words.
fn are_same(ours: &[u64], theirs: &[u64]) -> bool
    ensures same { OnTrue result (ours.now ≡ theirs.now) }
    ensures other { OnFalse result (ours.now ≢ theirs.now) }
{
    ours == theirs
}

/// Whether back is these words.
fn is_back<D: Device>(
    alloc: Global,
    device: &mut D,
    geometry: Geometry,
    image: &[u64],
) -> Result<bool, Why>
    requires { words_needed geometry ≤ D.shown.size device.old }
    ensures is { IsTrue D.shown.tells_words → IfOk result (λ is.
        IsTrue is ↔ (image.now ≡ back_of geometry (D.shown.words device.old))) }
    ensures unread { IfErr result IsUnread }
    ensures only { OnlyReads D.shown device.old device.new }
    ensures faults { HasOpeningFaults result
        (D.shown.faults device.old) (D.shown.faults device.new) (D.shown.failing device.new) }
{
    let mut back = vec![in alloc; 0u64; geometry.region() as usize]?;
    read_back(device, geometry, back.as_mut_slice())?;
    Ok(are_same(image, back.as_slice()))
}

/// Whether the region that counts in this state is what back holds. Back is read under COPYING alone: in the other
/// states it counts.
fn is_finished<D: Device>(
    alloc: Global,
    device: &mut D,
    order: u32,
    state: State,
    image: &[u64],
) -> Result<bool, Why>
    requires order { IsOrder order }
    requires fits { words_needed order ≤ D.shown.size device.old }
    ensures is { IsTrue D.shown.tells_words → IfOk result (λ is. IsTrue is →
        state ≡ Copying → image.now ≡ back_of order (D.shown.words device.old)) }
    ensures not { IsTrue D.shown.tells_words → IfOk result (λ is. (IsTrue is → ⊥) →
        (state ≡ Copying) × (image.now ≢ back_of order (D.shown.words device.old))) }
    ensures unread { IfErr result IsUnread }
    ensures only { OnlyReads D.shown device.old device.new }
    ensures faults { HasOpeningFaults result
        (D.shown.faults device.old) (D.shown.faults device.new) (D.shown.failing device.new) }
{
    if state != State::Copying {
        return Ok(true);
    }
    is_back(alloc, device, Geometry::of_order(order), image)
}

/// Reads the region that counts, where back is the same, and the words of the name.
fn read_whole<D: Device, O: Object>(alloc: Global, device: &mut D) -> Result<Steady, Untaken>
    ensures viewed { IsTrue D.shown.tells_words → IfOk result (λ whole.
        HoldsWhole whole.order whole.names whole.image.items (D.shown.words device.old)) }
    ensures back { IsTrue D.shown.tells_words → IfOk result (λ whole.
        whole.image.items ≡ back_of whole.order (D.shown.words device.old)) }
    ensures refused { IsTrue D.shown.tells_words →
        IfErr result (IsUntaken O.Contents O.Rejects (D.shown.words device.old)) }
    ensures order { IfOk result (λ whole. IsOrder whole.order) }
    ensures sized { IfOk result (λ whole. length whole.image.items ≡ region_len whole.order) }
    ensures fit { IfOk result (λ whole.
        (s : O.State) × (k : ℕ) × O.Contents whole.order whole.image.items s k) }
    ensures only { OnlyReads D.shown device.old device.new }
    ensures faults { HasTakingFaults result
        (D.shown.faults device.old) (D.shown.faults device.new) (D.shown.failing device.new) }
{
    let viewed = view_device::<D, O>(alloc, device)?;
    let names = read_names(device)?;
    let image = viewed.image.as_slice();
    if !is_finished(alloc, device, viewed.order, viewed.state, image)? {
        return Err(Untaken::Unfinished);
    }
    Ok(Steady {
        order: viewed.order,
        names,
        image: viewed.image,
    })
}

/// Takes the heap that a device holds: the region that counts, and the words of the name. It is what back holds,
/// too. The sync makes certain what is read, so that a stop leaves no heap that is older than its copy. Under COPYING
/// that is not enough: where the sync of COPYING failed, this one may succeed and write nothing, and a stop may leave
/// the heap as it was before. So main is taken only where back is the same, since back is written once COPYING is
/// certain.
pub fn view_whole<D: Device, O: Object>(alloc: Global, device: &mut D) -> Result<Steady, Untaken>
    // Where the device tells its words: this region counts there, and these are the words of the name.
    ensures viewed { IsTrue D.shown.tells_words → IfOk result (λ whole.
        HoldsWhole whole.order whole.names whole.image.items (D.shown.words device.old)) }
    // Where the device tells its words: in each state it is what back holds.
    ensures back { IsTrue D.shown.tells_words → IfOk result (λ whole.
        whole.image.items ≡ back_of whole.order (D.shown.words device.old)) }
    // Where the device tells its words, a refusal is one that an opening tells of the same words; or the state is
    // COPYING, and back is not what main is.
    ensures refused { IsTrue D.shown.tells_words →
        IfErr result (IsUntaken O.Contents O.Rejects (D.shown.words device.old)) }
    ensures order { IfOk result (λ whole. IsOrder whole.order) }
    ensures sized { IfOk result (λ whole. length whole.image.items ≡ region_len whole.order) }
    // The region is well-formed: it stands for some state and some count.
    ensures fit { IfOk result (λ whole.
        (s : O.State) × (k : ℕ) × O.Contents whole.order whole.image.items s k) }
    // Where images are told, a stop after `Ok` leaves the words as they read.
    ensures certain { OnOk result (IsSynced D.shown device.new) }
    // No word is written.
    ensures does { Does D.shown Stays device.old device.new }
    ensures writes { D.shown.writes device.new ≡ D.shown.writes device.old }
    // No call follows one that failed. After `Device` the last call failed, after `Twins` it may have failed,
    // and else none did.
    ensures faults { HasTakingFaults result
        (D.shown.faults device.old) (D.shown.faults device.new) (D.shown.failing device.new) }
{
    device.sync()?;
    read_whole::<D, O>(alloc, device)
}
