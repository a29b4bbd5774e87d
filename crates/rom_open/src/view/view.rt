//! A heap that is only seen.
ghost use Rattle.std.specs.Prelude.{◌<◌, ◌≡◌, ◌≤◌, ℕ, IfErr, IfOk, IsTrue, Err, length, slice_index};
ghost use Rattle.rom_model.specs.Blocks.{IsOrder, region_len};
ghost use Rattle.rom_device.specs.Device.{OnlyReads};
ghost use Rattle.rom_header.specs.Headers.{state_word};
ghost use Rattle.rom_header.specs.Layout.{STATE, words_needed};
ghost use Rattle.rom_header.specs.Regions.{IsCurrentRegion};
ghost use Rattle.rom_open.specs.Calls.{HasOpeningFaults};
ghost use Rattle.rom_open.specs.Refusals.{IsRefusal, NamesTooFew};
ghost use Rattle.rom_open.specs.declared.reasons.Why.TheVariants.{TooSmall};

use crate::view::region::read_region;
use crate::{Why, inspect_image};
use rom_device::Device;
use rom_header::{State, read_header};
use rom_model::Object;
use std::alloc::Global;

/// What a device was seen to hold.
#[derive(Drop)]
pub struct Viewed {
    /// The order in word 2.
    pub order: u32,
    /// Which region counts.
    pub state: State,
    /// The words of the region that counts, which is well-formed.
    pub image: Vec<u64>,
}

/// Looks at the heap on a device: reads the header and the region that counts, and has the object
/// inspect it. The device is only read. It takes the memory that an opening takes.
///
/// An opening mends a heap that is in the midst of an update before it answers `OldRegion`, `Malformed` or
/// `OutOfMemory`. This call leaves such a heap as it is.
pub fn view_device<D: Device, O: Object>(alloc: Global, device: &mut D) -> Result<Viewed, Why>
    // Where the device tells its words, the image is the region that counts, in a heap of the order that is
    // answered.
    ensures viewed { IsTrue D.shown.tells_words → IfOk result (λ viewed.
        IsCurrentRegion viewed.order (D.shown.words device.old) viewed.image.items) }
    // Where the device tells its words, the state is the one that the header names.
    ensures state { IsTrue D.shown.tells_words → IfOk result (λ viewed.
        slice_index (D.shown.words device.old) STATE ≡ state_word viewed.state) }
    // Where the device tells its words, a refusal is one that an opening tells of the same words.
    ensures refused { IsTrue D.shown.tells_words →
        IfErr result (IsRefusal O.Contents O.Rejects (D.shown.words device.old)) }
    // A device of fewer than 8 words is too small for a header, whether or not it tells its words.
    ensures too_small { D.shown.size device.old < 8 →
        result ≡ Err (TooSmall 8 (D.shown.size device.old)) }
    // `TooSmall` names how many words are needed, and how many the device has.
    ensures sizes { IfErr result (NamesTooFew (D.shown.size device.old)) }

    // The order is 4 to 16.
    ensures order { IfOk result (λ viewed. IsOrder viewed.order) }
    // The image is well-formed: it stands for some state and some count.
    ensures fit { IfOk result (λ viewed.
        (s : O.State) × (k : ℕ) × O.Contents viewed.order viewed.image.items s k) }
    ensures sized { IfOk result (λ viewed. length viewed.image.items ≡ region_len viewed.order) }
    ensures fits { IfOk result (λ viewed.
        words_needed viewed.order ≤ D.shown.size device.old) }

    // Nothing is written, nothing is made certain, and the words stay as far as they are told.
    ensures only { OnlyReads D.shown device.old device.new }
    // No call follows one that failed. After `Device` the last call failed, after `Twins` it may have failed,
    // and else none did.
    ensures faults { HasOpeningFaults result
        (D.shown.faults device.old) (D.shown.faults device.new) (D.shown.failing device.new) }
{
    let header = read_header(device)?;
    let Ok(mut image) = vec![in alloc; 0u64; header.geometry.region() as usize] else {
        read_region(device, header, &mut [])?;
        return Err(Why::OutOfMemory);
    };
    read_region(device, header, image.as_mut_slice())?;
    inspect_image::<O>(alloc, image.as_slice(), header.geometry)?;
    Ok(Viewed {
        order: header.geometry.order(),
        state: header.state,
        image,
    })
}
