//! One region of a heap, seen by itself.
ghost use Rattle.std.specs.Prelude.{◌≡◌, ◌<◌, ◌≤◌, ℕ, Err, IfErr, IfOk, IsTrue, length};
ghost use Rattle.rom_model.specs.Blocks.{IsOrder, region_len};
ghost use Rattle.rom_device.specs.Device.{Makes, OnlyReads};
ghost use Rattle.rom_header.specs.Calls.{header_fault};
ghost use Rattle.rom_header.specs.Headers.{HasTooFew};
ghost use Rattle.rom_header.specs.Layout.{words_needed};
ghost use Rattle.rom_open.specs.Calls.{HasOpeningFaults};
ghost use Rattle.rom_open.specs.Refusals.{NamesTooFew, named_order};
ghost use Rattle.rom_open.specs.declared.reasons.Why.TheVariants.{TooSmall};
ghost use Rattle.rom_open.specs.View.{HasHeader, IsHeaderless, IsNamedRegion, IsRefusalOf};

use crate::view::region::read_image;
use crate::{Why, inspect_image};
use rom_device::Device;
use rom_header::{Geometry, HeaderRefused, read_header};
use rom_model::Object;
use std::alloc::Global;

/// The place of the word that names the order.
const ORDER: u64 = 2;

/// A region of a heap, by its name.
#[derive(Clone, Copy, Debug, PartialEq, Eq)]
pub enum Region {
    /// The one behind the header.
    Main,
    /// The one behind main.
    Back,
}

impl Region {
    ghost use Rattle.rom_open.specs.View.{begins};

    /// Where it begins on a device, in words.
    fn begins(self, geometry: Geometry) -> u64
        ensures { result ≡ begins self geometry }
    {
        match self {
            Region::Main => geometry.main(),
            Region::Back => geometry.back(),
        }
    }
}

/// What one region of a heap was seen to hold.
#[derive(Drop)]
pub struct Alone {
    /// The order in word 2.
    pub order: u32,
    /// The words of the region, which is well-formed.
    pub image: Vec<u64>,
}

/// Reads the order once more where the state alone was refused. The order was accepted before, and
/// is tested again, since a device that does not tell its words may read another one.
fn read_order<D: Device>(device: &mut D) -> Result<Geometry, HeaderRefused>
    requires header { 8 ≤ D.shown.size device.old }
    requires accepted { IsTrue D.shown.tells_words →
        HasHeader (named_order (D.shown.words device.old)) (D.shown.words device.old) }
    ensures same { IsTrue D.shown.tells_words → IfOk result (λ geometry.
        geometry ≡ named_order (D.shown.words device.old)) }
    ensures fits { IfOk result (λ geometry. words_needed geometry ≤ D.shown.size device.old) }
    ensures failed { IsTrue D.shown.tells_words → IfErr result (λ why. why ≡ HeaderRefused.Device) }
    ensures sizes { IfErr result (HasTooFew (D.shown.size device.old)) }
    ensures only { OnlyReads D.shown device.old device.new }
    ensures makes { Makes D.shown 1 0 0 device.old device.new (header_fault result) }
{
    let order = device.read(ORDER)?;
    let geometry = Geometry::of(order).ok_or(HeaderRefused::BadOrder(order))?;
    let (need, have) = (geometry.need(), device.len());
    if have < need {
        return Err(HeaderRefused::TooSmall { need, have });
    }
    Ok(geometry)
}

/// Reads the header, of which the state may be any word.
fn read_geometry<D: Device>(device: &mut D) -> Result<Geometry, Why>
    ensures accepted { IsTrue D.shown.tells_words →
        IfOk result (λ geometry. HasHeader geometry (D.shown.words device.old)) }
    ensures fits { IfOk result (λ geometry. words_needed geometry ≤ D.shown.size device.old) }
    ensures refused { IsTrue D.shown.tells_words →
        IfErr result (IsHeaderless (D.shown.words device.old)) }
    ensures too_small { D.shown.size device.old < 8 →
        result ≡ Err (TooSmall 8 (D.shown.size device.old)) }
    ensures sizes { IfErr result (NamesTooFew (D.shown.size device.old)) }
    ensures only { OnlyReads D.shown device.old device.new }
    ensures faults { HasOpeningFaults result
        (D.shown.faults device.old) (D.shown.faults device.new) (D.shown.failing device.new) }
{
    match read_header(device) {
        Ok(header) => Ok(header.geometry),
        // The state is tested last: all else was accepted.
        Err(HeaderRefused::BadState(_)) => Ok(read_order(device)?),
        Err(refused) => Err(Why::from(refused)),
    }
}

/// Looks at one region of the heap on a device, by itself: reads the header and that region, and has
/// the object inspect it. Neither the state nor the other region is asked, so it serves where an
/// opening refuses the state or tells that the regions differ. The device is only read.
///
/// A refusal is of the header, by an opening's first tests, or of this region. What is seen need not
/// be what an opening would open: under MUTATING main may be half changed, and well-formed.
pub fn view_region<D: Device, O: Object>(
    alloc: Global,
    device: &mut D,
    region: Region,
) -> Result<Alone, Why>
    // Where the device tells its words, the image is the region of this name, in a heap of the order that is
    // answered.
    ensures viewed { IsTrue D.shown.tells_words → IfOk result (λ alone.
        IsNamedRegion region alone.order (D.shown.words device.old) alone.image.items) }
    // Where the device tells its words, a refusal is one of the header, but for its state, or one of the
    // region of this name by itself.
    ensures refused { IsTrue D.shown.tells_words →
        IfErr result (IsRefusalOf O.Contents O.Rejects region (D.shown.words device.old)) }
    // A device of fewer than 8 words is too small for a header, whether or not it tells its words.
    ensures too_small { D.shown.size device.old < 8 →
        result ≡ Err (TooSmall 8 (D.shown.size device.old)) }
    // `TooSmall` names how many words are needed, and how many the device has.
    ensures sizes { IfErr result (NamesTooFew (D.shown.size device.old)) }

    // The order is 4 to 16.
    ensures order { IfOk result (λ alone. IsOrder alone.order) }
    // The image is well-formed: it stands for some state and some count.
    ensures fit { IfOk result (λ alone.
        (s : O.State) × (k : ℕ) × O.Contents alone.order alone.image.items s k) }
    ensures sized { IfOk result (λ alone. length alone.image.items ≡ region_len alone.order) }
    ensures fits { IfOk result (λ alone. words_needed alone.order ≤ D.shown.size device.old) }

    // Nothing is written, nothing is made certain, and the words stay as far as they are told.
    ensures only { OnlyReads D.shown device.old device.new }
    // No call follows one that failed. After `Device` the last call failed, after `Twins` it may have failed,
    // and else none did.
    ensures faults { HasOpeningFaults result
        (D.shown.faults device.old) (D.shown.faults device.new) (D.shown.failing device.new) }
{
    let geometry = read_geometry(device)?;
    let mut image = vec![in alloc; 0u64; geometry.region() as usize]?;
    read_image(device, region.begins(geometry), image.as_mut_slice())?;
    inspect_image::<O>(alloc, image.as_slice(), geometry)?;
    Ok(Alone {
        order: geometry.order(),
        image,
    })
}
