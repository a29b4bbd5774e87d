//! The script of a heap, or of one region of it.
ghost use Rattle.std.specs.Prelude.{◌≡◌, ◌*◌, ◌≤◌, ◌⊎◌, ℕ, List, IfSome, None, Some, length};
ghost use Rattle.rom_model.specs.Blocks.{IsOrder};
ghost use Rattle.rom_carry.specs.Parts.{lines_in};
ghost use Rattle.rom_carry.specs.Scripts.{script_of};
ghost use Rattle.rom_device.specs.Device.{OnlyReads};
ghost use Rattle.rom_dump.specs.Named.{IsPartNumber};
ghost use Rattle.rom_dump.specs.Shown.{EndsAsText, EndsAsWhole, IsCommandAnswered, IsPutAgain, too_long_line};
ghost use Rattle.rom_dump.specs.Words.{Script};
ghost use Rattle.rom_open.specs.declared.reasons.Why.TheVariants.{OutOfMemory};
ghost use Rattle.rom_run.specs.Refusing.{refusal_line};
ghost use Rattle.rom_run.specs.Statuses.{exit_number};
ghost use Rattle.rom_text.specs.Runs.{IsLineWrittenOrCutShort};

use crate::refusing::refuse;
use itoa::Buffer;
use rom_carry::{Carry, Part, Written};
use rom_device::Device;
use rom_model::{Object, VecSpace};
use rom_open::{Region, Why, view_device, view_region};
use rom_run::{Status, tell};
use rom_text::{Sink, print_gathered};
use std::alloc::Global;

/// Says that a script is too long, and how many parts it has.
fn tell_too_long<K: Sink>(parts: u64, out: &mut K) -> Status
    ensures status { result ≡ Status.ScriptTooLong }
    ensures told { IsLineWrittenOrCutShort K.shown out.old out.new (too_long_line parts) }
    ensures rest { K.shown.rest out.new ≡ K.shown.rest out.old }
{
    tell(
        out,
        &["script too long, ", Buffer::new().format(parts), " parts"],
    );
    Status::ScriptTooLong
}

/// Prints the lines of a part.
fn print_part<E: Written, K: Sink>(part: &Part<E>, out: &mut K) -> Status
    ensures text { EndsAsText K.shown (script_of (lines_in part.now)) out.old out.new
        (exit_number result) }
    ensures rest { K.shown.rest out.new ≡ K.shown.rest out.old }
{
    match print_gathered(out, part) {
        Ok(()) => Status::Done,
        Err(_) => Status::SinkFailed,
    }
}

/// Prints the lines of a whole script, or how many parts it has where it is too long for one.
fn print_whole<E: Written, K: Sink>(whole: &Part<E>, out: &mut K) -> Status
    ensures text { EndsAsWhole K.shown E.bounds.part (lines_in whole.now) out.old out.new
        (exit_number result) }
    ensures rest { K.shown.rest out.new ≡ K.shown.rest out.old }
{
    if !whole.fits() {
        return tell_too_long(whole.parts(), out);
    }
    print_part(whole, out)
}

/// Prints the script of the heap in a region, or this part of it. There may be no memory for its elements.
fn print_script<O: Object, C: Carry<O>, K: Sink>(
    alloc: Global,
    order: u32,
    image: Vec<u64>,
    part: Option<u64>,
    out: &mut K,
) -> Status
    requires order { IsOrder order }
    requires region { (s : O.State) × (k : ℕ) × O.Contents order image.items s k }
    requires part { IfSome part IsPartNumber }
    ensures printed { IsPutAgain K.shown
        (record { kind = O.KIND; Carrying = C.Carrying; Sized = C.Sized; Measured = C.Measured; bounds = C.Elements.bounds })
        order image.items part out.old out.new (exit_number result)
        ⊎ ((result ≡ Status.NoMemory) × IsLineWrittenOrCutShort K.shown out.old out.new (refusal_line O.KIND OutOfMemory)) }
    ensures rest { K.shown.rest out.new ≡ K.shown.rest out.old }
{
    let mut space = VecSpace::of(image);
    let Ok(elements) = C::elements(alloc, &mut space, order) else {
        return refuse(O::KIND, Why::OutOfMemory, out);
    };
    match part {
        Some(part) => print_part(&Part::of(&elements, part), out),
        None => print_whole(&Part::whole(&elements), out),
    }
}

/// Prints the script of the region that counts, or this part of it, or why the heap is refused.
fn show_counted<D: Device, O: Object, C: Carry<O>, K: Sink>(
    alloc: Global,
    device: &mut D,
    part: Option<u64>,
    out: &mut K,
) -> Status
    requires { IfSome part IsPartNumber }
    ensures answered { (file : List ℕ) → IsCommandAnswered D.shown K.shown O.Contents O.Rejects
        (record { kind = O.KIND; Carrying = C.Carrying; Sized = C.Sized; Measured = C.Measured; bounds = C.Elements.bounds })
        (Script file None part) device.old device.new out.old out.new (exit_number result) }
    ensures only { OnlyReads D.shown device.old device.new }
    ensures rest { K.shown.rest out.new ≡ K.shown.rest out.old }
{
    match view_device::<D, O>(alloc, device) {
        Ok(viewed) => print_script::<O, C, K>(alloc, viewed.order, viewed.image, part, out),
        Err(why) => refuse(O::KIND, why, out),
    }
}

/// Prints the script of one region by itself, or this part of it, or why it is refused.
fn show_region<D: Device, O: Object, C: Carry<O>, K: Sink>(
    alloc: Global,
    device: &mut D,
    region: Region,
    part: Option<u64>,
    out: &mut K,
) -> Status
    requires { IfSome part IsPartNumber }
    ensures answered { (file : List ℕ) → IsCommandAnswered D.shown K.shown O.Contents O.Rejects
        (record { kind = O.KIND; Carrying = C.Carrying; Sized = C.Sized; Measured = C.Measured; bounds = C.Elements.bounds })
        (Script file (Some region) part) device.old device.new out.old out.new (exit_number result) }
    ensures only { OnlyReads D.shown device.old device.new }
    ensures rest { K.shown.rest out.new ≡ K.shown.rest out.old }
{
    match view_region::<D, O>(alloc, device, region) {
        Ok(alone) => print_script::<O, C, K>(alloc, alone.order, alone.image, part, out),
        Err(why) => refuse(O::KIND, why, out),
    }
}

/// Prints the script of the heap on the device, or this part of it, or why it is refused: by the region of
/// this name, or by the one that counts.
pub fn show_script<D: Device, O: Object, C: Carry<O>, K: Sink>(
    alloc: Global,
    device: &mut D,
    from: Option<Region>,
    part: Option<u64>,
    out: &mut K,
) -> Status
    requires { IfSome part IsPartNumber }
    ensures answered { (file : List ℕ) → IsCommandAnswered D.shown K.shown O.Contents O.Rejects
        (record { kind = O.KIND; Carrying = C.Carrying; Sized = C.Sized; Measured = C.Measured; bounds = C.Elements.bounds })
        (Script file from part) device.old device.new out.old out.new (exit_number result) }
    ensures only { OnlyReads D.shown device.old device.new }
    ensures rest { K.shown.rest out.new ≡ K.shown.rest out.old }
{
    match from {
        Some(region) => show_region::<D, O, C, K>(alloc, device, region, part, out),
        None => show_counted::<D, O, C, K>(alloc, device, part, out),
    }
}
