//! Which region of a heap counts, its kind, and its sizes; or those of one region by itself.
ghost use Rattle.std.specs.Prelude.{◌≡◌, ◌++◌, ℕ, List, None, Some, codes};
ghost use Rattle.rom_model.specs.Blocks.{IsOrder};
ghost use Rattle.rom_device.specs.Device.{OnlyReads};
ghost use Rattle.rom_dump.specs.Shown.{IsCommandAnswered, alone_text, check_text, counting_text};
ghost use Rattle.rom_dump.specs.Words.{Check};
ghost use Rattle.rom_run.specs.Refusing as refusing;
ghost use Rattle.rom_run.specs.Statuses.{exit_number};
ghost use Rattle.rom_text.specs.Streams.{Prints};
ghost use Rattle.rom_text.specs.Text.{line_text};

use crate::refusing::refuse;
use itoa::Buffer;
use rom_carry::Carry;
use rom_device::Device;
use rom_header::State;
use rom_model::{Object, VecSpace};
use rom_open::{Region, view_device, view_region};
use rom_run::{Status, kind_name};
use rom_text::{IoFailed, Sink, print_pieces, print_text};
use std::alloc::Global;

/// Which region counts.
fn counting_line(state: State) -> &'static str
    ensures { result.now ≡ counting_text state }
{
    match state {
        State::Idle => "region both: idle\n",
        State::Mutating => "region back: a batch is under way\n",
        State::Copying => "region main: a copy is under way\n",
    }
}

/// Which region is shown by itself.
fn alone_line(region: Region) -> &'static str
    ensures { result.now ≡ alone_text region }
{
    match region {
        Region::Main => "region main by itself\n",
        Region::Back => "region back by itself\n",
    }
}

/// Prints the line of a kind.
fn print_kind<K: Sink>(kind: u64, out: &mut K) -> Result<(), IoFailed>
    ensures prints { Prints K.shown out.old out.new result
        (line_text (codes "kind " ++ refusing.kind_name kind)) }
{
    match kind_name(kind) {
        Some(name) => print_pieces(out, &["kind ", name, "\n"]),
        None => print_pieces(out, &["kind kind ", Buffer::new().format(kind), "\n"]),
    }
}

/// Prints the line of a region, the kind, and the sizes of the heap in it.
fn print_check<O: Object, C: Carry<O>, K: Sink>(
    line: &str,
    order: u32,
    image: Vec<u64>,
    out: &mut K,
) -> Result<(), IoFailed>
    requires order { IsOrder order }
    requires region { (s : O.State) × (k : ℕ) × O.Contents order image.items s k }
    ensures prints { (sizes : List ℕ) → C.Sized order image.items sizes →
        Prints K.shown out.old out.new result (check_text line.now O.KIND sizes) }
{
    let mut space = VecSpace::of(image);
    print_text(out, line)?;
    print_kind(O::KIND, out)?;
    C::print_sizes(&mut space, order, out)
}

/// Says which region counts, and its sizes, or why the heap is refused.
fn check_counted<D: Device, O: Object, C: Carry<O>, K: Sink>(
    alloc: Global,
    device: &mut D,
    out: &mut K,
) -> Status
    ensures answered { (file : List ℕ) → IsCommandAnswered D.shown K.shown O.Contents O.Rejects
        (record { kind = O.KIND; Carrying = C.Carrying; Sized = C.Sized; Measured = C.Measured; bounds = C.Elements.bounds })
        (Check file None) device.old device.new out.old out.new (exit_number result) }
    ensures only { OnlyReads D.shown device.old device.new }
    ensures rest { K.shown.rest out.new ≡ K.shown.rest out.old }
{
    match view_device::<D, O>(alloc, device) {
        Ok(viewed) => {
            let line = counting_line(viewed.state);
            let _ = print_check::<O, C, K>(line, viewed.order, viewed.image, out);
            Status::Done
        }
        Err(why) => refuse(O::KIND, why, out),
    }
}

/// Says the sizes of one region by itself, or why it is refused.
fn check_region<D: Device, O: Object, C: Carry<O>, K: Sink>(
    alloc: Global,
    device: &mut D,
    region: Region,
    out: &mut K,
) -> Status
    ensures answered { (file : List ℕ) → IsCommandAnswered D.shown K.shown O.Contents O.Rejects
        (record { kind = O.KIND; Carrying = C.Carrying; Sized = C.Sized; Measured = C.Measured; bounds = C.Elements.bounds })
        (Check file (Some region)) device.old device.new out.old out.new (exit_number result) }
    ensures only { OnlyReads D.shown device.old device.new }
    ensures rest { K.shown.rest out.new ≡ K.shown.rest out.old }
{
    match view_region::<D, O>(alloc, device, region) {
        Ok(alone) => {
            let _ = print_check::<O, C, K>(alone_line(region), alone.order, alone.image, out);
            Status::Done
        }
        Err(why) => refuse(O::KIND, why, out),
    }
}

/// Says which region of the heap on the device counts, and its sizes, or those of the region of this name by
/// itself, or why it is refused.
pub fn check_heap<D: Device, O: Object, C: Carry<O>, K: Sink>(
    alloc: Global,
    device: &mut D,
    from: Option<Region>,
    out: &mut K,
) -> Status
    ensures answered { (file : List ℕ) → IsCommandAnswered D.shown K.shown O.Contents O.Rejects
        (record { kind = O.KIND; Carrying = C.Carrying; Sized = C.Sized; Measured = C.Measured; bounds = C.Elements.bounds })
        (Check file from) device.old device.new out.old out.new (exit_number result) }
    ensures only { OnlyReads D.shown device.old device.new }
    ensures rest { K.shown.rest out.new ≡ K.shown.rest out.old }
{
    match from {
        Some(region) => check_region::<D, O, C, K>(alloc, device, region, out),
        None => check_counted::<D, O, C, K>(alloc, device, out),
    }
}
