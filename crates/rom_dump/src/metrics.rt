//! What a monitor watches of a heap, in the text format of Prometheus.
ghost use Rattle.std.specs.Prelude.{◌≡◌, ◌<◌, ℕ, List, length, slice_index};
ghost use Rattle.rom_model.specs.Blocks.{IsOrder};
ghost use Rattle.rom_device.specs.Device.{OnlyReads};
ghost use Rattle.rom_dump.specs.Shown.{IsCommandAnswered, common_text, metrics_text};
ghost use Rattle.rom_dump.specs.Words.{Metrics};
ghost use Rattle.rom_run.specs.Statuses.{exit_number};
ghost use Rattle.rom_text.specs.Streams.{Prints};

use crate::refusing::refuse;
use rom_carry::{Carry, print_gauge};
use rom_device::Device;
use rom_model::{COUNT, Object, VecSpace};
use rom_open::view_device;
use rom_run::Status;
use rom_text::{IoFailed, Sink};
use std::alloc::Global;

/// Prints the gauges that each kind has.
fn print_common<K: Sink>(
    order: u128,
    kind: u128,
    count: u128,
    state: u128,
    out: &mut K,
) -> Result<(), IoFailed>
    ensures prints { Prints K.shown out.old out.new result (common_text order kind count state) }
{
    print_gauge(out, "order", order)?;
    print_gauge(out, "kind", kind)?;
    print_gauge(out, "updates", count)?;
    print_gauge(out, "state", state)
}

/// How many updates a region has behind it.
fn count_of(region: &[u64]) -> u64
    requires { 2 < length region.now }
    ensures { result ≡ slice_index region.now 2 }
{
    region[COUNT as usize]
}

/// Prints the gauges of a heap of this order under a state, by its region.
fn print_metrics<O: Object, C: Carry<O>, K: Sink>(
    state: u64,
    order: u32,
    image: Vec<u64>,
    out: &mut K,
) -> Result<(), IoFailed>
    requires order { IsOrder order }
    requires region { (s : O.State) × (k : ℕ) × O.Contents order image.items s k }
    ensures prints { (measures : List ℕ) → C.Measured order image.items measures →
        Prints K.shown out.old out.new result
        (metrics_text order O.KIND (slice_index image.items 2) state measures) }
{
    let count = count_of(image.as_slice());
    let mut space = VecSpace::of(image);
    print_common(
        u128::from(order),
        u128::from(O::KIND),
        u128::from(count),
        u128::from(state),
        out,
    )?;
    C::print_measures(&mut space, order, out)
}

/// Prints what a monitor watches of the heap on the device, or why it is refused.
pub fn measure_heap<D: Device, O: Object, C: Carry<O>, K: Sink>(
    alloc: Global,
    device: &mut D,
    out: &mut K,
) -> Status
    ensures answered { (file : List ℕ) → IsCommandAnswered D.shown K.shown O.Contents O.Rejects
        (record { kind = O.KIND; Carrying = C.Carrying; Sized = C.Sized; Measured = C.Measured; bounds = C.Elements.bounds })
        (Metrics file) device.old device.new out.old out.new (exit_number result) }
    ensures only { OnlyReads D.shown device.old device.new }
    ensures rest { K.shown.rest out.new ≡ K.shown.rest out.old }
{
    match view_device::<D, O>(alloc, device) {
        Ok(viewed) => {
            let state = viewed.state.word();
            match print_metrics::<O, C, K>(state, viewed.order, viewed.image, out) {
                Ok(()) => Status::Done,
                Err(_) => Status::SinkFailed,
            }
        }
        Err(why) => refuse(O::KIND, why, out),
    }
}
