//! Scripts on a heap that is made for them.
ghost use Rattle.std.specs.Prelude.{◌*◌, ◌<◌, ◌≤◌, length, All, IfErr, IfOk};
ghost use Rattle.rom_model.specs.Blocks.{IsOrder};
ghost use Rattle.rom_model.specs.History.{LAST_COUNT};
ghost use Rattle.rom_model.specs.VecSpace.{words_of_space};
ghost use Rattle.rom_store.specs.Playing.{HasMadeNone, HasPlayedNew, HasRooms};
ghost use Rattle.rom_store.specs.Seating.{IsSeated, base_for};

use crate::opening::Opening;
use crate::pace::Pace;
use crate::rooms::Rooms;
use crate::running::{Played, play_on};
use crate::seated::Seated;
use rom_combine::Gate;
use rom_device::Device;
use rom_header::Geometry;
use rom_lines::Script;
use rom_model::{Object, VecSpace, new_region};
use rom_open::{NotFormatted, write_heap};
use std::alloc::{AllocError, Global};
use std::sync::Wait;
use std::thread::Threads;

/// A device on which no heap was made for scripts, and why.
#[derive(Drop)]
pub struct Unmade<D> {
    pub device: D,
    pub why: NotFormatted,
}

// All that scripts need of memory on a new heap, before its device is called.
#[derive(Drop)]
struct Ready<O: Object> {
    rooms: Rooms<O>,
    region: VecSpace,
    seated: Seated<O>,
}

// Takes it, with the words of the new heap in memory.
fn make_ready<O: Object>(
    alloc: Global,
    order: u32,
    scripts: &[Script<O>],
    faults: u64,
) -> Result<Ready<O>, AllocError>
    requires order { IsOrder order }
    requires callers { (0 < length scripts.now) × (length scripts.now ≤ 16) }
    ensures rooms { IfOk result (λ made. HasRooms O.machine.call_words scripts.now
        made.rooms.results made.rooms.jobs) }
    ensures region { IfOk result (λ made.
        O.Contents order (words_of_space made.region) O.machine.empty 0) }
    ensures seated { IfOk result (λ made. IsSeated O.Contents (O.STORES * O.WEIGHT)
        (base_for order (length scripts.now) (words_of_space made.region) faults) made.seated) }
{
    let rooms = Rooms::for_scripts(alloc, scripts)?;
    let region = new_region::<O>(alloc, order)?;
    let seated = Seated::new(alloc, order, scripts.len() as u32, &region, faults)?;
    Ok(Ready {
        rooms,
        region,
        seated,
    })
}

/// Makes a heap of this order on a device, where none stands, and runs the scripts on it as [`play`]
/// does. All memory is taken before the device is called.
#[inline(never)]
pub fn play_new<
    D: Device + Send,
    O: Object + Send + Sync,
    R: Threads + Wait + Sync,
    G: Gate + Sync,
>(
    rt: &R,
    alloc: Global,
    device: D,
    order: u32,
    scripts: &[Script<O>],
    gate: &G,
) -> Result<Played<D, O>, Unmade<D>>
where
    O::Call: Send + Sync,
    O::Query: Send + Sync,
    O::Reply: Send + Sync,
    O::Answer: Send + Sync,
    requires order { IsOrder order }
    requires callers { (0 < length scripts.now) × (length scripts.now ≤ 16) }
    // No script has more lines than 2^62, the most calls that a caller may post.
    requires few { All (λ v. length v.items ≤ LAST_COUNT) scripts.now }
    // The results are those of one history, from the empty state, and the device went through its
    // passes, after one making.
    ensures played { IfOk result (λ played. HasPlayedNew D.shown O.machine O.Contents scripts.now
        played.results.items order device played.closed) }
    // After an error no heap was made, and the scripts were not run.
    ensures unmade { IfErr result (λ failed. HasMadeNone D.shown O.Contents O.machine.empty order
        device failed.device failed.why) }
{
    let Ok(made) = make_ready::<O>(alloc, order, scripts, device.fault_count()) else {
        return Err(Unmade {
            device,
            why: NotFormatted::OutOfMemory,
        });
    };
    let Ready {
        rooms,
        region,
        seated,
    } = made;
    let mut device = device;
    if let Err(refused) = write_heap::<D, O>(&mut device, order, &region) {
        return Err(Unmade {
            device,
            why: NotFormatted::Refused(refused),
        });
    }
    let opening = Opening::of(device, Geometry::of_order(order), seated, Pace::Quick);
    Ok(play_on(rt, opening, rooms, scripts, gate))
}
