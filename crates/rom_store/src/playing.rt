//! Scripts on a heap, one caller each, in threads.
ghost use Rattle.std.specs.Prelude.{◌<◌, ◌≤◌, length, All, IfErr, IfOk};
ghost use Rattle.rom_model.specs.History.{LAST_COUNT};
ghost use Rattle.rom_store.specs.Playing.{HasPlayed, IsUnplayed};

use crate::opening::open_store;
use crate::rooms::Rooms;
use crate::running::{Played, play_on};
use crate::work::Room;
use rom_combine::Gate;
use rom_device::Device;
use rom_lines::Script;
use rom_model::Object;
use rom_open::Refused;
use std::alloc::Global;
use std::sync::Wait;
use std::thread::Threads;

/// Why scripts were not played on the heap of a device, which is handed back.
#[derive(Drop)]
pub enum Unplayed<D> {
    /// There was no memory for what they are told. The device was not called.
    NoRoom(D),
    /// The heap was not opened, and where there was no memory, it was for the opening.
    Unopened(Refused<D>),
}

/// Opens the heap on a device and runs the scripts on it, one caller each, in threads; there are 1 to 16.
/// Room for all results is taken first, before the device is called, and nothing takes memory once the
/// heap is opened. The refusals are those of `open_store`.
///
/// The results are lawful: each caller's replies are those of one history, at their places and fronts.
#[inline(never)]
pub fn play<D: Device + Send, O: Object + Send + Sync, R: Threads + Wait + Sync, G: Gate + Sync>(
    rt: &R,
    alloc: Global,
    device: D,
    scripts: &[Script<O>],
    gate: &G,
) -> Result<Played<D, O>, Unplayed<D>>
where
    O::Call: Send + Sync,
    O::Query: Send + Sync,
    O::Reply: Send + Sync,
    O::Answer: Send + Sync,
    requires callers { (0 < length scripts.now) × (length scripts.now ≤ 16) }
    // No script has more lines than 2^62, the most calls that a caller may post.
    requires few { All (λ v. length v.items ≤ LAST_COUNT) scripts.now }
    // The results are those of one history, from what the device held, and the device went through
    // its passes, after one opening.
    ensures played { IfOk result (λ played. HasPlayed D.shown O.machine O.Contents scripts.now
        played.results.items device played.closed) }
    // Else the device was not called for want of memory for the results, or the heap was not opened.
    ensures unplayed { IfErr result (IsUnplayed D.shown O.Contents O.Rejects device) }
{
    let Ok(rooms) = Rooms::for_scripts(alloc, scripts) else {
        return Err(Unplayed::NoRoom(device));
    };
    match open_store::<D, O>(alloc, device, scripts.len() as u32) {
        Ok(opening) => Ok(play_on(rt, opening, rooms, scripts, gate)),
        Err(refused) => Err(Unplayed::Unopened(refused)),
    }
}
