//! Scripts of sources, on a heap.
ghost use Rattle.std.specs.Prelude.{◌<◌, ◌≤◌, length, Some};
ghost use Rattle.rom_text.specs.Lines.{AreScripts};
ghost use Rattle.rom_run.specs.Played.{IsOutput};
ghost use Rattle.rom_run.specs.Promise.{HasEnded};
ghost use Rattle.rom_run.specs.Use.{IsPlayable, Plays, Read};

use crate::ended::Ended;
use crate::heap::Heap;
use crate::output::Output;
use crate::play::play_lines;
use crate::script::read_scripts;
use rom_device::Device;
use rom_model::Object;
use rom_store::Gate;
use rom_text::{Lines, Sink, Source};
use std::alloc::Global;
use std::sync::Wait;
use std::thread::Threads;

/// Reads all scripts, then opens or makes the heap and runs them on it, one caller each, and prints
/// what an output is of what they were told; or prints why they are not run. The device is not called
/// before all are read.
pub fn play_sources<
    O: Object + Send + Sync,
    L: Lines<O>,
    T: Output<O>,
    D: Device + Send,
    S: Source,
    K: Sink,
    R: Threads + Wait + Sync,
    G: Gate + Sync,
>(
    rt: &R,
    alloc: Global,
    heap: Heap,
    device: D,
    mut scripts: Vec<S>,
    out: &mut K,
    gate: &G,
) -> Ended<D, S>
where
    O::Call: Send + Sync,
    O::Query: Send + Sync,
    O::Reply: Send + Sync,
    O::Answer: Send + Sync,
    requires order { IsPlayable heap }
    requires callers { (0 < length scripts.items) × (length scripts.items ≤ 16) }
    // It ends as a command that plays scripts of sources on this heap.
    ensures { HasEnded O.machine O.Contents O.KIND O.Rejects O.earlier D.shown S.shown K.shown
        (AreScripts L.Reads S.shown) (IsOutput K.shown T.shown) (Some (Plays heap Read)) device
        result.device scripts result.scripts out.old out.new result.status result.session }
{
    match read_scripts::<O, L, S, K>(alloc, &mut scripts, out) {
        Ok(lines) => Ended::after(
            play_lines::<O, T, D, K, R, G>(rt, alloc, heap, device, &lines, out, gate),
            scripts,
        ),
        Err(status) => Ended::of(status, device, scripts, None),
    }
}
