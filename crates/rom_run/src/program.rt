//! All that a program does once it has understood its words.
ghost use Rattle.std.specs.Prelude.{length, IfSome};
ghost use Rattle.rom_run.specs.Asked.{HasSources, IsAskedOf, asked_use};
ghost use Rattle.rom_text.specs.Lines.{AreScripts};
ghost use Rattle.rom_run.specs.Played.{IsOutput};
ghost use Rattle.rom_run.specs.Promise.{HasEnded, Promise};

use crate::ended::Ended;
use crate::format::make_heap;
use crate::heap::Heap;
use crate::output::Output;
use crate::scripted::play_sources;
use crate::status::Status;
use crate::telling::tell;
use rom_device::Device;
use rom_model::Object;
use rom_store::Gate;
use rom_text::{Lines, Sink, Source};
use std::alloc::Global;
use std::sync::Wait;
use std::thread::Threads;

/// What a command asks for.
#[derive(Clone, Copy, Debug, PartialEq, Eq)]
pub enum Asked {
    /// To play the scripts on this heap.
    Play(Heap),
    /// To make a heap of this order.
    Make(u32),
}

/// As `run_asked`, which promises what follows from it too.
fn run_command<
    O: Object + Send + Sync,
    L: Lines<O>,
    T: Output<O>,
    D: Device + Send,
    S: Source,
    K: Sink,
    R: Threads + Wait + Sync,
    G: Gate + Sync,
>(
    rt: &R,
    alloc: Global,
    asked: Option<Asked>,
    device: D,
    scripts: Vec<S>,
    out: &mut K,
    gate: &G,
) -> Ended<D, S>
where
    O::Call: Send + Sync,
    O::Query: Send + Sync,
    O::Reply: Send + Sync,
    O::Answer: Send + Sync,
    requires order { IfSome asked IsAskedOf }
    requires sources { IfSome asked (HasSources (length scripts.items)) }
    ensures { HasEnded O.machine O.Contents O.KIND O.Rejects O.earlier D.shown S.shown
        K.shown (AreScripts L.Reads S.shown) (IsOutput K.shown T.shown) (asked_use asked) device
        result.device scripts result.scripts out.old out.new result.status result.session }
{
    let Some(asked) = asked else {
        tell(out, &["not a command"]);
        return Ended::of(Status::NotACommand, device, scripts, None);
    };
    match asked {
        Asked::Make(order) => {
            let mut device = device;
            let status = make_heap::<O, D, K>(alloc, &mut device, order, out);
            Ended::of(status, device, scripts, None)
        }
        Asked::Play(heap) => {
            play_sources::<O, L, T, D, S, K, R, G>(rt, alloc, heap, device, scripts, out, gate)
        }
    }
}

/// Does all that a program does with words that are this command or, where there is none, no
/// command.
pub fn run_asked<
    O: Object + Send + Sync,
    L: Lines<O>,
    T: Output<O>,
    D: Device + Send,
    S: Source,
    K: Sink,
    R: Threads + Wait + Sync,
    G: Gate + Sync,
>(
    rt: &R,
    alloc: Global,
    asked: Option<Asked>,
    device: D,
    scripts: Vec<S>,
    out: &mut K,
    gate: &G,
) -> Ended<D, S>
where
    O::Call: Send + Sync,
    O::Query: Send + Sync,
    O::Reply: Send + Sync,
    O::Answer: Send + Sync,
    requires order { IfSome asked IsAskedOf }
    requires sources { IfSome asked (HasSources (length scripts.items)) }
    // All that is promised of this command; the record's fields say it one by one.
    ensures promise { Promise O.machine O.Contents O.KIND O.Rejects O.earlier D.shown S.shown
        K.shown (AreScripts L.Reads S.shown) (IsOutput K.shown T.shown) (asked_use asked) device result.device scripts result.scripts out.old out.new result.status
        result.session }
{
    run_command::<O, L, T, D, S, K, R, G>(rt, alloc, asked, device, scripts, out, gate)
}
