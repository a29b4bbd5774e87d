//! What a primary does with a command.
ghost use Rattle.std.specs.Prelude.{◌≡◌, length, IfSome};
ghost use Rattle.rom_heap.specs.Answers.{Rejects, earlier};
ghost use Rattle.rom_model.specs.Region.{Contents};
ghost use Rattle.rom_model.specs.Trio.{trio};
ghost use Rattle.rom_run.specs.Asked.{HasSources, IsAskedOf, asked_use};
ghost use Rattle.rom_run.specs.Promise.{Promise};
ghost use Rattle.rom_script.specs.Lines.{ReadsTrio};
ghost use Rattle.rom_text.specs.Lines.{AreScripts};
ghost use Rattle.rom_replica.specs.Shipped.{AreShipped};

use crate::ship::output::HistoryFrames;
use rom_device::Device;
use rom_heap::Trio;
use rom_run::{Asked, Ended, run_asked};
use rom_script::TrioLines;
use rom_store::Gate;
use rom_text::{Sink, Source};
use std::alloc::Global;
use std::sync::Wait;
use std::thread::Threads;

/// Does all that a primary does with words that are this command or, where there is none, no command:
/// makes a heap, or plays scripts on one and writes the frames of the session's history and nothing
/// else. Where no scripts are played it prints the line that a run of scripts prints.
///
/// All memory is taken before the first update, and scripts are read before the device is called. The
/// device is handed back whatever comes.
pub fn run_primary<R: Threads + Wait + Sync, D: Device + Send, S: Source, O: Sink, G: Gate + Sync>(
    rt: &R,
    alloc: Global,
    asked: Option<Asked>,
    device: D,
    scripts: Vec<S>,
    out: &mut O,
    gate: &G,
) -> Ended<D, S>
    requires order { IfSome asked IsAskedOf }
    requires sources { IfSome asked (HasSources (length scripts.items)) }
    // What became of the request, with frames as its text: the fields of the record `Promise` say it.
    ensures promise { Promise trio Contents 1 Rejects earlier D.shown S.shown O.shown
        (AreScripts ReadsTrio S.shown) (AreShipped O.shown) (asked_use asked) device result.device scripts
        result.scripts out.old out.new result.status result.session }
{
    run_asked::<Trio, TrioLines, HistoryFrames, D, S, O, R, G>(
        rt, alloc, asked, device, scripts, out, gate,
    )
}
