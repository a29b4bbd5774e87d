//! The top call: all that a program of an ordered index does.
ghost use Rattle.std.specs.Prelude.{◌≡◌, length};
ghost use Rattle.rom_model.specs.Earlier.{no_earlier};
ghost use Rattle.rom_run.specs.Plain.{plain_command, plain_scripts, plain_use};
ghost use Rattle.rom_run.specs.Played.{IsText};
ghost use Rattle.rom_run.specs.Promise.{Promise};
ghost use Rattle.rom_text.specs.Determines.{TextDetermines};
ghost use Rattle.rom_text.specs.Lines.{AreScripts};
ghost use Rattle.rom_order_region.specs.Region.{IndexContents};
ghost use Rattle.rom_order_region.specs.Inspection.{RejectsIndex};
ghost use Rattle.rom_order.specs.Index.{index};
ghost use Rattle.rom_order.specs.Lines.{ReadsIndex};
ghost use Rattle.rom_order_region.specs.Texts.{index_texts};

use crate::index::Ordered;
use crate::language::OrderLines;
use rom_device::Device;
use rom_run::{Ended, run_plain};
use rom_store::Gate;
use rom_text::{Names, Sink, Source};
use std::alloc::Global;
use std::sync::Wait;
use std::thread::Threads;

/// Does all that the program does: runs the command that the words are on the device and the scripts
/// that are handed in, and prints to the sink. `main` hands in what `files_of` of the same words names.
/// Each script has a caller of its own, in a thread where one can be made; the gate is told of their
/// lines and of what is published.
///
/// All memory is taken before the first update, and scripts are read before the device is called. Words
/// that are no command, and scripts that can't be read, make no call of it. The device is handed back
/// whatever comes.
pub fn run_order<R: Threads + Wait + Sync, D: Device + Send, S: Source, O: Sink, G: Gate + Sync>(
    rt: &R,
    alloc: Global,
    words: &Names,
    device: D,
    scripts: Vec<S>,
    out: &mut O,
    gate: &G,
) -> Ended<D, S>
    requires { length scripts.items ≡ length (plain_scripts (plain_command words.now)) }

    // What the words ask for is done so, and printed so: the facts are the record's fields.
    ensures promise { Promise index IndexContents 3 RejectsIndex no_earlier D.shown S.shown O.shown
        (AreScripts ReadsIndex S.shown) (IsText O.shown index_texts) (plain_use (plain_command words.now)) device
        result.device scripts result.scripts out.old out.new result.status result.session }

    // A text is that of one list of results and one count.
    ensures determined { TextDetermines index_texts }
{
    run_plain::<Ordered, OrderLines, D, S, O, R, G>(rt, alloc, words, device, scripts, out, gate)
}
