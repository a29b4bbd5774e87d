//! A program that keeps a counter.
ghost use Rattle.std.specs.Prelude.{◌≡◌, length};
ghost use Rattle.rom_model.specs.Earlier.{no_earlier};
ghost use Rattle.rom_run.specs.Plain.{plain_command, plain_scripts, plain_use};
ghost use Rattle.rom_run.specs.Played.{IsText};
ghost use Rattle.rom_run.specs.Promise.{Promise};
ghost use Rattle.rom_text.specs.Lines.{AreScripts};
ghost use Rattle.rom_text.specs.Text.{texts_of};
ghost use Rattle.counter.specs.Counter.{CounterContents, RejectsCounter, counter};
ghost use Rattle.counter.specs.Language.{ReadsCounter, shown_sum};

use crate::counter::Counter;
use crate::language::CounterLines;
use rom_device::Device;
use rom_run::{Ended, run_plain};
use rom_store::Gate;
use rom_text::{Names, Sink, Source};
use std::alloc::Global;
use std::sync::Wait;
use std::thread::Threads;

/// Does all that a program that keeps a counter does.
pub fn run_counter<R: Threads + Wait + Sync, D: Device + Send, S: Source, O: Sink, G: Gate + Sync>(
    rt: &R,
    alloc: Global,
    words: &Names,
    device: D,
    scripts: Vec<S>,
    out: &mut O,
    gate: &G,
) -> Ended<D, S>
    requires { length scripts.items ≡ length (plain_scripts (plain_command words.now)) }
    // What became of the command that the words ask for, of a counter: the fields of `Promise` say it.
    ensures promise { Promise counter CounterContents 77 RejectsCounter no_earlier D.shown S.shown O.shown
        (AreScripts ReadsCounter S.shown) (IsText O.shown (texts_of shown_sum shown_sum))
        (plain_use (plain_command words.now)) device result.device scripts result.scripts out.old out.new
        result.status result.session }
{
    run_plain::<Counter, CounterLines, D, S, O, R, G>(rt, alloc, words, device, scripts, out, gate)
}
