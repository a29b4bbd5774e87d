//! The top call: all that a program of a ledger does.
ghost use Rattle.std.specs.Prelude.{◌≡◌, length};
ghost use Rattle.rom_model.specs.Region.{Contents};
ghost use Rattle.rom_heap.specs.Answers.{Rejects, earlier};
ghost use Rattle.rom_run.specs.Plain.{plain_command, plain_scripts, plain_use};
ghost use Rattle.rom_run.specs.Played.{IsText};
ghost use Rattle.rom_run.specs.Promise.{Promise};
ghost use Rattle.rom_text.specs.Determines.{TextDetermines};
ghost use Rattle.rom_text.specs.Lines.{AreScripts};
ghost use Rattle.rom_ledger.specs.Ledger.{guarded_ledger};
ghost use Rattle.rom_ledger.specs.Lines.{ReadsLedger};
ghost use Rattle.rom_ledger.specs.Same.{MeansTheSame};
ghost use Rattle.rom_ledger.specs.Texts.{ledger_texts};

use crate::language::LedgerLines;
use crate::members::GuardedLedger;
use rom_device::Device;
use rom_guard::GuardedText;
use rom_run::{Ended, ResultText, asked_by, read_plain, run_asked};
use rom_store::Gate;
use rom_text::{Names, Sink, Source};
use std::alloc::Global;
use std::sync::Wait;
use std::thread::Threads;

/// How the replies of a ledger with guarded groups are printed.
pub type LedgerText = GuardedText<LedgerLines>;

/// Does all that the program does: runs the command that the words are on the device and the scripts
/// that are handed in, and prints to the sink. `main` hands in what `files_of` of the same words names.
/// Each script has a caller of its own, in a thread where one can be made; the gate is told of their
/// lines and of what is published.
///
/// All memory is taken before the first update, and scripts are read before the device is called. Words
/// that are no command, and scripts that can't be read, make no call of it. The device is handed back
/// whatever comes.
pub fn run_ledger<R: Threads + Wait + Sync, D: Device + Send, S: Source, O: Sink, G: Gate + Sync>(
    rt: &R,
    alloc: Global,
    words: &Names,
    device: D,
    scripts: Vec<S>,
    out: &mut O,
    gate: &G,
) -> Ended<D, S>
    requires { length scripts.items ≡ length (plain_scripts (plain_command words.now)) }

    // What the words ask for is done so, and printed so: the facts are the record's fields.
    ensures promise { Promise guarded_ledger Contents 1 Rejects earlier D.shown S.shown O.shown
        (AreScripts ReadsLedger S.shown) (IsText O.shown ledger_texts) (plain_use (plain_command words.now))
        device result.device scripts result.scripts out.old out.new result.status result.session }

    // A script of a queue, a set and a map means the same here.
    ensures same { MeansTheSame }

    // A text is that of one list of results and one count.
    ensures determined { TextDetermines ledger_texts }
{
    let asked = asked_by(read_plain(words));
    run_asked::<GuardedLedger, LedgerLines, ResultText<LedgerText>, D, S, O, R, G>(
        rt, alloc, asked, device, scripts, out, gate,
    )
}
