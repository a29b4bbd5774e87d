//! The top call: all that the program does.
ghost use Rattle.std.specs.Prelude.{◌≡◌, ◌≢◌, ◌⊎◌, length, map, codes, None, IfSome, IsSome, IsNone};
ghost use Rattle.rom_heap.specs.Answers.{Rejects, earlier};
ghost use Rattle.rom_model.specs.Region.{Contents};
ghost use Rattle.rom_model.specs.Trio.{trio};
ghost use Rattle.rom_run.specs.Played.{HasReplies};
ghost use Rattle.rom_run.specs.Promise.{Promise};
ghost use Rattle.rom_run.specs.Use.{HasNotRun, HasRead, HasRun, IsStatus, heap_of};
ghost use Rattle.rom_run.specs.Working.{HasMade, HasNone, HasSession, IsDeviceKept, IsStill};
ghost use Rattle.rom_text.specs.Determines.{TextDetermines};
ghost use Rattle.rom_text.specs.Runs.{AreAskedOnce, AreAtEnd, AreNotTooLong, IsLineWrittenOrCutShort, SourceFailed, SourceTooLong};
ghost use Rattle.rom_text.specs.Streams.{StopsWriting, WriteFailed};
ghost use Rattle.rom_script.specs.Trio.{trio_texts};
ghost use Rattle.rom_shell.specs.Run.{AreRun, IsPrinted, use_of};
ghost use Rattle.rom_words.specs.Words.{command, scripts_of};
ghost use Rattle.rom_store.specs.Sessions.{EachStory};

use crate::drill::drill_heap;
use crate::stat::show_heap;
use rom_device::Device;
use rom_heap::Trio;
use rom_run::{Ended, Heap, ResultText, Status, make_heap, play_sources, tell, upgrade_heap};
use rom_script::TrioLines;
use rom_store::Gate;
use rom_text::{Names, Sink, Source};
use rom_words::{CommandAsked, TRY_ORDER, read_command};
use std::alloc::Global;
use std::sync::Wait;
use std::thread::Threads;

/// As `run`, which promises it in one.
fn run_command<R: Threads + Wait + Sync, D: Device + Send, S: Source, O: Sink, G: Gate + Sync>(
    rt: &R,
    alloc: Global,
    words: &Names,
    device: D,
    scripts: Vec<S>,
    out: &mut O,
    gate: &G,
) -> Ended<D, S>
    requires { length scripts.items ≡ length (scripts_of (command words.now)) }
    ensures statuses { IsStatus (use_of (command words.now)) result.status }
    ensures ran { HasRun (use_of (command words.now)) result.status → IsSome result.session }
    ensures not_run { HasNotRun (use_of (command words.now)) result.status → IsNone result.session }
    ensures story { IfSome (use_of (command words.now)) (λ does. IfSome result.session
        (HasSession trio Contents D.shown (heap_of does) device result.device (HasReplies trio
        (AreRun S.shown (command words.now)) (IsPrinted O.shown (command words.now)) scripts.items
        out.old out.new result.status))) }
    ensures still { IfSome result.session (λ session. EachStory trio Contents session
        (IsStill Contents D.shown (use_of (command words.now)) device result.device)) }
    ensures none { IfSome (use_of (command words.now)) (λ does. IsNone result.session → HasNone trio
        Contents D.shown O.shown 1 Rejects earlier (heap_of does) device result.device out.old out.new
        result.status) }
    ensures made { result.status ≡ 0 → HasMade trio Contents earlier D.shown O.shown
        (use_of (command words.now)) device result.device out.old out.new }
    ensures kept { IfSome (use_of (command words.now)) (λ does.
        IsDeviceKept D.shown (heap_of does) device result.device) }
    ensures uncalled { (result.status ≡ 2) ⊎ (result.status ≡ 4) ⊎ (result.status ≡ 8) →
        result.device ≡ device }
    ensures asked_once { AreAskedOnce S.shown scripts.items result.scripts.items }
    ensures unread { result.status ≡ 2 → result.scripts ≡ scripts }
    ensures fit { HasRead result.status → AreNotTooLong S.shown scripts.items }
    ensures read { HasRead result.status → AreAtEnd S.shown result.scripts.items }
    ensures source_failed { result.status ≡ 4 →
        SourceFailed S.shown O.shown scripts.items result.scripts.items out.old out.new }
    ensures none_failed { result.status ≢ 4 →
        map S.shown.faults result.scripts.items ≡ map S.shown.faults scripts.items }
    ensures too_long { result.status ≡ 8 →
        SourceTooLong S.shown O.shown scripts.items result.scripts.items out.old out.new }
    ensures not_a_command_told { result.status ≡ 2 →
        IsLineWrittenOrCutShort O.shown out.old out.new (codes "not a command") }
    ensures sink_failed { result.status ≡ 5 → WriteFailed O.shown out.old out.new }
    ensures writing { StopsWriting O.shown out.old out.new }
    ensures rest { O.shown.rest out.new ≡ O.shown.rest out.old }
{
    let Some(asked) = read_command(words) else {
        tell(out, &["not a command"]);
        return Ended::of(Status::NotACommand, device, scripts, None);
    };
    match asked {
        CommandAsked::Try(_) => {
            let heap = Heap::New(TRY_ORDER);
            play_sources::<Trio, TrioLines, ResultText<TrioLines>, D, S, O, R, G>(
                rt, alloc, heap, device, scripts, out, gate,
            )
        }
        CommandAsked::Run { .. } => {
            let heap = Heap::Standing;
            play_sources::<Trio, TrioLines, ResultText<TrioLines>, D, S, O, R, G>(
                rt, alloc, heap, device, scripts, out, gate,
            )
        }
        CommandAsked::Format { file: _, order } => {
            let mut device = device;
            let status = make_heap::<Trio, D, O>(alloc, &mut device, order, out);
            Ended::of(status, device, scripts, None)
        }
        CommandAsked::Stat(_) => Ended::after(show_heap(alloc, device, out), scripts),
        CommandAsked::Upgrade(_) => {
            Ended::after(upgrade_heap::<Trio, D, O>(alloc, device, out), scripts)
        }
        CommandAsked::Drill {
            start,
            callers,
            calls,
        } => Ended::after(
            drill_heap(rt, alloc, device, start, callers, calls, out, gate),
            scripts,
        ),
    }
}

// A `main` has one `run` for each kind of device, never inlined: a compiler takes long over a function of both.

/// Does all that the program does: runs the command that the words are on the device and the
/// scripts that are handed in, and prints to the sink. `main` hands in what `files_of` of the same
/// words names. Each script has a caller of its own, in a thread where one can be made; the gate is
/// told of their lines and of what is published.
///
/// All memory is taken before the first update, and scripts are read before the device is called.
/// Words that are no command, and scripts that can't be read, make no call of it. The device is handed
/// back whatever comes.
#[inline(never)]
pub fn run<R: Threads + Wait + Sync, D: Device + Send, S: Source, O: Sink, G: Gate + Sync>(
    rt: &R,
    alloc: Global,
    words: &Names,
    device: D,
    scripts: Vec<S>,
    out: &mut O,
    gate: &G,
) -> Ended<D, S>
    requires { length scripts.items ≡ length (scripts_of (command words.now)) }

    // What the words ask for is done so, and printed so: the facts are the record's fields.
    ensures promise { Promise trio Contents 1 Rejects earlier D.shown S.shown O.shown
        (AreRun S.shown (command words.now)) (IsPrinted O.shown (command words.now))
        (use_of (command words.now)) device result.device scripts result.scripts out.old out.new
        result.status result.session }

    // A text is that of one list of results and one count.
    ensures determined { TextDetermines trio_texts }
{
    run_command(rt, alloc, words, device, scripts, out, gate)
}
