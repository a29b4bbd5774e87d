//! Runs a command on a heap that ships its history or follows that of another: makes the device and the
//! streams that the words name, and calls `follow_named`, `adopt_and_tell` or `run_replica`. A stream that
//! `--anonymous` is said of is met here, before `run_replica`.
//!
//! It knows real files and streams, its usage, and what helps where a stream is refused; what a command does is
//! `rom_replica`'s to know, how a named stream is followed `rom_tail`'s, and how a copy is adopted `rom_name`'s.
#![tactic(auto)]

ghost use Rattle.std.specs.Prelude.{◌≡◌, All, length};
ghost use Rattle.rom_name.specs.Peeked.{IsUnread};
ghost use Rattle.rom_replica.specs.Words.{replica_command};
ghost use Rattle.rom_run.specs.Plain.{plain_scripts};

use rom_device::{Device, FileDevice};
use rom_heap::Trio;
use rom_host::{Opened, Program, Reading, Script, heap_of, on_device, open_all};
use rom_name::{Greeting, Peeked, Refusal, adopt_and_tell, greet, peek_all, tell_refusal};
use rom_replica::{NoGate, Status, files_of, run_replica};
use rom_run::{is_name, tell};
use rom_tail::follow_named;
use rom_text::{Adapted, Name, Names, Sink, Source};
use std::alloc::{AllocError, Global};
use std::process::ExitCode;
use std::sync::Wait;
use std::thread::Threads;

/// What standard error tells where the words are no command.
const USAGE: &str = "\
usage: romulus_replica format FILE N                       a new heap of order N, 4 to 16
       romulus_replica ship FILE SCRIPT..                  1 to 16 scripts on a heap, told as frames
       romulus_replica follow [--anonymous] FILE STREAM    what frames say, done on another heap
       romulus_replica adopt FILE                          makes a copy of a named heap a primary";

/// A stream is read while its frames are done, and scripts are read first.
fn reading_of(words: &Names) -> Reading {
    match words.at(0) {
        Some("follow") => Reading::Beside,
        _ => Reading::First,
    }
}

/// The file of `adopt`, where the words are that command.
fn adopted_file(words: &Names) -> Option<&Name> {
    match words.as_slice() {
        [command, file] if command.as_str() == "adopt" && is_name(file) => Some(file),
        _ => None,
    }
}

/// The words without the option of `follow`, and whether it stood there.
fn split_option(alloc: Global, words: Names) -> Result<(Names, bool), AllocError> {
    if words.at(0) != Some("follow") || words.at(1) != Some("--anonymous") {
        return Ok((words, false));
    }
    let mut others = Names::new(alloc);
    for i in 0..words.len() {
        match words.at(i) {
            Some(word) if i != 1 => others.push(alloc, word)?,
            _ => {}
        }
    }
    Ok((others, true))
}

/// Whether a new copy of the primary may follow a stream that is refused so.
fn needs_copy(refusal: &Refusal) -> bool {
    matches!(
        refusal,
        Refusal::NoName | Refusal::SkippedEpoch { .. } | Refusal::Parted { .. } | Refusal::Gap(_)
    )
}

/// Says what helps a heap that may not follow a stream.
fn tell_help(program: &Program<'_>, words: &Names, refusal: &Refusal) {
    if let Some(heap) = words.at(1) {
        if needs_copy(refusal) {
            program.tell_copy(heap);
        }
    }
}

/// Meets a stream that needs no name, or says why it is not followed. One that fails is read no more: `missing` takes
/// its place, of which each read fails.
fn meet_anonymous<D: Device, S: Source + Drop, O: Sink>(
    program: &Program<'_>,
    words: &Names,
    device: &mut D,
    stream: &mut Peeked<S>,
    missing: S,
    out: &mut O,
) -> Option<u8>
    requires { IsUnread stream.old }
{
    match greet::<D, Trio, S>(device, stream, true) {
        Greeting::Followed => None,
        Greeting::Refused(why) => {
            tell_help(program, words, &why);
            Some(tell_refusal(out, &why))
        }
        Greeting::StreamFailed => {
            *stream = Peeked::over(missing);
            None
        }
        Greeting::DeviceFailed => {
            tell(out, &["device failed"]);
            Some(Status::DeviceFailed.number())
        }
    }
}

/// Does what the words ask for, on a device of either kind. A stream of which `--anonymous` was said is met first.
fn run_words<D: Device + Send + Drop, R: Threads + Wait + Sync>(
    rt: &R,
    program: &Program<'_>,
    words: &Names,
    anonymous: bool,
    device: D,
    inputs: Vec<Peeked<Adapted<Script>>>,
) -> u8
    requires named { length inputs.items ≡ length (plain_scripts (replica_command words.now)) }
    requires unread { All IsUnread inputs.items }
{
    let (mut device, mut inputs) = (device, inputs);
    let (alloc, mut out) = (program.alloc(), program.output());
    let missing = Adapted::missing();
    let follows = words.at(0) == Some("follow");
    if follows && !anonymous && inputs.len() == 1 {
        let end = follow_named(rt, alloc, device, inputs, missing, &mut out, &NoGate);
        if let Some(why) = &end.refusal {
            tell_help(program, words, why);
        }
        return end.ended.status;
    }
    if follows && inputs.len() == 1 {
        let stream = &mut inputs[0];
        if let Some(status) = meet_anonymous(
            program,
            words,
            &mut device,
            stream,
            missing,
            &mut out,
        ) {
            return status;
        }
    }
    run_replica(rt, alloc, words, device, inputs, &mut out, &NoGate).status
}

fn main(rt: HostRuntime) -> ExitCode {
    let mut program = Program::new(&rt, "romulus_replica");
    let called = program.begin().and_then(|words| {
        if let Some(file) = adopted_file(&words) {
            program.spare(file.as_str());
            let mut device = heap_of(&program, file.as_str())?;
            let status = adopt_and_tell::<FileDevice, Trio, _>(&mut device, &mut program.output());
            program.tell_kind(status, file.as_str());
            return Ok(status);
        }
        let (words, anonymous) = split_option(rt.alloc(), words)?;
        let wanted = files_of(rt.alloc(), &words)?;
        let Opened { device, sources } = open_all(&mut program, &wanted, reading_of(&words))?;
        let inputs = peek_all(rt.alloc(), sources)?;
        let status = on_device!(device, |device| {
            run_words(&rt, &program, &words, anonymous, device, inputs)
        });
        program.tell_kind_of(status, &wanted.device);
        Ok(status)
    });
    program.end(USAGE, called)
}
