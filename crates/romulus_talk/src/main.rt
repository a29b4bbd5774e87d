//! Keeps a heap open and converses: makes the device, the peers and the stream that the words name, and calls
//! `talk`, or `talk_streaming` where there is a stream.
//!
//! It knows real files and streams, and its usage; what a talk is is `rom_talk`'s to know.
#![tactic(auto)]

ghost use Rattle.std.specs.Prelude.{IfSome};
ghost use Rattle.rom_name.specs.Identities.{IsNamed};

use rom_heap::Trio;
use rom_host::{Program, Talk, draw_words, open_talk, sink_of};
use rom_name::{HeapName, is_named};
use rom_script::TrioLines;
use rom_ship::talk_streaming;
use rom_talk::{NoGate, Shipping, Status, read_shipping, talk, tell};
use std::process::ExitCode;

/// What standard error tells where the words are no command.
const USAGE: &str = "\
usage: romulus_talk FILE                             lines at standard input, each answered as it comes
       romulus_talk FILE [IN OUT]..                  1 to 16 callers, each at two named pipes or files
       romulus_talk --ship STREAM FILE [IN OUT]..    the same, and STREAM is told each update as a frame";

/// A name that is drawn for a heap that has none.
fn drawn_name(program: &Program<'_>) -> Option<HeapName>
    ensures { IfSome result IsNamed }
{
    let [high, low] = draw_words(program)?;
    let drawn = HeapName { high, low };
    if is_named(drawn) { Some(drawn) } else { None }
}

fn main(rt: HostRuntime) -> ExitCode {
    let mut program = Program::new(&rt, "romulus_talk");
    let called = program.begin().and_then(|words| {
        let Some(Shipping { stream, callers }) = read_shipping(words.as_slice()) else {
            tell(&mut program.output(), &["not a command"]);
            return Ok(Status::NotACommand.number());
        };
        program.spare(callers.file.as_str());
        let (teller, file) = (program, callers.file.as_str().to_string(rt.alloc())?);
        let mut sink = None;
        if let Some(stream) = stream {
            sink = sink_of(&program, stream, callers.names);
            if sink.is_none() {
                tell(&mut program.output(), &["no stream"]);
                return Ok(Status::ScriptFailed.number());
            }
        }
        let opened = open_talk(&rt, &program, callers.file, callers.names)?;
        let Some(Talk { device, peers }) = opened else {
            tell(&mut program.output(), &["no thread"]);
            return Ok(Status::NoMemory.number());
        };
        let (alloc, mut out) = (rt.alloc(), program.output());
        let Some(sink) = sink else {
            let ended = talk::<Trio, TrioLines, TrioLines, _, _, _, _, _>(
                &rt, alloc, device, peers, &mut out, &NoGate,
            );
            teller.tell_kind(ended.status, file.as_str());
            return Ok(ended.status);
        };
        let Some(drawn) = drawn_name(&program) else {
            tell(&mut out, &["no name"]);
            return Ok(Status::ScriptFailed.number());
        };
        let (ended, _) = talk_streaming::<Trio, TrioLines, TrioLines, _, _, _, _, _, _>(
            &rt, alloc, device, peers, &mut out, &NoGate, sink, drawn,
        );
        teller.tell_kind(ended.status, file.as_str());
        Ok(ended.status)
    });
    program.end(USAGE, called)
}
