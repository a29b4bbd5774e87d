//! Runs a command on a heap: makes the device and the streams that the words name, and calls `run`.
//!
//! It knows real files and streams, and its usage; what a command does is `rom_shell`'s to know.
#![tactic(auto)]

use rom_host::{Opened, Program, Reading, on_device, open_all};
use rom_shell::{NoGate, files_of, run};
use std::process::ExitCode;

/// What standard error tells where the words are no command.
const USAGE: &str = "\
usage: romulus format FILE --order N               a new heap of order N, 4 to 16
       romulus run FILE SCRIPT..                   1 to 16 scripts on a heap
       romulus stat FILE                           its order, count, sizes and room
       romulus upgrade FILE                        one of region version 1 to version 2
       romulus try SCRIPT..                        scripts on a heap in memory
       romulus drill START --callers C --calls M   drawn scripts there";

fn main(rt: HostRuntime) -> ExitCode {
    let mut program = Program::new(&rt, "romulus");
    let called = program.begin().and_then(|words| {
        let wanted = files_of(rt.alloc(), &words)?;
        let Opened { device, sources } = open_all(&mut program, &wanted, Reading::First)?;
        let mut out = program.output();
        let status = on_device!(device, |device| {
            run(&rt, rt.alloc(), &words, device, sources, &mut out, &NoGate).status
        });
        program.tell_kind_of(status, &wanted.device);
        Ok(status)
    });
    program.end(USAGE, called)
}
