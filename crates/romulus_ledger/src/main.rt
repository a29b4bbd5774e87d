//! Runs a command on the heap of a ledger: makes the device and the streams that the words name, and calls
//! `run_ledger`, or `talk`.
//!
//! It knows real files and streams, and its usage; what a command does is `rom_ledger`'s to know.
#![tactic(auto)]

use rom_host::{Opened, Program, Reading, Talk, on_device, open_all, open_talk};
use rom_ledger::{GuardedLedger, LedgerLines, LedgerText, NoGate, files_of, run_ledger};
use rom_talk::{Status, read_talk, talk, tell};
use std::process::ExitCode;

/// What standard error tells where the words are no command.
const USAGE: &str = "\
usage: romulus_ledger format FILE N           a new heap of order N, 4 to 16
       romulus_ledger run FILE SCRIPT..       1 to 16 scripts on a heap
       romulus_ledger talk FILE [IN OUT]..    lines of 1 to 16 callers, as they come
       romulus_ledger try SCRIPT..            scripts on a heap in memory";

fn main(rt: HostRuntime) -> ExitCode {
    let mut program = Program::new(&rt, "romulus_ledger");
    let called = program.begin().and_then(|words| {
        if let Some(callers) = read_talk(&words) {
            program.spare(callers.file.as_str());
            let file = callers.file.as_str().to_string(rt.alloc())?;
            let opened = open_talk(&rt, &program, callers.file, callers.names)?;
            let Some(Talk { device, peers }) = opened else {
                tell(&mut program.output(), &["no thread"]);
                return Ok(Status::NoMemory.number());
            };
            let mut out = program.output();
            let status = talk::<GuardedLedger, LedgerLines, LedgerText, _, _, _, _, _>(
                &rt,
                rt.alloc(),
                device,
                peers,
                &mut out,
                &NoGate,
            ).status;
            program.tell_kind(status, file.as_str());
            return Ok(status);
        }
        let wanted = files_of(rt.alloc(), &words)?;
        let Opened { device, sources } = open_all(&mut program, &wanted, Reading::First)?;
        let mut out = program.output();
        let status = on_device!(device, |device| {
            run_ledger(&rt, rt.alloc(), &words, device, sources, &mut out, &NoGate).status
        });
        program.tell_kind_of(status, &wanted.device);
        Ok(status)
    });
    program.end(USAGE, called)
}
