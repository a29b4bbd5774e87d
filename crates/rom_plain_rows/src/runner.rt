//! Runs a command of one of the programs on a device of words.

use counter::run_counter;
use rom_blob::run_blob;
use rom_order::run_order;
use rom_run::plain_files;
use rom_store::{Gate, NoGate};
use rom_test::{AMPLE, Found, Handed, Limits, device_of, hand, lines_in, lines_of, words_of_order};
use std::sync::Wait;
use std::test::Fail;
use std::thread::Threads;

/// A program of plain words, by what it keeps.
#[derive(Clone, Copy, PartialEq, Eq)]
pub enum Program {
    Counter,
    Blobs,
    Index,
}

impl Program {
    pub fn name(self) -> &'static str {
        match self {
            Program::Counter => "the counter",
            Program::Blobs => "keys with bytes",
            Program::Index => "the index",
        }
    }
}

pub const PROGRAMS: [Program; 3] = [Program::Counter, Program::Blobs, Program::Index];

/// Runs a command of the program on a device of these words, within these limits.
pub fn ran<R: Threads + Wait + Sync + AllocGlobal, G: Gate + Sync>(
    rt: &R,
    program: Program,
    words: &[&str],
    scripts: &[&str],
    device: Vec<u64>,
    limits: Limits,
    gate: &G,
) -> Result<Found, Fail> {
    let alloc = rt.alloc();
    let lines = lines_in(&lines_of(alloc, scripts)?);
    let device = device_of(alloc, device, lines, Vec::new(alloc), limits.calls)?;
    let Handed {
        names,
        scripts,
        device,
        mut out,
    } = hand(alloc, words, scripts, &[], device, limits.room)?;
    if plain_files(alloc, &names)?.scripts.len() != scripts.len() as u64 {
        return Err("another number of scripts".into());
    }
    let ended = match program {
        Program::Counter => run_counter(rt, alloc, &names, device, scripts, &mut out, gate),
        Program::Blobs => run_blob(rt, alloc, &names, device, scripts, &mut out, gate),
        Program::Index => run_order(rt, alloc, &names, device, scripts, &mut out, gate),
    };
    Ok(Found {
        status: ended.status,
        bytes: out.bytes().to_vec(alloc)?,
        has_session: ended.session.is_some(),
        device: ended.device.inner(),
    })
}

/// The words of a new heap of that order, of which is told that it was made.
pub fn formatted<R: Threads + Wait + Sync + AllocGlobal>(
    rt: &R,
    program: Program,
    order: u32,
) -> Result<Vec<u64>, Fail> {
    let alloc = rt.alloc();
    let digits = format!(in alloc; "{order}")?;
    let words = ["format", "heap", digits.as_str()];
    let zeros = vec![in alloc; 0u64; words_of_order(order)]?;
    let made = ran(rt, program, &words, &[], zeros, AMPLE, &NoGate)?;
    let wanted = format!(in alloc; "formatted order {order}\n")?;
    if made.status != 0 || made.text() != wanted.as_str() {
        return Err("a new heap was not made".into());
    }
    Ok(made.device.words().to_vec(alloc)?)
}
