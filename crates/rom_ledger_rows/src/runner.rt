//! Runs a command of a ledger's program, or of `romulus`, on a device of words.

use crate::book::Book;
use rom_device::{Device, Fuse, Memory};
use rom_ledger::run_ledger;
use rom_run::plain_files;
use rom_shell::{files_of, run};
use rom_store::{Gate, NoGate};
use rom_test::{
    AMPLE, Found, Handed, Limits, device_of, hand, is_lawful, lines_in, lines_of, right,
    words_of_order,
};
use std::alloc::{AllocError, Global};
use std::ops::Range;
use std::sync::Wait;
use std::test::Fail;
use std::thread::Threads;

/// How many elements a heap of order 4 has room for.
pub const ROOM: usize = 15;

/// There is room for the text of some lines. A run that is made often takes no more.
pub const SHORT: Limits = Limits {
    room: 4096,
    ..AMPLE
};

/// There is room for the text of some ten thousand lines.
pub const LONG: Limits = Limits {
    room: 1_048_576,
    ..AMPLE
};

/// The words of a run of one caller.
pub const ONE: [&str; 3] = ["run", "heap", "a"];

/// A program whose heaps are those of a queue, a set and a map.
#[derive(Clone, Copy, PartialEq, Eq)]
pub enum Program {
    Ledger,
    Romulus,
}

/// A device of these words, with room for the calls of that many lines, each of which may be a group.
fn device_for(
    alloc: Global,
    words: Vec<u64>,
    scripts: &[&str],
    calls: u64,
) -> Result<Fuse<Memory>, AllocError> {
    let lines = lines_in(&lines_of(alloc, scripts)?).saturating_mul(12);
    device_of(alloc, words, lines, Vec::new(alloc), calls)
}

/// Runs a command of the program on a device of these words, within these limits.
pub fn ran<R: Threads + Wait + Sync + AllocGlobal, G: Gate + Sync>(
    rt: &R,
    program: Program,
    words: &[&str],
    scripts: &[&str],
    device: Vec<u64>,
    limits: Limits,
    gate: &G,
) -> Result<Found, Fail> {
    let alloc = rt.alloc();
    let device = device_for(alloc, device, scripts, limits.calls)?;
    let Handed {
        names,
        scripts,
        device,
        mut out,
    } = hand(alloc, words, scripts, &[], device, limits.room)?;
    let many = scripts.len() as u64;
    let ended = match program {
        Program::Ledger => {
            if plain_files(alloc, &names)?.scripts.len() != many {
                return Err("another number of scripts".into());
            }
            run_ledger(rt, alloc, &names, device, scripts, &mut out, gate)
        }
        Program::Romulus => {
            if files_of(alloc, &names)?.scripts.len() != many {
                return Err("another number of scripts".into());
            }
            run(rt, alloc, &names, device, scripts, &mut out, gate)
        }
    };
    Ok(Found {
        status: ended.status,
        bytes: out.bytes().to_vec(alloc)?,
        has_session: ended.session.is_some(),
        device: ended.device.inner(),
    })
}

/// The words of a new heap of that order, which the ledger's program made.
pub fn formatted<R: Threads + Wait + Sync + AllocGlobal>(
    rt: &R,
    order: u32,
) -> Result<Vec<u64>, Fail> {
    let alloc = rt.alloc();
    let digits = format!(in alloc; "{order}")?;
    let words = ["format", "heap", digits.as_str()];
    let zeros = vec![in alloc; 0u64; words_of_order(order)]?;
    let made = ran(rt, Program::Ledger, &words, &[], zeros, AMPLE, &NoGate)?;
    if made.status != 0 {
        return Err("a new heap was not made".into());
    }
    Ok(made.device.words().to_vec(alloc)?)
}

/// What a caller of the ledger with this script leaves and prints, from a heap of these words.
pub fn run_one<R: Threads + Wait + Sync + AllocGlobal>(
    rt: &R,
    script: &str,
    heap: &[u64],
    limits: Limits,
) -> Result<Found, Fail> {
    let device = heap.to_vec(rt.alloc())?;
    ran(
        rt,
        Program::Ledger,
        &ONE,
        &[script],
        device,
        limits,
        &NoGate,
    )
}

/// Between which numbers of calls of the device a run of this script is stopped: from the last call of the
/// opening, behind which the first line comes, to the last one of all.
pub fn stops<R: Threads + Wait + Sync + AllocGlobal>(
    rt: &R,
    script: &str,
    heap: &[u64],
) -> Result<Range<u64>, Fail> {
    let idle = run_one(rt, "len\n", heap, SHORT)?;
    let whole = run_one(rt, script, heap, SHORT)?;
    let opening = idle.device.calls_made().saturating_sub(1);
    Ok(opening..whole.device.calls_made().saturating_add(1))
}

/// The words of a heap of order 4 on which this script was run. It was told as by a book, which holds then
/// what the heap holds.
pub fn prepared<R: Threads + Wait + Sync + AllocGlobal>(
    rt: &R,
    script: &str,
    book: &mut Book,
) -> Result<Vec<u64>, Fail> {
    let alloc = rt.alloc();
    let heap = formatted(rt, 4)?;
    let found = run_one(rt, script, heap.as_slice(), SHORT)?;
    let lawful = is_lawful(alloc, book, 0, &[script], found.text())?;
    right("what a heap begins with", 0, found.status == 0 && lawful)?;
    Ok(found.device.words().to_vec(alloc)?)
}
