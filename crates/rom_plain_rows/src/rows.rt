//! Rows of runs: what lines ask for, and what they are told.

use crate::runner::{Program, ran};
use crate::{blobs, counters, indexes};
use rom_device::Device;
use rom_store::NoGate;
use rom_test::{AMPLE, SMALL, right};
use std::sync::Wait;
use std::test::Fail;
use std::thread::Threads;

/// A run, and what it is to tell.
#[derive(Clone, Copy)]
pub struct Row {
    pub words: &'static [&'static str],
    pub scripts: &'static [&'static str],
    /// Whether it goes on with the device that the row before it left. Else the device has zeros.
    pub kept: bool,
    /// Words of the device that are changed before it.
    pub changes: &'static [(usize, u64)],
    pub status: u8,
    pub text: &'static str,
}

pub const TRY: Row = Row {
    words: &["try", "a"],
    scripts: &[],
    kept: false,
    changes: &[],
    status: 0,
    text: "",
};

pub const RUN: Row = Row {
    words: &["run", "heap", "a"],
    kept: true,
    ..TRY
};

/// Runs each row in turn, and asserts that it tells what it is to tell.
fn try_rows<R: Threads + Wait + Sync + AllocGlobal>(
    rt: &R,
    program: Program,
    rows: &[Row],
) -> Result<(), Fail> {
    let alloc = rt.alloc();
    let mut left = Vec::new(alloc);
    for (at, row) in rows.iter().enumerate() {
        let mut words = left;
        if !row.kept {
            words = vec![in alloc; 0u64; SMALL]?;
        }
        for (at, word) in row.changes {
            if let Some(place) = words.get_mut(*at) {
                *place = *word;
            }
        }
        let found = ran(rt, program, row.words, row.scripts, words, AMPLE, &NoGate)?;
        right(
            program.name(),
            at,
            found.status == row.status && found.text() == row.text,
        )?;
        left = found.device.words().to_vec(alloc)?;
    }
    Ok(())
}

#[test]
fn lines_are_told(rt: HostRuntime) -> Result<(), Fail> {
    try_rows(&rt, Program::Counter, &counters::ROWS)?;
    try_rows(&rt, Program::Blobs, &blobs::ROWS)?;
    try_rows(&rt, Program::Index, &indexes::ROWS)
}
