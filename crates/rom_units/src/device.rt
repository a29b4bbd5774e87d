//! Devices in memory: words that are kept, calls that fail, and what a stop leaves.

use crate::devices::{Failing, Step, device, takes};
use crate::right::right;
use rom_device::CallKind::{Read, Sync, Write};
use rom_device::{Device, Fuse, Memory, Ram};
use std::alloc::Global;
use std::test::Fail;

/// Words with room for so many calls, of which some fail, under a fuse that passes so many on. Then
/// calls, and in the end the words, the faults of the fuse, those of the words alone, and how many calls
/// are listed.
#[derive(Clone, Copy)]
struct Row {
    start: &'static [u64],
    room: u64,
    failing: &'static [Failing],
    fuse: u64,
    steps: &'static [Step],
    words: &'static [u64],
    counts: (u64, u64, u64),
}

/// Of words 1 and 2 the second read fails.
const FAILING: Row = Row {
    start: &[1, 2, 3],
    room: 100,
    failing: &[
        (Read, 1, 3, 2, false),
        (Write, 0, 3, 2, true),
        (Write, 0, 3, 3, false),
        (Sync, 0, 3, 2, false),
    ],
    fuse: u64::MAX,
    steps: &[
        Step::Read(0, Some(1)),
        Step::Read(1, Some(2)),
        Step::Read(0, Some(1)),
        Step::Read(2, None),
        Step::Read(2, Some(3)),
        Step::Write(0, 5, true),
        Step::Write(1, 6, false),
        Step::Write(2, 7, false),
        Step::Write(0, 8, true),
        Step::Sync(true),
        Step::Sync(false),
        Step::Sync(true),
        Step::Read(0, Some(8)),
        Step::Read(1, Some(6)),
        Step::Read(2, Some(3)),
    ],
    words: &[8, 6, 3],
    counts: (4, 4, 15),
};

/// Many words are read up to the first that fails.
const MANY: Row = Row {
    start: &[1, 2, 3],
    room: 100,
    failing: &[(Read, 2, 3, 1, false)],
    fuse: u64::MAX,
    steps: &[
        Step::ReadMany(0, 3, &[1, 2]),
        Step::Faults(1),
        Step::ReadMany(1, 2, &[2, 3]),
        Step::ReadMany(3, 0, &[]),
        Step::WriteMany(1, &[8, 9], true),
    ],
    words: &[1, 8, 9],
    counts: (1, 1, 7),
};

/// Of three words that are written at one call the second fails, and those behind it stay.
const SECOND: Row = Row {
    start: &[1, 2, 3],
    room: 9,
    failing: &[(Write, 0, 3, 2, false)],
    fuse: 9,
    steps: &[Step::WriteMany(0, &[7, 8, 9], false)],
    words: &[7, 2, 3],
    counts: (1, 1, 2),
};

/// There is room for two calls.
const PAST_THE_ROOM: Row = Row {
    start: &[1, 2],
    room: 2,
    failing: &[],
    fuse: u64::MAX,
    steps: &[
        Step::Write(0, 5, true),
        Step::Sync(true),
        Step::Write(0, 6, false),
        Step::Sync(false),
        Step::Read(0, None),
    ],
    words: &[5, 2],
    counts: (3, 3, 2),
};

/// Word 0 was 11 at the last sync, and then 12 and 13 were written to it, of which the second failed.
/// Word 1 is 20, and word 2 was 30 before 31 was written.
const WRITTEN: Row = Row {
    start: &[10, 20, 30],
    room: 5,
    failing: &[(Write, 0, 1, 3, false)],
    fuse: u64::MAX,
    steps: &[
        Step::Write(0, 11, true),
        Step::Sync(true),
        Step::Write(0, 12, true),
        Step::Write(2, 31, true),
        Step::Write(0, 13, false),
    ],
    words: &[12, 20, 31],
    counts: (1, 1, 5),
};

/// Four calls are passed on.
const FUSED: Row = Row {
    start: &[1, 2],
    room: 10,
    failing: &[],
    fuse: 4,
    steps: &[
        Step::Write(1, 7, true),
        Step::Sync(true),
        Step::Read(1, Some(7)),
        Step::ReadMany(0, 2, &[1]),
        Step::Write(0, 8, false),
        Step::Sync(false),
    ],
    words: &[1, 7],
    counts: (3, 0, 4),
};

static ROWS: [Row; 10] = [
    FAILING,
    MANY,
    SECOND,
    Row {
        failing: &[(Write, 0, 3, 2, true)],
        words: &[7, 8, 3],
        ..SECOND
    },
    Row {
        failing: &[],
        room: 2,
        words: &[7, 8, 3],
        ..SECOND
    },
    Row {
        failing: &[],
        fuse: 1,
        counts: (1, 0, 1),
        ..SECOND
    },
    Row {
        failing: &[],
        fuse: 0,
        words: &[1, 2, 3],
        counts: (1, 0, 0),
        ..SECOND
    },
    PAST_THE_ROOM,
    WRITTEN,
    FUSED,
];

/// The device of a row once its calls are made.
fn used(alloc: Global, row: &Row) -> Result<Fuse<Memory>, Fail> {
    let memory = device(alloc, row.start, row.room, row.failing)?;
    let mut fuse = Fuse::new(memory, row.fuse);
    takes(alloc, &mut fuse, row.steps)?;
    Ok(fuse)
}

/// Whether a row ends with its words and counts.
fn does(alloc: Global, row: &Row) -> Result<bool, Fail> {
    let fuse = used(alloc, row)?;
    let (faults, alone, calls) = row.counts;
    let counted = fuse.fault_count() == faults;
    let memory = fuse.inner();
    let counted = counted && memory.fault_count() == alone && memory.calls_made() == calls;
    Ok(counted && memory.words() == row.words)
}

/// Calls of three words in memory that never fail.
static READ_BACK: [Step; 5] = [
    Step::Write(1, u64::MAX, true),
    Step::Sync(true),
    Step::Read(0, Some(0)),
    Step::Read(1, Some(u64::MAX)),
    Step::Faults(0),
];

#[test]
fn calls_are_done_or_fail(rt: HostRuntime) -> Result<(), Fail> {
    for (at, row) in ROWS.iter().enumerate() {
        right("device", at, does(rt.alloc(), row)?)?;
    }
    takes(rt.alloc(), &mut Ram::zeroed(rt.alloc(), 3)?, &READ_BACK)
}

#[test]
fn a_crash_leaves_what_is_chosen(rt: HostRuntime) -> Result<(), Fail> {
    let rows: [(&Row, &[u64], &[u64]); 7] = [
        (&PAST_THE_ROOM, &[0], &[5, 2]),
        (&PAST_THE_ROOM, &[1], &[5, 2]),
        (&WRITTEN, &[0, 0, 0], &[11, 20, 30]),
        (&WRITTEN, &[1, 1, 1], &[12, 20, 31]),
        (&WRITTEN, &[2, 5, 3], &[13, 20, 31]),
        (&WRITTEN, &[5], &[13, 20, 30]),
        (&WRITTEN, &[], &[11, 20, 30]),
    ];
    for (at, (row, choice, left)) in rows.iter().enumerate() {
        let memory = used(rt.alloc(), row)?.inner();
        right("crash", at, memory.crash(choice).as_slice() == *left)?;
    }
    Ok(())
}
