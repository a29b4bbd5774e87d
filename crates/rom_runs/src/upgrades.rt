//! Heaps of version 1: what refuses them, and what an upgrade makes of them, wherever it is stopped.

use crate::hindered::{BEYOND, run_new};
use crate::rows::{PLAIN, Row, Sink, Text, Words};
use crate::runner::{run_row, shown, try_rows};
use rom_device::{CallKind, Device, Trip, every_trip};
use rom_test::{Found, SMALL};
use std::process::Abort;
use std::sync::Wait;
use std::test::Fail;
use std::thread::Threads;

/// A heap of version 1 after `put 0 1` and `put 5 2`, both of bucket 0: the key that came last is the first.
const OLD: Words = Words::Regions(&[
    (1, 1),
    (2, 2),
    (9, 2),
    (20, 1),
    (24, 0),
    (25, 1),
    (33, 0),
    (34, 0),
    (48, 56),
    (53, 1),
    (56, 5),
    (57, 2),
    (58, 52),
]);

/// The same of version 2: each key keeps its block, and they rise.
const NEW: Words = Words::Regions(&[
    (2, 2),
    (9, 2),
    (20, 1),
    (24, 0),
    (25, 1),
    (33, 0),
    (34, 0),
    (48, 52),
    (53, 1),
    (54, 56),
    (56, 5),
    (57, 2),
]);

const STAT: Row = Row {
    words: &["stat", "file"],
    device: OLD,
    status: 3,
    text: Text::Is("refused: region version 1\n"),
    ..PLAIN
};

/// What is shown once it is of version 2.
const SHOWN: &str = "order 4\ncount 2\nqueue 0 set 0 map 2\nfree 13\ntotal 3\n";

const UPGRADE: Row = Row {
    words: &["upgrade", "file"],
    device: OLD,
    text: Text::Is("upgraded order 4\n"),
    ..PLAIN
};

/// An upgrade that is refused.
const REFUSED: Row = Row {
    status: 3,
    ..UPGRADE
};

/// The first sync fails.
const FIRST_SYNC: Trip = Trip {
    call: CallKind::Sync,
    from: 0,
    to: 0,
    nth: 1,
    keeps_new: false,
};

static ROWS: [Row; 24] = [
    STAT,
    Row {
        words: &["run", "file", "script"],
        scripts: &["peek\n"],
        ..STAT
    },
    Row {
        words: &["format", "file", "--order", "4"],
        text: Text::Is("refused: already a heap\n"),
        ..STAT
    },
    Row {
        left: Some(NEW),
        ..UPGRADE
    },
    Row {
        device: Words::Kept,
        status: 0,
        text: Text::Is(SHOWN),
        ..STAT
    },
    Row {
        device: Words::Kept,
        text: Text::Is("refused: region version 2\n"),
        ..REFUSED
    },
    // The keys have no stamp before they are written again.
    Row {
        words: &["run", "file", "script"],
        scripts: &["fresh 0\nget 5\nput 5 9\nfresh 0\nfresh 2\nfresh 3\n"],
        device: Words::Kept,
        text: Text::Is(
            "caller 1\nfresh 0 #2\nvalue 2 #2\nwas 2 @2\nfresh 1 #3\nfresh 1 #3\nfresh 0 #3\ncount 3\n",
        ),
        ..PLAIN
    },
    // Stopped in the midst of an update, in either state: the region that counts is upgraded.
    Row {
        device: Words::Torn(8, 120, &[(3, 1), (121, 1)]),
        left: Some(Words::Heap(&[])),
        ..UPGRADE
    },
    Row {
        device: Words::Torn(120, 232, &[(3, 2), (9, 1)]),
        left: Some(Words::Heap(&[])),
        ..UPGRADE
    },
    // A broken region of version 1 is found by an upgrade alone.
    Row {
        device: Words::Regions(&[(1, 1), (17, 5)]),
        ..STAT
    },
    Row {
        device: Words::Regions(&[(1, 1), (17, 5)]),
        text: Text::Is("refused: malformed at 17, rule tree\n"),
        ..REFUSED
    },
    Row {
        device: Words::Regions(&[(1, 1), (48, 52), (52, 5), (55, 1)]),
        text: Text::Is("refused: malformed at 55, rule pad\n"),
        ..REFUSED
    },
    Row {
        device: Words::Regions(&[(1, 1), (48, 52), (52, 5), (54, 56), (56, 5)]),
        text: Text::Is("refused: malformed at 56, rule repeat\n"),
        ..REFUSED
    },
    Row {
        device: Words::Regions(&[(1, 3)]),
        text: Text::Is("refused: malformed at 1, rule root\n"),
        ..REFUSED
    },
    Row {
        device: Words::Regions(&[(0, 2)]),
        text: Text::Is("refused: malformed at 0, rule root\n"),
        ..REFUSED
    },
    // What says that it is of version 2 is so refused, whatever else it is.
    Row {
        device: Words::Regions(&[(17, 5)]),
        text: Text::Is("refused: region version 2\n"),
        ..REFUSED
    },
    Row {
        device: Words::Heap(&[(9, 1), (121, 1), (10, 5)]),
        text: Text::Is("refused: twins differ at 2, main 5, back 0\n"),
        ..REFUSED
    },
    Row {
        device: Words::Heap(&[(3, 3)]),
        text: Text::Is("refused: state 3\n"),
        ..REFUSED
    },
    Row {
        device: Words::Zeros(232),
        text: Text::Is("refused: not a heap\n"),
        ..REFUSED
    },
    Row {
        device: Words::Zeros(5),
        text: Text::Is("refused: too small, need 8, have 5\n"),
        ..REFUSED
    },
    Row {
        trip: Some(FIRST_SYNC),
        faults: 1,
        status: 7,
        text: Text::Is("device failed\n"),
        ..UPGRADE
    },
    // Where a text has no room, the status stays.
    Row {
        sink: Sink::Each,
        ..UPGRADE
    },
    Row {
        sink: Sink::Each,
        ..STAT
    },
    Row {
        device: NEW,
        sink: Sink::Each,
        text: Text::Is("refused: region version 2\n"),
        ..REFUSED
    },
];

#[test]
fn a_heap_of_version_1_is_refused_or_upgraded(rt: HostRuntime) -> Result<(), Fail> {
    try_rows(&rt, &ROWS)
}

/// Whether these words are a heap of version 1 or of version 2, of version 2 once the upgrade is told as
/// done, and the command given again makes it the heap that was to be, whole.
fn ends_upgraded<R: Threads + Wait + Sync + AllocGlobal>(
    rt: &R,
    words: Vec<u64>,
    is_done: bool,
) -> Result<bool, Fail> {
    let before = shown(rt, words.clone()?)?;
    let again = run_row(rt, &UPGRADE, words)?;
    let after = shown(rt, again.device.words().to_vec(rt.alloc())?)?;
    let told = (before.text(), again.status, again.text());
    let is_whole = match told {
        ("refused: region version 1\n", 0, "upgraded order 4\n") => !is_done,
        (SHOWN, 3, "refused: region version 2\n") => true,
        _ => false,
    };
    Ok(is_whole && after.text() == SHOWN)
}

/// Whether an upgrade that was stopped, or of which a call failed, told so or was done, and its device, as it
/// reads and in what a stop leaves, is whole.
fn leaves_a_heap<R: Threads + Wait + Sync + AllocGlobal>(
    rt: &R,
    found: Found,
    choice: u64,
) -> Result<bool, Fail> {
    let is_told = matches!(
        (found.status, found.text()),
        (7, "device failed\n") | (0, "upgraded order 4\n")
    );
    let is_done = found.status == 0;
    let choices = vec![in rt.alloc(); choice; SMALL]?;
    let as_read = found.device.words().to_vec(rt.alloc())?;
    let left = found.device.crash(&choices);
    Ok(is_told && ends_upgraded(rt, as_read, is_done)? && ends_upgraded(rt, left, is_done)?)
}

#[test]
fn every_stop_of_an_upgrade_leaves_one_version_whole(rt: HostRuntime) -> Result<(), Fail> {
    let whole = run_new(&rt, &UPGRADE)?;
    for calls in 0..whole.device.calls_made() {
        let stopped = Row { calls, ..UPGRADE };
        for choice in [0, 1] {
            let fits = leaves_a_heap(&rt, run_new(&rt, &stopped)?, choice)?;
            assert!(rt; fits, "after {calls} calls, {choice}");
        }
    }
    Ok(())
}

/// Lets each call of that kind fail in turn, until there is no more. A write that fails leaves the new value
/// or the old one, and a stop then the words that were certain or those that were written, by turns.
fn try_faults<R: Threads + Wait + Sync + AllocGlobal + Abort>(
    rt: &R,
    call: CallKind,
) -> Result<(), Fail> {
    for nth in 1..BEYOND {
        let trip = Trip {
            keeps_new: nth % 2 == 0,
            ..every_trip(call, nth)
        };
        let failing = Row {
            trip: Some(trip),
            ..UPGRADE
        };
        let found = run_new(rt, &failing)?;
        if found.device.fault_count() == 0 {
            return Ok(());
        }
        assert!(rt; leaves_a_heap(rt, found, nth / 2 % 2)?, "{trip:?}");
    }
    Err("there is no end of these calls".into())
}

#[test]
fn an_upgrade_of_which_a_call_fails_can_be_given_again(rt: HostRuntime) -> Result<(), Fail> {
    try_faults(&rt, CallKind::Write)?;
    try_faults(&rt, CallKind::Sync)
}
