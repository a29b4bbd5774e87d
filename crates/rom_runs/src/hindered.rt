//! Runs on devices that are stopped anywhere, or of which any one call fails, and the heap that is opened
//! then.

use crate::heaps::words_of;
use crate::rows::{PLAIN, Row, Text, Words};
use crate::runner::{run_row, shown, try_rows};
use rom_device::{CallKind, Device, Memory, Trip, every_trip};
use rom_test::{Found, SMALL, places};
use std::process::Abort;
use std::sync::Wait;
use std::test::Fail;
use std::thread::Threads;

/// No run of a test makes so many calls.
pub const BEYOND: u64 = 4000;

/// Three updates, each of which changes the heap.
const UPDATES: Row = Row {
    words: &["run", "file", "script"],
    scripts: &["put 1 1\nenq 2\ndel 1\n"],
    device: Words::Heap(&[]),
    text: Text::Is("caller 1\nnone @0\nqueued @1\nwas 1 @2\ncount 3\n"),
    ..PLAIN
};

/// What is shown of the heap before them and after each.
pub const STATES: [&str; 4] = [
    "order 4\ncount 0\nqueue 0 set 0 map 0\nfree 15\ntotal 0\n",
    "order 4\ncount 1\nqueue 0 set 0 map 1\nfree 14\ntotal 1\n",
    "order 4\ncount 2\nqueue 1 set 0 map 1\nfree 13\ntotal 1\n",
    "order 4\ncount 3\nqueue 1 set 0 map 0\nfree 14\ntotal 0\n",
];

/// A group of three updates, which all change the heap, and a query after it.
const GROUP: Row = Row {
    scripts: &["tx put 1 5 ; put 2 6 ; move 1 2 5\nget 2\n"],
    text: Text::Is("caller 1\nall none ; none ; moved @0\nvalue 11 #1\ncount 1\n"),
    ..UPDATES
};

/// What is shown of the heap before and after it.
const GROUP_STATES: [&str; 2] = [
    "order 4\ncount 0\nqueue 0 set 0 map 0\nfree 15\ntotal 0\n",
    "order 4\ncount 1\nqueue 0 set 0 map 2\nfree 13\ntotal 11\n",
];

/// A heap whose main region was told `enq 9`, and whose other region has not followed. The opening makes
/// that one again.
const OPENING: Row = Row {
    scripts: &["peek\n"],
    device: Words::Torn(
        120,
        232,
        &[
            (3, 2),
            (10, 1),
            (11, 52),
            (12, 52),
            (13, 1),
            (32, 0),
            (41, 0),
            (60, 9),
        ],
    ),
    text: Text::Is("caller 1\nhead 9 #1\ncount 1\n"),
    ..UPDATES
};

/// What is shown of it.
const OPENED: [&str; 1] = ["order 4\ncount 1\nqueue 1 set 0 map 0\nfree 14\ntotal 0\n"];

/// Runs a row on its device.
pub fn run_new<R: Threads + Wait + Sync + AllocGlobal>(rt: &R, row: &Row) -> Result<Found, Fail> {
    run_row(rt, row, words_of(rt.alloc(), &row.device, &[])?)
}

/// What is shown of the heap in what a stop leaves of a device, each word as the first or as the second that
/// it may be.
fn left<R: Threads + Wait + Sync + AllocGlobal>(
    rt: &R,
    memory: Memory,
    choice: u64,
) -> Result<Found, Fail> {
    let choices = vec![in rt.alloc(); choice; SMALL]?;
    shown(rt, memory.crash(&choices))
}

/// Whether the last update that did not fail is in doubt.
fn ends_in_doubt(text: &str) -> bool {
    let mut in_doubt = false;
    for line in text.lines() {
        in_doubt = line == "doubt" || (in_doubt && places(line) == 0);
    }
    in_doubt
}

/// Whether a heap that is shown so has the count that was told, or one more where an update is in
/// doubt.
fn is_as_told(shown: &str, told: &str) -> bool {
    let line = shown.lines().nth(1).unwrap_or("");
    let count = line
        .strip_prefix("count ")
        .unwrap_or("")
        .parse::<u64>()
        .ok();
    let done = places(told);
    count == Some(done) || (ends_in_doubt(told) && count == Some(done.saturating_add(1)))
}

/// Whether a run that was stopped left one of these states, and that which was told where the heap was
/// opened at all.
pub fn leaves_a_state<R: Threads + Wait + Sync + AllocGlobal>(
    rt: &R,
    found: Found,
    choice: u64,
    states: &[&str],
) -> Result<bool, Fail> {
    let told = found.text().to_string(rt.alloc())?;
    let status = found.status;
    let left = left(rt, found.device, choice)?;
    let is_state = states.iter().any(|state| left.text() == *state);
    if told.as_str() == "device failed\n" {
        return Ok(is_state && status == 7);
    }
    Ok(is_state && is_as_told(left.text(), told.as_str()))
}

/// Stops a row after each number of calls, and looks at what is left.
fn try_stops<R: Threads + Wait + Sync + AllocGlobal + Abort>(
    rt: &R,
    row: &Row,
    states: &[&str],
) -> Result<(), Fail> {
    let whole = run_new(rt, row)?;
    for calls in 0..whole.device.calls_made() {
        let stopped = Row { calls, ..*row };
        for choice in [0, 1] {
            let fits = leaves_a_state(rt, run_new(rt, &stopped)?, choice, states)?;
            assert!(rt; fits, "after {calls} calls, {choice}: {row:?}");
        }
    }
    Ok(())
}

/// Looks at a run of three updates: its status, its count, and the count of the heap as it reads, and in what
/// a stop at the end leaves.
fn is_kept<R: Threads + Wait + Sync + AllocGlobal>(
    rt: &R,
    found: Found,
    choice: u64,
) -> Result<bool, Fail> {
    let told = found.text().to_string(rt.alloc())?;
    let told = told.as_str();
    let count = format!(in rt.alloc(); "count {}\n", places(told))?;
    let is_whole = matches!(found.status, 0 | 7) && told.ends_with(count.as_str());
    let as_read = shown(rt, found.device.words().to_vec(rt.alloc())?)?;
    let left = left(rt, found.device, choice)?;
    Ok(is_whole && is_as_told(as_read.text(), told) && is_as_told(left.text(), told))
}

/// Lets each call of that kind from this one on fail in turn, until there is no more. A write that fails
/// leaves the new value or the old one.
fn try_faults<R: Threads + Wait + Sync + AllocGlobal + Abort>(
    rt: &R,
    call: CallKind,
    from: u64,
) -> Result<(), Fail> {
    for nth in from..BEYOND {
        let mut faults = 0;
        for (keeps_new, choice) in [(false, 0), (false, 1), (true, 0), (true, 1)] {
            let trip = Trip {
                keeps_new,
                ..every_trip(call, nth)
            };
            let failing = Row {
                trip: Some(trip),
                ..UPDATES
            };
            let found = run_new(rt, &failing)?;
            faults = found.device.fault_count();
            assert!(rt; is_kept(rt, found, choice)?, "{trip:?}, {choice}");
        }
        if faults == 0 {
            return Ok(());
        }
    }
    Err("there is no end of these calls".into())
}

#[test]
fn every_stop_leaves_a_state_that_was_told(rt: HostRuntime) -> Result<(), Fail> {
    try_rows(&rt, &[OPENING, UPDATES])?;
    try_stops(&rt, &OPENING, &OPENED)?;
    try_stops(&rt, &UPDATES, &STATES)
}

#[test]
fn every_stop_leaves_a_group_whole_or_undone(rt: HostRuntime) -> Result<(), Fail> {
    try_rows(&rt, &[GROUP])?;
    try_stops(&rt, &GROUP, &GROUP_STATES)
}

#[test]
fn a_heap_keeps_what_was_told_where_a_call_fails(rt: HostRuntime) -> Result<(), Fail> {
    try_faults(&rt, CallKind::Write, 1)?;
    try_faults(&rt, CallKind::Sync, 2)
}
