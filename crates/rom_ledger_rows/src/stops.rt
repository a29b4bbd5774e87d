//! A run with groups that is stopped at any call of its device leaves the history so far: each group is there
//! whole, or nothing of it.

use crate::book::Book;
use crate::runner::{ROOM, SHORT, prepared, run_one, stops};
use rom_device::Device;
use rom_test::{Found, Limits, Replayed, SMALL, places, right};
use std::alloc::{AllocError, Global};
use std::sync::Wait;
use std::test::Fail;
use std::thread::Threads;

/// What is asked of a heap that is found.
const LOOK: &str = "len\ntotal\npeek\nfresh 3\nget 1\nget 2\nget 3\nget 4\nget 9\nhas 900\nhas 8\n";

/// What a heap begins with, and what is run on it and stopped: groups that are done and groups that are not.
#[derive(Clone, Copy)]
struct Run {
    before: &'static str,
    script: &'static str,
}

static RUNS: [Run; 3] = [
    Run {
        before: "put 1 100\nput 2 0\n",
        script: "all add 900 ; move 1 2 30\nall add 900 ; move 1 2 30\nall enq 55 ; move 1 2 1000\nenq 5\n",
    },
    Run {
        before: "put 1 100\nput 2 0\nadd 900\n",
        script: "all put 3 1 ; inc 3 2 ; cas 3 3 9 ; new 4 4 ; enq 5 ; deq-if 5 ; del 4 ; enq 6\nall enq 7 ; add 8 ; put 9 9 ; del 1 ; rem 900 ; deq ; move 2 3 0 ; new 9 9\n",
    },
    // The second group finds no room.
    Run {
        before: "put 1 100\nput 2 0\nenq 1\nenq 2\nenq 3\nenq 4\nenq 5\nenq 6\nenq 7\nenq 8\nenq 9\n",
        script: "all put 3 3 ; put 4 4 ; add 8\nall deq ; put 9 9 ; inc 9 1 ; add 900 ; enq 10\ninc 1 5\n",
    },
];

/// What is told of a heap that holds what the book does, after so many updates.
fn look_of(alloc: Global, book: &Book, count: u64) -> Result<String, AllocError> {
    let mut text = "caller 1\n".to_string(alloc)?;
    for line in LOOK.lines() {
        text.push_str(book.answer(alloc, line, count)?.as_str())?;
        text.push_str("\n")?;
    }
    text.push_str(format!(in alloc; "count {count}\n")?.as_str())?;
    Ok(text)
}

/// What is told of a heap before the script's updates, which begin at this place, and after each.
fn states_of(
    alloc: Global,
    book: &mut Book,
    script: &str,
    from: u64,
) -> Result<Vec<String>, AllocError> {
    let mut states = Vec::new(alloc);
    states.push(look_of(alloc, book, from)?)?;
    let mut place = from;
    for line in script.lines() {
        book.update(alloc, line, place)?;
        place = place.saturating_add(1);
        states.push(look_of(alloc, book, place)?)?;
    }
    Ok(states)
}

/// Which of the states is found in what a stop leaves of a device, each word as the first or as the second
/// that it may be. `None` where it is none of them.
fn left<R: Threads + Wait + Sync + AllocGlobal>(
    rt: &R,
    states: &[String],
    stopped: Found,
    choice: u64,
) -> Result<Option<u64>, Fail> {
    let Found {
        status: _,
        bytes: _,
        has_session: _,
        device,
    } = stopped;
    let choices = vec![in rt.alloc(); choice; SMALL]?;
    let left = device.crash(&choices);
    let found = run_one(rt, LOOK, left.as_slice(), SHORT)?;
    let text = found.text();
    let state = states.iter().position(|state| state.as_str() == text);
    Ok(state.map(|state| state as u64))
}

/// Stops a run at each call. What is left has all updates that were told, or one more.
fn try_stops<R: Threads + Wait + Sync + AllocGlobal>(
    rt: &R,
    row: usize,
    run: &Run,
) -> Result<(), Fail> {
    let alloc = rt.alloc();
    let mut book = Book::new(alloc, ROOM)?;
    let heap = prepared(rt, run.before, &mut book)?;
    let from = run.before.lines().count() as u64;
    let states = states_of(alloc, &mut book, run.script, from)?;
    let whole = run_one(rt, run.script, heap.as_slice(), SHORT)?;
    let all = places(whole.text()).saturating_add(1) == states.len() as u64;
    right("a run without a stop", row, all)?;
    for calls in stops(rt, run.script, heap.as_slice())? {
        for choice in [0, 1] {
            let limits = Limits { calls, ..SHORT };
            let found = run_one(rt, run.script, heap.as_slice(), limits)?;
            let told = places(found.text());
            let more = told.saturating_add(u64::from(found.text().contains("doubt")));
            let fits = match left(rt, &states, found, choice)? {
                Some(state) => told <= state && state <= more,
                None => false,
            };
            right("a run with groups, stopped at call", calls as usize, fits)?;
        }
    }
    Ok(())
}

#[test]
fn every_stop_leaves_whole_payments(rt: HostRuntime) -> Result<(), Fail> {
    let [payments, _, _] = &RUNS;
    try_stops(&rt, 0, payments)
}

#[test]
fn every_stop_leaves_whole_groups_of_eight(rt: HostRuntime) -> Result<(), Fail> {
    let [_, eight, _] = &RUNS;
    try_stops(&rt, 1, eight)
}

#[test]
fn every_stop_leaves_nothing_of_a_group_without_room(rt: HostRuntime) -> Result<(), Fail> {
    let [_, _, full] = &RUNS;
    try_stops(&rt, 2, full)
}
