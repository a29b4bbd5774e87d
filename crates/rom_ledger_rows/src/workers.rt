//! Workers who take jobs from the queue, do them and acknowledge them.
//!
//! The key of a worker has the job that it has in hand. To take a job is to take it from the queue and into the
//! key, in one group. To do it is to acknowledge it, to pay for it and to leave the key, in one group, which is
//! done only where the job is still in hand. A job of a worker that is dead goes from its key into that of
//! another. A worker that begins asks first what it has in hand.

use crate::book::Book;
use crate::meetings::meet;
use crate::recipes::{are_told, left};
use crate::runner::{ROOM, SHORT, prepared, run_one, stops};
use rom_device::Device;
use rom_test::{Limits, right};
use std::alloc::{AllocError, Global};
use std::sync::Wait;
use std::test::Fail;
use std::thread::Threads;

/// Two accounts, and two jobs, each of which pays 10.
const BEFORE: &str = "put 1 100\nput 2 0\nenq 71\nenq 72\n";

/// The keys of two workers.
const FIRST: u64 = 501;

const SECOND: u64 = 502;

/// No worker makes more steps.
const STEPS: u64 = 40;

/// What is asked where all jobs are done, and told: each was paid for once, and nothing is in hand.
const LOOK: &str = "get 1\nget 2\nlen\nget 501\nget 502\n";

const ALL_DONE: [&str; 5] = [
    "value 80",
    "value 20",
    "queue 0 set 0 map 2",
    "none",
    "none",
];

fn take(alloc: Global, worker: u64, job: u64) -> Result<String, AllocError> {
    format!(in alloc; "all deq-if {job} ; new {worker} {job}\n")
}

fn finish(alloc: Global, worker: u64, job: u64) -> Result<String, AllocError> {
    format!(in alloc; "all cas {worker} {job} {job} ; del {worker} ; move 1 2 10\n")
}

fn take_over(alloc: Global, from: u64, to: u64, job: u64) -> Result<String, AllocError> {
    format!(in alloc; "all cas {from} {job} {job} ; del {from} ; new {to} {job}\n")
}

/// What a line is told on a heap, without its place or front. The heap is then what it leaves.
fn asked<R: Threads + Wait + Sync + AllocGlobal>(
    rt: &R,
    heap: &mut Vec<u64>,
    line: &str,
) -> Result<String, Fail> {
    let alloc = rt.alloc();
    let found = run_one(rt, line, heap.as_slice(), SHORT)?;
    let told = found.text().lines().nth(1).unwrap_or("");
    let told = match told.rsplit_once(" ") {
        Some((told, _)) => told.to_string(alloc)?,
        None => String::new(alloc),
    };
    *heap = found.device.words().to_vec(alloc)?;
    Ok(told)
}

/// The number that a line is told behind this word, where it is told one.
fn number_asked<R: Threads + Wait + Sync + AllocGlobal>(
    rt: &R,
    heap: &mut Vec<u64>,
    line: &str,
    word: &str,
) -> Result<Option<u64>, Fail> {
    let told = asked(rt, heap, line)?;
    match told.strip_prefix(word) {
        Some(digits) => Ok(digits.parse::<u64>().ok()),
        None => Ok(None),
    }
}

/// The job that a worker has in hand.
fn in_hand<R: Threads + Wait + Sync + AllocGlobal>(
    rt: &R,
    heap: &mut Vec<u64>,
    worker: u64,
) -> Result<Option<u64>, Fail> {
    let line = format!(in rt.alloc(); "get {worker}\n")?;
    number_asked(rt, heap, line.as_str(), "value ")
}

/// A worker's next step, from what it finds alone: it finishes the job that it has in hand, or takes the next
/// one. `false` says that there is none.
fn step<R: Threads + Wait + Sync + AllocGlobal>(
    rt: &R,
    heap: &mut Vec<u64>,
    worker: u64,
) -> Result<bool, Fail> {
    let alloc = rt.alloc();
    if let Some(job) = in_hand(rt, heap, worker)? {
        asked(rt, heap, finish(alloc, worker, job)?.as_str())?;
        return Ok(true);
    }
    match number_asked(rt, heap, "peek\n", "head ")? {
        Some(job) => {
            asked(rt, heap, take(alloc, worker, job)?.as_str())?;
            Ok(true)
        }
        None => Ok(false),
    }
}

/// Does all jobs that are left, as one worker who finds the heap so.
fn work<R: Threads + Wait + Sync + AllocGlobal>(
    rt: &R,
    heap: &mut Vec<u64>,
    worker: u64,
) -> Result<(), Fail> {
    for _ in 0..STEPS {
        if !step(rt, heap, worker)? {
            return Ok(());
        }
    }
    Err("a worker does not end".into())
}

/// Whether all jobs are done, each once.
fn are_done<R: Threads + Wait + Sync + AllocGlobal>(rt: &R, heap: &[u64]) -> Result<bool, Fail> {
    let found = run_one(rt, LOOK, heap, SHORT)?;
    Ok(are_told(found.text(), &ALL_DONE))
}

/// The lines of a worker who does all jobs undisturbed.
fn script_of(alloc: Global, worker: u64) -> Result<String, AllocError> {
    let mut script = String::new(alloc);
    for job in [71, 72] {
        script.push_str("peek\n")?;
        script.push_str(take(alloc, worker, job)?.as_str())?;
        script.push_str(finish(alloc, worker, job)?.as_str())?;
    }
    Ok(script)
}

/// The second worker takes over what the first has in hand, and does all that is left.
fn another_works<R: Threads + Wait + Sync + AllocGlobal>(
    rt: &R,
    heap: &mut Vec<u64>,
) -> Result<(), Fail> {
    if let Some(job) = in_hand(rt, heap, FIRST)? {
        let line = take_over(rt.alloc(), FIRST, SECOND, job)?;
        let told = asked(rt, heap, line.as_str())?;
        let over = told.starts_with("done ") && told.ends_with(" ; added");
        right("a job that is taken over", job as usize, over)?;
        // The first is not dead after all, and comes too late.
        let told = asked(rt, heap, finish(rt.alloc(), FIRST, job)?.as_str())?;
        right(
            "a job that is gone",
            job as usize,
            told.as_str() == "undone 1 absent",
        )?;
    }
    work(rt, heap, SECOND)
}

#[test]
fn workers_do_each_job_once_whatever_stops_them(rt: HostRuntime) -> Result<(), Fail> {
    let alloc = rt.alloc();
    let mut book = Book::new(alloc, ROOM)?;
    let before = prepared(&rt, BEFORE, &mut book)?;
    let script = script_of(alloc, FIRST)?;
    let whole = run_one(&rt, script.as_str(), before.as_slice(), SHORT)?;
    right("undisturbed", 0, are_done(&rt, whole.device.words())?)?;
    for calls in stops(&rt, script.as_str(), before.as_slice())? {
        for choice in [0, 1] {
            let limits = Limits { calls, ..SHORT };
            let stopped = run_one(&rt, script.as_str(), before.as_slice(), limits)?;
            let mut heap = left(&rt, stopped, choice)?;
            // The first begins again, or another comes in its place.
            if calls % 2 == choice {
                work(&rt, &mut heap, FIRST)?;
            } else {
                another_works(&rt, &mut heap)?;
            }
            let done = are_done(&rt, heap.as_slice())?;
            right("gone on with after call", calls as usize, done)?;
        }
    }
    Ok(())
}

#[test]
fn two_workers_at_once_do_each_job_once(rt: HostRuntime) -> Result<(), Fail> {
    let alloc = rt.alloc();
    let mut book = Book::new(alloc, ROOM)?;
    let before = prepared(&rt, BEFORE, &mut book)?;
    let from = BEFORE.lines().count() as u64;
    let (first, second) = (script_of(alloc, FIRST)?, script_of(alloc, SECOND)?);
    let scripts = [first.as_str(), second.as_str()];
    let words = ["run", "heap", "a", "b"];
    let found = meet(&rt, &words, &scripts, before, from, &mut book)?;
    let took = found.text().split("\ndone head ").count();
    right("how many were taken", took, took == 3)?;
    right("done by two", 0, are_done(&rt, found.device.words())?)
}
