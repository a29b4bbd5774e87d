//! A run that is stopped at any call of its device leaves a heap between two of its updates.

use crate::runner::{Program, formatted, ran};
use rom_device::Device;
use rom_store::NoGate;
use rom_test::{AMPLE, Found, Limits, NEVER, SMALL, places, right};
use std::process::Abort;
use std::sync::Wait;
use std::test::Fail;
use std::thread::Threads;

/// What is run and stopped, what is asked of the heap that is found, and what it tells before the updates
/// and after each.
#[derive(Clone, Copy)]
struct Stopped {
    program: Program,
    script: &'static str,
    look: &'static str,
    states: &'static [&'static str],
}

static RUNS: [Stopped; 3] = [
    Stopped {
        program: Program::Counter,
        script: "add 5\nget\nadd 7\n",
        look: "get\n",
        states: &[
            "caller 1\nsum 0 #0\ncount 0\n",
            "caller 1\nsum 5 #1\ncount 1\n",
            "caller 1\nsum 12 #2\ncount 2\n",
        ],
    },
    Stopped {
        program: Program::Blobs,
        script: "set 1 00ff\nfetch 1\nset 1 -\nfetch 1\ncut 1\ncut 1\n",
        look: "fetch 1\nsize\n",
        states: &[
            "caller 1\nnone #0\nkeys 0 #0\ncount 0\n",
            "caller 1\nbytes 00ff #1\nkeys 1 #1\ncount 1\n",
            "caller 1\nbytes - #2\nkeys 1 #2\ncount 2\n",
            "caller 1\nnone #3\nkeys 0 #3\ncount 3\n",
            "caller 1\nnone #4\nkeys 0 #4\ncount 4\n",
        ],
    },
    // Three keys that rise, so that the tree is turned, and the one on top goes.
    Stopped {
        program: Program::Index,
        script: "put 1 10\nput 2 20\nput 3 30\nrange 2 3\nfrom 2\ndel 2\nrange 0 9\nrange 9 1\n",
        look: "range 0 9\nfrom 2\nget 2\n",
        states: &[
            "caller 1\nrange 0 sum 0 #0\nnone #0\nnone #0\ncount 0\n",
            "caller 1\nrange 1 sum 10 #1\nnone #1\nnone #1\ncount 1\n",
            "caller 1\nrange 2 sum 30 #2\npair 2 20 #2\nvalue 20 #2\ncount 2\n",
            "caller 1\nrange 3 sum 60 #3\npair 2 20 #3\nvalue 20 #3\ncount 3\n",
            "caller 1\nrange 2 sum 40 #4\npair 3 30 #4\nnone #4\ncount 4\n",
        ],
    },
];

/// Which of the states is found in what a stop leaves of a device, each word as the first or as the second
/// that it may be. `None` where there is no heap.
fn left<R: Threads + Wait + Sync + AllocGlobal>(
    rt: &R,
    run: &Stopped,
    stopped: Found,
    choice: u64,
) -> Result<Option<u64>, Fail> {
    let Found {
        status: _,
        bytes: _,
        has_session: _,
        device,
    } = stopped;
    let choices = vec![in rt.alloc(); choice; SMALL]?;
    let left = device.crash(&choices);
    let look = ["run", "heap", "a"];
    let found = ran(rt, run.program, &look, &[run.look], left, AMPLE, &NoGate)?;
    if found.status == 3 {
        return Ok(None);
    }
    let text = found.text();
    let state = run.states.iter().position(|state| *state == text);
    match state {
        Some(state) => Ok(Some(state as u64)),
        None => Err("a stop left another state".into()),
    }
}

/// Runs the script after so many calls each one of which fails.
fn run_stopped<R: Threads + Wait + Sync + AllocGlobal>(
    rt: &R,
    run: &Stopped,
    words: &[&str],
    device: &[u64],
    calls: u64,
) -> Result<Found, Fail> {
    let device = device.to_vec(rt.alloc())?;
    let limits = Limits { calls, ..AMPLE };
    ran(
        rt,
        run.program,
        words,
        &[run.script],
        device,
        limits,
        &NoGate,
    )
}

/// Stops the command at each call, and looks at what is left: a heap with all updates that were told, or
/// with one more, and none where none was told and the command makes its heap.
fn try_stops<R: Threads + Wait + Sync + AllocGlobal + Abort>(
    rt: &R,
    run: &Stopped,
    words: &[&str],
    device: &[u64],
    makes: bool,
) -> Result<(), Fail> {
    let whole = run_stopped(rt, run, words, device, NEVER)?;
    assert!(rt; places(whole.text()).saturating_add(1) == run.states.len() as u64);
    for calls in 0..whole.device.calls_made().saturating_add(1) {
        for choice in [0, 1] {
            let found = run_stopped(rt, run, words, device, calls)?;
            let told = places(found.text());
            let more = told.saturating_add(u64::from(found.text().contains("doubt")));
            let fits = match left(rt, run, found, choice)? {
                Some(state) => told <= state && state <= more,
                None => makes && told == 0,
            };
            right(run.program.name(), calls as usize, fits)?;
        }
    }
    Ok(())
}

#[test]
fn every_stop_leaves_a_state_that_was_told(rt: HostRuntime) -> Result<(), Fail> {
    let zeros = vec![in rt.alloc(); 0u64; SMALL]?;
    for run in &RUNS {
        try_stops(&rt, run, &["try", "a"], zeros.as_slice(), true)?;
        let heap = formatted(&rt, run.program, 4)?;
        try_stops(&rt, run, &["run", "heap", "a"], heap.as_slice(), false)?;
    }
    Ok(())
}
