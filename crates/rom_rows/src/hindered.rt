//! Passes in which the device is stopped, or one call of it fails; and the pass after that.

use crate::callers::post_call;
use crate::cores::{post_three, read_count, seated_on, take_three, take_told};
use crate::heaps::{AMPLE, OPENING, device, left};
use rom_combine::{NoGate, NoShipper, Outcome, Passed};
use rom_device::{CallKind, Fuse, Trip};
use rom_model::{Answer, Call, Reply, Updated};
use rom_test::right;
use rom_twin::Phase;
use std::sync::Wait;
use std::test::Fail;

/// How many words of a region the three calls store to.
const CHANGED: u64 = 19;

/// How many calls a pass has made once COPYING is written, before its sync. First MUTATING is written
/// and synced, then the words of main that the three calls stored to.
const COPYING_WRITTEN: u64 = 2 + CHANGED + 1 + 1;

const COPYING_SYNCED: u64 = COPYING_WRITTEN + 1;

/// Then the same words of back, their sync, and IDLE.
const ALL: u64 = COPYING_SYNCED + CHANGED + 1 + 1;

/// The first write of the state fails. It leaves the word as it was.
const STATE: Trip = Trip {
    call: CallKind::Write,
    from: 3,
    to: 4,
    nth: 1,
    keeps_new: false,
};

/// The ninth write of a word of main fails.
const MAIN: Trip = Trip {
    from: 8,
    to: 120,
    nth: 9,
    ..STATE
};

const BACK: Trip = Trip {
    from: 120,
    to: 232,
    ..MAIN
};

/// The second sync fails. The first is the opening's.
const SYNC: Trip = Trip {
    call: CallKind::Sync,
    from: 0,
    to: u64::MAX,
    nth: 2,
    keeps_new: true,
};

/// How many elements a heap has, and its count.
type Held = (Answer, u64);

const ABSENT: Held = (
    Answer::Sizes {
        queue: 0,
        set: 0,
        map: 0,
    },
    0,
);

const WHOLE: Held = (
    Answer::Sizes {
        queue: 1,
        set: 1,
        map: 1,
    },
    3,
);

/// After the next call alone.
const KEPT: Held = (
    Answer::Sizes {
        queue: 1,
        set: 0,
        map: 0,
    },
    1,
);

/// After the next call too.
const MORE: Held = (
    Answer::Sizes {
        queue: 2,
        set: 1,
        map: 1,
    },
    4,
);

const EITHER: [Held; 3] = [ABSENT, WHOLE, WHOLE];

/// A call of the device that fails, and how the pass ends; the images that a stop leaves by each choice;
/// and the next call's place and the heap after it.
type Fault = (Trip, Outcome, [Held; 3], u64, Held);

/// The faults in the order of a pass's calls: writes of the state's word, of main and of back, and syncs.
const FAULTS: [Fault; 9] = [
    (STATE, Outcome::Failed, [ABSENT; 3], 0, KEPT),
    (SYNC, Outcome::Failed, [ABSENT; 3], 0, KEPT),
    (MAIN, Outcome::Failed, [ABSENT; 3], 0, KEPT),
    (
        Trip { nth: 3, ..SYNC },
        Outcome::Failed,
        [ABSENT; 3],
        0,
        KEPT,
    ),
    (Trip { nth: 2, ..STATE }, Outcome::Doubt, EITHER, 0, KEPT),
    (Trip { nth: 4, ..SYNC }, Outcome::Doubt, EITHER, 0, KEPT),
    (BACK, Outcome::Published, [WHOLE; 3], 3, MORE),
    (
        Trip { nth: 5, ..SYNC },
        Outcome::Published,
        [WHOLE; 3],
        3,
        MORE,
    ),
    (
        Trip { nth: 3, ..STATE },
        Outcome::Published,
        [WHOLE; 3],
        3,
        MORE,
    ),
];

/// What the three calls are told where their pass ends so.
fn answers(outcome: Outcome) -> [Option<Updated<Reply>>; 3] {
    match outcome {
        Outcome::Nothing => [None; 3],
        Outcome::Published => [
            Some(Updated::Done(Reply::Queued, 0)),
            Some(Updated::Done(Reply::Added, 1)),
            Some(Updated::Done(Reply::NoPrior, 2)),
        ],
        Outcome::Failed => [Some(Updated::Failed); 3],
        Outcome::Doubt => [Some(Updated::Doubt); 3],
    }
}

fn passed(outcome: Outcome) -> Passed {
    Passed {
        found: 3,
        done: match outcome {
            Outcome::Published => 3,
            _ => 0,
        },
        outcome,
    }
}

/// How a pass ends, what the callers are told, and what is opened then.
type Once = (Passed, [Option<Updated<Reply>>; 3], Held);

/// Runs a pass on a device of which these calls fail, and each one after so many, those of the opening
/// too.
fn run_once<R: Wait + AllocGlobal>(
    rt: &R,
    trips: &[Trip],
    calls: u64,
    kind: u64,
) -> Result<Once, Fail> {
    let alloc = rt.alloc();
    let fuse = Fuse::new(device(alloc, 0, trips)?, calls);
    let (mut core, shared, (mut first, mut second, mut third)) = seated_on(alloc, fuse)?;
    post_three(&shared, &mut first, &mut second, &mut third);
    let mut none = NoShipper;
    let passed = core.pass(rt, &shared, &NoGate, &mut none, &[]);
    let NoShipper = none;
    let told = take_three(&shared, &mut first, &mut second, &mut third)?;
    let (twin, _writer) = core.into_parts();
    let memory = twin.into_device().inner();
    Ok((passed, told, left(alloc, memory, kind)?))
}

/// What comes of a pass that is stopped after so many of its calls.
fn stopped_after(calls: u64, kind: u64) -> Once {
    let outcome = if calls < COPYING_WRITTEN - 1 {
        Outcome::Failed
    } else if calls < COPYING_SYNCED {
        Outcome::Doubt
    } else {
        Outcome::Published
    };
    // COPYING that is not synced may be left or not.
    let least = if kind == 0 {
        COPYING_SYNCED
    } else {
        COPYING_WRITTEN
    };
    let held = if calls < least { ABSENT } else { WHOLE };
    (passed(outcome), answers(outcome), held)
}

#[test]
fn a_pass_that_is_stopped_is_whole_or_absent(rt: HostRuntime) -> Result<(), Fail> {
    for kind in 0..3 {
        for calls in 0..ALL + 1 {
            let once = run_once(&rt, &[], OPENING + calls, kind)?;
            let same = once == stopped_after(calls, kind);
            right("stopped after calls", calls as usize, same)?;
        }
    }
    Ok(())
}

/// How two passes end, what the call of the second is told, the count and the phase then, and what is
/// opened.
type Both = (Passed, Passed, Option<Updated<Reply>>, u64, Phase, Held);

/// Runs a pass with that fault, and then one that is no more hindered, with one call.
fn run_both<R: Wait + AllocGlobal>(rt: &R, fault: Trip, kind: u64) -> Result<Both, Fail> {
    let alloc = rt.alloc();
    let (mut core, shared, (mut first, mut second, mut third)) = seated_on(
        alloc,
        device(alloc, 0, &[fault])?,
    )?;
    post_three(&shared, &mut first, &mut second, &mut third);
    let mut none = NoShipper;
    let hindered = core.pass(rt, &shared, &NoGate, &mut none, &[]);
    let NoShipper = none;
    take_three(&shared, &mut first, &mut second, &mut third)?;
    post_call(&shared, &mut first, Call::Enq(7));
    let mut none = NoShipper;
    let free = core.pass(rt, &shared, &NoGate, &mut none, &[]);
    let NoShipper = none;
    let told = take_told(&shared, &mut first)?;
    let count = read_count(&shared, &mut second);
    let (twin, _writer) = core.into_parts();
    let phase = twin.phase();
    let held = left(alloc, twin.into_device(), kind)?;
    Ok((hindered, free, told, count, phase, held))
}

/// What comes of both passes of a row.
fn repaired(fault: &Fault) -> Both {
    let (_, outcome, _, place, held) = *fault;
    let free = Passed {
        found: 1,
        done: 1,
        outcome: Outcome::Published,
    };
    let told = Some(Updated::Done(Reply::Queued, place));
    (
        passed(outcome),
        free,
        told,
        place.saturating_add(1),
        Phase::Clean,
        held,
    )
}

#[test]
fn a_fault_is_answered_and_repaired_by_the_next_pass(rt: HostRuntime) -> Result<(), Fail> {
    for (row, fault) in FAULTS.iter().enumerate() {
        let (trip, outcome, images, _, _) = *fault;
        for (kind, image) in images.iter().enumerate() {
            let kind = kind as u64;
            let once = run_once(&rt, &[trip], AMPLE, kind)?;
            let same = once == (passed(outcome), answers(outcome), *image);
            right("hindered", row, same)?;
            right(
                "repaired",
                row,
                run_both(&rt, trip, kind)? == repaired(fault),
            )?;
        }
    }
    Ok(())
}
