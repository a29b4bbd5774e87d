//! Passes over posted calls, by one thread.
ghost use Rattle.std.specs.Prelude.{◌≡◌, ℕ};

use crate::cores::{post_three, read_count, seated_on, take_three};
use crate::heaps::{OPENING, device};
use rom_combine::{NoGate, NoShipper, Outcome, Passed};
use rom_device::{CallKind, Device, every_trip};
use rom_model::{Reply, Updated};
use rom_test::{Holding, Roll, right};
use rom_twin::Phase;
use std::test::Fail;

/// How many calls a pass makes that does the three calls: 19 words of main, the same of back, three
/// writes of the state, and 4 syncs.
const THREE: u64 = 19 + 19 + 3 + 4;

/// And one that does the first of them alone.
const FIRST: u64 = 7 + 7 + 3 + 4;

/// The count at which no update is done any more.
const LAST: u64 = 4_611_686_018_427_387_904;

/// How a pass ends that does the three calls, and one that finds none.
const THREE_DONE: Passed = Passed {
    found: 3,
    done: 3,
    outcome: Outcome::Published,
};

const NONE_FOUND: Passed = Passed {
    found: 0,
    done: 0,
    outcome: Outcome::Nothing,
};

const TOLD: [Option<Updated<Reply>>; 3] = [
    Some(Updated::Done(Reply::Queued, 0)),
    Some(Updated::Done(Reply::Added, 1)),
    Some(Updated::Done(Reply::NoPrior, 2)),
];

#[test]
fn a_pass_does_the_posted_calls_and_answers_each(rt: HostRuntime) -> Result<(), Fail> {
    let alloc = rt.alloc();
    // The opening makes 229 reads and a sync. So a read of a pass would fail, or a fifth sync.
    let trips = [
        every_trip(CallKind::Read, 230),
        every_trip(CallKind::Sync, 6),
    ];
    let (mut core, shared, (mut first, mut second, mut third)) = seated_on(
        alloc,
        device(alloc, 0, &trips)?,
    )?;
    let gate = Roll::new(alloc, &[], Holding::Nobody)?;
    post_three(&shared, &mut first, &mut second, &mut third);
    let mut none = NoShipper;
    let passed = core.pass(&rt, &shared, &gate, &mut none, &[]);
    let NoShipper = none;
    let told = take_three(&shared, &mut first, &mut second, &mut third)?;
    let count = read_count(&shared, &mut second);
    // The next one finds nothing.
    let mut none = NoShipper;
    let again = core.pass(&rt, &shared, &gate, &mut none, &[]);
    let NoShipper = none;
    let (twin, _writer) = core.into_parts();
    let phase = twin.phase();
    let memory = twin.into_device();
    let (faults, calls) = (memory.fault_count(), memory.calls_made());
    if let Some(what) = gate.differs(false, 3) {
        return Err(what.into());
    }
    assert!(rt; (passed, again) == (THREE_DONE, NONE_FOUND));
    assert!(rt; told == TOLD);
    assert!(rt; (count, phase) == (3, Phase::Clean));
    assert!(rt; (faults, calls) == (0, OPENING + THREE));
    assert!(rt; gate.published_batches() == 1);
    Ok(())
}

const SPENT: Option<Updated<Reply>> = Some(Updated::Spent);

/// How many calls are done, the count before, and what the first call is told.
const LIMITS: [(u32, u64, Option<Updated<Reply>>); 2] = [
    (1, LAST - 1, Some(Updated::Done(Reply::Queued, LAST - 1))),
    (0, LAST, SPENT),
];

#[test]
fn calls_at_the_limit_of_the_count_are_answered_as_spent(rt: HostRuntime) -> Result<(), Fail> {
    let alloc = rt.alloc();
    for (row, (done, count, answer)) in LIMITS.iter().enumerate() {
        let (mut core, shared, (mut first, mut second, mut third)) = seated_on(
            alloc,
            device(alloc, *count, &[])?,
        )?;
        post_three(&shared, &mut first, &mut second, &mut third);
        let mut none = NoShipper;
        let passed = core.pass(&rt, &shared, &NoGate, &mut none, &[]);
        let NoShipper = none;
        let told = take_three(&shared, &mut first, &mut second, &mut third)?;
        let last = read_count(&shared, &mut third);
        let (twin, _writer) = core.into_parts();
        let calls = twin.into_device().calls_made();
        let want = Passed {
            found: 3,
            done: *done,
            outcome: Outcome::Published,
        };
        right("passed", row, passed == want)?;
        right("told", row, told == [*answer, SPENT, SPENT])?;
        right("count", row, last == LAST)?;
        let needs = if *done == 1 { FIRST } else { 0 };
        right("calls", row, calls == OPENING + needs)?;
    }
    Ok(())
}
