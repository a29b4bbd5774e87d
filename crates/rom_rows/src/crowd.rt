//! Callers who post and read beside the thread that runs the passes.
ghost use Rattle.std.specs.Prelude.{◌≡◌, ◌+◌, All, IfSome, length};
ghost use Rattle.rom_combine.specs.AtRest.{IsCoreOf};
ghost use Rattle.rom_lr.specs.Seats.{IsPosted, IsSeatOf, view};
ghost use Rattle.rom_rows.specs.Callers.{HasCalls, IsManned};
ghost use Rattle.rom_rule.specs.declared.views.Position.TheVariants.{Out};

use crate::asked::asked;
use crate::callers::{post_call, take_answer, told};
use crate::cores::seated_on;
use crate::work::Work;
use crossbeam_utils::Backoff;
use rom_combine::{Core, Gate, NoGate, NoShipper};
use rom_device::{Device, Ram};
use rom_heap::Trio;
use rom_lr::{Seat, Shared};
use rom_model::{Answer, Back, Call, Query, Reply, Updated};
use rom_store::format_device;
use std::alloc::Global;
use std::sync::Wait;
use std::test::Fail;
use std::thread;
use std::thread::Threads;

/// How many calls each of two callers posts.
const CALLS: u32 = 300;

/// The keys that these calls put and remove.
const KEYS: u64 = 5;

/// How often a caller reads.
const READS: u32 = 1000;

/// Where the count of updates stands in main on the device.
const COUNTED: u64 = 10;

/// How often a thread looks before it gives up.
const TURNS: u64 = 20_000_000;

/// Looks for the answer until it is there.
pub(crate) fn await_answer(shared: &Shared<Trio>, seat: &mut Seat) -> Option<(u64, Back)>
    requires of { IsSeatOf shared.now seat.old }
    requires posted { IsPosted seat.old }
    ensures of { IsSeatOf shared.now seat.new }
    ensures position { (view seat.new).position ≡ (view seat.old).position }
    ensures calls { length (view seat.new).calls ≡ length (view seat.old).calls }
    ensures answered { IfSome result (λ _. length (view seat.new).outcomes
        ≡ length (view seat.old).outcomes + 1) }
{
    let backoff = Backoff::new();
    for _ in 0..TURNS {
        let answer = take_answer(shared, seat);
        if answer.is_some() {
            return answer;
        }
        backoff.snooze();
    }
    None
}

/// Posts calls that put and remove keys of the map in turn, one after the other, and tells whether each
/// was done, at a place after that of the one before.
fn post_all(shared: &Shared<Trio>, seat: &mut Seat) -> bool
    requires new { HasCalls shared.now 0 0 seat.old }
{
    let mut least = 0;
    for i in 0..CALLS {
        let key = u64::from(i / 2) % KEYS;
        let call = if i % 2 == 0 {
            Call::Put(key, u64::from(i))
        } else {
            Call::Del(key)
        };
        post_call(shared, seat, call);
        let Some((place, words)) = await_answer(shared, seat) else {
            return false;
        };
        let Some(Updated::Done(_, _)) = told(place, &words) else {
            return false;
        };
        if place < least {
            return false;
        }
        least = place.saturating_add(1);
    }
    true
}

/// Whether, in the image that the seat enters, the map has as many keys as are found there.
fn is_whole(shared: &Shared<Trio>, seat: &mut Seat) -> bool
    requires of { IsSeatOf shared.now seat.old }
    requires out { (view seat.old).position ≡ Out }
    ensures of { IsSeatOf shared.now seat.new }
    ensures out { (view seat.new).position ≡ Out }
{
    shared.enter(seat);
    let first = asked(shared, seat, Query::Get(0));
    let second = asked(shared, seat, Query::Get(1));
    let third = asked(shared, seat, Query::Get(2));
    let fourth = asked(shared, seat, Query::Get(3));
    let fifth = asked(shared, seat, Query::Get(4));
    let sizes = asked(shared, seat, Query::Len);
    shared.leave(seat);
    let mut found: u64 = 0;
    for answer in [first, second, third, fourth, fifth] {
        if answer != Answer::Missing {
            found = found.saturating_add(1);
        }
    }
    let want = Answer::Sizes {
        queue: 0,
        set: 0,
        map: found,
    };
    sizes == want
}

/// Reads, and tells whether each image was whole.
fn read_all(shared: &Shared<Trio>, seat: &mut Seat) -> bool
    requires of { IsSeatOf shared.now seat.old }
    requires out { (view seat.old).position ≡ Out }
{
    let mut right = true;
    for _ in 0..READS {
        let whole = is_whole(shared, seat);
        right = right && whole;
    }
    right
}

/// Runs passes until so many calls are done.
pub(crate) fn pass_until<R: Wait, D: Device, G: Gate>(
    rt: &R,
    shared: &Shared<Trio>,
    core: &mut Core<D, Trio>,
    gate: &G,
    many: u32,
) -> bool
    requires of { IsCoreOf shared.now core.old }
{
    let backoff = Backoff::new();
    let mut done: u32 = 0;
    for _ in 0..TURNS {
        if done >= many {
            return done == many;
        }
        let mut none = NoShipper;
        let passed = core.pass(rt, shared, gate, &mut none, &[]);
        let NoShipper = none;
        done = done.saturating_add(passed.done);
        if passed.found == 0 {
            backoff.snooze();
        }
    }
    false
}

fn work<R: Wait>(rt: &R, shared: &Shared<Trio>, job: &mut Work)
    requires ready { IsManned shared.now job.old }
{
    match job {
        Work::Posts(seat, right) => *right = post_all(shared, seat),
        Work::Reads(seat, right) => *right = read_all(shared, seat),
        Work::Passes(core, right) => *right = pass_until(rt, shared, core, &NoGate, 2 * CALLS),
    }
}

fn work_all<R: Threads + Wait + Sync>(rt: &R, shared: &Shared<Trio>, jobs: &mut [Work])
    requires ready { All (λ job. IsManned shared.now job) jobs.old }
{
    thread::for_each_mut(rt, jobs, 4, &|_, job| work(rt, shared, job));
}

fn is_right(job: &Work) -> bool {
    match job {
        Work::Posts(_, right) | Work::Reads(_, right) | Work::Passes(_, right) => *right,
    }
}

/// A new heap on a device that does not fail.
pub(crate) fn new_heap(alloc: Global) -> Result<Ram, Fail> {
    let mut ram = Ram::zeroed(alloc, 232)?;
    match format_device::<Ram, Trio>(alloc, &mut ram, 4) {
        Ok(()) => Ok(ram),
        Err(_) => Err("not formatted".into()),
    }
}

#[test]
fn callers_are_answered_at_rising_places_and_read_whole_states_beside_the_passes(
    rt: HostRuntime,
) -> Result<(), Fail> {
    let alloc = rt.alloc();
    let (core, shared, (first, second, third)) = seated_on(alloc, new_heap(alloc)?)?;
    let mut jobs = Vec::with_capacity(alloc, 4)?;
    jobs.push(Work::Posts(first, false))?;
    jobs.push(Work::Passes(core, false))?;
    jobs.push(Work::Posts(second, false))?;
    jobs.push(Work::Reads(third, false))?;
    work_all(&rt, &shared, jobs.as_mut_slice());
    for job in &jobs {
        assert!(rt; is_right(job));
    }
    for job in jobs {
        if let Work::Passes(core, _) = job {
            let (twin, _writer) = core.into_parts();
            let counted = twin.into_device().read(COUNTED);
            assert_eq!(rt; counted, Ok(2 * u64::from(CALLS)));
        }
    }
    Ok(())
}
