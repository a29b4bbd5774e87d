//! Heaps of order 4 on a cached device over words in memory: made, updated and opened, each stopped
//! after any number of calls or with one call that fails.
//!
//! Each word that is read ahead or handed over is a call of the words in memory. What a stop leaves of
//! these is opened without a cache.

use crate::callers::post_call;
use crate::cores::{post_three, seated_on, take_three, take_told};
use crate::heaps::{AMPLE, choice, counted, device, heap};
use rom_combine::{NoGate, NoShipper, Outcome};
use rom_device::{CachedDevice, CallKind, Memory, Trip, every_trip};
use rom_heap::Trio;
use rom_model::{Answer, Call};
use rom_store::{Opened, Refused, format_device, open_device};
use std::alloc::Global;
use std::process::Abort;
use std::sync::Wait;
use std::test::Fail;

/// How many words a heap has. The first read takes all of them.
const WORDS: u64 = 232;

/// Of a heap at rest: the words and a sync.
const OPENING: u64 = WORDS + 1;

/// A pass of three calls until COPYING is certain: MUTATING, 19 words of main and COPYING, with a sync
/// after each.
const COMMIT: u64 = 1 + 19 + 1 + 3;

/// The rest of it: the same words of back, and a sync. IDLE waits.
const FINISH: u64 = 19 + 1;

/// A pass until COPYING is certain that puts another value under a key: IDLE before it, and three words
/// of main, the value, its stamp and the count.
const NEXT_COMMIT: u64 = 1 + 1 + 3 + 1 + 3;

/// What is done on a device. An update is two passes, of three calls and of one.
#[derive(Clone, Copy, Debug)]
enum Work {
    Make,
    Update,
    Open,
}

/// How it ended.
#[derive(Clone, Copy, Debug, PartialEq, Eq)]
enum Told {
    Made(bool),
    Updated(Outcome, Outcome),
    Opened(bool),
}

/// The sizes of a heap and its count, where there is a heap.
type Held = Option<(Answer, u64)>;

/// Some work on these words, which hold that. It comes to its end with `needs` calls. It is stopped after
/// `from` calls and more, fewer than `to`: up to `each` after some alone.
#[derive(Drop)]
struct Row {
    work: Work,
    words: Vec<u64>,
    before: Held,
    from: u64,
    each: u64,
    needs: u64,
    to: u64,
}

fn is_done(told: Told) -> bool {
    match told {
        Told::Made(done) | Told::Opened(done) => done,
        Told::Updated(three, one) => three == Outcome::Published && one == Outcome::Published,
    }
}

/// Whether this may be found after work that ended so, where `before` was there. After an update the
/// heap is empty, or has what the first pass put in, or the second, or both.
fn may_hold(told: Told, before: Held, found: Held) -> bool {
    let empty = Some(heap(0, 0, 0, 0));
    let first = Some(heap(1, 1, 1, 3));
    let second = Some(heap(0, 0, 1, 1));
    let both = Some(heap(1, 1, 1, 4));
    match told {
        Told::Made(true) => found == empty,
        Told::Made(false) => found == empty || found == before,
        Told::Opened(_) => found == before,
        Told::Updated(Outcome::Published, Outcome::Published) => found == both,
        Told::Updated(Outcome::Published, Outcome::Doubt) => found == first || found == both,
        Told::Updated(Outcome::Published, _) => found == first,
        Told::Updated(_, Outcome::Published) => found == second,
        Told::Updated(_, Outcome::Doubt) => found == empty || found == second,
        Told::Updated(Outcome::Doubt, _) => found == empty || found == first,
        Told::Updated(_, _) => found == empty,
    }
}

/// These words behind a cache. Calls of theirs fail past the room and by these trips.
fn cached(
    alloc: Global,
    words: Vec<u64>,
    room: u64,
    trips: &[Trip],
) -> Result<CachedDevice<Memory>, Fail> {
    let memory = Memory::new(alloc, words, room, trips.to_vec(alloc)?)?;
    let len = memory.words().len() as u64;
    if len != WORDS {
        return Err("another number of words".into());
    }
    Ok(CachedDevice::over(memory, len))
}

fn make(alloc: Global, mut device: CachedDevice<Memory>) -> (Told, Memory) {
    let made = format_device::<_, Trio>(alloc, &mut device, 4).is_ok();
    (Told::Made(made), device.into_medium())
}

fn open(alloc: Global, device: CachedDevice<Memory>) -> (Told, Memory) {
    match open_device::<_, Trio>(alloc, device) {
        Ok(
            Opened {
                device,
                geometry: _,
                image: _,
            },
        ) => (Told::Opened(true), device.into_medium()),
        Err(Refused { device, why: _ }) => (Told::Opened(false), device.into_medium()),
    }
}

fn update<R: Wait + AllocGlobal>(
    rt: &R,
    device: CachedDevice<Memory>,
) -> Result<(Told, Memory), Fail> {
    let (mut core, shared, (mut first, mut second, mut third)) = seated_on(rt.alloc(), device)?;
    post_three(&shared, &mut first, &mut second, &mut third);
    let mut none = NoShipper;
    let three = core.pass(rt, &shared, &NoGate, &mut none, &[]).outcome;
    let NoShipper = none;
    take_three(&shared, &mut first, &mut second, &mut third)?;
    post_call(&shared, &mut first, Call::Put(3, 5));
    let mut none = NoShipper;
    let one = core.pass(rt, &shared, &NoGate, &mut none, &[]).outcome;
    let NoShipper = none;
    take_told(&shared, &mut first)?;
    let (twin, _writer) = core.into_parts();
    Ok((Told::Updated(three, one), twin.into_device().into_medium()))
}

/// Does the work and stops it. Each word that may be one of several is that of the choice.
fn stop<R: Wait + AllocGlobal>(
    rt: &R,
    work: Work,
    words: &[u64],
    room: u64,
    trips: &[Trip],
    kind: u64,
) -> Result<(Told, Vec<u64>), Fail> {
    let alloc = rt.alloc();
    let device = cached(alloc, words.to_vec(alloc)?, room, trips)?;
    let (told, memory) = match work {
        Work::Make => make(alloc, device),
        Work::Update => update(rt, device)?,
        Work::Open => open(alloc, device),
    };
    Ok((told, memory.crash(choice(alloc, kind)?.as_slice())))
}

/// What these words hold, opened without a cache.
fn held(alloc: Global, words: &[u64]) -> Result<Held, Fail> {
    let words = words.to_vec(alloc)?;
    let memory = Memory::new(alloc, words, AMPLE, Vec::new(alloc))?;
    match open_device::<_, Trio>(alloc, memory) {
        Ok(opened) => Ok(Some(counted(opened)?)),
        Err(_) => Ok(None),
    }
}

/// Does the work, stops it, and asserts that what is left fits what was told. It says whether the work
/// came to its end.
fn tries<R: Wait + Abort + AllocGlobal>(
    rt: &R,
    row: &Row,
    room: u64,
    trips: &[Trip],
    kind: u64,
) -> Result<bool, Fail> {
    let (told, words) = stop(rt, row.work, row.words.as_slice(), room, trips, kind)?;
    let found = held(rt.alloc(), words.as_slice())?;
    let fits = may_hold(told, row.before, found);
    assert!(rt;
        fits,
        "{told:?}, but {found:?} with room for {room} calls, {kind}"
    );
    Ok(is_done(told))
}

/// The call of that kind and number fails.
fn trip(call: CallKind, nth: u64, keeps_new: bool) -> Trip {
    Trip {
        keeps_new,
        ..every_trip(call, nth)
    }
}

#[test]
fn a_heap_behind_a_cache_is_as_it_was_told(rt: HostRuntime) -> Result<(), Fail> {
    let alloc = rt.alloc();
    let none = vec![in alloc; 0u64; WORDS as usize]?;
    let rest = device(alloc, 0, &[])?.crash(&[]);
    // Stopped with half of main handed over, and with half of back.
    let (_, main) = stop(&rt, Work::Update, rest.as_slice(), OPENING + 2 + 9, &[], 1)?;
    let (_, back) = stop(
        &rt,
        Work::Update,
        rest.as_slice(),
        OPENING + COMMIT + 9,
        &[],
        1,
    )?;
    // A new heap: each word is read and written once. Recovery: so is each word of a region, and the state
    // is written twice, as it reads and as IDLE.
    let make = WORDS + WORDS + 3;
    let recover = WORDS + 112 + 2 + 4;
    let update = OPENING + COMMIT + FINISH + NEXT_COMMIT;
    let rows = [
        Row {
            work: Work::Make,
            words: none,
            before: None,
            from: 0,
            each: make - 4,
            needs: make,
            to: make + 2,
        },
        Row {
            work: Work::Open,
            words: main,
            before: Some(heap(0, 0, 0, 0)),
            from: 0,
            each: recover - 4,
            needs: recover,
            to: recover + 2,
        },
        Row {
            work: Work::Open,
            words: back,
            before: Some(heap(1, 1, 1, 3)),
            from: 0,
            each: recover - 4,
            needs: recover,
            to: recover + 2,
        },
        Row {
            work: Work::Update,
            words: rest,
            before: Some(heap(0, 0, 0, 0)),
            from: OPENING,
            each: OPENING,
            needs: update,
            to: update + 5,
        },
    ];
    for row in &rows {
        for calls in row.from..row.to {
            if calls % 29 == 0 || calls >= row.each {
                let done = tries(&rt, row, calls, &[], calls % 3)?;
                assert_eq!(rt;
                    done,
                    calls >= row.needs,
                    "{:?} after {calls} calls",
                    row.work
                );
            }
        }
    }
    // One call of the two passes fails, and those after it do not.
    for nth in 1..52 {
        let fault = trip(CallKind::Write, nth, nth % 2 == 0);
        tries(&rt, &rows[3], AMPLE, &[fault], nth % 3)?;
    }
    for nth in 2..10 {
        let fault = trip(CallKind::Sync, nth, false);
        tries(&rt, &rows[3], AMPLE, &[fault], nth % 3)?;
    }
    Ok(())
}
