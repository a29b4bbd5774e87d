//! The calls of a store that two callers share, on a heap of order 4.
ghost use Rattle.std.specs.Prelude.{◌≡◌, ◌≤◌, ◌<◌, [], IfOk, length, vec_capacity, vec_len};
ghost use Rattle.rom_model.specs.Region.{Contents};
ghost use Rattle.rom_rule.specs.Views.{base_of};
ghost use Rattle.rom_store.specs.Callers.{IsNewCaller, IsNumberedCaller};
ghost use Rattle.rom_store.specs.Indexed.{Indexed};
ghost use Rattle.rom_rows.specs.Stores.{IsLabelled};

use crate::crowd::new_heap;
use rom_combine::Gate;
use rom_device::{Device, Ram};
use rom_heap::Trio;
use rom_lr::Steps;
use rom_model::{Answer, Call, Query, Reply, Updated};
use rom_store::{Closed, Label, Opening, Pass, Store, open_store};
use rom_test::wait_for;
use std::alloc::Global;
use std::marker::Brand;
use std::sync::Wait;
use std::sync::atomic::{AtomicU64, Ordering};
use std::sync::ledger::{Blank, Ledger};
use std::test::Fail;
use std::thread::{Threads, join};

/// Where the count of updates stands in main on the device.
const COUNTED: u64 = 10;

/// How far two callers are, of whom one reads and the other updates beside it: whether the first has
/// entered, and how many batches were published.
#[derive(Drop)]
struct Beside {
    entered: AtomicU64,
    published: AtomicU64,
}

impl Gate for Beside {
    fn before<R: Wait>(&self, _rt: &R, _caller: u32, _line: u64) {}

    fn published<R: Wait>(&self, _rt: &R, _count: u32) {
        self.published.fetch_add(1, Ordering::SeqCst);
    }
}

/// What a caller was told in a state that it had entered, beside which an update was published, and by
/// a read after it had left it.
#[derive(Clone, Copy, Debug, PartialEq, Eq)]
struct Heard {
    is_beside: bool,
    told: (Answer, u64),
    sizes: (Answer, u64),
    next: (Answer, u64),
}

/// The passes of a store of two callers, each by itself. Room for both stays.
fn parted<N: Label>(passes: &mut Vec<Pass>) -> (Pass, Pass)
    requires many { vec_len passes.old ≡ 2 }
    requires new { Indexed (IsNewCaller Contents N.table N.base) passes.old.items }
    ensures first { IsNumberedCaller Contents N.table N.base 0 result.0 }
    ensures second { IsNumberedCaller Contents N.table N.base 1 result.1 }
    ensures none { passes.new.items ≡ [] }
    ensures room { 2 ≤ vec_capacity passes.new }
{
    let second = passes.take_last();
    let first = passes.take_last();
    (first, second)
}

/// Closes a store of two callers.
fn close<D: Device, N: Label, R: Wait>(
    rt: &R,
    store: Store<D, Trio, N>,
    mut passes: Vec<Pass>,
    first: Pass,
    second: Pass,
) -> Closed<D, Trio>
    requires callers { N.base.callers ≡ 2 }
    requires none { passes.items ≡ [] }
    requires room { 2 ≤ vec_capacity passes }
    requires first { IsNumberedCaller Contents N.table N.base 0 first }
    requires second { IsNumberedCaller Contents N.table N.base 1 second }
{
    passes.push_reserved(first);
    passes.push_reserved(second);
    store.close(rt, passes)
}

/// Enters a state and waits until an update is published beside it. Then reads key 1 and the sizes in
/// that state, leaves it, and reads key 1 again.
fn read_counted<D: Device, N: Label, L: Ledger>(
    blank: Blank,
    store: &Store<D, Trio, N>,
    pass: Pass,
    beside: &Beside,
) -> (Pass, Heard)
    requires name { blank.name ≡ L.name }
    requires parts { blank.parts ≡ L.parts }
    requires part { 0 < blank.parts }
    requires first { IsNumberedCaller Contents N.table N.base 0 pass }
    ensures first { IsNumberedCaller Contents N.table N.base 0 result.0 }
{
    let mut steps = Steps::<L>::of(blank);
    let mut reading = store.enter(pass, &mut steps);
    beside.entered.store(1, Ordering::SeqCst);
    // The first batch was published before.
    let is_beside = wait_for(&beside.published, 2);
    let told = store.ask(&mut reading, &Query::Get(1), &mut steps);
    let sizes = store.ask(&mut reading, &Query::Len, &mut steps);
    let mut pass = store.leave(reading, &mut steps);
    let next = store.read(&mut pass, &Query::Get(1), &mut steps);
    let heard = Heard {
        is_beside,
        told,
        sizes,
        next,
    };
    (pass, heard)
}

fn read_beside<D: Device, N: Label>(
    store: &Store<D, Trio, N>,
    pass: Pass,
    beside: &Beside,
) -> (Pass, Heard)
    requires first { IsNumberedCaller Contents N.table N.base 0 pass }
    ensures first { IsNumberedCaller Contents N.table N.base 0 result.0 }
{
    read_counted::<D, N, Brand>(Blank::new(1), store, pass, beside)
}

/// Puts 2 under key 1 once the other caller has entered. `false` says that it gave up waiting for that.
fn update_beside<D: Device, N: Label, R: Wait>(
    rt: &R,
    store: &Store<D, Trio, N>,
    mut pass: Pass,
    beside: &Beside,
) -> (Pass, (bool, Updated<Reply>))
    requires second { IsNumberedCaller Contents N.table N.base 1 pass }
    ensures second { IsNumberedCaller Contents N.table N.base 1 result.0 }
{
    let is_beside = wait_for(&beside.entered, 1);
    let told = store.update(rt, &mut pass, &Call::Put(1, 2), beside);
    (pass, (is_beside, told))
}

/// Caller 1 reads and caller 2 updates, each in its thread.
fn read_and_update<D: Device + Send, N: Label + Send + Sync, R: Threads + Wait + Sync>(
    rt: &R,
    store: &Store<D, Trio, N>,
    one: Pass,
    two: Pass,
    beside: &Beside,
) -> ((Pass, Heard), (Pass, (bool, Updated<Reply>)))
    requires first { IsNumberedCaller Contents N.table N.base 0 one }
    requires second { IsNumberedCaller Contents N.table N.base 1 two }
    ensures first { IsNumberedCaller Contents N.table N.base 0 result.0.0 }
    ensures second { IsNumberedCaller Contents N.table N.base 1 result.1.0 }
{
    join(
        rt,
        || -> (Pass, Heard)
            requires { IsNumberedCaller Contents N.table N.base 0 one }
            ensures { IsNumberedCaller Contents N.table N.base 0 result.0 }
        { read_beside(store, one, beside) },
        || -> (Pass, (bool, Updated<Reply>))
            requires { IsNumberedCaller Contents N.table N.base 1 two }
            ensures { IsNumberedCaller Contents N.table N.base 1 result.0 }
        { update_beside(rt, store, two, beside) },
    )
}

/// What is told in the test of a reading beside an update.
#[derive(Clone, Copy, Debug, PartialEq, Eq)]
struct Told {
    first: Updated<Reply>,
    heard: Heard,
    second: (bool, Updated<Reply>),
    third: Updated<Reply>,
    learnt: (Answer, u64),
    order: u32,
    count: u64,
    last: Answer,
    counted: Option<u64>,
    published: u64,
}

/// Caller 1 puts 1 under key 1. Then it reads that, and caller 2 puts 2 there beside it. Then caller 2 puts
/// 3 there, and caller 1 learns what it has seen and reads.
fn read_beside_update<D: Device + Send + Drop, N: Label + Send + Sync, R: Threads + Wait + Sync>(
    rt: &R,
    opening: Opening<D, Trio>,
) -> Told
    requires labelled { IsLabelled D.shown N.table N.base N.start N.since opening }
    requires many { length opening.passes ≡ 2 }
    requires callers { (base_of opening.key).callers ≡ 2 }
    requires new { Indexed
        (IsNewCaller Contents opening.table_id (base_of opening.key)) opening.passes }
{
    let beside = Beside {
        entered: AtomicU64::new(0),
        published: AtomicU64::new(0),
    };
    let (store, mut passes) = opening.start::<N>();
    let (mut one, two) = parted::<N>(&mut passes);
    let first = store.update(rt, &mut one, &Call::Put(1, 1), &beside);
    let ((mut one, heard), (mut two, second)) = read_and_update(rt, &store, one, two, &beside);
    let third = store.update(rt, &mut two, &Call::Put(1, 3), &beside);
    let note = store.note(&mut two);
    store.learn(&mut one, note);
    let learnt = store.query(&mut one, &Query::Get(1));
    let mut closed = close(rt, store, passes, one, two);
    let order = closed.order();
    let count = closed.count();
    let last = closed.ask(&Query::Get(1));
    let (mut device, _session) = closed.parts();
    Told {
        first,
        heard,
        second,
        third,
        learnt,
        order,
        count,
        last,
        counted: device.read(COUNTED).ok(),
        published: beside.published.load(Ordering::SeqCst),
    }
}

fn tell_beside_update<D: Device + Send + Drop, R: Threads + Wait + Sync>(
    rt: &R,
    opening: Opening<D, Trio>,
) -> Told
    requires many { length opening.passes ≡ 2 }
    requires callers { (base_of opening.key).callers ≡ 2 }
    requires new { Indexed
        (IsNewCaller Contents opening.table_id (base_of opening.key)) opening.passes }
{
    read_beside_update::<D, Brand, R>(rt, opening)
}

/// A heap of order 4 in memory, which is opened for two callers.
fn opened(alloc: Global) -> Result<Opening<Ram, Trio>, Fail>
    ensures many { IfOk result (λ o. (length o.passes ≡ 2) × ((base_of o.key).callers ≡ 2)) }
    ensures new { IfOk result (λ o. Indexed
        (IsNewCaller Contents o.table_id (base_of o.key)) o.passes) }
{
    match open_store::<Ram, Trio>(alloc, new_heap(alloc)?, 2) {
        Ok(opening) => Ok(opening),
        Err(_) => Err("refused".into()),
    }
}

#[test]
fn a_reading_keeps_its_state_beside_an_update(rt: HostRuntime) -> Result<(), Fail> {
    let opening = opened(rt.alloc())?;
    let told = tell_beside_update(&rt, opening);
    let want = Told {
        first: Updated::Done(Reply::NoPrior, 0),
        heard: Heard {
            is_beside: true,
            told: (Answer::Value(1), 1),
            sizes: (
                Answer::Sizes {
                    queue: 0,
                    set: 0,
                    map: 1,
                },
                1,
            ),
            next: (Answer::Value(2), 2),
        },
        second: (true, Updated::Done(Reply::Was(1), 1)),
        third: Updated::Done(Reply::Was(2), 2),
        learnt: (Answer::Value(3), 3),
        order: 4,
        count: 3,
        last: Answer::Value(3),
        counted: Some(3),
        published: 3,
    };
    assert_eq!(rt; told, want);
    Ok(())
}
