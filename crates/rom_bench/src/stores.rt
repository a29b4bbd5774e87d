//! A store of one caller on a heap of order 4 in memory.
ghost use Rattle.std.specs.Prelude.{◌≡◌, ◌≤◌, ◌<◌, [], IfOk, IfSome, length, vec_capacity, vec_len};
ghost use Rattle.rom_model.specs.Region.{Contents};
ghost use Rattle.rom_rule.specs.Views.{base_of};
ghost use Rattle.rom_store.specs.Callers.{IsCallerOf, IsNewCaller, IsNumberedCaller};
ghost use Rattle.rom_store.specs.Indexed.{Indexed};
ghost use Rattle.rom_bench.specs.Stores.{IsLabelled};

use rom_combine::NoGate;
use rom_device::{Device, Ram};
use rom_heap::Trio;
use rom_lr::Steps;
use rom_model::{Answer, Call, Query, Updated};
use rom_store::{Label, Opening, Pass, Store, format_device, open_store};
use std::alloc::{AllocError, Global};
use std::marker::Brand;
use std::sync::Wait;
use std::sync::ledger::{Blank, Ledger};

/// The heap's order.
pub const ORDER: u32 = 4;

/// How many words a device needs for a heap of that order.
pub const WORDS: u64 = 232;

/// The map's one key.
pub const KEY: u64 = 7;

/// Its value, and the queue's one number.
pub const VALUE: u64 = 9;

/// What the caller does again and again.
#[derive(Clone, Copy)]
pub enum Work {
    /// Reads the value of the key.
    Get,
    /// Reads the queue's first number.
    Peek,
    /// Gives the key another value.
    Update,
}

impl Work {
    /// The work of that name.
    pub fn of(name: &str) -> Option<Work> {
        match name {
            "get" => Some(Work::Get),
            "peek" => Some(Work::Peek),
            "update" => Some(Work::Update),
            _ => None,
        }
    }
}

/// Reads so often, and tells how many answers had the value that is there.
fn read_all<D: Device, N: Label, L: Ledger>(
    blank: Blank,
    store: &Store<D, Trio, N>,
    pass: &mut Pass,
    query: &Query,
    reads: u64,
) -> u64
    requires name { blank.name ≡ L.name }
    requires parts { blank.parts ≡ L.parts }
    requires part { 0 < blank.parts }
    requires of { IsNumberedCaller Contents N.table N.base 0 pass.old }
    ensures of { IsNumberedCaller Contents N.table N.base 0 pass.new }
{
    let mut steps = Steps::<L>::of(blank);
    let mut found = 0u64;
    for _ in 0..reads {
        let (answer, _front) = store.read(pass, query, &mut steps);
        if answer == Answer::Value(VALUE) || answer == Answer::Head(VALUE) {
            found = found.wrapping_add(1);
        }
    }
    found
}

/// Updates so often, and tells how many were done.
fn update_all<D: Device, N: Label, R: Wait>(
    rt: &R,
    store: &Store<D, Trio, N>,
    pass: &mut Pass,
    updates: u64,
) -> u64
    requires of { IsNumberedCaller Contents N.table N.base 0 pass.old }
    ensures of { IsNumberedCaller Contents N.table N.base 0 pass.new }
{
    let mut done = 0u64;
    for round in 0..updates {
        if let Updated::Done(_, _) = store.update(rt, pass, &Call::Put(KEY, round), &NoGate) {
            done = done.wrapping_add(1);
        }
    }
    done
}

/// Puts the value into the queue and under the key, and works so often.
fn fill_and_work<D: Device, N: Label, R: Wait>(
    rt: &R,
    store: &Store<D, Trio, N>,
    pass: &mut Pass,
    work: Work,
    times: u64,
) -> u64
    requires of { IsNumberedCaller Contents N.table N.base 0 pass.old }
    ensures of { IsNumberedCaller Contents N.table N.base 0 pass.new }
{
    store.update(rt, pass, &Call::Enq(VALUE), &NoGate);
    store.update(rt, pass, &Call::Put(KEY, VALUE), &NoGate);
    let query = match work {
        Work::Get => Query::Get(KEY),
        Work::Peek => Query::Peek,
        Work::Update => return update_all(rt, store, pass, times),
    };
    read_all::<D, N, Brand>(Blank::new(1), store, pass, &query, times)
}

/// The one pass of a store. Room for it stays.
fn alone<N: Label>(passes: &mut Vec<Pass>) -> Pass
    requires many { vec_len passes.old ≡ 1 }
    requires new { Indexed (IsNewCaller Contents N.table N.base) passes.old.items }
    ensures of { IsNumberedCaller Contents N.table N.base 0 result }
    ensures none { passes.new.items ≡ [] }
    ensures room { 1 ≤ vec_capacity passes.new }
{
    passes.take_last()
}

fn close<D: Device + Drop, N: Label, R: Wait>(
    rt: &R,
    store: Store<D, Trio, N>,
    mut passes: Vec<Pass>,
    pass: Pass,
)
    requires callers { N.base.callers ≡ 1 }
    requires none { passes.items ≡ [] }
    requires room { 1 ≤ vec_capacity passes }
    requires of { IsNumberedCaller Contents N.table N.base 0 pass }
{
    passes.push_reserved(pass);
    let _closed = store.close(rt, passes);
}

/// Starts the store, works, and closes it.
fn work_on<D: Device + Drop, N: Label, R: Wait>(
    rt: &R,
    opening: Opening<D, Trio>,
    work: Work,
    times: u64,
) -> u64
    requires labelled { IsLabelled D.shown N.table N.base N.start N.since opening }
    requires many { length opening.passes ≡ 1 }
    requires callers { (base_of opening.key).callers ≡ 1 }
    requires new { Indexed
        (IsNewCaller Contents opening.table_id (base_of opening.key)) opening.passes }
{
    let (store, mut passes) = opening.start::<N>();
    let mut pass = alone::<N>(&mut passes);
    let done = fill_and_work(rt, &store, &mut pass, work, times);
    close(rt, store, passes, pass);
    done
}

fn work_in<D: Device + Drop, R: Wait>(
    rt: &R,
    opening: Opening<D, Trio>,
    work: Work,
    times: u64,
) -> u64
    requires many { length opening.passes ≡ 1 }
    requires callers { (base_of opening.key).callers ≡ 1 }
    requires new { Indexed
        (IsNewCaller Contents opening.table_id (base_of opening.key)) opening.passes }
{
    work_on::<D, Brand, R>(rt, opening, work, times)
}

/// A new heap in memory, opened for one caller.
fn opened(alloc: Global) -> Result<Option<Opening<Ram, Trio>>, AllocError>
    ensures many { IfOk result (λ r. IfSome r (λ o. (length o.passes ≡ 1)
        × ((base_of o.key).callers ≡ 1))) }
    ensures new { IfOk result (λ r. IfSome r (λ o.
        Indexed (IsNewCaller Contents o.table_id (base_of o.key)) o.passes)) }
{
    let mut device = Ram::zeroed(alloc, WORDS)?;
    if format_device::<Ram, Trio>(alloc, &mut device, ORDER).is_err() {
        return Ok(None);
    }
    Ok(open_store::<Ram, Trio>(alloc, device, 1).ok())
}

/// Works so often on a new heap, and tells how much was done, or `None` where no heap was made.
pub fn make<R: Wait>(
    rt: &R,
    alloc: Global,
    work: Work,
    times: u64,
) -> Result<Option<u64>, AllocError> {
    match opened(alloc)? {
        Some(opening) => Ok(Some(work_in(rt, opening, work, times))),
        None => Ok(None),
    }
}
