//! Calls on a heap of order 16 in memory, half of which is in use, for their instructions to be counted.
ghost use Rattle.std.specs.Prelude.{ℕ, ◌≤◌, ◌<◌, ◌+◌, ◌^◌};
ghost use Rattle.rom_model.specs.History.{LAST_COUNT};
ghost use Rattle.rom_model.specs.VecSpace.{words_of_space};
ghost use Rattle.rom_bench.specs.Holds.{HoldsAtMost};

use rom_heap::Trio;
use rom_model::{Answer, Call, Object, Query, Reply, Step, VecSpace, new_region};
use std::alloc::{AllocError, Global};

/// The heap's order.
const ORDER: u32 = 16;

/// How many elements the heap has before the calls: half of what one of that order has room for.
const HALF: u64 = 30_720;

/// How many of them the queue has, and how many the set. The map has the others.
const FEW: u64 = 1000;

/// How far apart the set's numbers are.
const GAP: u64 = 1 << 20;

/// How many numbers after its first call a key is called for.
const AGO: u64 = 15_000;

const FACTOR: u64 = 0xD134_2543_DE82_EF95;

/// What is called.
#[derive(Clone, Copy)]
pub enum Calls {
    /// What the heap has before the calls that are counted is put into it.
    Fill,
    /// Nothing, so that what else a round costs can be told.
    Nothing,
    Enq,
    Deq,
    /// Adds a number that has so many below it.
    Add(u64),
    /// Removes the number that has so many below it.
    Rem(u64),
    /// Gives a new key a value.
    Put,
    /// Gives a key that is there another value.
    Again,
    Del,
    /// Moves 1 between two keys that are there.
    Move,
    /// Tells whether the number is there that has so many below it, and it is.
    Has(u64),
    Get,
    Peek,
    Len,
    Total,
}

impl Calls {
    /// The calls of that name.
    pub fn of(name: &str) -> Option<Calls> {
        match name {
            "nothing" => Some(Calls::Nothing),
            "enq" => Some(Calls::Enq),
            "deq" => Some(Calls::Deq),
            "add" => Some(Calls::Add(10)),
            "add-middle" => Some(Calls::Add(FEW / 2)),
            "rem" => Some(Calls::Rem(10)),
            "rem-middle" => Some(Calls::Rem(FEW / 2)),
            "put" => Some(Calls::Put),
            "again" => Some(Calls::Again),
            "del" => Some(Calls::Del),
            "move" => Some(Calls::Move),
            "has" => Some(Calls::Has(10)),
            "has-middle" => Some(Calls::Has(FEW / 2)),
            "get" => Some(Calls::Get),
            "peek" => Some(Calls::Peek),
            "len" => Some(Calls::Len),
            "total" => Some(Calls::Total),
            _ => None,
        }
    }

    /// The call of that number. Those that are counted have the numbers from 30,720 on.
    fn at(self, number: u64) -> Step<Call, Query> {
        let there = key_of(number.wrapping_sub(AGO));
        match self {
            Calls::Fill => Step::Update(filling(number)),
            Calls::Nothing => Step::Unread,
            Calls::Enq => Step::Update(Call::Enq(number)),
            Calls::Deq => Step::Update(Call::Deq),
            // Each is below the one before.
            Calls::Add(below) => Step::Update(Call::Add(member(below).wrapping_sub(number))),
            Calls::Rem(below) => Step::Update(Call::Rem(member(
                below.wrapping_add(number).wrapping_sub(HALF),
            ))),
            Calls::Put => Step::Update(Call::Put(key_of(number), number)),
            Calls::Again => Step::Update(Call::Put(there, number)),
            Calls::Del => Step::Update(Call::Del(there)),
            Calls::Move => Step::Update(Call::Move(there, key_of(number.wrapping_sub(AGO + 1)), 1)),
            Calls::Has(below) => Step::Ask(Query::Has(member(below))),
            Calls::Get => Step::Ask(Query::Get(there)),
            Calls::Peek => Step::Ask(Query::Peek),
            Calls::Len => Step::Ask(Query::Len),
            Calls::Total => Step::Ask(Query::Total),
        }
    }
}

/// The map's key of that number. No two numbers have the same one, and the keys lie scattered.
fn key_of(number: u64) -> u64 {
    let scattered = number.wrapping_mul(FACTOR);
    scattered ^ (scattered >> 32)
}

/// The set's number that has so many below it.
fn member(below: u64) -> u64 {
    below.wrapping_add(1).wrapping_mul(GAP)
}

/// The update of that number of those that fill half of the heap. The greatest numbers go into the
/// set first, so that no walk is long.
fn filling(number: u64) -> Call {
    if number < FEW {
        Call::Enq(number)
    } else if number < 2 * FEW {
        Call::Add(member((2 * FEW - 1) - number))
    } else {
        Call::Put(key_of(number), number)
    }
}

/// Whether an update found what it was called for, and had room. It looks at the number that is told,
/// so that the compiler does not leave it out.
fn is_done(reply: Reply) -> bool {
    match reply {
        Reply::Head(value) => value < HALF,
        Reply::Was(value) => value != 0,
        Reply::Queued | Reply::Added | Reply::Removed | Reply::NoPrior | Reply::Moved => true,
        _ => false,
    }
}

/// So of a query.
fn is_found(answer: Answer) -> bool {
    match answer {
        Answer::Yes => true,
        Answer::Value(value) => value != 0,
        Answer::Head(value) => value < HALF,
        Answer::Sizes { queue, set, map } => queue.wrapping_add(set).wrapping_add(map) == HALF,
        Answer::Total(sum) => sum != 0,
        _ => false,
    }
}

/// Makes one call, and tells whether it was done.
fn call(space: &mut VecSpace, step: Step<Call, Query>) -> bool
    requires region { (n : ℕ) × HoldsAtMost (words_of_space space.old) n × (n < LAST_COUNT) }
    ensures region { (n : ℕ) → HoldsAtMost (words_of_space space.old) n → HoldsAtMost (words_of_space space.new) (n + 1) }
{
    match step {
        Step::Update(call) => is_done(Trio::apply(space, ORDER, &call)),
        Step::Ask(query) => is_found(Trio::answer(space, ORDER, &query)),
        Step::Unread => true,
    }
}

/// Makes the calls of these numbers, and tells how many of them were done.
fn call_all(space: &mut VecSpace, calls: Calls, from: u64, to: u64) -> u64
    requires region { HoldsAtMost (words_of_space space.old) from }
    requires forward { from ≤ to }
    requires most { to ≤ LAST_COUNT }
    ensures region { HoldsAtMost (words_of_space space.new) to }
{
    let mut done = 0u64;
    for number in from..to {
        if call(space, calls.at(number)) {
            done = done.wrapping_add(1);
        }
    }
    done
}

/// So many of these calls, at most 1,000, and how many were done.
pub fn count(alloc: Global, calls: Calls, count: u64) -> Result<u64, AllocError> {
    let mut space = new_region::<Trio>(alloc, ORDER)?;
    call_all(&mut space, Calls::Fill, 0, HALF);
    Ok(call_all(&mut space, calls, HALF, HALF + count.min(FEW)))
}
