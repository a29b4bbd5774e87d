//! A sum that is kept in a region: the least object there is.
ghost use Rattle.std.specs.Prelude.{◌≡◌, ℕ, ◌<◌, Option, Some};
ghost use Rattle.rom_model.specs.Blocks.{region_len};
ghost use Rattle.rom_model.specs.Earlier.{no_earlier};
ghost use Rattle.counter.specs.Counter.{CounterContents, RejectsCounter, counter};
ghost use Rattle.counter.specs.Laws.{counter_call_only, counter_contents_within, counter_reply_back, counter_reply_few, counter_reply_only, one_counter_contents};

use rom_model::{Args, Back, COUNT, KIND, LAST_COUNT, Look, Object, Rule, Space, Unfit};
use std::alloc::Global;

/// Where the sum stands, in words from the region's start.
const SUM: u64 = 1;

/// The number of its kind.
const COUNTER: u64 = 77;

/// A number to add.
#[derive(Clone, Copy, Debug, PartialEq, Eq)]
pub struct Add {
    pub amount: u64,
}

/// A sum. One past the greatest number of 64 bits stands still there.
#[derive(Clone, Copy, Debug, PartialEq, Eq)]
pub struct Sum {
    pub value: u64,
}

/// Asks for the sum.
#[derive(Clone, Copy, Debug, PartialEq, Eq)]
pub enum Query {
    Get,
}

/// A sum to which numbers are added.
#[derive(Clone, Copy, Debug)]
pub struct Counter;

impl Object for Counter {
    ghost KIND = { 77 };

    const KIND: u64 = COUNTER;

    ghost STORES = { 2 };

    const STORES: u64 = 2;

    ghost WEIGHT = { 1 };

    const WEIGHT: u64 = 1;

    ghost State = { ℕ };

    type Call = Add;

    type Query = Query;

    type Reply = Sum;

    type Answer = Sum;

    ghost machine = { counter };

    ghost Contents = { CounterContents };

    ghost Rejects = { RejectsCounter };

    ghost earlier = { no_earlier };

    fn weight_of(call: &Add) -> u64 {
        1
    }

    fn call_words(call: &Add) -> Args {
        Args::of(&[call.amount])
    }

    fn put_call_words(call: &Add, words: &mut Args) {
        words.clear();
        words.extend(&[call.amount]);
    }

    fn words_call(words: &Args) -> Option<Add> {
        match words.as_slice() {
            [amount] => Some(Add { amount: *amount }),
            _ => None,
        }
    }

    fn reply_words(reply: &Sum) -> Back {
        Back::of(&[reply.value])
    }

    fn words_reply(words: &Back) -> Option<Sum> {
        match words.as_slice() {
            [value] => Some(Sum { value: *value }),
            _ => None,
        }
    }

    fn format<M: Space>(space: &mut M, order: u32) {
        space.store(KIND, COUNTER);
        space.store(SUM, 0);
        space.store(COUNT, 0);
    }

    fn apply<M: Space>(space: &mut M, order: u32, call: &Add) -> Sum {
        let value = space.load(SUM).saturating_add(call.amount);
        let count = space.load(COUNT);
        space.store(SUM, value);
        space.store(COUNT, count + 1);
        Sum { value }
    }

    fn apply_words<M: Space>(space: &mut M, order: u32, words: &Args, told: &mut Back) {
        let call = Self::words_call(words).unwrap();
        let sum = Self::apply(space, order, &call);
        told.clear();
        told.extend(&[sum.value]);
    }

    fn answer<M: Look>(space: &mut M, order: u32, query: &Query) -> Sum {
        match query {
            Query::Get => Sum {
                value: space.load(SUM),
            },
        }
    }

    fn inspect(alloc: Global, region: &[u64], order: u32) -> Result<(), Unfit> {
        if region[KIND as usize] != COUNTER {
            return Err(Unfit::Malformed {
                offset: KIND,
                rule: Rule::Root,
            });
        }
        if region[COUNT as usize] > LAST_COUNT {
            return Err(Unfit::Malformed {
                offset: COUNT,
                rule: Rule::Root,
            });
        }
        Ok(())
    }

    ghost call_only = { counter_call_only };

    ghost reply_back = { counter_reply_back };

    ghost reply_only = { counter_reply_only };

    ghost reply_few = { counter_reply_few };

    ghost one_contents = { one_counter_contents };

    ghost contents_within = { counter_contents_within };
}
