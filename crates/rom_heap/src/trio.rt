//! The object.
ghost use Rattle.rom_model.specs.declared.group.TheConstants.{MAX_MEMBERS};
ghost use Rattle.rom_model.specs.State.{State};
ghost use Rattle.rom_model.specs.Region.{Contents};
ghost use Rattle.rom_model.specs.Trio.{trio};
ghost use Rattle.rom_heap.specs.Answers as told;
ghost use Rattle.rom_heap.specs.Laws as laws;
ghost use Rattle.rom_model.proofs.Tags.{call_only, reply_back, reply_few, reply_only};

use crate::answer::answer;
use crate::apply::{apply, apply_words};
use crate::fresh::format_region;
use crate::inspect::{inspect, inspect_old};
use crate::renew::renew_region;
use rom_model::{
    Answer, Args, Back, Call, Kind, Look, MAX_MEMBERS, Object, Query, Renew, Reply, Space, Unfit,
    VecSpace, call_words, put_call_words, reply_words, words_call, words_reply,
};
use std::alloc::{AllocError, Global};

/// A queue, a set and a map of numbers.
#[derive(Clone, Copy, Debug)]
pub struct Trio;

impl Object for Trio {
    ghost KIND = { 1 };

    const KIND: u64 = 1;

    // Above the most of an update of one structure: 25 at order 16, `most_stores` and one for the count.
    ghost STORES = { 32 };

    const STORES: u64 = 32;

    ghost WEIGHT = { MAX_MEMBERS };

    const WEIGHT: u64 = MAX_MEMBERS as u64;

    ghost State = { State };

    type Call = Call;

    type Query = Query;

    type Reply = Reply;

    type Answer = Answer;

    ghost machine = { trio };

    ghost Contents = { Contents };

    ghost Rejects = { told.Rejects };

    ghost earlier = { told.earlier };

    fn weight_of(call: &Call) -> u64 {
        match call.kind() {
            Kind::Single(_) => 1,
            Kind::Several(group) => group.len(),
        }
    }

    fn call_words(call: &Call) -> Args {
        call_words(call)
    }

    fn put_call_words(call: &Call, words: &mut Args) {
        put_call_words(call, words);
    }

    fn words_call(words: &Args) -> Option<Call> {
        words_call(words)
    }

    fn reply_words(reply: &Reply) -> Back {
        reply_words(reply)
    }

    fn words_reply(words: &Back) -> Option<Reply> {
        words_reply(words)
    }

    fn format<M: Space>(space: &mut M, order: u32) {
        format_region(space, order);
    }

    fn apply<M: Space>(space: &mut M, order: u32, call: &Call) -> Reply {
        apply(space, order, call)
    }

    fn apply_words<M: Space>(space: &mut M, order: u32, words: &Args, told: &mut Back) {
        apply_words(space, order, words, told);
    }

    #[inline(always)]
    fn answer<M: Look>(space: &mut M, order: u32, query: &Query) -> Answer {
        answer(space, order, query)
    }

    fn inspect(alloc: Global, region: &[u64], order: u32) -> Result<(), Unfit> {
        inspect(alloc, region, order)
    }

    ghost call_only = { call_only };

    ghost reply_back = { reply_back };

    ghost reply_only = { reply_only };

    ghost reply_few = { reply_few };

    ghost one_contents = { laws.one_contents };

    ghost contents_within = { laws.contents_within };
}

impl Renew for Trio {
    fn inspect_old(alloc: Global, region: &[u64], order: u32) -> Result<(), Unfit> {
        inspect_old(alloc, region, order)
    }

    fn renew(alloc: Global, space: &mut VecSpace, order: u32) -> Result<(), AllocError> {
        renew_region(alloc, space, order)
    }

    ghost one_earlier = { laws.one_earlier };

    ghost earlier_within = { laws.earlier_within };

    ghost next_is = { laws.next_is };
}
