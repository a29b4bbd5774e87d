//! The object.
ghost use Rattle.rom_model.specs.Earlier.{no_earlier};
ghost use Rattle.rom_order_region.specs.State.{Pairs};
ghost use Rattle.rom_order_region.specs.Region.{IndexContents};
ghost use Rattle.rom_order.specs.Index.{index};
ghost use Rattle.rom_order_region.specs.Inspection.{RejectsIndex};
ghost use Rattle.rom_order.specs.Laws.{one_index_contents, index_contents_within, index_call_only, index_reply_back, index_reply_few, index_reply_only};

use crate::codes::{
    call_words, put_call_words, put_reply_words, reply_words, words_call, words_reply,
};
use rom_model::{Args, Back, Look, Object, Space, Unfit};
use rom_order_region::{
    OrderAnswer, OrderCall, OrderQuery, OrderReply, answer_order, apply_order, format_order,
    inspect_order,
};
use std::alloc::Global;

/// A map from numbers to numbers, in the order of its keys.
#[derive(Clone, Copy, Debug)]
pub struct Ordered;

impl Object for Ordered {
    ghost KIND = { 3 };

    const KIND: u64 = 3;

    ghost STORES = { 256 };

    const STORES: u64 = 256;

    ghost WEIGHT = { 1 };

    const WEIGHT: u64 = 1;

    ghost State = { Pairs };

    type Call = OrderCall;

    type Query = OrderQuery;

    type Reply = OrderReply;

    type Answer = OrderAnswer;

    ghost machine = { index };

    ghost Contents = { IndexContents };

    ghost Rejects = { RejectsIndex };

    ghost earlier = { no_earlier };

    fn weight_of(call: &OrderCall) -> u64 {
        1
    }

    fn call_words(call: &OrderCall) -> Args {
        call_words(call)
    }

    fn put_call_words(call: &OrderCall, words: &mut Args) {
        put_call_words(call, words);
    }

    fn words_call(words: &Args) -> Option<OrderCall> {
        words_call(words)
    }

    fn reply_words(reply: &OrderReply) -> Back {
        reply_words(reply)
    }

    fn words_reply(words: &Back) -> Option<OrderReply> {
        words_reply(words)
    }

    fn format<M: Space>(space: &mut M, order: u32) {
        format_order(space, order);
    }

    fn apply<M: Space>(space: &mut M, order: u32, call: &OrderCall) -> OrderReply {
        apply_order(space, order, call)
    }

    fn apply_words<M: Space>(space: &mut M, order: u32, words: &Args, told: &mut Back) {
        let call = words_call(words).unwrap();
        put_reply_words(&apply_order(space, order, &call), told);
    }

    fn answer<M: Look>(space: &mut M, order: u32, query: &OrderQuery) -> OrderAnswer {
        answer_order(space, order, query)
    }

    fn inspect(alloc: Global, region: &[u64], order: u32) -> Result<(), Unfit> {
        inspect_order(alloc, region, order)
    }

    ghost call_only = { index_call_only };

    ghost reply_back = { index_reply_back };

    ghost reply_only = { index_reply_only };

    ghost reply_few = { index_reply_few };

    ghost one_contents = { one_index_contents };

    ghost contents_within = { index_contents_within };
}
