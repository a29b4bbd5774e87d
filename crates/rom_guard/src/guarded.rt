//! The object.
ghost use Rattle.std.specs.Prelude.{max};
ghost use Rattle.rom_guard.specs.Guarded.{guarded};
ghost use Rattle.rom_guard.specs.Laws.{guarded_call_only, guarded_reply_back, guarded_reply_few, guarded_reply_only};

use crate::call::{GuardedCall, GuardedReply};
use crate::codes::{guarded_reply_words, put_guarded_call, read_guarded_call, read_guarded_reply};
use crate::group::{Group, ToldAll};
use crate::members::Members;
use crate::work::apply_group;
use rom_model::{Args, Back, Look, Object, Space, Unfit};
use std::alloc::Global;
use std::marker::PhantomData;

/// The greatest weight of a guarded group: each member counts twice, since what it stores may be taken
/// back.
const GROUP: u64 = 16;

/// An object with guarded groups of such members. `N` before-images are kept at most: eight times what one
/// member may store.
#[derive(Clone, Copy, Debug)]
pub struct Guarded<O, P, const N: usize> {
    object: PhantomData<O>,
    members: PhantomData<P>,
}

impl<O: Object + Copy, P: Members<O, N> + Copy, const N: usize> Object for Guarded<O, P, N> {
    ghost KIND = { O.KIND };

    const KIND: u64 = O::KIND;

    ghost STORES = { O.STORES };

    const STORES: u64 = O::STORES;

    ghost WEIGHT = { max O.WEIGHT 16 };

    const WEIGHT: u64 = if O::WEIGHT < GROUP { GROUP } else { O::WEIGHT };

    ghost State = { O.State };

    type Call = GuardedCall<O::Call, Group<O, P, N>>;

    type Query = O::Query;

    type Reply = GuardedReply<O::Reply, P::Told, ToldAll<O, P, N>>;

    type Answer = O::Answer;

    ghost machine = { guarded O.machine P.shown };

    ghost Contents = { O.Contents };

    ghost Rejects = { O.Rejects };

    ghost earlier = { O.earlier };

    fn weight_of(call: &Self::Call) -> u64 {
        match call {
            GuardedCall::Own(own) => O::weight_of(own),
            GuardedCall::All(group) => 2 * group.len(),
        }
    }

    fn call_words(call: &Self::Call) -> Args {
        let mut words = Args::new();
        put_guarded_call::<O, P, N>(call, &mut words);
        words
    }

    fn put_call_words(call: &Self::Call, words: &mut Args) {
        put_guarded_call::<O, P, N>(call, words);
    }

    fn words_call(words: &Args) -> Option<Self::Call> {
        read_guarded_call::<O, P, N>(words)
    }

    fn reply_words(reply: &Self::Reply) -> Back {
        guarded_reply_words::<O, P, N>(reply)
    }

    fn words_reply(words: &Back) -> Option<Self::Reply> {
        read_guarded_reply::<O, P, N>(words)
    }

    fn format<M: Space>(space: &mut M, order: u32) {
        O::format(space, order);
    }

    fn apply<M: Space>(space: &mut M, order: u32, call: &Self::Call) -> Self::Reply {
        match call {
            GuardedCall::Own(own) => GuardedReply::Own(O::apply(space, order, own)),
            GuardedCall::All(group) => {
                let mut told = Back::new();
                apply_group::<O, P, M, N>(space, order, group.words.as_slice(), &mut told);
                read_guarded_reply::<O, P, N>(&told).unwrap()
            }
        }
    }

    fn apply_words<M: Space>(space: &mut M, order: u32, words: &Args, told: &mut Back) {
        match words.as_slice() {
            [0, ..] => apply_group::<O, P, M, N>(space, order, words.as_slice(), told),
            _ => O::apply_words(space, order, words, told),
        }
    }

    #[inline(always)]
    fn answer<M: Look>(space: &mut M, order: u32, query: &O::Query) -> O::Answer {
        O::answer(space, order, query)
    }

    fn inspect(alloc: Global, region: &[u64], order: u32) -> Result<(), Unfit> {
        O::inspect(alloc, region, order)
    }

    ghost call_only = { guarded_call_only O.machine P.shown P.member_only O.call_only };

    ghost reply_back = { guarded_reply_back O.machine P.shown P.member_only P.told_two P.told_back
        P.no_zero_reply O.reply_back };

    ghost reply_only = { guarded_reply_only O.machine P.shown P.told_only O.reply_only };

    ghost reply_few = { guarded_reply_few O.machine P.shown P.member_only P.told_two P.member_four
        O.reply_few };

    ghost one_contents = { O.one_contents };

    ghost contents_within = { O.contents_within };
}
