//! The object.
ghost use Rattle.std.specs.Prelude.{◌≡◌, ◌+◌, ◌<◌, ◌≤◌, ◌*◌, ℕ, true, IsSome, Some};
ghost use Rattle.rom_model.specs.Blocks.{IsOrder};
ghost use Rattle.rom_model.specs.History.{LAST_COUNT};
ghost use Rattle.rom_model.specs.Machine.{on_words, weight_on_words};
ghost use Rattle.rom_model.specs.Space.{HasRoom, Stores};
ghost use Rattle.rom_model.specs.State.{State};
ghost use Rattle.rom_model.specs.Region.{Contents};
ghost use Rattle.rom_model.specs.declared.group.TheConstants.{MAX_MEMBERS};
ghost use Rattle.rom_heap.specs.Answers as told;
ghost use Rattle.rom_heap.specs.Laws as laws;
ghost use Rattle.rom_ledger.specs.Ledger.{ledger};
ghost use Rattle.rom_ledger.specs.Codes as codes;
ghost use Rattle.rom_ledger.specs.State as state;
ghost use Rattle.rom_ledger.specs.Laws.{ledger_call_only, ledger_reply_back, ledger_reply_few, ledger_reply_only};

use crate::call::{Conditional, LedgerCall, LedgerReply, LedgerTold};
use crate::codes::{
    put_ledger_call, put_ledger_reply, words_conditional, words_ledger_call, words_ledger_reply,
};
use crate::conditional::update_conditional;
use rom_heap::Trio;
use rom_model::{
    Answer, Args, Back, COUNT, Look, Object, Query, Reply, Space, Unfit, put_single_reply_words,
};
use std::alloc::Global;

/// A queue, a set and a map of numbers, with updates that depend on what is there.
#[derive(Clone, Copy, Debug)]
pub struct Ledger;

/// Counts a conditional update, and does it.
fn apply_conditional<M: Space>(space: &mut M, order: u32, call: &Conditional) -> LedgerTold
    requires order { IsOrder order }
    requires region { (s : State) × (k : ℕ) × Contents order (M.shown.image space.old) s k
        × (k < LAST_COUNT) }
    requires room { HasRoom M.shown 32 space.old }
    ensures done { (s : State) (k : ℕ) → Contents order (M.shown.image space.old) s k
        → let after = state.conditional order s k call.now in
        (result ≡ after.1) × Contents order (M.shown.image space.new) after.0 (k + 1) }
    ensures stores { Stores M.shown 32 space.old space.new }
{
    let stamp = space.load(COUNT) + 1;
    space.store(COUNT, stamp);
    update_conditional(space, order, call, stamp)
}

/// What is told of an update that is done alone.
fn reply_to(told: LedgerTold) -> LedgerReply
    ensures { result ≡ state.reply_to told }
{
    match told {
        LedgerTold::Heap(own) => LedgerReply::Heap(Reply::plain(own)),
        LedgerTold::Other(value) => LedgerReply::Other(value),
    }
}

/// Makes the words those of what is told of an update that is done alone, whatever they were.
fn put_told(told: LedgerTold, words: &mut Back)
    ensures { words.new ≡ codes.ledger_reply_words (state.reply_to told) }
{
    match told {
        LedgerTold::Heap(own) => put_single_reply_words(own, words),
        LedgerTold::Other(value) => {
            words.clear();
            words.extend(&[15, value]);
        }
    }
}

/// Whether the first of the words is the tag of a conditional update.
fn is_tagged(words: &[u64]) -> bool
    ensures { result ≡ codes.is_tagged words.now }
{
    matches!(words, [9..=12, ..])
}

/// Does the conditional update whose words these are, and tells the words of its reply.
#[cold]
#[inline(never)]
fn apply_tagged<M: Space>(space: &mut M, order: u32, words: &Args, told: &mut Back)
    requires order { IsOrder order }
    requires tagged { codes.is_tagged words.now ≡ true }
    requires call { IsSome (codes.words_ledger_call words.now) }
    requires region { (s : State) × (k : ℕ) × Contents order (M.shown.image space.old) s k
        × (k < LAST_COUNT) }
    requires room { HasRoom M.shown (32 * MAX_MEMBERS) space.old }
    ensures done { (s : State) (k : ℕ) → Contents order (M.shown.image space.old) s k
        → (after : State) × (on_words ledger order s k words.now ≡ Some (after, told.new))
        × Contents order (M.shown.image space.new) after (k + 1) }
    ensures stores { Stores M.shown (32 * weight_on_words ledger words.now) space.old space.new }
    ensures weight { weight_on_words ledger words.now ≤ MAX_MEMBERS }
{
    let own = words_conditional(words.as_slice()).unwrap();
    put_told(apply_conditional(space, order, &own), told);
}

impl Object for Ledger {
    ghost KIND = { 1 };

    const KIND: u64 = 1;

    ghost STORES = { 32 };

    const STORES: u64 = 32;

    ghost WEIGHT = { MAX_MEMBERS };

    const WEIGHT: u64 = Trio::WEIGHT;

    ghost State = { State };

    type Call = LedgerCall;

    type Query = Query;

    type Reply = LedgerReply;

    type Answer = Answer;

    ghost machine = { ledger };

    ghost Contents = { Contents };

    ghost Rejects = { told.Rejects };

    ghost earlier = { told.earlier };

    fn weight_of(call: &LedgerCall) -> u64 {
        match call {
            LedgerCall::Heap(own) => Trio::weight_of(own),
            LedgerCall::Conditional(_) => 1,
        }
    }

    fn call_words(call: &LedgerCall) -> Args {
        let mut words = Args::new();
        put_ledger_call(call, &mut words);
        words
    }

    fn put_call_words(call: &LedgerCall, words: &mut Args) {
        put_ledger_call(call, words);
    }

    fn words_call(words: &Args) -> Option<LedgerCall> {
        words_ledger_call(words)
    }

    fn reply_words(reply: &LedgerReply) -> Back {
        let mut words = Back::new();
        put_ledger_reply(reply, &mut words);
        words
    }

    fn words_reply(words: &Back) -> Option<LedgerReply> {
        words_ledger_reply(words)
    }

    fn format<M: Space>(space: &mut M, order: u32) {
        Trio::format(space, order);
    }

    fn apply<M: Space>(space: &mut M, order: u32, call: &LedgerCall) -> LedgerReply {
        match call {
            LedgerCall::Heap(own) => LedgerReply::Heap(Trio::apply(space, order, own)),
            LedgerCall::Conditional(own) => reply_to(apply_conditional(space, order, own)),
        }
    }

    fn apply_words<M: Space>(space: &mut M, order: u32, words: &Args, told: &mut Back) {
        if is_tagged(words.as_slice()) {
            apply_tagged(space, order, words, told);
        } else {
            Trio::apply_words(space, order, words, told);
        }
    }

    #[inline(always)]
    fn answer<M: Look>(space: &mut M, order: u32, query: &Query) -> Answer {
        Trio::answer(space, order, query)
    }

    fn inspect(alloc: Global, region: &[u64], order: u32) -> Result<(), Unfit> {
        Trio::inspect(alloc, region, order)
    }

    ghost call_only = { ledger_call_only };

    ghost reply_back = { ledger_reply_back };

    ghost reply_only = { ledger_reply_only };

    ghost reply_few = { ledger_reply_few };

    ghost one_contents = { laws.one_contents };

    ghost contents_within = { laws.contents_within };
}
