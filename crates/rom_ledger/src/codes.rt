//! The words that stand for calls and replies. Those of a queue, a set and a map have tags up to 8 and up to 14.
ghost use Rattle.std.specs.Prelude.{◌≡◌, ◌≤◌, ◌+◌, ◌++◌, length, Some};
ghost use Rattle.rom_model.specs.declared.words.TheConstants.{CALL_WORDS, REPLY_WORDS};
ghost use Rattle.rom_ledger.specs.Codes as codes;
ghost use Rattle.rom_ledger.specs.declared.call.LedgerCall.TheVariants as variant;

use crate::call::{Conditional, LedgerCall, LedgerReply, LedgerSingle, LedgerTold};
use rom_model::{
    Args, Back, Single, SingleReply, put_call_words, put_reply_words, words_call, words_reply,
};

/// Makes the words those of a conditional update, whatever they were.
pub(crate) fn put_conditional_words(call: &Conditional, words: &mut Args)
    ensures words { words.new ≡ codes.conditional_words call.now }
    ensures back { codes.words_ledger_call words.new ≡ Some (variant.Conditional call.now) }
{
    words.clear();
    match *call {
        Conditional::Inc(key, amount) => words.extend(&[9, key, amount]),
        Conditional::New(key, value) => words.extend(&[10, key, value]),
        Conditional::Cas(key, was, value) => words.extend(&[11, key, was, value]),
        Conditional::DeqIf(value) => words.extend(&[12, value]),
    }
}

/// The conditional update that the words are those of.
pub(crate) fn words_conditional(words: &[u64]) -> Option<Conditional>
    ensures { result ≡ codes.words_conditional words.now }
{
    match words {
        [9, key, amount] => Some(Conditional::Inc(*key, *amount)),
        [10, key, value] => Some(Conditional::New(*key, *value)),
        [11, key, was, value] => Some(Conditional::Cas(*key, *was, *value)),
        [12, value] => Some(Conditional::DeqIf(*value)),
        _ => None,
    }
}

/// Makes the words those of a call, whatever they were.
pub(crate) fn put_ledger_call(call: &LedgerCall, words: &mut Args)
    ensures words { words.new ≡ codes.ledger_call_words call.now }
    ensures back { codes.words_ledger_call words.new ≡ Some call.now }
{
    match call {
        LedgerCall::Heap(own) => put_call_words(own, words),
        LedgerCall::Conditional(own) => put_conditional_words(own, words),
    }
}

/// The call that the words are those of. It is `None` exactly where there is none.
pub(crate) fn words_ledger_call(words: &Args) -> Option<LedgerCall>
    ensures { result ≡ codes.words_ledger_call words.now }
{
    match words_conditional(words.as_slice()) {
        Some(own) => Some(LedgerCall::Conditional(own)),
        None => Some(LedgerCall::Heap(words_call(words)?)),
    }
}

/// Makes the words those of a reply, whatever they were.
pub(crate) fn put_ledger_reply(reply: &LedgerReply, words: &mut Back)
    ensures words { words.new ≡ codes.ledger_reply_words reply.now }
    ensures back { codes.words_ledger_reply words.new ≡ Some reply.now }
{
    match reply {
        LedgerReply::Heap(own) => put_reply_words(own, words),
        LedgerReply::Other(value) => {
            words.clear();
            words.extend(&[15, *value]);
        }
    }
}

/// The reply that the words are those of. It is `None` exactly where there is none.
pub(crate) fn words_ledger_reply(words: &Back) -> Option<LedgerReply>
    ensures { result ≡ codes.words_ledger_reply words.now }
{
    match words.as_slice() {
        [15, value] => Some(LedgerReply::Other(*value)),
        _ => Some(LedgerReply::Heap(words_reply(words)?)),
    }
}

/// Adds the words of a member at the end.
pub(crate) fn push_member(member: &LedgerSingle, words: &mut Args)
    requires { length words.old + 4 ≤ CALL_WORDS }
    ensures { words.new ≡ words.old ++ codes.member_words member.now }
{
    match *member {
        LedgerSingle::Heap(Single::Enq(v)) => words.extend(&[1, v, 0, 0]),
        LedgerSingle::Heap(Single::Deq) => words.extend(&[2, 0, 0, 0]),
        LedgerSingle::Heap(Single::Add(k)) => words.extend(&[3, k, 0, 0]),
        LedgerSingle::Heap(Single::Rem(k)) => words.extend(&[4, k, 0, 0]),
        LedgerSingle::Heap(Single::Put(k, v)) => words.extend(&[5, k, v, 0]),
        LedgerSingle::Heap(Single::Del(k)) => words.extend(&[6, k, 0, 0]),
        LedgerSingle::Heap(Single::Move(a, b, d)) => words.extend(&[7, a, b, d]),
        LedgerSingle::Conditional(Conditional::Inc(k, d)) => words.extend(&[9, k, d, 0]),
        LedgerSingle::Conditional(Conditional::New(k, v)) => words.extend(&[10, k, v, 0]),
        LedgerSingle::Conditional(Conditional::Cas(k, u, v)) => words.extend(&[11, k, u, v]),
        LedgerSingle::Conditional(Conditional::DeqIf(v)) => words.extend(&[12, v, 0, 0]),
    }
}

/// The member that the words are those of.
pub(crate) fn read_member(words: &[u64]) -> Option<LedgerSingle>
    ensures { result ≡ codes.words_member words.now }
{
    match *words {
        [1, v, 0, 0] => Some(LedgerSingle::Heap(Single::Enq(v))),
        [2, 0, 0, 0] => Some(LedgerSingle::Heap(Single::Deq)),
        [3, k, 0, 0] => Some(LedgerSingle::Heap(Single::Add(k))),
        [4, k, 0, 0] => Some(LedgerSingle::Heap(Single::Rem(k))),
        [5, k, v, 0] => Some(LedgerSingle::Heap(Single::Put(k, v))),
        [6, k, 0, 0] => Some(LedgerSingle::Heap(Single::Del(k))),
        [7, a, b, d] => Some(LedgerSingle::Heap(Single::Move(a, b, d))),
        [9, k, d, 0] => Some(LedgerSingle::Conditional(Conditional::Inc(k, d))),
        [10, k, v, 0] => Some(LedgerSingle::Conditional(Conditional::New(k, v))),
        [11, k, u, v] => Some(LedgerSingle::Conditional(Conditional::Cas(k, u, v))),
        [12, v, 0, 0] => Some(LedgerSingle::Conditional(Conditional::DeqIf(v))),
        _ => None,
    }
}

/// Adds the words of what a member is told at the end.
pub(crate) fn push_told(told: &LedgerTold, words: &mut Back)
    requires { length words.old + 2 ≤ REPLY_WORDS }
    ensures { words.new ≡ words.old ++ codes.told_words told.now }
{
    match *told {
        LedgerTold::Heap(SingleReply::Queued) => words.extend(&[1, 0]),
        LedgerTold::Heap(SingleReply::Full) => words.extend(&[2, 0]),
        LedgerTold::Heap(SingleReply::Head(v)) => words.extend(&[3, v]),
        LedgerTold::Heap(SingleReply::Empty) => words.extend(&[4, 0]),
        LedgerTold::Heap(SingleReply::Added) => words.extend(&[5, 0]),
        LedgerTold::Heap(SingleReply::Present) => words.extend(&[6, 0]),
        LedgerTold::Heap(SingleReply::Removed) => words.extend(&[7, 0]),
        LedgerTold::Heap(SingleReply::Absent) => words.extend(&[8, 0]),
        LedgerTold::Heap(SingleReply::NoPrior) => words.extend(&[9, 0]),
        LedgerTold::Heap(SingleReply::Was(v)) => words.extend(&[10, v]),
        LedgerTold::Heap(SingleReply::Moved) => words.extend(&[11, 0]),
        LedgerTold::Heap(SingleReply::Short(v)) => words.extend(&[12, v]),
        LedgerTold::Heap(SingleReply::Over) => words.extend(&[13, 0]),
        LedgerTold::Other(v) => words.extend(&[15, v]),
    }
}

/// What a member was told by these words.
pub(crate) fn read_told(words: &[u64]) -> Option<LedgerTold>
    ensures { result ≡ codes.words_told words.now }
{
    match *words {
        [1, 0] => Some(LedgerTold::Heap(SingleReply::Queued)),
        [2, 0] => Some(LedgerTold::Heap(SingleReply::Full)),
        [3, v] => Some(LedgerTold::Heap(SingleReply::Head(v))),
        [4, 0] => Some(LedgerTold::Heap(SingleReply::Empty)),
        [5, 0] => Some(LedgerTold::Heap(SingleReply::Added)),
        [6, 0] => Some(LedgerTold::Heap(SingleReply::Present)),
        [7, 0] => Some(LedgerTold::Heap(SingleReply::Removed)),
        [8, 0] => Some(LedgerTold::Heap(SingleReply::Absent)),
        [9, 0] => Some(LedgerTold::Heap(SingleReply::NoPrior)),
        [10, v] => Some(LedgerTold::Heap(SingleReply::Was(v))),
        [11, 0] => Some(LedgerTold::Heap(SingleReply::Moved)),
        [12, v] => Some(LedgerTold::Heap(SingleReply::Short(v))),
        [13, 0] => Some(LedgerTold::Heap(SingleReply::Over)),
        [15, v] => Some(LedgerTold::Other(v)),
        _ => None,
    }
}
