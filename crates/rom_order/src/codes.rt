//! The words that stand for calls and replies. A tag comes first, then the numbers.
ghost use Rattle.std.specs.Prelude.{◌≡◌, Some};
ghost use Rattle.rom_order.specs.Codes as codes;

use rom_model::{Args, Back};
use rom_order_region::{OrderCall, OrderReply};

/// Makes the words those of a call, whatever they were.
pub(crate) fn put_call_words(call: &OrderCall, words: &mut Args)
    ensures words { words.new ≡ codes.index_call_words call.now }
    ensures back { codes.index_call_from_words words.new ≡ Some call.now }
{
    words.clear();
    match *call {
        OrderCall::Put(k, v) => words.extend(&[1, k, v]),
        OrderCall::Del(k) => words.extend(&[2, k]),
    }
}

/// The words of a call.
pub(crate) fn call_words(call: &OrderCall) -> Args
    ensures words { result ≡ codes.index_call_words call.now }
    ensures back { codes.index_call_from_words result ≡ Some call.now }
{
    let mut words = Args::new();
    put_call_words(call, &mut words);
    words
}

/// The call that the words are those of. It is `None` exactly where they are no call's.
pub(crate) fn words_call(words: &Args) -> Option<OrderCall>
    ensures { result ≡ codes.index_call_from_words words.now }
{
    match words.as_slice() {
        [1, k, v] => Some(OrderCall::Put(*k, *v)),
        [2, k] => Some(OrderCall::Del(*k)),
        _ => None,
    }
}

/// Makes the words those of a reply, whatever they were.
pub(crate) fn put_reply_words(reply: &OrderReply, words: &mut Back)
    ensures words { words.new ≡ codes.index_reply_words reply.now }
    ensures back { codes.index_reply_from_words words.new ≡ Some reply.now }
{
    words.clear();
    match *reply {
        OrderReply::Was(v) => words.extend(&[1, v]),
        OrderReply::NoPrior => words.extend(&[2]),
        OrderReply::Full => words.extend(&[3]),
    }
}

/// The words of a reply.
pub(crate) fn reply_words(reply: &OrderReply) -> Back
    ensures words { result ≡ codes.index_reply_words reply.now }
    ensures back { codes.index_reply_from_words result ≡ Some reply.now }
{
    let mut words = Back::new();
    put_reply_words(reply, &mut words);
    words
}

/// The reply that the words are those of. It is `None` exactly where they are no reply's.
pub(crate) fn words_reply(words: &Back) -> Option<OrderReply>
    ensures { result ≡ codes.index_reply_from_words words.now }
{
    match words.as_slice() {
        [1, v] => Some(OrderReply::Was(*v)),
        [2] => Some(OrderReply::NoPrior),
        [3] => Some(OrderReply::Full),
        _ => None,
    }
}
