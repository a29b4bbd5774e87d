//! The words that stand for calls and replies. A tag comes first, then the numbers, and of a call that
//! gives bytes these come last, in as few words as hold them.
ghost use Rattle.std.specs.Prelude.{◌≡◌, ◌<◌, ◌≤◌, ◌∷◌, [], ℕ, length, slice_index, Some};
ghost use Rattle.rom_blob_region.specs.declared.call.BlobCall.TheVariants.{Set};
ghost use Rattle.rom_blob.specs.Codes as codes;

use rom_blob_region::{BlobCall, BlobReply, Chunk};
use rom_model::{Args, Back};

/// Makes no words those of a call that gives a key bytes.
fn put_set_words(key: u64, bytes: &Chunk, words: &mut Args)
    requires { words.old ≡ [] }
    ensures words { words.new ≡ codes.blob_call_words (Set key bytes.now) }
    ensures few { length bytes.now ≤ 256 }
    ensures small { (k : ℕ) → slice_index bytes.now k < 256 }
{
    let len = bytes.len();
    words.extend(&[1, key, len]);
    for i in 0..(len + 7) / 8 {
        words.extend(&[bytes.word(i)]);
    }
}

/// Makes the words those of a call, whatever they were.
pub(crate) fn put_call_words(call: &BlobCall, words: &mut Args)
    ensures words { words.new ≡ codes.blob_call_words call.now }
    ensures back { codes.blob_call_from_words words.new ≡ Some call.now }
{
    words.clear();
    match call {
        BlobCall::Set(key, bytes) => put_set_words(*key, bytes, words),
        BlobCall::Cut(key) => words.extend(&[2, *key]),
    }
}

/// The words of a call.
pub fn call_words(call: &BlobCall) -> Args
    ensures words { result ≡ codes.blob_call_words call.now }
    ensures back { codes.blob_call_from_words result ≡ Some call.now }
{
    let mut words = Args::new();
    put_call_words(call, &mut words);
    words
}

/// The call that gives a key the bytes whose number and words these are.
fn read_set(key: u64, words: &[u64]) -> Option<BlobCall>
    ensures { result ≡ codes.set_blob_call key words.now }
{
    match words {
        [len, words @ ..] => Some(BlobCall::Set(key, Chunk::of_words(words, *len)?)),
        [] => None,
    }
}

/// The call that takes a key out, where no word is left.
fn read_cut(key: u64, words: &[u64]) -> Option<BlobCall>
    ensures { result ≡ codes.cut_call key words.now }
{
    match words {
        [] => Some(BlobCall::Cut(key)),
        [_, ..] => None,
    }
}

/// The call that the words are those of. It is `None` exactly where they are no call's.
pub fn words_call(words: &Args) -> Option<BlobCall>
    ensures { result ≡ codes.blob_call_from_words words.now }
{
    match words.as_slice() {
        [1, key, words @ ..] => read_set(*key, words),
        [2, key, words @ ..] => read_cut(*key, words),
        _ => None,
    }
}

/// Makes the words those of a reply, whatever they were.
pub(crate) fn put_reply_words(reply: &BlobReply, words: &mut Back)
    ensures words { words.new ≡ codes.blob_reply_words reply.now }
    ensures back { codes.blob_reply_from_words words.new ≡ Some reply.now }
{
    words.clear();
    match reply {
        BlobReply::New => words.extend(&[1]),
        BlobReply::Was(len) => words.extend(&[2, *len]),
        BlobReply::Full => words.extend(&[3]),
        BlobReply::NoPrior => words.extend(&[4]),
    }
}

/// The words of a reply.
pub fn reply_words(reply: &BlobReply) -> Back
    ensures words { result ≡ codes.blob_reply_words reply.now }
    ensures back { codes.blob_reply_from_words result ≡ Some reply.now }
{
    let mut words = Back::new();
    put_reply_words(reply, &mut words);
    words
}

/// The reply that the words are those of. It is `None` exactly where they are no reply's.
pub fn words_reply(words: &Back) -> Option<BlobReply>
    ensures { result ≡ codes.blob_reply_from_words words.now }
{
    match words.as_slice() {
        [1] => Some(BlobReply::New),
        [2, len] => Some(BlobReply::Was(*len)),
        [3] => Some(BlobReply::Full),
        [4] => Some(BlobReply::NoPrior),
        _ => None,
    }
}
