//! What the lines of a script ask keys with bytes for.
ghost use Rattle.std.specs.Prelude.{◌≡◌, ◌≢◌, ◌^◌, ◌<◌, ℕ, [], ◌∷◌, codes, decimal, IfSome, IfNone};
ghost use Rattle.rom_text.specs.Phrases.{line_words};
ghost use Rattle.rom_blob.specs.Lines.{IsBlobCall, IsNoCall, IsNoQuery, IsQuery, ReadsBlobs};
ghost use Rattle.rom_blob.specs.Longest.{long_unread};

use crate::blobs::Blobs;
use crate::bytes::read_bytes;
use memchr::memchr;
use rom_blob_region::{BlobCall, BlobQuery};
use rom_model::Step;
use rom_text::{Lines, ShortLines, read_number};

/// What stands before the first space, and what stands behind it. `None` where there is no space.
fn split_word(text: &[u8]) -> Option<(&[u8], &[u8])>
    ensures some { IfSome result (λ p. line_words text.now ≡ p.0.now ∷ line_words p.1.now) }
    ensures none { IfNone result (line_words text.now ≡ text.now ∷ []) }
{
    let at = memchr(b' ', text)?;
    Some((&text[..at], &text[at + 1..]))
}

/// The key that a text is.
fn read_key(text: &[u8]) -> Option<u64>
    ensures some { IfSome result (λ key. line_words text.now ≡ decimal key ∷ []) }
    ensures none { IfNone result ((key : ℕ) → key < 2 ^ 64
        → line_words text.now ≢ decimal key ∷ []) }
{
    read_number(text)
}

/// The call that gives a key bytes, where the text is the key and the bytes.
fn read_set(text: &[u8]) -> Option<BlobCall>
    ensures some { IfSome result (IsBlobCall (codes "set" ∷ line_words text.now)) }
    ensures none { IfNone result (IsNoCall (codes "set" ∷ line_words text.now)) }
{
    let (key, bytes) = split_word(text)?;
    Some(BlobCall::Set(read_number(key)?, read_bytes(bytes)?))
}

/// The call that takes a key out, where the text is the key.
fn read_cut(text: &[u8]) -> Option<BlobCall>
    ensures some { IfSome result (IsBlobCall (codes "cut" ∷ line_words text.now)) }
    ensures none { IfNone result (IsNoCall (codes "cut" ∷ line_words text.now)) }
{
    Some(BlobCall::Cut(read_key(text)?))
}

/// The call that a line with this first word and this text behind it asks for.
fn asked_call(name: &[u8], text: &[u8]) -> Option<BlobCall>
    ensures some { IfSome result (IsBlobCall (name.now ∷ line_words text.now)) }
    ensures none { IfNone result (IsNoCall (name.now ∷ line_words text.now)) }
{
    match name {
        b"set" => read_set(text),
        b"cut" => read_cut(text),
        _ => None,
    }
}

/// The query that such a line asks for.
fn asked_query(name: &[u8], text: &[u8]) -> Option<BlobQuery>
    ensures some { IfSome result (IsQuery (name.now ∷ line_words text.now)) }
    ensures none { IfNone result (IsNoQuery (name.now ∷ line_words text.now)) }
{
    match name {
        b"fetch" => Some(BlobQuery::Fetch(read_key(text)?)),
        _ => None,
    }
}

/// What a line of one word asks for.
fn asked_alone(word: &[u8]) -> Step<BlobCall, BlobQuery>
    requires alone { line_words word.now ≡ word.now ∷ [] }
    ensures reads { ReadsBlobs word.now result }
{
    match word {
        b"size" => Step::Ask(BlobQuery::Size),
        _ => Step::Unread,
    }
}

/// The lines `set K HEX`, `cut K`, `fetch K` and `size`, where K is a number and HEX are up to 256 bytes in
/// lower-case digits, two to each, or `-` for no bytes. One space stands between two words.
pub struct BlobLines;

impl Lines<Blobs> for BlobLines {
    ghost Reads = { ReadsBlobs };

    fn read_line(line: &[u8]) -> Step<BlobCall, BlobQuery> {
        let Some((name, text)) = split_word(line) else {
            return asked_alone(line);
        };
        if let Some(call) = asked_call(name, text) {
            return Step::Update(call);
        }
        match asked_query(name, text) {
            Some(query) => Step::Ask(query),
            None => Step::Unread,
        }
    }
}

impl ShortLines<Blobs> for BlobLines {
    ghost long_unread = { long_unread };
}
