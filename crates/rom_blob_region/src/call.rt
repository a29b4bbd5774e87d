//! What callers ask of keys with bytes, and what they are told.

use crate::bytes::Chunk;

/// An update.
#[derive(Clone, Copy, Debug)]
pub enum BlobCall {
    /// Gives a key bytes.
    Set(u64, Chunk),
    /// Takes a key out.
    Cut(u64),
}

/// A query.
#[derive(Clone, Copy, Debug)]
pub enum BlobQuery {
    /// The bytes of a key.
    Fetch(u64),
    /// How many keys there are.
    Size,
}

/// What an update is told.
#[derive(Clone, Copy, Debug, PartialEq, Eq)]
pub enum BlobReply {
    /// The key has the bytes, and was not there before.
    New,
    /// The key was there, and had so many bytes.
    Was(u64),
    /// There is no room for it, and nothing changed.
    Full,
    /// The key was not there.
    NoPrior,
}

/// What a query is told.
#[derive(Clone, Copy, Debug)]
pub enum BlobAnswer {
    /// The key has these bytes.
    Bytes(Chunk),
    /// The key is not there.
    Missing,
    /// There are so many keys.
    Keys(u64),
}
