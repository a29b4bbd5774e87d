//! Up to 256 bytes as one value, in the words in which a region keeps them.
//!
//! Bytes stand in words of 64 bits, eight to a word and the least first; behind the last byte its word
//! is filled with zeros. The contracts promise that bytes that were stored stand there and are the bytes
//! that a load finds, that no other word changes, and how many loads and stores a call makes at most;
//! they hold over any space of words. Each list of bytes has words of its own, from which it is read
//! back, and words that are those of no bytes are refused, as are more than 256 bytes. Where bytes stand
//! and how many they are is for the caller to keep.

mod chunk;

pub use chunk::Chunk;
