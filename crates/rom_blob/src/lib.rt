//! Keys with up to 256 bytes each, kept in a heap with the promise of a program: the object, its
//! language and one call.
//!
//! It knows calls, lines and replies of keys with bytes; what the words of their region mean is
//! `rom_blob_region`'s to know, and devices and callers are below `rom_run`.
//!
//! `Blobs` implements `Object`, by which all below knows it; `BlobLines` says how its calls and queries
//! are written. `run_blob` does all that the program does, and its contract carries the promise of the
//! whole, in the record that the program of a queue, a set and a map promises too: each printed reply
//! is what the keys and their bytes give at its printed place in one history, each update once and in
//! its caller's order, each read from one committed state; what a stop leaves of the device at any
//! moment is told by that history, and opens again; each refusal is told by its cause, and a heap is
//! refused exactly where its words are not a well-formed region, by the first test that does not hold;
//! and where nothing fails the command is done. No two lists of results have one text.
//!
//! The states are those of `rom_blob_region`, block by block. `full` is told only where the blocks of the
//! keys that are there have so many units that there may be none for the bytes: a clause of `run_blob`,
//! of each update of its history, and of `apply_blob`. How many loads a query makes at most is the
//! clause `looks` of `answer_blob`. `Blobs` calls both, and they are handed on here.
#![tactic(auto)]

mod blobs;
mod bytes;
mod codes;
mod language;
mod program;

pub use blobs::Blobs;
pub use codes::{call_words, reply_words, words_call, words_reply};
pub use language::BlobLines;
pub use program::run_blob;
pub use rom_blob_region::{
    BlobAnswer, BlobCall, BlobQuery, BlobReply, Chunk, answer_blob, apply_blob, format_blobs,
};
pub use rom_run::{Ended, Status, plain_files as files_of};
pub use rom_store::{NoGate, Session};
pub use rom_text::{DeviceWant, Wanted};
