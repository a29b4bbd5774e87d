//! A replica of a heap over any carrier of bytes: one command writes what it does as frames, and another does
//! what the frames say on a heap of its own.
//!
//! It knows its commands, makes frames of a history, and does what frames say; it knows no carrier of bytes
//! but as a source.
//!
//! `run_replica` does all that the program does, but for names of heaps, and its contract carries the promise
//! of the whole. `ship` plays scripts on a heap with the promise that `run` has, and its text is the frames
//! of the history, in order. `follow` takes the frames of a stream, one after another, up to the first stop:
//! which frames became entries of the heap's history, which were known and which came early is told by their
//! places and the count alone, each stop has its cause and its status, and what the device failing or
//! stopping at any moment leaves is told by that history.
//!
//! No clause of this crate says that a follower holds a prefix of its primary's history: the heap's own is
//! the only history that is known here. `rom_follow` promises it of every legal history that the follower
//! follows, by clauses of the calls that `follow` makes. `rom_tail`, which follows in batches, has it in its promise.
#![tactic(auto)]

mod counting;
mod follow;
mod program;
mod ship;
mod stop;
mod stream;
mod tally;
mod text;
mod words;

pub use program::run_replica;
pub use rom_run::{Ended, Plain, Status};
pub use rom_store::{NoGate, Session};
pub use rom_text::{DeviceWant, Wanted};
pub use stop::Stop;
pub use tally::Tally;
pub use text::{Counts, print_counts};
pub use words::{files_of, read_command};
