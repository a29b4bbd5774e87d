//! A heap that follows a stream without an end, in batches: frames that have come together share the syncs of
//! one pass.
//!
//! It knows streams of frames and a store of one thread, and by `rom_name` whose stream a heap may follow; it knows no
//! words of a command, and no carrier of bytes but as a source.
//!
//! [`follow_named`] does all that a program does with a stream that has a name: it meets the heap and the stream, and
//! follows as [`tail`] does, or tells why not. So no frame of another heap is done, nor one behind a gap. [`tail`]'s
//! contract carries the promise of the following. Which frames became entries of the
//! heap's history, which were known and which came early is told by their places and the count alone. Each
//! stop has its cause and its status, and what the device failing or stopping at any moment leaves is told
//! by that history. Where all frames are of one legal history, the heap ends at a prefix of it. So does
//! each image that a stop at any moment leaves.
#![tactic(auto)]

mod batch;
mod chaser;
mod few;
mod following;
mod front;
mod intake;
mod named;
mod program;
mod tailing;
mod tally;

pub use named::{NamedEnd, follow_named};
pub use program::tail;
pub use rom_replica::Stop;
pub use rom_run::{Ended, Status};
pub use tally::Tally;
