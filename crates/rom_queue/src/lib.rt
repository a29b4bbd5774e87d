//! The queue of a heap, in the words of a region.
//!
//! It knows the queue's words and what blocks they take; it knows no set, no map and no update as a whole.
//!
//! Each value stands in a block of its own, which links to the next. A push takes the first free
//! block and a pop gives the first node's block back. The contracts promise of every well-formed
//! region what the queue holds then, that each element that stays keeps its block, that no words
//! change but the queue's and the allocator's, that a push is refused exactly where the heap is full,
//! and how many loads and stores a call makes at most. They hold over any space of words.
#![tactic(auto)]

mod ends;
mod node;
mod queue;

pub use node::{QUEUE_LINK, QUEUE_ZEROS};
pub use queue::{queue_front, queue_len, queue_pop, queue_push};
