//! The set of a heap, in the words of a region.
//!
//! It knows the set's words and what blocks they take; it knows no queue, no map and no update as a whole.
//!
//! Each number stands in a block of its own, which links to that of the next greater one. A walk along
//! the chain finds the place of a number, and stops at the first that is not below it; there a new
//! number's block is put in, and the block of one that goes is taken out. The contracts promise of
//! every well-formed region what the set holds then, that each element that stays keeps its block,
//! that no words change but the set's and the allocator's, that an insertion is refused exactly where
//! the heap is full, and how many loads and stores a call makes at most. They hold over any space of
//! words.
#![tactic(auto)]

mod link;
mod node;
mod set;
mod walk;

pub use node::{SET_LINK, SET_ZEROS};
pub use set::{Inserted, set_has, set_insert, set_len, set_remove};
