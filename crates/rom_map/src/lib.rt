//! The map of a heap, in the words of a region.
//!
//! It knows the map's words and what blocks they take; it knows no queue, no set and no update as a whole.
//!
//! Each key stands with its value, and with the stamp of the update that last wrote it, in a block of its
//! own, in the chain of the key's bucket, whose first link is a word of the bucket table, and along which
//! the keys rise. A walk along that chain finds a key's block or the place where it would stand; a new
//! key's block goes to that place, and the block of one that goes is taken out of the chain. A move of an
//! amount from one key's value to another's changes both values or nothing, and one walk along all chains
//! sums up the values, or counts the keys that were written since a place. The contracts promise of every
//! well-formed region what the map holds then, that each element that stays keeps its block, that no words
//! change but the map's and the allocator's, that a new key is refused exactly where the heap is full, how
//! many loads and stores a call makes at most, and that it stores no more often than words differ
//! afterwards. They hold over any space of words.
#![tactic(auto)]

mod entry;
mod map;
mod node;
mod shift;
mod sums;

pub use map::{Put, map_del, map_get, map_len, map_put};
pub use node::{MAP_LINK, MAP_STAMP, MAP_VALUE};
pub use shift::{Moved, map_move};
pub use sums::{map_fresh, map_total};
