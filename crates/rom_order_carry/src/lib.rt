//! How heaps of an ordered index are carried over into others.
//!
//! It knows the entries of an index, their lines, and regions of an index; it knows no device and no command.
//!
//! The entries are the keys with their values, keys rising. They are asked for one after another, so that they take
//! memory for themselves alone, and each has a line `put K V`. `CarryOrdered` says what is promised: the lines, done
//! in a new heap of the same or of a greater order as one script or as the scripts of two parts, give that very map
//! again, and none is told that the heap is full; a region of a greater order stands for that very map and that very
//! count; and what is told of the size is the map's.
#![tactic(auto)]

mod carry;
mod entries;
mod grow;
mod known;
mod line;
mod sizes;
mod taken;
mod totals;

pub use carry::CarryOrdered;
pub use entries::Entries;
