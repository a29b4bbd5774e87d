//! The object of the heap: a queue, a set and a map of numbers in the words of one region.
//!
//! It knows what the words of such a region mean; it knows no device, no caller, no line and no text.
//!
//! `Trio` implements `Object`, by which all above knows it: the region of a new heap, one update, one
//! answer, the words of calls and replies, and the inspection of a region. Its contracts promise of
//! every well-formed region that an update leaves what one queue, set and map give, with the reply that
//! they give, that each update is counted, that one is refused for want of room exactly where the heap
//! is full, and how many loads and stores there are at most. A group of updates is one update: whether
//! one of its members would be refused is found out by loads alone (`fits`), and then nothing but the
//! count is stored. `update_single` is an update of one structure that is counted already, for objects that
//! do several as one. `free_elements` says how much room is left.
//!
//! An update first stores the raised count, which is then the stamp of each value of the map that it
//! writes; the members of a group have one place in the history, and so one stamp. By the stamps
//! `Query::Fresh` tells how many keys were written since.
//!
//! `Trio` implements `Renew` too, by which a region of version 1 becomes one of version 2 (`renew`).
//! Whether words are a region of either version is asked in `inspect`.
#![tactic(auto)]

mod answer;
mod apply;
mod fits;
mod free;
mod fresh;
mod inspect;
mod renew;
mod trio;

pub use apply::update as update_single;
pub use free::free_elements;
pub use trio::Trio;
