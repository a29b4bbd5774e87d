//! How a queue, a set and a map are carried over into another heap.
//!
//! It knows the elements of a region and the lines that make them again, what is told of a region's sizes, and
//! a region of a greater order with the same elements; it knows no device and no command.
//!
//! `CarryTrio` is the `Carry` of the object. `elements` has the elements of a heap's image, as they stand in its
//! chains. Eight of them have a line: `tx`, and of each `enq V` for a value of the queue, `add K` for a number of
//! the set, `put K V` for a key of the map and its value. So a script loads eight elements by one update.
//! `specs/Carried` says what the lines are for: done in a new heap of the same or of a greater order they give
//! the state that the elements are of, but for stamps, and none of them is told that the heap is full. `grow`
//! fills a region of a greater order, and keeps the stamps too.
#![tactic(auto)]

mod carry;
mod elements;
mod group;
mod grow;
mod line;
mod lines;
mod measures;
mod written;

pub use carry::CarryTrio;
pub use elements::Elements;
