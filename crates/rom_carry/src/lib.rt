//! How what a heap holds is carried over into another one: as scripts, and into a region of a greater order.
//!
//! It knows lines, scripts and regions of words; it knows no device, no command and no object by name.
//!
//! An object's heaps are carried over by a `Carry` of it. That takes the elements out of a region, which are written
//! in lines that put them into a new heap, and makes a region of a greater order that stands for the same.
//! `specs/Rebuilds` says what scripts are for: read as scripts are read, and done in a new heap of the same or of a
//! greater order, they give the same elements, and none is refused. A `Part` of the lines is a script that is printed
//! in blocks, and takes no memory.
#![tactic(auto)]

mod carry;
mod gauge;
mod part;
mod written;

pub use carry::Carry;
pub use gauge::{percent_of, print_gauge};
pub use part::Part;
pub use written::Written;
