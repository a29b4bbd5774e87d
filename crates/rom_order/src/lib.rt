//! The program of an ordered index: a map from numbers to numbers, kept in a heap with the promise of a
//! program.
//!
//! It knows calls, lines and replies of an index; devices and callers are below `rom_run`.
//!
//! `Ordered` implements `Object`, by which all below knows it; `OrderLines` says how its calls and queries
//! are written. `run_order` does all that the program does, and its contract carries the promise of the
//! whole, in the record that the program of a queue, a set and a map promises too: each printed reply is
//! what the map gives at its printed place in one history, each update once and in its caller's order,
//! each read from one committed state; what a stop leaves of the device at any moment is told by that
//! history, and opens again; each refusal is told by its cause, and a heap is refused exactly where its
//! words are not a well-formed region, by the first test that does not hold; and where nothing fails the
//! command is done. No two lists of results have one text. What the words of a region mean is told by
//! `rom_order_region`.
#![tactic(auto)]

mod codes;
mod index;
mod language;
mod program;

pub use index::Ordered;
pub use language::OrderLines;
pub use program::run_order;
pub use rom_order_region::{
    OrderAnswer, OrderCall, OrderQuery, OrderReply, order_del, order_from, order_get, order_put,
    order_range,
};
pub use rom_run::{Ended, Status, plain_files as files_of};
pub use rom_store::{NoGate, Session};
pub use rom_text::{DeviceWant, Wanted};
