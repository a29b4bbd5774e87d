//! The elements of a region, in the order in which a script puts them in again.
//!
//! A walk along each chain takes a queue's values from head to tail, a set's numbers, which rise, and the
//! keys of a map, which rise within each bucket alone and are sorted here. `Elements` keeps them: a word for
//! each value and each number, and two for each key. The contract promises that they are those of the
//! state that the region stands for, in the order that `AreElements` says.

mod chain;
mod element;
mod elements;
mod keys;
mod values;

pub use element::Element;
pub use elements::Elements;
