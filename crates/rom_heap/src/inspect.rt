//! The inspection of a region of words: whether it is well-formed, and if not, which word first breaks
//! which rule.
//!
//! [`inspect`] asks any words whether they are a region of this version, [`inspect_old`] whether they are
//! one of version 1. Both make the same tests in the same order, but for the version's number and what is
//! asked of a node of the map. The root words come first, then the chains of the queue, of the set and of
//! all buckets of the map, and at last the allocator's tree, whose taken blocks are then those that were
//! reached. The contracts promise that `Ok` is answered of well-formed regions alone and `Malformed` of
//! the first break alone, and that a well-formed region has no first break and any other words at most
//! one. [`inspect`] answers `Old` exactly where the words say that they are a region of version 1, and
//! then looks no further; [`inspect_old`] never does. A walk ends and stays within the region, since each
//! node that it reaches is marked and no marked one is reached again.

mod follow;
mod inspection;
mod keys;
mod parts;
mod version;
mod walk;

pub use inspection::{inspect, inspect_old};
