//! Ranges of the words of a region, by which a part of it is named, and a log of offsets that are
//! kept as ranges.
//!
//! It knows offsets and ranges of them; it knows nothing of what the words there mean.
//!
//! `specs/Ranges` says which offsets some ranges hold, and how many. The contract of [`RangeLog`]
//! promises that it holds the offsets that were added since it was cleared, and no other, in ranges
//! that rise, are disjoint and do not touch; within the room of its making it takes no memory.
#![tactic(auto)]

mod holding;
mod log;
mod range;

pub use log::RangeLog;
pub use range::Range;
