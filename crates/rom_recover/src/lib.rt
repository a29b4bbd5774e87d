//! Recovery: it makes both regions of a heap the one that counts.
//!
//! It knows which region counts, and copies it; it knows nothing of what a region's words mean.
//!
//! Under MUTATING back counts and is copied to main; under COPYING main counts and is copied to
//! back; under IDLE both count, and a difference is refused. The contract of `recover` promises
//! that it may be stopped at any moment and run again: every image that a stop leaves could be left
//! before, or has the same region that counts. `recover_into` does the same, and keeps in memory the
//! region, which is read anyway. `compare` compares both regions, and only reads.
#![tactic(auto)]

mod comparison;
mod copy;
mod keep;
mod piece;
mod recovery;
mod restore;

pub use comparison::compare;
pub use recovery::{RecoverRefused, Recovered, recover, recover_into};
