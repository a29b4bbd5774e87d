//! Words in memory that count their loads and stores and have a limit on the stores, for the tests
//! of crates that work on a space.
//!
//! It knows how many loads and stores were made; it knows nothing of what the words mean.
//!
//! A call that is generic over a space is proved for every space, also for one that counts and has
//! a limit; words in memory alone do neither, and so would not show that its contract can be met
//! there. Only crates of tests name this one. Its contracts promise that the counts are those
//! that a contract speaks of: each load and each store is counted once, and the limit is the one
//! given.
#![tactic(auto)]

mod counted;
mod tally;

pub use counted::Counted;
