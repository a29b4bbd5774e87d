//! Tests that need a heap's object and the crates which know no object, together.
//!
//! It knows passes and callers with an object; it knows no script's bytes and no text.
//!
//! The crates that keep a heap safe are generic in its object, and have none to be tried with. Here
//! passes run on a heap of `Trio` on devices in memory, which list their calls, fail where they are told
//! to and are stopped anywhere; then what is left is opened again. Callers post and read in threads of
//! their own beside the passes; they call a store, and scripts of theirs are played. No crate stands on
//! this one. The functions that are no tests have contracts for the tests' sake: each test says what
//! callers are told and what a device then holds.
#![tactic(auto)]

#[cfg(test)]
mod asked;
#[cfg(test)]
mod cached;
mod callers;
#[cfg(test)]
mod cores;
#[cfg(test)]
mod crowd;
#[cfg(test)]
mod early;
#[cfg(test)]
mod heaps;
#[cfg(test)]
mod hindered;
mod job;
#[cfg(test)]
mod passes;
#[cfg(test)]
mod played;
#[cfg(test)]
mod ranges;
#[cfg(test)]
mod readers;
#[cfg(test)]
mod seats;
mod stay;
#[cfg(test)]
mod stores;
#[cfg(test)]
mod turns;
mod watched;
mod work;
