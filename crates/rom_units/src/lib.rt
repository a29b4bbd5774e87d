//! Tests of the lower layers, by what their crates show to all.
//!
//! It knows the public calls of single crates; it knows no heap that callers share.
//!
//! Contracts say what each call does. Here the definitions that they cite are held against words, bytes
//! and lines that were worked out by hand, and each public call is made once with ample memory. Most
//! tests are rows of data with one runner. No crate stands on this one, and the crates that it asks have
//! no tests of their own: a suite of tests is checked as a program, which takes a minute before its first
//! function. Tests that need the shared words stand in `rom_rows`, whole runs in `rom_runs`.
#![tactic(auto)]

#[cfg(test)]
mod block;
#[cfg(test)]
mod device;
#[cfg(test)]
mod devices;
#[cfg(test)]
mod drill;
#[cfg(test)]
mod file;
#[cfg(test)]
mod files;
#[cfg(test)]
mod groups;
#[cfg(test)]
mod header;
#[cfg(test)]
mod heap;
#[cfg(test)]
mod host;
#[cfg(test)]
mod model;
#[cfg(test)]
mod recover;
#[cfg(test)]
mod regions;
#[cfg(test)]
mod renew;
#[cfg(test)]
mod right;
#[cfg(test)]
mod rule;
#[cfg(test)]
mod script;
#[cfg(test)]
mod store;
#[cfg(test)]
mod text;
#[cfg(test)]
mod told;
#[cfg(test)]
mod twin;
