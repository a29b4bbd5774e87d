//! A heap's two regions on a device, through a batch and through its repair.
//!
//! It knows the state word and both regions through a batch; it knows no caller and no shared word.
//!
//! `Twin` owns the device. Its phase says how far a batch has come, and `specs/Images` is a table of
//! what a stop may leave in each phase, and within each call. The contracts promise that every image
//! is one of that table: so the region that counts is always the committed image, or from the commit
//! on the new one, whole. After a fault the phase names a repair that leads back to equal regions.
#![tactic(auto)]

mod phase;
mod ranges;
mod restore;
mod state;
mod twin;

pub use phase::Phase;
pub use twin::Twin;
