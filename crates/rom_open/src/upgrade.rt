//! A heap of version 1 on a device made one of version 2.
//!
//! [`upgrade_device`] opens the heap as an opening does, and has the object test the region that counts
//! as one of version 1. It makes the new region in memory, and then writes it in one batch, as an update
//! is written: so a stop at any moment leaves the heap of version 1 or that of version 2, and both hold
//! the same state and the same count. Its contract says what each refusal comes from, what is counted,
//! and what a stop at any moment leaves.

mod batch;
mod inspection;
mod renewal;
mod upgrade;

pub use upgrade::upgrade_device;
