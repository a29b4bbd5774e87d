//! Combining: posted calls become one batch, and the device keeps it whole or absent.
//!
//! It knows device and shared words together, for as long as one pass; it knows no object but by `Object`,
//! and no script.
//!
//! [`Core`] runs the passes. A pass finds the posted calls (`scanning`), does them on shared main
//! (`applying`), commits them on the device and sends readers there (`committing`), answers each call
//! (`answering`), and brings both sides and both regions to rest (`resting`). `specs/Passing.antt` says
//! what a pass does to the published history, the records and the callers; `specs/Ends.antt` how its
//! batch may end; `specs/Histories.antt` what a stop leaves, in terms of that history;
//! `specs/AtRest.antt` what holds between passes. A [`Gate`] is told of passes while they run, and can
//! change no reply.
//!
//! What a clause says of a device's words, or of images that a stop leaves, holds where the device tells
//! them. At an `ensures`, "now" is the end of the call, and "no call failed" means that the device's count of
//! faults stayed. A device's count at 2^64 - 1 stands still and tells nothing.
#![tactic(auto)]

mod answering;
mod applying;
mod committing;
mod finding;
mod gate;
mod locked;
mod looking;
mod passed;
mod per_caller;
mod replies;
mod resting;
mod scanning;
mod shipper;
mod sides;
mod steps;

pub use gate::{Gate, NoGate};
pub use locked::Core;
pub use looking::ask_main;
pub use passed::{Outcome, Passed};
pub use replies::Replies;
pub use shipper::{Batch, NoShipper, Shipper};
