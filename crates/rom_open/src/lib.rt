//! A heap of an object on a device: its opening, its making, its upgrade and its view.
//!
//! It knows a heap that nobody shares yet; it knows no caller, no shared word and no text.
//!
//! What the words of a device hold is an order, and a state and a count of the object: the header names the
//! order and the region that counts, and that region stands for the state and the count. [`open_device`]
//! opens the heap that stands there: it reads the header, recovers, keeps in memory the region that a
//! recovery reads anyway, and has the object inspect it; [`make_ready`] is all of this but the inspection.
//! [`format_device`] makes a new heap, with the object's empty state. [`upgrade_device`] makes a heap of
//! region version 1 one of version 2; [`view_device`] and [`view_region`] look at a heap and write nothing. Their
//! contracts say what each refusal comes from; of those that write also what is counted, and what a stop at any
//! moment leaves. This crate stands
//! below the store, for programs that open or make a heap and share no words.
//!
//! What a clause says of a device's words, of words in doubt, or of images that a stop leaves, holds where
//! the device tells them. At an `ensures`, "now" is the end of the call, and "no call failed" means that the
//! device's count of faults stayed. A device's count at 2^64 - 1 stands still and tells nothing.
#![tactic(auto)]

mod from_device;
mod image;
mod new_heap;
mod ready;
mod reasons;
mod upgrade;
mod view;

pub use from_device::{Opened, Refused, open_device};
pub use image::inspect_image;
pub use new_heap::{NotFormatted, format_device, write_heap};
pub use ready::{Ready, make_ready};
pub use reasons::Why;
pub use upgrade::upgrade_device;
pub use view::{Region, view_device, view_region};
