//! The heap that a device holds, or one region of it, seen without a write.
//!
//! `view_device` reads the header and the region that counts, under whatever state it finds, and has
//! the object inspect it. A heap in the midst of an update is read from the region that counts, and
//! left so; nothing is recovered. The contract promises that the device is only read, that what is seen
//! is what its words hold, and that a refusal is one that an opening tells of the same words.
//!
//! `view_region` looks at main or at back by itself, where a heap is damaged: neither its state nor the
//! other region is asked. Its contract promises that what is seen is that region, and that a refusal is of
//! the header or of that region.

mod alone;
mod region;
mod view;

pub use alone::{Alone, Region, view_region};
pub use view::{Viewed, view_device};
