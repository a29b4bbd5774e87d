//! Devices of 64-bit words, and what a stop may leave of them.
//!
//! It knows words, syncs, faults and stops; it knows no header, no region and no heap.
//!
//! A device is read and written word by word, one or many at a call, and made certain by a sync.
//! The contract of `Device` says what each call does to the words, which images a stop during or
//! after it may leave, and that a call fails only where the device's own count of faults rose.
//! `specs/Device` has those rules for one call, a loop and a whole function alike, and
//! `proofs/Going` the lemmas by which runs of calls are joined.
//!
//! `Ram` never fails. `Memory` fails exactly where it is told to or its room is used up, and a crash
//! of it gives each image that a stop may leave, and no other. `Resumed` is one that an earlier program
//! left, with older words of which no sync makes the newer ones certain until they are written again.
//! `Fuse` fails from some call on.
//! `CachedDevice` reads ahead and gathers the words of a `Medium`, and tells what its medium tells:
//! over a `Memory` all, over a file nothing. `FileDevice` is the one over a file. What is trusted of a
//! file stands where it is made a medium, in `file_medium.rt`.
#![tactic(auto)]

mod cached;
mod cached_device;
mod call;
mod certain;
mod device;
mod file;
mod file_medium;
mod followed;
mod fuse;
mod keeping;
mod kept;
mod medium;
mod memory;
mod memory_medium;
mod page;
mod ram;
mod resumed;
mod run;
mod trip;
mod windows;

pub use cached_device::CachedDevice;
pub use call::{CallKind, LoggedCall};
pub use certain::write_certain;
pub use device::{Device, Failed};
pub use file::FileDevice;
pub use file_medium::FileMedium;
pub use fuse::Fuse;
pub use medium::Medium;
pub use memory::Memory;
pub use ram::Ram;
pub use resumed::Resumed;
pub use trip::{Trip, every_trip};
