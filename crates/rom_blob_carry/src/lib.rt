//! How heaps of keys with bytes are carried over into other heaps.
//!
//! It knows what a region of keys with bytes holds, and the lines that give it to another heap; it knows no
//! device and no command.
//!
//! The elements of a region are its keys with their bytes, those whose bytes have large blocks first. In this order
//! each finds room in a new heap of the same or of a greater order, wherever the blocks lay in the old one: the
//! theorem is `packs` in `proofs/Packing`, and the contract of `CarryBlobs` says it of the lines, as one script and
//! as parts. `CarryBlobs` is what `rom_carry` asks of an object: it takes the elements, tells the sizes of a heap,
//! and makes a region of a greater order that stands for the same bytes and the same count.
#![tactic(auto)]

mod carry;
mod elements;
mod grow;
mod line;
mod lines;
mod sizes;
mod totals;

pub use carry::CarryBlobs;
pub use elements::{BlobElements, Kept};
