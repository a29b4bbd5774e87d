//! The inspection of a region of keys with bytes: whether it is well-formed, and if not, which word first
//! breaks which rule.
//!
//! [`inspect_blobs`] tests the root words, walks along the chains of all buckets, in each node the key and
//! the bytes, and at last compares the allocator's tree with that of the blocks that were reached. The
//! contract promises that `Ok` is answered of well-formed regions alone and `Malformed` of the first break
//! alone, and that a well-formed region has no first break and any other words at most one. A walk ends
//! and stays within the region, since each block that it reaches is marked, and no block is reached that
//! meets a marked one.

mod follow;
mod inspection;
mod keys;
mod node;
mod walk;

pub use inspection::inspect_blobs;
