//! The elements of a region.

mod all;
mod kept;
mod keys;
mod sized;

pub use all::BlobElements;
pub use kept::{Kept, body_units};
