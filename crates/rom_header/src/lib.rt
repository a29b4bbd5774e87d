//! The layout of a heap on a device: its header, its two regions, and the making of a new heap.
//!
//! It knows where the header and both regions stand; it knows nothing of what a region's words mean.
//!
//! A heap of order n keeps a region of W = 16 + 6 * 2^n words twice, as main from word 8 on and as
//! back behind it. The header in words 0 to 7 names the format, the order and a state, which says
//! which region counts. The contracts promise that each refusal of a header comes exactly where
//! its test fails, and that a stop while a heap is made leaves what it might have left before, or
//! no magic word, or the whole new heap.
#![tactic(auto)]

mod fresh;
mod geometry;
mod header;

pub use fresh::{FormatRefused, write_new};
pub use geometry::Geometry;
pub use header::{HEADER_VERSION, Header, HeaderRefused, MAGIC, STATE, State, read_header};
