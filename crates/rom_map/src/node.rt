//! A node of the map: the node of a key in its bucket's chain, with the key's value and its stamp.

use rom_bucket::{BUCKET_LAST, BUCKET_LINK, BUCKET_SECOND};

/// Where in a node the key's value stands.
pub const MAP_VALUE: u64 = BUCKET_SECOND;

/// Where in a node its link stands.
pub const MAP_LINK: u64 = BUCKET_LINK;

/// Where in a node the key's stamp stands. In a region of version 1 it is 0.
pub const MAP_STAMP: u64 = BUCKET_LAST;
