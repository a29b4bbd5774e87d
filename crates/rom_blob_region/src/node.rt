//! A node: the node of a key in its bucket's chain, with how many bytes the key has and where they begin.

use rom_bucket::{BUCKET_LAST, BUCKET_LINK, BUCKET_SECOND};

/// Where in a node it stands how many bytes the key has.
pub const LEN: u64 = BUCKET_SECOND;

/// Where in a node its link stands.
pub const LINK: u64 = BUCKET_LINK;

/// Where in a node it stands where the bytes begin, or 0 where there are none.
pub const BODY: u64 = BUCKET_LAST;
