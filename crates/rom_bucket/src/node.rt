//! A node of a bucket's chain: a block of four words, which are its key, a word of the structure that keeps
//! its keys so, where the next node begins, and another word of the structure.

/// Where in a node the structure's first word stands.
pub const BUCKET_SECOND: u64 = 1;

/// Where in a node its link stands: where the next node begins, or 0.
pub const BUCKET_LINK: u64 = 2;

/// Where in a node the structure's other word stands.
pub const BUCKET_LAST: u64 = 3;

/// What a node holds beside its link.
#[derive(Clone, Copy)]
pub struct Node {
    /// The first word.
    pub key: u64,
    /// The second word.
    pub second: u64,
    /// The fourth and last word.
    pub last: u64,
}
