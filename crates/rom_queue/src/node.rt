//! A node of the queue: a block of four words, which are a value, where the next node begins, 0 and 0.

/// Where in a node its link stands: where the next node begins, or 0.
pub const QUEUE_LINK: u64 = 1;

/// Where in a node its zeros begin.
pub const QUEUE_ZEROS: u64 = 2;
