//! A node of the set: a block of four words, which are a number, where the next node begins, 0 and 0.

/// Where in a node its link stands: where the next node begins, or 0.
pub const SET_LINK: u64 = 1;

/// Where in a node its zeros begin.
pub const SET_ZEROS: u64 = 2;
