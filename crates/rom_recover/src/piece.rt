//! Pieces of words, which are read together.

/// How many words a piece has at most.
pub const PIECE: usize = 64;
