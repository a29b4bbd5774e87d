//! A word as it was before a store.

/// A before-image: what stood at an offset before it was stored over.
#[derive(Clone, Copy, Debug, PartialEq, Eq)]
pub struct BeforeImage {
    /// In words, from the first.
    pub at: u64,
    /// What stood there.
    pub word: u64,
}
