//! How a talk with one peer ended.

/// Why nothing more passes.
#[derive(Clone, Copy, Debug, PartialEq, Eq)]
pub enum Ending {
    /// The peer has nothing more to say, and was told all.
    Over,
    /// It could not be heard to its end.
    Unheard,
    /// It took no more.
    Unsaid,
}
