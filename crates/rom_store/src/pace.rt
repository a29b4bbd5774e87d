//! How long passes are expected to take.
//!
//! A pass on a file takes hundreds of microseconds, and a wait for calls some ten. On four processors passes
//! of 16 callers held 12.2 calls without a wait, and 15.8 where a pass waited for a number of them, whoever
//! they were. In memory a wait made a drill of four callers take up to three times as long.
//!
//! No device tells its speed: a heap that was opened counts as slow, and one that was made for scripts as
//! quick.

/// Whether a pass takes longer than it takes a caller to fall asleep and be woken. It decides how
/// callers wait, and nothing else; a pass of the other kind is done as well.
#[derive(Clone, Copy, Drop)]
pub(crate) enum Pace {
    /// It does, as on a file that is synced.
    Slow,
    /// It is over sooner, as in memory.
    Quick,
}
