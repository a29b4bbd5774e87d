//! The heap that a command works on.

/// Which heap a command works on.
#[derive(Clone, Copy, Debug, PartialEq, Eq)]
pub enum Heap {
    /// One of this order, that it makes where none stands.
    New(u32),
    /// The one that the device has.
    Standing,
    /// The one of version 1 that the device has, which becomes one of version 2. Contracts alone speak of
    /// it: no scripts are played on such a heap.
    Upgraded,
}
