//! An element of a heap.

/// An element, with what it stands with.
#[derive(Clone, Copy, Debug, PartialEq, Eq)]
pub enum Element {
    /// A value of the queue.
    Value(u64),
    /// A number of the set.
    Member(u64),
    /// A key of the map, and its value.
    Pair(u64, u64),
}
