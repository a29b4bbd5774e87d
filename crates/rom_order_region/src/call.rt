//! What a caller may ask of an ordered index, and what it is told.

/// An update.
#[derive(Clone, Copy, Debug, PartialEq, Eq)]
pub enum OrderCall {
    /// Gives a key a value: key, value.
    Put(u64, u64),
    /// Takes a key out.
    Del(u64),
}

/// A read of one committed state.
#[derive(Clone, Copy, Debug, PartialEq, Eq)]
pub enum OrderQuery {
    /// The value of a key.
    Get(u64),
    /// The least key that is at least this one, with its value.
    From(u64),
    /// The keys from the first to the second, both included.
    Range(u64, u64),
}

/// What an update is told.
#[derive(Clone, Copy, Debug, PartialEq, Eq)]
pub enum OrderReply {
    /// The key's value before.
    Was(u64),
    /// The key had no value before. It is printed `none`.
    NoPrior,
    /// There is no room for a new key; nothing changed.
    Full,
}

/// What a query is told.
#[derive(Clone, Copy, Debug, PartialEq, Eq)]
pub enum OrderAnswer {
    Value(u64),
    /// There is no such key. It is printed `none`.
    Missing,
    /// A key and its value.
    Pair(u64, u64),
    /// How many keys lie in the range, and the sum of their values.
    Range { count: u64, sum: u128 },
}
