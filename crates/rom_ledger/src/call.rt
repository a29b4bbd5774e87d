//! What a caller may ask of a ledger, and what it is told. All numbers are whole heap words.

use rom_model::{Call, Reply, Single, SingleReply};

/// An update of one structure that depends on what is there.
#[derive(Clone, Copy, Debug, PartialEq, Eq)]
pub enum Conditional {
    /// Adds an amount to the value of a key that has one: key, amount.
    Inc(u64, u64),
    /// Gives a value to a key that has none: key, value.
    New(u64, u64),
    /// Gives another value to a key that has the first: key, the value it has, the value it gets.
    Cas(u64, u64, u64),
    /// Takes the queue's first number where it is this one.
    DeqIf(u64),
}

/// An update: it may change the ledger, and takes a place in the history.
#[derive(Clone, Copy, Debug)]
pub enum LedgerCall {
    /// One of a queue, a set and a map.
    Heap(Call),
    /// One that depends on what is there.
    Conditional(Conditional),
}

/// An update of one structure. It is done alone, or as a member of a guarded group.
#[derive(Clone, Copy, Debug, PartialEq, Eq)]
pub enum LedgerSingle {
    /// One of a queue, a set and a map.
    Heap(Single),
    /// One that depends on what is there.
    Conditional(Conditional),
}

/// What an update of one structure is told.
#[derive(Clone, Copy, Debug, PartialEq, Eq)]
pub enum LedgerTold {
    /// What a queue, a set and a map tell too.
    Heap(SingleReply),
    /// The number that stands there in place of the one named; nothing changed.
    Other(u64),
}

/// What an update is told.
#[derive(Clone, Copy, Debug)]
pub enum LedgerReply {
    /// What a queue, a set and a map tell too.
    Heap(Reply),
    /// The number that stands there in place of the one named; nothing changed.
    Other(u64),
}
