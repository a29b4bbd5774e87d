//! What each seat knows of the table. It stands in contracts alone: no code makes a value of these
//! types, and so their lists take no memory.

use rom_model::{Back, Entry, Found, Kept, PassRecord, Updated};
use std::collections::LinkedList;

/// What a table was opened with. Every view has it.
pub struct Base {
    /// The heap's order, from 4 to 16.
    pub order: u64,
    /// The number of callers, from 1 to 16.
    pub callers: u64,
    /// The words of the region that both sides held.
    pub image: LinkedList<u64>,
    /// The device's count of faults.
    pub faults: u64,
}

/// Where a view stands as a reader.
pub enum Position {
    /// Nowhere.
    Out,
    /// It has loaded this version, and is about to arrive.
    Holds(u64),
    /// It has arrived at this indicator.
    Arrived(u64),
    /// It has arrived at an indicator and reads a side, at a front: indicator, side, front, and the
    /// words of that side.
    Reads(u64, u64, u64, LinkedList<u64>),
}

/// A posted call that the writer found in this pass.
pub struct Request {
    /// Whose it is; callers are numbered from 1.
    pub caller: u64,
    /// How many calls its caller had posted before it.
    pub seq: u64,
    /// What was loaded of it: the number of its words, then they.
    pub words: LinkedList<u64>,
    /// What was stored of its reply: the number of its words, then they.
    pub laid: LinkedList<u64>,
    /// The place or code, once it was stored: no word or one.
    pub place: LinkedList<u64>,
    pub answered: bool,
}

/// What the writer knows beside.
pub struct Plan {
    /// The published history.
    pub history: LinkedList<Entry>,
    /// The records of earlier passes.
    pub records: LinkedList<PassRecord>,
    /// The record of this pass: none or one. It is a list, so that all records are one list put behind
    /// another.
    pub mine: LinkedList<PassRecord>,
    /// What all these records told each found call.
    pub told: LinkedList<(Found, Updated<Back>)>,
    /// The words of both sides, and the words `side` and `version`.
    pub main: LinkedList<u64>,
    pub back: LinkedList<u64>,
    pub side: u64,
    pub version: u64,
    /// The indicators that it has loaded as 0 since it last stored `side`, the last first, each with
    /// what `version` was then.
    pub clear: LinkedList<(u64, u64)>,
    /// How many passes it has begun.
    pub passes: u64,
    /// The caller whose turn it loaded last in this pass.
    pub scanned: u64,
    /// The calls that it found in this pass.
    pub requests: LinkedList<Request>,
    /// How many callers have their number.
    pub dealt: u64,
}

/// What a seat knows.
pub struct View {
    pub base: Base,
    /// The caller's number, or 0.
    pub number: u64,
    /// The published history, as far as it has seen it: what it reads is the state after some first part of
    /// that history.
    pub seen: LinkedList<Entry>,
    /// The moments at which its entries were committed, one for each. They stay as it sees more.
    pub moments: LinkedList<u64>,
    /// The fronts that its reads had: each must be a boundary of passes when the session is closed.
    pub fronts: LinkedList<u64>,
    /// What the views knew that were joined into it.
    pub joined: LinkedList<Kept>,
    pub position: Position,
    /// The words of each call that it posted.
    pub calls: LinkedList<LinkedList<u64>>,
    /// What it was told of them.
    pub outcomes: LinkedList<(Found, Updated<Back>)>,
    /// The words that it has stored for its next call: their number, then they.
    pub laid: LinkedList<u64>,
    /// The length of the history that it had seen when it last posted a call.
    pub since: u64,
    /// What the writer knows beside; none in every other view.
    pub plan: Option<Plan>,
    /// How many steps it has made.
    pub steps: u64,
}
