//! What a primary ships: the history of a session as frames, in place of the text of its results.
//!
//! A session's callers each know their own updates with their places. `HistoryFrames` takes them one by
//! one, at each turn that of the caller whose next place is least, and writes its frame. The contract
//! promises that the bytes are the frames of the session's history from its opening count on, each entry
//! once and in order, and no others; or some of them from their front, where the sink failed. It takes
//! no memory. `run_primary` plays scripts on the heap that stands and prints so, with the promise that a
//! run of scripts has.

mod caller;
mod merge;
mod output;
mod program;
mod update;
mod updates;

pub use output::HistoryFrames;
pub use program::run_primary;
