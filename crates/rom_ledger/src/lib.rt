//! A ledger: the queue, the set and the map of a heap, with updates that depend on what is there, and with groups
//! that are done only where each member succeeds.
//!
//! `Ledger` has all calls of a queue, a set and a map, and four more: `inc` adds to a value, `new` gives a
//! value to a key that has none, `cas` gives one to a key that has the value named, and `deq-if` takes the
//! queue's first where it is the number named. `LedgerMembers` says which of them may be members of a guarded
//! group, and which replies are a success. `GuardedLedger` is the ledger with these groups (`rom_guard`). A region
//! of a ledger is one of a queue, a set and a map: a file serves the programs of both.
//!
//! `run_ledger` does all that the program does, and its contract carries the promise of the whole, in the record
//! that the program of a queue, a set and a map promises too, for this object. `LedgerLines` says how calls and
//! queries are written, and no two lists of results have one text.
//!
//! `specs/State.antt` has what the four updates do, and which replies are a success.
#![tactic(auto)]

mod call;
mod codes;
mod conditional;
mod language;
mod ledger;
mod member_line;
mod members;
mod program;
mod texts;

pub use call::{Conditional, LedgerCall, LedgerReply, LedgerSingle, LedgerTold};
pub use language::LedgerLines;
pub use ledger::Ledger;
pub use members::{GuardedLedger, LedgerGroup, LedgerMembers};
pub use program::{LedgerText, run_ledger};
pub use rom_guard::{GuardedCall, GuardedReply};
pub use rom_run::{Ended, Status, plain_files as files_of};
pub use rom_store::{NoGate, Session};
pub use rom_text::{DeviceWant, Wanted};
