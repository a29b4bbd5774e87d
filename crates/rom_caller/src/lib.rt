//! Callers of a heap that ask for nothing, and a run of them in threads: for programs of one's own.
//!
//! It knows callers and what each is to do; it knows no object but by `Object`, no script and no text.
//!
//! [`with_callers`] opens the heap on a device, or makes one where that is asked for, has so many callers work on
//! it, each in a thread, and closes it. What they do is a type with [`Work`], and what each of them can do is
//! [`Calls`]: update, query, read a state. No call of `Calls` has a condition: all that a store asks of who calls
//! it is the invariant of [`Caller`]. So a program that has no theorem of its own needs no clause and no proof,
//! and is proved to be safe. Its callers have one history all the same, and what they were told lasts; the
//! contract of `with_callers` says so. A program with theorems says in [`Work`] what a caller has done, as
//! `Did`, and `with_callers` hands that on.
//!
//! A [`Caller`] names its store and its number by its type. So it needs no condition that it is still the same
//! caller after somebody had it. Closures can't take one: their parameters have one type, and each caller has
//! its own. `Work` is a trait for that reason.
#![tactic(auto)]

mod caller;
mod calls;
mod job;
mod making;
mod rooms;
mod run;
mod running;
mod who;
mod work;

pub use caller::{Caller, NoteOf};
pub use calls::Calls;
pub use making::Mode;
pub use rom_store::{Closed, Refused, Why};
pub use run::with_callers;
pub use running::Ran;
pub use who::Who;
pub use work::Work;
