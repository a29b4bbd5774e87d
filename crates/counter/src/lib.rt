//! An object of one's own, worked out: a counter, kept in a heap with the promise of a program.
//!
//! It knows what its three words, its lines and its replies mean; it uses no device and no thread, and hands
//! them on.
//!
//! A counter is an object (`counter`), a language (`language`) and one call (`program`). That call
//! promises of a counter, in the same record, what the program of queues, sets and maps promises of
//! these. It shows that nothing below it knows more of an object than `Object`, `Lines` and `Print` tell.
//! Its page, `README.md`, has a `main` for scripts. On it stand the program `tally`, and tests of its runs, in
//! `rom_plain_rows`.
#![tactic(auto)]

mod counter;
mod language;
mod program;

pub use counter::{Add, Counter, Query, Sum};
pub use language::CounterLines;
pub use program::run_counter;
pub use rom_run::{Ended, Status, plain_files as files_of};
pub use rom_store::{NoGate, Session};
pub use rom_text::{DeviceWant, Wanted};
