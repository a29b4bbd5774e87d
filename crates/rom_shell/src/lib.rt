//! The commands of the program: from its words, its scripts and a device to a status and a text.
//!
//! It knows six commands and what each uses a heap for; it knows no file, and nothing of how a heap keeps its
//! promise.
//!
//! `run` does all that the program does, and its contract carries the promise of the whole: each
//! printed reply is what one queue, set and map give at its printed place in one history, each
//! update once and in its caller's order, each read from one committed state. A heap that is made
//! holds the empty state whatever a stop leaves of it, one that is shown holds what it held, one of
//! version 1 that is upgraded holds it in version 2, and what is refused is told by the very refusal of
//! the device's words. Each script has a caller of its own, in a thread, and the callers share one
//! heap. The promise is `rom_run`'s, by the use that a command makes of a heap; what it prints of its
//! session is said here. What the words are is decided by a test that takes no memory (`rom_words`); a
//! drill makes its scripts by itself.
#![tactic(auto)]

mod drill;
mod program;
mod stat;

pub use program::run;
pub use rom_run::{Ended, Status};
pub use rom_store::{NoGate, Session};
pub use rom_text::{DeviceWant, Wanted};
pub use rom_words::files_of;
