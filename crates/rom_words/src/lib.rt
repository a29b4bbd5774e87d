//! The words of the command line: which command they are, and what it names.
//!
//! It knows the shape of six commands, and which files they need; it knows nothing of what they do there.
//!
//! The contracts promise that words are a command exactly where the definition says so, which is
//! found without memory, with its numbers; and that its names are those of `clap`'s matches, which
//! takes all words that are a command and fails for want of memory alone. Nothing else loads
//! `clap`.
#![tactic(auto)]

mod command_line;
mod said;
mod words;

pub use words::{CommandAsked, DRILL_ORDER, TRY_ORDER, files_of, read_command};
