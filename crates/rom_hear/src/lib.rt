//! What passes between one caller and its client: lines that come as they are written, and the text that each
//! is told.
//!
//! It knows bytes and lines; it knows no heap, no object and no thread.
//!
//! A `Peer` is heard and told, and its log has both in one order; beside what is said stands what the caller
//! knew as it said it. The contracts promise that an `Ear` hands out exactly the lines of what was heard, each as
//! soon as it is whole and before more is asked for, and passes over what is longer than any command; that
//! `tell` says exactly its text, or some of it from its front where the peer took no more, and hears nothing on
//! the way. `Talking` in `specs` says what makes of such a log a talk.
#![tactic(auto)]

mod ear;
mod mark;
mod memory;
mod mouth;
mod peer;

pub use ear::{Ear, Next};
pub use mark::Mark;
pub use memory::Client;
pub use mouth::tell;
pub use peer::Peer;
