//! Messages in a stream of bytes, each of which begins with the number of its words.
//!
//! A stream has at most 67,108,864 bytes, and a message 4 to 64 words of eight bytes. `next_message`
//! reads the next one into a block that it is handed, so it takes no memory; and it asks the source for
//! the bytes of that message alone, so none that it does not tell of are lost. The contracts promise
//! which bytes were read and what they are: a whole message, or why there is none, which is the first
//! thing in the stream that stands against one.

mod filling;
mod message;

pub use message::{Heard, MAX_STREAM, MessageKind, next_message};
