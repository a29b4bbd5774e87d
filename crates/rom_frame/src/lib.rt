//! Frames: each entry of a heap's history as bytes of its own.
//!
//! It knows the bytes of an update, and streams of them; it knows no heap and no device.
//!
//! A frame has the entry's place, the words of its call and those of its reply, and its first word says how
//! many words it has. The contracts promise that what is written is the update's frame and nothing else, that
//! bytes are read as a frame exactly where they are one, that a frame has at most 512 bytes, and that bytes
//! which were torn off a frame are none. `specs/` says what the frames of a whole history are. The frames of a
//! heap that has a name come behind a head, which says whose they are and where they begin; no head is a frame.
//! How messages are read from a stream of bytes is said in `stream`.
#![tactic(auto)]

mod frame;
mod head;
mod stream;

pub use frame::{Frame, MOST_BYTES, fill_frame, read_frame, write_frame};
pub use head::{Head, HeapName, read_head};
pub use stream::{Heard, MessageKind, next_message};
