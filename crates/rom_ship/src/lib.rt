//! A talk whose updates go to a stream as they are done, as frames behind the head of the heap.
//!
//! It knows heads, frames and sinks; it knows no object, no language and no file.
//!
//! A [`FrameStream`] is a shipper: a store hands it each batch that is certain, before any of its calls is
//! answered, and it writes the frames of that batch, one behind another. So what its sink has taken is the
//! frames of the history from the opening on, or, once a write has failed, the first bytes of these.
//!
//! [`talk_streaming`] reads the head of the heap's updates, begins the stream with it, and has peers talk to the
//! heap. Its contract is one record, `StreamingPromise`: of each session the stream is the head and then the frames
//! of the history, from the place that the head says; and where the head could not be read, or was not taken
//! whole, no peer is met, and the output is told why.
#![tactic(auto)]

mod stream;
mod streaming;

pub use stream::FrameStream;
pub use streaming::talk_streaming;
