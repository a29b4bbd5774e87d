//! What `main` of each `romulus` does around its one call: it holds the standard streams and takes the words
//! of the command line (`begin`), opens the scripts and the device that these name, says why it cannot, or that
//! there is no memory, and ends with the call's status (`end`). For a talk it tries whether each caller can have a
//! thread, makes the peers, which open their own files, and opens the file that frames are shipped to.
//!
//! It knows descriptors, files and standard streams, and by which words a file is a heap and of which kind; it knows
//! nothing else of a heap, and no command by its name.
//!
//! The contracts promise a source for each name of a script, and as many peers as names make; of files nothing is
//! told. What cannot be opened is a device, a source or a peer of which each call fails, and a line on standard
//! error.
#![tactic(auto)]

mod cause;
mod device;
mod kind;
mod opened;
mod peer;
mod program;
mod random;
mod sink;
mod streams;
mod threads;

pub use device::{HostDevice, Looked, device_of, file_of, heap_of, look_at, new_file_of};
pub use opened::{Opened, Talk, open_all, open_talk};
pub use peer::HostPeer;
pub use program::{NAPS, Program};
pub use random::draw_words;
pub use sink::{HostSink, sink_of};
pub use streams::{Reading, Script, hold_streams, sources_of, words_of};
