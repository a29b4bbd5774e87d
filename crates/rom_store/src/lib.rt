//! A heap on a device that callers share: its opening, their reads and updates, and its closing.
//!
//! It knows callers, scripts and one heap on a device; it knows no object but by `Object`, and no text.
//!
//! [`open_store`] opens a heap for 1 to 16 callers, and [`Opening::start`] makes the [`Store`] that they
//! share and a [`Pass`] for each. A caller reads by `query`, by `read`, which counts its steps, or by
//! `enter`, `ask` and `leave`, without a lock; it updates by `update`, or by `update_words` where it has the
//! words of a call, and these post the call and have whoever holds the lock do all that are posted; by a note
//! one caller tells another what it has seen. `close` ends the session. [`play`] and [`play_new`] do all of that for scripts, one caller each, in threads. Their
//! contract says that the results are those of one history, and what a stop at any moment leaves of it. Where one
//! thread has all callers, [`Opening::start_lone`] makes a [`Lone`], which does batches of calls in a given order.
//!
//! What a clause says of a device's words, or of images that a stop leaves, holds where the device tells
//! them. At an `ensures`, "now" is the end of the call, and "no call failed" means that the device's count of
//! faults stayed. A device's count at 2^64 - 1 stands still and tells nothing.
#![tactic(auto)]

// `open_store`, `play`, `play_new` and `play_on` are marked `#[inline(never)]`: they move a device by value,
// and a cached one has 12 KB. Inlined into one function of 179 KB they took LLVM 505 seconds of a processor;
// apart, the whole program takes LLVM 19. `bench/size.sh` fails where a function of a program has more than
// 40 KB.
mod awaited;
mod begun;
mod closed;
mod closing;
mod held;
mod label;
mod lone;
mod notes;
mod opening;
mod pace;
mod pass;
mod playing;
mod playing_new;
mod reading;
mod rooms;
mod running;
mod seated;
mod session;
mod store;
mod updating;
mod work;

pub use closed::Closed;
pub use label::Label;
pub use lone::Lone;
pub use opening::{Opening, open_store};
pub use pass::Pass;
pub use playing::{Unplayed, play};
pub use playing_new::{Unmade, play_new};
pub use reading::Reading;
pub use rom_combine::{Batch, Gate, NoGate, NoShipper, Shipper};
pub use rom_lr::{Note, Steps};
pub use rom_open::{
    NotFormatted, Opened, Refused, Why, format_device, open_device, upgrade_device, write_heap,
};
pub use running::Played;
pub use session::Session;
pub use store::Store;
pub use work::{Taken, take_one, told_of};
