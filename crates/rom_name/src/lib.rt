//! The name of a heap, and whether a stream of frames may be followed on it.
//!
//! It knows the words 4 to 7 of a heap's header, which say whose updates it holds, and the head of a stream; it
//! knows no store, and of an object no more than that a region counts its updates.
//!
//! A heap that is shipped or followed has a name, an epoch, and the count of updates at which that epoch began. A
//! copy that is made a primary begins the next epoch (`adopt`). A stream whose head is met (`greet`) is followed
//! where it is of the same heap, of its epoch or the next, lacks no frame, and did not begin the next epoch below what
//! this heap has done; else it is refused with its cause. A head says where its own epoch began, and of no other: so
//! a heap that missed one cannot know whether it parted. Two primaries of one epoch are not told apart. The
//! contracts promise that what a heap holds stays whatever is written of its name, that a stop leaves no half of a
//! name and no old epoch with a new count, and that a stream without a head is handed on whole.
#![tactic(auto)]

mod adoption;
mod count;
mod greeting;
mod heading;
mod identity;
mod inputs;
mod meeting;
mod peeked;
mod telling;
mod text;
mod writing;

pub use adoption::{AdoptRefused, Adopted, adopt};
pub use count::{Own, read_count, read_own};
pub use greeting::{Greeting, greet};
pub use heading::head_of;
pub use identity::{Identity, is_named, read_identity};
pub use inputs::peek_all;
pub use meeting::{Meeting, Refusal, meet};
pub use peeked::{First, Peeked};
pub use rom_frame::{Head, HeapName};
pub use telling::{adopt_and_tell, tell_refusal};
pub use text::{REFUSED, print_adopted, print_epoch, print_identity, print_refusal};
pub use writing::{write_epoch, write_identity, write_name};
