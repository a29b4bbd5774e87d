//! Announced calls: a caller posts a call in its slot, the writer finds and answers it there, and the
//! caller takes the answer.
//!
//! It knows slots and turns of the shared words; it knows no region, and no device but its count of faults.
//!
//! [`post`], [`post_words`], [`answered`] and [`take`] are a caller's, [`posted`], [`arguments`], [`arguments_into`]
//! and [`answer`] the writer's. None waits, takes memory or can be refused, and each makes a number of
//! steps that its contract tells, each of one word. A caller whose call is not answered yet may
//! [`linger`] or [`nap`]: the answer wakes it, and so does [`wake_next`]. Before a pass calls may
//! [`gather`]. These four make no step, no clause says what they tell, and `nap` alone
//! waits.
//!
//! Each contract says what its seat's view becomes as a whole, so nothing else of the view changes.
//! `specs/Posting.antt` has what a post leaves, `specs/Scanning.antt` and `specs/Answering.antt` what the writer's
//! calls ask for and leave.
//! That the words which the writer finds in a slot are those of the posted call, that each posted call
//! stands in one pass's record, and that a caller finds what that record tells of it, is the table's
//! rule, of `rom_rule`; the proofs here give each step its condition.
#![tactic(auto)]

mod answering;
mod posting;
mod scanning;
mod taking;
mod waiting;

pub use answering::answer;
pub use posting::{post, post_words};
pub use scanning::{arguments, arguments_into, posted};
pub use taking::{answered, take, take_into};
pub use waiting::{gather, linger, nap, wake_next};
