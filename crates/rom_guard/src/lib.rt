//! Groups of updates that are done only where each of them succeeds, for any object whose own words do not begin
//! with 0.
//!
//! `Members` says which updates of an object may stand in a guarded group, what each does where the group is
//! counted already, and which replies are a success. `Guarded` is the object with them: its calls are the
//! object's own, done and told as ever, and guarded groups of two to eight members, which have one place
//! in the history. The members are done in order; at the first that does not succeed all words but the
//! count are put back as they were (`rom_undo`), and the reply tells that member and what it was told.
//! `GuardedText` prints these replies.
//!
//! The words of a region, and what they stand for, are the object's own. So are the words of its own calls
//! and replies; those of a guarded group begin with 0. A group has 0, the number
//! of its members, and four words for each; the reply to one that was done has 0, that number, and two words for
//! each; that to one that was not has 0, 0, which member did not succeed, and what it was told.
//!
//! `specs/Guarded.antt` has the definition of all that, in terms of the object's own step.
#![tactic(auto)]

mod call;
mod codes;
mod group;
mod guarded;
mod members;
mod told;
mod work;

pub use call::{GuardedCall, GuardedReply};
pub use group::{Group, ToldAll};
pub use guarded::Guarded;
pub use members::Members;
pub use told::GuardedText;
