//! A follower: a heap that takes the frames of another heap's history, and holds the state after its
//! first updates, so many, and no other. Where that heap did several updates in one batch, the follower
//! does them one by one.
//!
//! It knows frames and a store with one caller; it knows no stream, no text and no command.
//!
//! A [`Follower`] is a store of its own with one caller. It takes one message after another, in
//! whatever order and as often as they come: the frame whose place is its count is done, each other one
//! leaves it as it was. The contract of `take` says exactly which answer comes when. [`follow_all`]
//! takes a list of messages, and its contract says what a follower is for: where each message is a
//! frame of a legal history, one that was torn, or no frame, no answer is `Diverged`, and what the heap
//! holds at the end, and on its device at any moment since the opening, is that history's state after a
//! prefix. `specs/Following.antt` says what it is to follow a history, and what may arrive of it.
#![tactic(auto)]

mod followed;
mod follower;
mod taken;
mod update;

pub use followed::follow_all;
pub use follower::Follower;
pub use taken::{Divergence, MessageTaken};
