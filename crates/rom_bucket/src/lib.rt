//! Keys in the chains of buckets, in the words of a region.
//!
//! It knows keys and the chains that they stand in; it knows nothing of what a key has.
//!
//! Each key has a node, a block of four words: the first is the key, the third links to the next node of
//! the key's bucket, and the two others belong to the structure that keeps its keys so. A walk along the
//! bucket's chain finds a key's node or tells that there is none; where the keys rise along a chain,
//! another walk ends where the key stands or would stand. A new node goes to the front of its chain or to
//! such a place, and one that goes is taken out. The heap's map uses the second walk; the first is for
//! structures whose keys have no order worth keeping. The contracts promise the place of the key in whatever
//! blocks are the bucket's nodes, the words that a change leaves, how many loads and stores a call makes
//! at most, and that it stores no more often than words differ afterwards. What a key has, and which word
//! of the root counts the keys, is for the structure to say.
#![tactic(auto)]

mod link;
mod node;
mod rising;
mod walk;

pub use link::{link_at, link_first, unlink_node};
pub use node::{BUCKET_LAST, BUCKET_LINK, BUCKET_SECOND, Node};
pub use rising::{Sought, find_rising};
pub use walk::{Place, find, head_of};
