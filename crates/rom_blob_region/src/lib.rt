//! Keys with up to 256 bytes each, in the words of a region.
//!
//! It knows what the words of such a region mean, and how its replies are printed; it knows no device, no
//! caller and no line of a script.
//!
//! Each key has a node, a block of four words in the chain of the key's bucket: the key, how many bytes it
//! has, the link to the next node, and where the bytes begin, or 0 where there are none. Bytes stand in a
//! block of their own, of the least order with room for them; a new node goes to the front of its chain. The
//! contracts promise of every well-formed region what each update leaves and is told and what each query is
//! told, block by block: a key keeps its node as long as it stays, bytes keep their block while its order
//! fits, a new block is the lowest that is free, chosen while the old one is still taken, and an update that
//! finds no block changes nothing but the count. They promise too that an update is refused only where the
//! blocks of the keys that are there have a number of units that depends on how many bytes it brings, and how
//! many loads a query and how many stores an update makes at most. They hold over any space of words. How
//! replies and answers are printed stands here too, how bytes stand in words (`bytes`), and whether words are
//! a region of this kind (`inspect`).
#![tactic(auto)]

mod answer;
mod apply;
mod body;
mod bytes;
mod call;
mod cut;
mod fetch;
mod fresh;
mod inspect;
mod node;
mod set;
mod told;

pub use answer::answer_blob;
pub use apply::apply_blob;
pub use body::order_for;
pub use bytes::Chunk;
pub use call::{BlobAnswer, BlobCall, BlobQuery, BlobReply};
pub use cut::cut_blob;
pub use fetch::{KEYS, count_blobs, fetch_blob};
pub use fresh::format_blobs;
pub use inspect::inspect_blobs;
pub use set::set_blob;
