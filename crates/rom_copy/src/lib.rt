//! A whole new heap out of one that is in use, or that stands.
//!
//! It knows the words of a whole heap, and words that others change; it knows of an object that it inspects its
//! region, and no file.
//!
//! [`snapshot`] takes a heap that is in use into memory, as one at rest: what is shown of it is then what is shown of
//! any heap. [`view_whole`] takes the heap that a device holds, but none that is ahead of its back. [`put_whole`] puts
//! the words of a heap ([`whole_words`]) on a device that has none, the magic last. Their contracts promise that what
//! is taken is the region that counts, or that was committed at one moment, with the words of the name. A stop while
//! it is put leaves what it might have left before, or no heap, or the whole one.
#![tactic(auto)]

mod put;
mod taking;
mod untaken;
mod view;
mod whole;

pub use put::put_whole;
pub use taking::snapshot;
pub use untaken::Untaken;
pub use view::view_whole;
pub use whole::{count_of, whole_words, words_at_rest};
