//! A heap that is in use, read by who has no lock on it: words that others change, the rule that a writer of a
//! heap keeps, and a reading that is whole all the same.
//!
//! It knows the layout of a heap and the stages of a batch; it knows no object, no file's name and no text.
//!
//! A reader of words that others change learns of each word what it was at some moment ([`Watched`]). Who writes a
//! heap keeps a rule (`specs/Rule`): which region changes in which stage of a batch, and that each batch makes
//! the region that it commits older. [`steady_read`] reads the region that is committed between two looks at the age of
//! back. Its contract promises: where the rule is kept, what it answers was the committed region, and the words of
//! the name beside it, at one moment of the call. It writes nothing, and the writer need not know of it.
#![tactic(auto)]

mod age;
mod names;
mod region;
mod steady;
mod still;
mod watched;
mod watched_file;

pub use names::NameWords;
pub use steady::{Steady, Unsteady, steady_read};
pub use watched::Watched;
pub use watched_file::WatchedFile;
