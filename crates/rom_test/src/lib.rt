//! What the tests of several programs have in common.
//!
//! It knows devices, sinks and gates that tests hand out; it knows no program.
//!
//! A run of a program is `Handed` words, scripts, a device and a sink, and leaves what is `Found`. A `Roll`
//! is a gate that notes each of its calls, and makes callers meet. `is_lawful` replays a printed text on a
//! plain model that is `Replayed`, and shares no code with the object of a heap. `right` asks a row of a
//! table. Each program has a top call of its own, so a suite of tests calls it in one function, by what is
//! here. No promise stands on this crate.
#![tactic(auto)]

mod command;
mod device;
mod replay;
mod roll;
mod row;
mod texts;

pub use command::{AMPLE, Found, Handed, Limits, hand, names_of, source_of};
pub use device::{NEVER, SMALL, changed, device_of, words_of_order};
pub use replay::{Asked, Replayed, is_lawful};
pub use roll::{Holding, Roll, wait_for};
pub use row::right;
pub use texts::{count_of, lines_in, lines_of, number_after, places, texts_of};
