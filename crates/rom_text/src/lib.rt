//! The bytes of a run, whatever object it works on: where scripts come from and where texts go, the
//! lines of a script and what each asks for, and the texts of results.
//!
//! It knows bytes, lines and texts; it knows no heap, and no object but in `trio`.
//!
//! The contracts promise that a script is exactly the lines of the bytes that its source had left,
//! that each printing call writes exactly its text, or some of it from the front where the sink
//! failed, that the numbers of what is printed whole are of their types, and that a failure is
//! answered only where the very object's count of faults rose. How an object's lines are written is
//! its language's to say (`Lines`). Its answers print themselves (`Print`). Its replies are printed from
//! their words (`PrintReplies`): those that are `Print` by `Whole`. The texts of a queue, a set and a map stand
//! in `trio`.
#![tactic(auto)]

mod adapt;
mod gathered;
mod lines;
mod memory;
mod names;
mod phrase;
mod print;
mod printing;
mod read;
mod replies;
mod report;
mod script;
mod short;
mod streams;
mod told;
mod trio;
mod wanted;

pub use adapt::Adapted;
pub use gathered::print_gathered;
pub use lines::{Lines, Parsed, line_end, lines_in};
pub use memory::{Bytes, Collect};
pub use names::{Name, Names};
pub use phrase::{Phrase, read_number, read_phrase, read_within};
pub use print::{print_answer, print_bytes, print_number, print_pieces, print_text, print_update};
pub use printing::{Print, Report};
pub use read::{MAX_BYTES, ReadRefused, read_bytes};
pub use replies::{PrintReplies, Whole};
pub use report::print_run;
pub use script::read_script;
pub use short::{LONGEST, ShortLines};
pub use streams::{IoFailed, Sink, Source};
pub use told::ToldLine;
pub use wanted::{DeviceWant, Wanted};
