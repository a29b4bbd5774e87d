//! What a program does on a heap with words that it has understood: scripts on a heap, or a new heap.
//!
//! It knows scripts, heaps and statuses of any object, and the words of plain commands; it knows no object,
//! and opens no file.
//!
//! It is generic in the object, in how its lines are written, and in what is printed of a session
//! (`Output`), of which the text of a run is one. `run_asked` promises it in one record, `Promise`, by
//! the use that is made of a heap (scripts that are read and played on a new one of an order, or on the
//! one that stands; or a new one alone): which statuses it ends with and where a session is left, that
//! what was printed is of the results of one history, what a stop leaves of the device at any moment, of
//! each refusal the cause and the line, that it is done where nothing fails, and refused exactly where
//! the heap's words are. The record has more uses, for programs with commands of their own (scripts that
//! are drawn, a heap that is shown, or one of version 1 that becomes one of version 2, which
//! `upgrade_heap` does of an object that can). So what `run_asked` does in between is public too: each
//! such function names its clauses, and the record holds the same, and what follows from them. A program
//! that takes plain words alone is one call of `run_plain`.
#![tactic(auto)]

mod ended;
mod format;
mod heap;
mod malformed;
mod output;
mod plain;
mod play;
mod program;
mod refusals;
mod refused;
mod results;
mod script;
mod scripted;
mod standing;
mod status;
mod telling;
mod upgrade;
mod worked;

pub use ended::Ended;
pub use format::make_heap;
pub use heap::Heap;
pub use malformed::kind_name;
pub use output::{Output, ResultText};
pub use plain::{
    Plain, asked_by, file_and_order, file_and_scripts, file_and_stream, is_name, plain_files,
    read_plain, run_plain, wanted_by,
};
pub use play::{end_of, end_without_memory, play_heap, play_lines};
pub use program::{Asked, run_asked};
pub use refusals::{refusal_status, tell_refusal};
pub use refused::end_refused;
pub use results::any_faulted;
pub use scripted::play_sources;
pub use standing::{OpenHeap, open_heap};
pub use status::Status;
pub use telling::tell;
pub use upgrade::upgrade_heap;
pub use worked::Worked;
