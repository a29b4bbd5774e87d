//! The language of a queue, a set and a map: what the lines of a script ask them for, and the scripts and the
//! text of a drill.
//!
//! It knows how lines and replies of a queue, a set and a map are written, the lines of a drill and the five
//! of `stat`; it knows no device, and runs nothing.
//!
//! The contracts promise that a line is read as the one call or query that is written so, be it one update or
//! a group of two to eight, or as unread where there is none, and that a script is exactly the lines of the
//! bytes that its source had left. The scripts of a drill are those that follow from its start, and its five
//! lines tell the sums of its replies. `stat` prints a heap's sizes. Streams, and what is read and printed of
//! any object, are those of `rom_text`, handed on here.
#![tactic(auto)]

mod drill;
mod group_line;
mod line;
mod replies;
mod script;
mod stat;
mod summary;
mod update_line;

pub use drill::{drill_script, drill_scripts};
pub use group_line::split_first;
pub use line::{Line, TrioLines, read_line};
pub use rom_text::{
    Adapted, Bytes, Collect, IoFailed, Name, Names, Print, ReadRefused, Sink, Source, line_end,
    print_answer, print_number, print_pieces, print_run, print_text, print_update, read_bytes,
    read_number,
};
pub use script::{Script, read_script};
pub use stat::print_stat;
pub use summary::{Summary, print_drill, sum_dequeued, sum_enqueued};
pub use update_line::read_update;
