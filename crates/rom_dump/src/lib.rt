//! A program that shows what a heap holds, whichever kind it is of, and leaves it: `script FILE` prints the lines that
//! make it again, `check FILE` says which region counts and why, the kind, and the sizes, and `metrics FILE` what a
//! monitor watches. Of a damaged heap the first two show one region by itself, where `--from` names it. `copy FILE NEW`
//! makes the same heap in a new file, and `grow OLD NEW --order N` one of a greater order.
//!
//! It knows five commands; it knows no object by name, no shared word, and writes to no heap that stands. What it needs
//! of an object is a `Carry` of `rom_carry`.
//!
//! `dump` does the first three, but for the line of the name. Its contract promises that the device is only read, that
//! what is told is of the region that counts, whatever an update in its midst has left, and of a refusal the very one
//! that an opening tells of the same words. Where a region is named, what is told is of that one, and a refusal is of the
//! header or of that region. Of a script it promises that its lines carry over what the region holds, which each kind
//! says of its own states: read as scripts are read and done in a new heap of at least that order, they give the
//! elements again, and none of them is told that the heap is full.
//!
//! `copy` and `grow` are two calls, since the new file is made between them: `take_copy` or `take_grown` takes the heap,
//! and `put_copy` puts it on a device that has none. What the first answers is a whole heap with the words of the name,
//! and with the region that counts, or one of the greater order that stands for the same. Where the second tells `copied`
//! or `grown`, the new device begins with these words.
//!
//! `main` opens the file for reading alone, with a lock that other dumps may share and a writer may not. That
//! no write is made is proved. So a device that refuses writes is not needed: the usual one serves. It asks `kind_of`
//! which object to look for.
#![tactic(auto)]

mod check;
mod copy;
mod copying;
mod dumping;
mod grow;
mod growing;
mod kind;
mod metrics;
mod refusing;
mod script;
mod words;

pub use copy::{Made, Taken, put_copy, take_copy};
pub use copying::{copy_files, tell_busy, tell_untaken};
pub use dumping::dump;
pub use grow::{Ungrown, take_grown};
pub use growing::{growth_of, tell_ungrown};
pub use kind::kind_of;
pub use rom_run::Status;
pub use words::{Dump, dump_file, read_dump, region_of};
