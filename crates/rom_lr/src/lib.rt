//! Readers beside the writer, by Left-Right: whoever has entered keeps one committed image, word for
//! word, while the writer changes the other side; it takes no lock and waits for nobody.
//!
//! It knows two sides, indicators and seats; it knows no device but its count of faults, and no object but by
//! `Object`.
//!
//! A [`Shared`] is a table of shared words with two sides, main and back. A caller's [`Seat`]
//! enters a side, loads its words or asks a query of them, and leaves. The [`WriterSeat`] switches
//! readers to a side that is whole, and settles: it waits until nobody reads the side that they left.
//! Then it may store words there, one by one or, on main, by a whole update. A [`Note`] hands what
//! one caller has seen to another, and [`Steps`] counts the loads of queries. When callers are done,
//! the writer takes in their seats, and reviews what they knew against its records. A call makes
//! steps of one word each, and its contract tells how many, or at most how many, but for `settle`,
//! which alone waits, and an update on main. The opening alone takes memory.
//!
//! `specs/Opening.antt` has the seats as they are handed out, `specs/Reading.antt` what a seat reads
//! from then on, `specs/Switch.antt` what a store of `side` asks for and leaves, `specs/Writing.antt`
//! when the writer may store words and what its other calls leave, and `specs/Notes.antt` what a note
//! tells. That nothing read can change is the table's rule, of `rom_rule`; the proofs here give each
//! step its condition.
#![tactic(auto)]

mod asking;
mod closing;
mod note;
mod notes;
mod opening;
mod reading;
mod seats;
mod shared;
mod side;
mod space;
mod steps;
mod words;
mod writing;

pub use asking::ask;
pub use note::Note;
pub use seats::{Seat, WriterSeat};
pub use shared::Shared;
pub use side::Side;
pub use space::{apply_main, apply_words_main};
pub use steps::Steps;
