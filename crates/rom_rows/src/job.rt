//! What one thread does at a shared table. It is no test itself, since a definition names it.

use rom_lr::{Seat, WriterSeat};

/// What one thread does.
#[derive(Drop)]
pub enum Job {
    /// Enters and leaves, and tells whether it always found the words of the opening.
    Reads(Seat, bool),
    /// Switches to main and back again.
    Writes(WriterSeat),
}
