//! What one thread does where callers post and passes run. It is no test itself, since a definition
//! names it.

use rom_combine::Core;
use rom_device::Ram;
use rom_heap::Trio;
use rom_lr::Seat;

/// What one thread does, and whether it went as it should.
#[derive(Drop)]
pub enum Work {
    /// Posts calls, one after the other, and takes each answer.
    Posts(Seat, bool),
    /// Reads, and tells whether each time the answers fit together.
    Reads(Seat, bool),
    /// Runs passes until all calls are done.
    Passes(Core<Ram, Trio>, bool),
}
