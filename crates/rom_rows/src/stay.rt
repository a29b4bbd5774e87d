//! What one thread does where a reader stays while a pass runs. It is no test itself, since a
//! definition names it.

use crate::watched::Watched;
use rom_combine::Core;
use rom_device::Ram;
use rom_heap::Trio;
use rom_lr::Seat;

/// What one thread does, and whether it went as it should.
#[derive(Drop)]
pub enum Stay<'a> {
    /// The first seat has entered, and the second has posted a call. It waits for the answer, posts
    /// another call, and only then lets the first seat leave; then it waits for the second answer.
    Holds(Seat, Seat, bool),
    /// Runs passes until both calls are done.
    Passes(Core<Watched<'a, Ram>, Trio>, bool),
}
