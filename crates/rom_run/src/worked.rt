//! A device that a command has worked on.

use crate::status::Status;
use rom_store::Session;

/// The device after a command, how the command ended, and what it did on the heap, where one was
/// opened or made.
#[derive(Drop)]
pub struct Worked<D> {
    pub device: D,
    pub status: Status,
    pub session: Option<Session>,
}
