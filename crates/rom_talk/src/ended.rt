//! How a talk ended.

use rom_store::Session;

/// How the talk with all peers ended, with all that it was handed.
#[derive(Drop)]
pub struct Ended<D, P> {
    /// The number of a `Status`.
    pub status: u8,
    pub device: D,
    /// The peers, in their order, after all that passed.
    pub peers: Vec<P>,
    /// What was done on the heap, where one was opened.
    pub session: Option<Session>,
}
