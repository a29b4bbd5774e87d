//! A heap as it was opened.

use rom_model::VecSpace;
use std::snapshot::Snapshot;

/// The heap that a session began with.
#[derive(Drop)]
pub(crate) struct Begun {
    pub order: u32,
    // The words of its region, for proofs alone.
    pub image: Snapshot<VecSpace>,
    // The device's count of faults then.
    pub faults: u64,
}
