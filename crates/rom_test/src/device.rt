//! Devices in memory, and their words.

use rom_device::{Fuse, Memory, Trip};
use std::alloc::{AllocError, Global};

/// No call of a device is past so many.
pub const NEVER: u64 = u64::MAX;

/// How many words a device of a heap of order 4 has.
pub const SMALL: usize = 232;

/// Where main and back begin on such a device.
const REGIONS: [usize; 2] = [8, 120];

/// No run makes more calls of its device than these, and four for each word, which is written once or read
/// less than four times, and those of its lines.
const OTHERS: u64 = 4096;

/// No line makes more calls of a device, on average.
const EACH_LINE: u64 = 36;

/// Room is taken for no more lines that call the device.
const MOST_LINES: u64 = 250_000;

/// How many words a device of a heap of that order has: eight of the header, and two regions of sixteen
/// and six a unit.
pub fn words_of_order(order: u32) -> usize {
    let units = 1usize << order.min(16);
    units.saturating_mul(12).saturating_add(40)
}

/// A device of these words, with room for all calls of a run of so many lines. These calls of it fail, and
/// each one after so many.
pub fn device_of(
    alloc: Global,
    words: Vec<u64>,
    lines: u64,
    trips: Vec<Trip>,
    calls: u64,
) -> Result<Fuse<Memory>, AllocError> {
    let once = (words.len() as u64).saturating_mul(4);
    let told = lines.min(MOST_LINES).saturating_mul(EACH_LINE);
    let room = OTHERS.saturating_add(once).saturating_add(told);
    Ok(Fuse::new(Memory::new(alloc, words, room, trips)?, calls))
}

/// The words of a device of order 4, with these at their offsets in both regions.
pub fn changed(
    alloc: Global,
    words: &[u64],
    changes: &[(usize, u64)],
) -> Result<Vec<u64>, AllocError> {
    let mut words = words.to_vec(alloc)?;
    for (offset, word) in changes {
        for start in REGIONS {
            if let Some(place) = words.get_mut(offset.saturating_add(start)) {
                *place = *word;
            }
        }
    }
    Ok(words)
}
