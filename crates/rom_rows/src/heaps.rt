//! Heaps of order 4 on devices in memory, and how they are opened.
ghost use Rattle.std.specs.Prelude.{ℕ};
ghost use Rattle.rom_model.specs.Region.{Contents};
ghost use Rattle.rom_model.specs.State.{State};

use rom_device::{Memory, Trip};
use rom_heap::Trio;
use rom_model::{Answer, Object, Query, VecSpace};
use rom_store::{Opened, open_device};
use std::alloc::{AllocError, Global};
use std::test::Fail;

/// Room for all calls of a test.
pub(crate) const AMPLE: u64 = 10_000;

/// How many calls it takes to open a heap at rest: 5 reads of the header, a read of each word of
/// both regions, and a sync.
pub(crate) const OPENING: u64 = 230;

const HEADER: [u64; 8] = [0x524F_4D55_4C55_5331, 1, 4, 0, 0, 0, 0, 0];

/// A new region up to its blocks, whose words are 0: the root, and then the tree.
const ROOT_AND_TREE: [u64; 48] = [
    1, 2, 0, 0, 0, 0, 0, 0, 48, 0, 0, 0, 0, 0, 0, 0, 0, 4, 3, 4, 2, 3, 3, 3, 1, 2, 2, 2, 2, 2, 2,
    2, 0, 1, 1, 1, 1, 1, 1, 1, 1, 1, 1, 1, 1, 1, 1, 1,
];

/// Where the count of updates stands in a region.
const COUNTED: usize = 2;

/// Where it stands in main and in back.
const COUNTS: [usize; 2] = [10, 122];

/// A device with an empty heap that has counted so many updates, on which these calls fail.
pub(crate) fn device(alloc: Global, count: u64, trips: &[Trip]) -> Result<Memory, AllocError> {
    let mut words = HEADER.to_vec(alloc)?;
    for _ in 0..2 {
        words.extend_from_slice(&ROOT_AND_TREE)?;
        words.extend_from_slice(&[0; 64])?;
    }
    for at in COUNTS {
        if let Some(word) = words.get_mut(at) {
            *word = count;
        }
    }
    Memory::new(alloc, words, AMPLE, trips.to_vec(alloc)?)
}

/// So many elements in the queue, the set and the map, and the count.
pub(crate) fn heap(queue: u64, set: u64, map: u64, count: u64) -> (Answer, u64) {
    (Answer::Sizes { queue, set, map }, count)
}

/// How many elements an opened heap has, and its count.
pub(crate) fn counted(opened: Opened<Memory>) -> Result<(Answer, u64), Fail>
    requires fit { (s : State) × (k : ℕ) × Contents opened.geometry opened.image.items s k }
{
    let count = *opened.image.get(COUNTED).ok_or("no count")?;
    let order = opened.geometry.order();
    let mut space = VecSpace::of(opened.image);
    Ok((Trio::answer(&mut space, order, &Query::Len), count))
}

/// For each word which of its possible values a stop leaves: each time the last certain one, each
/// time the one that was written since, or these in turn.
pub(crate) fn choice(alloc: Global, kind: u64) -> Result<Vec<u64>, AllocError> {
    let mut numbers = Vec::new(alloc);
    for at in 0..232u64 {
        numbers.push(if kind < 2 { kind } else { at % 2 })?;
    }
    Ok(numbers)
}

/// How many elements a heap has, and its count, once what a stop now leaves of the device is opened.
pub(crate) fn left(alloc: Global, memory: Memory, kind: u64) -> Result<(Answer, u64), Fail> {
    let words = memory.crash(choice(alloc, kind)?.as_slice());
    let again = Memory::new(alloc, words, AMPLE, Vec::new(alloc))?;
    match open_device::<_, Trio>(alloc, again) {
        Ok(opened) => counted(opened),
        Err(_) => Err("refused".into()),
    }
}
