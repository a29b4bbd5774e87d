//! The words of heaps of order 4, as the formats name them.
ghost use Rattle.std.specs.Prelude.{◌≡◌, length};

use std::alloc::{AllocError, Global};

/// The ASCII letters `ROMULUS1`.
const MAGIC: u64 = 0x524F_4D55_4C55_5331;

/// How many words a heap of order 4 has, and where its regions begin.
pub(crate) const WORDS: usize = 232;

const MAIN: usize = 8;

const BACK: usize = 120;

/// A new region's words that are not 0, up to its blocks: offset and word.
const FRESH: [(usize, u64); 33] = [
    (0, 1),
    (1, 2),
    (8, 48),
    (17, 4),
    (18, 3),
    (19, 4),
    (20, 2),
    (21, 3),
    (22, 3),
    (23, 3),
    (24, 1),
    (25, 2),
    (26, 2),
    (27, 2),
    (28, 2),
    (29, 2),
    (30, 2),
    (31, 2),
    (33, 1),
    (34, 1),
    (35, 1),
    (36, 1),
    (37, 1),
    (38, 1),
    (39, 1),
    (40, 1),
    (41, 1),
    (42, 1),
    (43, 1),
    (44, 1),
    (45, 1),
    (46, 1),
    (47, 1),
];

/// What differs from it after `enq 9`, after `deq` on that, after `put 5 7`, and after `put 0 1` and `put 5 2`.
pub(crate) const QUEUED: [(usize, u64); 7] = [
    (2, 1),
    (3, 52),
    (4, 52),
    (5, 1),
    (24, 0),
    (33, 0),
    (52, 9),
];

pub(crate) const TAKEN: [(usize, u64); 2] = [(2, 2), (52, 9)];

pub(crate) const PUT: [(usize, u64); 8] = [
    (2, 1),
    (9, 1),
    (24, 0),
    (33, 0),
    (48, 52),
    (52, 5),
    (53, 7),
    (55, 1),
];

pub(crate) const PAIRS: [(usize, u64); 12] = [
    (2, 2),
    (9, 2),
    (20, 1),
    (24, 0),
    (25, 1),
    (33, 0),
    (34, 0),
    (48, 52),
    (53, 1),
    (54, 56),
    (56, 5),
    (57, 2),
];

/// A region that an update has left half done.
pub(crate) const TORN: [(usize, u64); 2] = [(3, 52), (52, 9)];

/// Puts these words at their places behind that one.
pub(crate) fn change(words: &mut [u64], from: usize, changes: &[(usize, u64)])
    ensures { length words.new ≡ length words.old }
{
    for (at, word) in changes {
        if let Some(place) = words.get_mut(from.saturating_add(*at)) {
            *place = *word;
        }
    }
}

/// A heap whose header names this state, and whose regions differ so from a new one.
pub(crate) fn heap_of(
    alloc: Global,
    state: u64,
    main: &[(usize, u64)],
    back: &[(usize, u64)],
) -> Result<Vec<u64>, AllocError> {
    let mut words = vec![in alloc; 0u64; WORDS]?;
    change(&mut words, 0, &[(0, MAGIC), (1, 1), (2, 4), (3, state)]);
    for from in [MAIN, BACK] {
        change(&mut words, from, &FRESH);
    }
    change(&mut words, MAIN, main);
    change(&mut words, BACK, back);
    Ok(words)
}
