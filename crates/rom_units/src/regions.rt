//! Regions and heaps of order 4, word for word.
ghost use Rattle.std.specs.Prelude.{◌≡◌, length};

use rom_model::Rule;
use std::alloc::{AllocError, Global};

/// The ASCII letters `ROMULUS1`.
pub(crate) const MAGIC: u64 = 0x524F_4D55_4C55_5331;

/// A new region: the root, the tree from offset 16 on, and from 48 on the blocks, which are 0.
pub(crate) static FRESH: [u64; 112] = [
    1, 2, 0, 0, 0, 0, 0, 0, 48, 0, 0, 0, 0, 0, 0, 0, 0, 4, 3, 4, 2, 3, 3, 3, 1, 2, 2, 2, 2, 2, 2,
    2, 0, 1, 1, 1, 1, 1, 1, 1, 1, 1, 1, 1, 1, 1, 1, 1, 0, 0, 0, 0, 0, 0, 0, 0, 0, 0, 0, 0, 0, 0, 0,
    0, 0, 0, 0, 0, 0, 0, 0, 0, 0, 0, 0, 0, 0, 0, 0, 0, 0, 0, 0, 0, 0, 0, 0, 0, 0, 0, 0, 0, 0, 0, 0,
    0, 0, 0, 0, 0, 0, 0, 0, 0, 0, 0, 0, 0, 0, 0, 0, 0,
];

/// What differs from it once 9 was put at the queue's end: offset and word.
pub(crate) const QUEUED: [(usize, u64); 7] = [
    (2, 1),
    (3, 52),
    (4, 52),
    (5, 1),
    (24, 0),
    (33, 0),
    (52, 9),
];

/// Regions that are none: whether 9 is in the queue, the words that are changed, and the offset and
/// the rule of the first break.
pub(crate) static BROKEN: [(bool, &[(usize, u64)], u64, Rule); 17] = [
    (false, &[(0, 2)], 0, Rule::Root),
    (false, &[(1, 3)], 1, Rule::Root),
    (false, &[(2, 4_611_686_018_427_387_905)], 2, Rule::Root),
    (false, &[(3, 48)], 3, Rule::Link),
    (false, &[(3, 53)], 3, Rule::Link),
    (false, &[(3, 112)], 3, Rule::Link),
    // A cycle, and a node with two owners.
    (true, &[(53, 52)], 53, Rule::Link),
    (true, &[(6, 52)], 6, Rule::Link),
    (true, &[(54, 1)], 54, Rule::Pad),
    (true, &[(4, 56)], 4, Rule::Ends),
    (true, &[(5, 3)], 5, Rule::Count),
    // Two numbers that do not rise, a key in another bucket, one key twice, two keys that fall, and a
    // stamp above the count.
    (
        false,
        &[(6, 52), (52, 5), (53, 56), (56, 5)],
        56,
        Rule::Order,
    ),
    (false, &[(48, 52), (52, 1), (53, 7)], 52, Rule::Bucket),
    (
        false,
        &[(48, 52), (52, 5), (53, 7), (54, 56), (56, 5), (57, 8)],
        56,
        Rule::Order,
    ),
    (false, &[(48, 52), (52, 5), (54, 56)], 56, Rule::Order),
    (
        false,
        &[(2, 3), (48, 52), (52, 5), (55, 4)],
        55,
        Rule::Stamp,
    ),
    // A block that is taken and that nothing leads to.
    (false, &[(24, 0), (33, 0)], 24, Rule::Tree),
];

/// Words of a region of version 1 in place of those of a new one.
pub(crate) const OLD: (usize, u64) = (1, 1);

/// Regions that are none of version 1, though they say so: the words that are changed, and the offset and
/// the rule of the first break.
pub(crate) static BROKEN_OLD: [(&[(usize, u64)], u64, Rule); 6] = [
    (&[OLD, (2, 4_611_686_018_427_387_905)], 2, Rule::Root),
    (&[OLD, (3, 53)], 3, Rule::Link),
    (&[OLD, (48, 52), (52, 5), (55, 1)], 55, Rule::Pad),
    (&[OLD, (48, 52), (52, 1), (53, 7)], 52, Rule::Bucket),
    // The first key of three again as the last.
    (
        &[OLD, (48, 52), (52, 5), (54, 56), (58, 60), (60, 5)],
        60,
        Rule::Repeat,
    ),
    (&[OLD, (24, 0), (33, 0)], 24, Rule::Tree),
];

/// A heap of version 1 after `put 0 1` and `put 5 2`, both of bucket 0: the key that came last is the first.
pub(crate) const OLD_PAIRS: [(usize, u64); 13] = [
    OLD,
    (2, 2),
    (9, 2),
    (20, 1),
    (24, 0),
    (25, 1),
    (33, 0),
    (34, 0),
    (48, 56),
    (53, 1),
    (56, 5),
    (57, 2),
    (58, 52),
];

/// The same of version 2: each key keeps its block, and they rise.
pub(crate) const NEW_PAIRS: [(usize, u64); 12] = [
    (2, 2),
    (9, 2),
    (20, 1),
    (24, 0),
    (25, 1),
    (33, 0),
    (34, 0),
    (48, 52),
    (53, 1),
    (54, 56),
    (56, 5),
    (57, 2),
];

/// Puts these words at their places, where there are such.
pub(crate) fn change(words: &mut [u64], changes: &[(usize, u64)])
    ensures { length words.new ≡ length words.old }
{
    for (at, word) in changes {
        if let Some(place) = words.get_mut(*at) {
            *place = *word;
        }
    }
}

/// A new region, or the one with 9 in its queue, in which these words are others.
pub(crate) fn region(queued: bool, changes: &[(usize, u64)]) -> [u64; 112] {
    let mut words = FRESH;
    if queued {
        change(&mut words, &QUEUED);
    }
    change(&mut words, changes);
    words
}

/// The words of a heap in this state with these regions, and those behind it.
pub(crate) fn heap(
    alloc: Global,
    state: u64,
    main: &[u64],
    back: &[u64],
    behind: &[u64],
) -> Result<Vec<u64>, AllocError> {
    let mut words = [MAGIC, 1, 4, state, 0, 0, 0, 0].to_vec(alloc)?;
    words.extend_from_slice(main)?;
    words.extend_from_slice(back)?;
    words.extend_from_slice(behind)?;
    Ok(words)
}
