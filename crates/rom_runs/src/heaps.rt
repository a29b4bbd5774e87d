//! The words of a device that a row begins with.

use crate::rows::Words;
use rom_test::changed;
use std::alloc::{AllocError, Global};

const HEADER: [u64; 8] = [0x524F_4D55_4C55_5331, 1, 4, 0, 0, 0, 0, 0];

/// A new region up to its blocks, whose words are 0: the root, and then the tree.
const ROOT_AND_TREE: [u64; 48] = [
    1, 2, 0, 0, 0, 0, 0, 0, 48, 0, 0, 0, 0, 0, 0, 0, 0, 4, 3, 4, 2, 3, 3, 3, 1, 2, 2, 2, 2, 2, 2,
    2, 0, 1, 1, 1, 1, 1, 1, 1, 1, 1, 1, 1, 1, 1, 1, 1,
];

/// The words of a new heap of order 4, with these at their places.
fn heap(alloc: Global, changes: &[(usize, u64)]) -> Result<Vec<u64>, AllocError> {
    let mut words = HEADER.to_vec(alloc)?;
    for _ in 0..2 {
        words.extend_from_slice(&ROOT_AND_TREE)?;
        words.extend_from_slice(&[0; 64])?;
    }
    for (at, word) in changes {
        if let Some(place) = words.get_mut(*at) {
            *place = *word;
        }
    }
    Ok(words)
}

/// The words of a device, before which it had those.
pub fn words_of(alloc: Global, device: &Words, kept: &[u64]) -> Result<Vec<u64>, AllocError> {
    match device {
        Words::Zeros(many) => vec![in alloc; 0u64; *many as usize],
        Words::Heap(changes) => heap(alloc, changes),
        Words::Regions(changes) => changed(alloc, &heap(alloc, &[])?, changes),
        Words::Torn(from, to, changes) => {
            let mut words = heap(alloc, changes)?;
            for word in words.iter_mut().take(*to).skip(*from) {
                *word = 77;
            }
            Ok(words)
        }
        Words::Kept => kept.to_vec(alloc),
    }
}
