//! Heaps of order 4 that are made, opened and refused, by their words.

use crate::devices::{AMPLE, Failing, choice, device};
use crate::regions::{BROKEN, FRESH, change, heap, region};
use crate::right::right;
use rom_device::CallKind::Read;
use rom_device::{Device, FileDevice, Fuse};
use rom_heap::Trio;
use rom_model::Rule;
use rom_open::{Opened, Refused, Why, format_device, open_device};
use std::alloc::{AllocError, Global};
use std::test::Fail;

/// How many calls it takes to open a heap of which a region is copied: four for the header, and 231
/// for the recovery.
const CALLS: u64 = 235;

/// The words of a region of which nothing is left.
static TORN: [u64; 112] = [77; 112];

/// Opens the heap on a device, which comes back. The image has no words where it is refused.
fn opened<D: Device>(alloc: Global, device: D) -> (D, Vec<u64>, Option<Why>) {
    match open_device::<_, Trio>(alloc, device) {
        Ok(
            Opened {
                device,
                geometry: _,
                image,
            },
        ) => (device, image, None),
        Err(Refused { device, why }) => (device, Vec::new(alloc), Some(why)),
    }
}

/// Whether a device with these words, on which these calls fail, is refused so, has this image, and has
/// these words then.
fn opens(
    alloc: Global,
    words: &[u64],
    failing: &[Failing],
    want: (Option<Why>, &[u64]),
    left: &[u64],
) -> Result<bool, AllocError> {
    let memory = device(alloc, words, AMPLE, failing)?;
    let (memory, image, why) = opened(alloc, memory);
    Ok(why == want.0 && image.as_slice() == want.1 && memory.words() == left)
}

/// Opens a device with these words up to so many calls, and then what such a stop leaves of it, which
/// is the new heap.
fn opens_once_stopped(
    alloc: Global,
    words: &[u64],
    calls: u64,
    kind: u64,
    new: &[u64],
) -> Result<bool, AllocError> {
    let fuse = Fuse::new(device(alloc, words, AMPLE, &[])?, calls);
    let (fuse, _image, why) = opened(alloc, fuse);
    let want = if calls < CALLS {
        Some(Why::Device)
    } else {
        None
    };
    let stop = fuse.inner().crash(&choice(kind));
    Ok(why == want && opens(alloc, stop.as_slice(), &[], (None, &FRESH), new)?)
}

#[test]
fn a_new_heap_is_opened_after_every_stop(rt: HostRuntime) -> Result<(), Fail> {
    let alloc = rt.alloc();
    let mut memory = device(alloc, &[0; 232], AMPLE, &[])?;
    assert!(rt; format_device::<_, Trio>(alloc, &mut memory, 4).is_ok());
    let new = heap(alloc, 0, &FRESH, &FRESH, &[])?;
    assert!(rt; memory.words() == new.as_slice());
    let words = heap(alloc, 1, &TORN, &FRESH, &[])?;
    for kind in 0..4 {
        for calls in 0..CALLS + 1 {
            let well = opens_once_stopped(alloc, words.as_slice(), calls, kind, new.as_slice())?;
            right("stopped after calls", calls as usize, well)?;
        }
    }
    Ok(())
}

/// What differs from a new heap: place and word. Then why it is refused.
static REFUSED: [(&[(usize, u64)], Why); 8] = [
    (
        &[(10, 5), (122, 4)],
        Why::Twins {
            offset: 2,
            main: 5,
            back: 4,
        },
    ),
    (&[(3, 3)], Why::BadState(3)),
    (&[(0, 0)], Why::NotAHeap),
    (&[(1, 2)], Why::BadVersion(2)),
    (&[(2, 17)], Why::BadOrder(17)),
    (
        &[(2, 5)],
        Why::TooSmall {
            need: 424,
            have: 232,
        },
    ),
    (
        &[(25, 5), (137, 5)],
        Why::Malformed {
            offset: 17,
            rule: Rule::Tree,
            found: 5,
        },
    ),
    // Of both the difference of the regions is told.
    (
        &[(25, 5), (10, 5), (122, 4)],
        Why::Twins {
            offset: 2,
            main: 5,
            back: 4,
        },
    ),
];

#[test]
fn words_are_refused_by_the_first_test_that_fails(rt: HostRuntime) -> Result<(), Fail> {
    let alloc = rt.alloc();
    for (row, (changes, why)) in REFUSED.iter().enumerate() {
        let mut words = heap(alloc, 0, &FRESH, &FRESH, &[])?;
        change(words.as_mut_slice(), changes);
        let words = words.as_slice();
        let told = opens(alloc, words, &[], (Some(*why), &[]), words)?;
        right("refused", row, told)?;
    }
    // A broken region is refused once it is recovered.
    for (row, (queued, changes, offset, rule)) in BROKEN.iter().enumerate() {
        let region = region(*queued, changes);
        let words = heap(alloc, 2, &region, &TORN, &[])?;
        let left = heap(alloc, 0, &region, &region, &[])?;
        let (offset, rule) = (*offset, *rule);
        let found = region.get(offset as usize).copied().unwrap_or(0);
        let why = Why::Malformed {
            offset,
            rule,
            found,
        };
        let want = (Some(why), [].as_slice());
        let told = opens(alloc, words.as_slice(), &[], want, left.as_slice())?;
        right("broken", row, told)?;
    }
    // A word of main is read once, by the comparison.
    let words = heap(alloc, 0, &FRESH, &FRESH, &[])?;
    for (nth, want) in [(1, (Some(Why::Device), [].as_slice())), (2, (None, &FRESH))] {
        let failing = (Read, 100, 101, nth, false);
        let told = opens(alloc, words.as_slice(), &[failing], want, words.as_slice())?;
        right("failing read", nth as usize, told)?;
    }
    let (_missing, _image, why) = opened(alloc, FileDevice::missing());
    assert!(rt; why == Some(Why::Device));
    Ok(())
}
