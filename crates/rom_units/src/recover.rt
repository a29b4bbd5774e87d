//! Recovery of heaps of order 4, by their words.

use crate::devices::{AMPLE, Failing, choice, device};
use crate::files::{bytes_of, device_over, path};
use crate::regions::{change, heap, region};
use crate::right::right;
use rom_device::CallKind::{Read, Sync, Write};
use rom_device::{Device, Fuse, Resumed};
use rom_header::{State, read_header};
use rom_recover::{RecoverRefused, Recovered, recover};
use std::alloc::{AllocError, Global};
use std::fs;
use std::test::Fail;

/// How many calls it takes to read the header.
const HEADER_CALLS: u64 = 4;

/// A state by its word and its name, whether main and back are torn there, and how many calls it takes
/// to read the header and to recover. Under IDLE nothing is written, so both writes of the state and the
/// three last syncs are missing.
#[derive(Clone, Copy)]
struct Row {
    state: u64,
    found: State,
    torn: (bool, bool),
    calls: u64,
}

static ROWS: [Row; 3] = [
    Row {
        state: 0,
        found: State::Idle,
        torn: (false, false),
        calls: 230,
    },
    Row {
        state: 1,
        found: State::Mutating,
        torn: (true, false),
        calls: 235,
    },
    Row {
        state: 2,
        found: State::Copying,
        torn: (false, true),
        calls: 235,
    },
];

/// A region of which nothing is left.
static TORN: [u64; 112] = [77; 112];

/// The words of a heap in which those of the header that are never read are not 0, with three behind it.
fn among_others(
    alloc: Global,
    state: u64,
    main: &[u64],
    back: &[u64],
) -> Result<Vec<u64>, AllocError> {
    let mut words = heap(alloc, state, main, back, &[91, 92, 93])?;
    change(words.as_mut_slice(), &[(4, 44), (5, 45), (6, 46), (7, 47)]);
    Ok(words)
}

/// Recovers the heap on the device, if its header is accepted.
fn recovered<D: Device>(device: &mut D) -> Option<Result<Recovered, RecoverRefused>> {
    match read_header(device) {
        Ok(header) => Some(recover(device, header.geometry)),
        Err(_) => None,
    }
}

/// Stops recovery of these words after so many calls, and recovers what is left. Each word that may be
/// one of several is that of the choice.
fn recovers_once_stopped(
    alloc: Global,
    row: &Row,
    words: &[u64],
    left: &[u64],
    calls: u64,
    kind: u64,
) -> Result<(), Fail> {
    let mut fuse = Fuse::new(device(alloc, words, AMPLE, &[])?, calls);
    let want = if calls < HEADER_CALLS {
        None
    } else if calls < row.calls {
        Some(Err(RecoverRefused::Device))
    } else {
        Some(Ok(Recovered { found: row.found }))
    };
    right(
        "stopped after calls",
        calls as usize,
        recovered(&mut fuse) == want,
    )?;
    let stop = fuse.inner().crash(&choice(kind));
    let mut memory = device(alloc, stop.as_slice(), AMPLE, &[])?;
    let again = recovered(&mut memory).is_some_and(|again| again.is_ok());
    let same = again && memory.words() == left;
    right("recovered after calls", calls as usize, same)
}

#[test]
fn both_regions_become_the_one_that_counts(rt: HostRuntime) -> Result<(), Fail> {
    let alloc = rt.alloc();
    let path = path(&rt, "recover")?;
    let queued = region(true, &[]);
    let left = among_others(alloc, 0, &queued, &queued)?;
    for row in &ROWS {
        let main = if row.torn.0 { TORN } else { queued };
        let back = if row.torn.1 { TORN } else { queued };
        let words = among_others(alloc, row.state, &main, &back)?;
        for kind in 0..4 {
            for calls in 0..236 {
                recovers_once_stopped(alloc, row, words.as_slice(), left.as_slice(), calls, kind)?;
            }
        }
        // The same in a file, which is not stopped.
        fs::write(
            &rt,
            path.as_path(),
            bytes_of(alloc, words.as_slice())?.as_slice(),
        )?;
        let found = row.found;
        {
            let mut device = device_over(&rt, &path, true, 1880)?;
            assert!(rt; recovered(&mut device) == Some(Ok(Recovered { found })));
        }
        let bytes = fs::read(&rt, path.as_path())?;
        assert!(rt; bytes.as_slice() == bytes_of(alloc, left.as_slice())?.as_slice());
    }
    fs::remove_file(&rt, path.as_path())?;
    Ok(())
}

/// A state as it reads and as it may still be on the disk, and whether main and back are the newer region.
/// The state alone is in doubt, as where the sync behind its writing failed: that of a commit, of a repair,
/// of a batch's beginning, or none.
static IN_DOUBT: [(u64, u64, bool, bool); 4] = [
    (2, 1, true, false),
    (1, 2, true, false),
    (1, 0, false, false),
    (0, 2, true, true),
];

/// Stops recovery of words whose state is in doubt after so many calls, and recovers what is left: both
/// regions are then the one that counted, or by the older state the one that it tells.
fn loses_nothing(
    alloc: Global,
    words: &[u64],
    older: u64,
    left: (&[u64], &[u64]),
    calls: u64,
    kind: u64,
) -> Result<(), Fail> {
    let memory = device(alloc, words, AMPLE, &[])?;
    let mut fuse = Fuse::new(
        Resumed::new(memory, with_state(alloc, words, older)?),
        calls,
    );
    let done = recovered(&mut fuse).is_some_and(|done| done.is_ok());
    let stop = fuse.inner().crash(&choice(kind / 2), &[kind % 2 == 0; 8]);
    // The older state is among what a stop leaves.
    let is_older = stop.as_slice().get(3) == Some(&older);
    let older_stays = is_older || calls > 0 || kind % 2 == 1;
    right("the older state, of kind", kind as usize, older_stays)?;
    let mut memory = device(alloc, stop.as_slice(), AMPLE, &[])?;
    let again = recovered(&mut memory).is_some_and(|again| again.is_ok());
    let same = memory.words() == left.0 || !done && memory.words() == left.1;
    right("in doubt after calls", calls as usize, again && same)
}

/// These words under another state.
fn with_state(alloc: Global, words: &[u64], state: u64) -> Result<Vec<u64>, AllocError> {
    let mut words = words.to_vec(alloc)?;
    change(words.as_mut_slice(), &[(3, state)]);
    Ok(words)
}

#[test]
fn a_state_in_doubt_loses_nothing(rt: HostRuntime) -> Result<(), Fail> {
    let alloc = rt.alloc();
    let (newer, older) = (region(true, &[]), region(false, &[]));
    for (state, on_disk, main, back) in &IN_DOUBT {
        let main = if *main { newer } else { older };
        let back = if *back { newer } else { older };
        let words = among_others(alloc, *state, &main, &back)?;
        let counts = if *state == 1 { back } else { main };
        let other = if *on_disk == 1 { back } else { main };
        let left = among_others(alloc, 0, &counts, &counts)?;
        let before = among_others(alloc, 0, &other, &other)?;
        let left = (left.as_slice(), before.as_slice());
        for kind in 0..4 {
            for stop in 0..34 {
                loses_nothing(alloc, words.as_slice(), *on_disk, left, 7 * stop, kind)?;
            }
        }
    }
    Ok(())
}

/// Words of a region that are others than in a new one, or nothing where it is torn.
type Changed = Option<&'static [(usize, u64)]>;

/// Regions under a state, and a call that fails. Then why the heap is not recovered, the faults, and how
/// many words of main are those of back by then. No other word is another.
type Refused = (u64, Changed, Changed, Failing, RecoverRefused, u64, usize);

static REFUSED: [Refused; 12] = [
    (
        0,
        Some(&[(2, 5), (111, 6)]),
        Some(&[(2, 4)]),
        (Write, 0, 235, 1, true),
        RecoverRefused::Twins {
            offset: 2,
            main: 5,
            back: 4,
        },
        0,
        0,
    ),
    // The words at offsets 65 to 67 of main, and of back, cannot be read. Once one of main's cannot, none
    // of back's is. A word of back behind the difference is read, and fails, before it is told.
    (
        0,
        Some(&[(66, 5)]),
        Some(&[]),
        (Read, 73, 74, 1, false),
        RecoverRefused::Device,
        1,
        0,
    ),
    (
        0,
        Some(&[(66, 5)]),
        Some(&[]),
        (Read, 74, 75, 1, false),
        RecoverRefused::Device,
        1,
        0,
    ),
    (
        0,
        Some(&[(66, 5)]),
        Some(&[]),
        (Read, 75, 76, 1, false),
        RecoverRefused::Device,
        1,
        0,
    ),
    (
        0,
        Some(&[(66, 5)]),
        Some(&[]),
        (Read, 185, 186, 1, false),
        RecoverRefused::Device,
        1,
        0,
    ),
    (
        0,
        Some(&[(66, 5)]),
        Some(&[]),
        (Read, 186, 187, 1, false),
        RecoverRefused::Device,
        1,
        0,
    ),
    (
        0,
        Some(&[(66, 5)]),
        Some(&[]),
        (Read, 187, 188, 1, false),
        RecoverRefused::Twins {
            offset: 66,
            main: 5,
            back: 0,
        },
        1,
        0,
    ),
    // No region is touched before the state is written again and certain: the first write of the state,
    // and the sync behind it.
    (
        1,
        None,
        Some(&[]),
        (Write, 3, 4, 1, true),
        RecoverRefused::Device,
        1,
        0,
    ),
    (
        1,
        None,
        Some(&[]),
        (Sync, 0, 1, 2, false),
        RecoverRefused::Device,
        1,
        0,
    ),
    (
        2,
        Some(&[]),
        None,
        (Write, 3, 4, 1, true),
        RecoverRefused::Device,
        1,
        0,
    ),
    (
        2,
        Some(&[]),
        None,
        (Sync, 0, 1, 2, false),
        RecoverRefused::Device,
        1,
        0,
    ),
    // Nothing of a piece of 64 words is written once a word of it cannot be read: here back's at offset
    // 65, of the second piece.
    (
        1,
        None,
        Some(&[]),
        (Read, 185, 186, 1, false),
        RecoverRefused::Device,
        1,
        64,
    ),
];

/// The words of a region.
fn words_of(changed: Changed) -> [u64; 112] {
    match changed {
        Some(changes) => region(false, changes),
        None => TORN,
    }
}

/// Whether the heap of a row is refused so.
fn is_refused(alloc: Global, row: &Refused) -> Result<bool, AllocError> {
    let (state, main, back, failing, why, faults, copied) = *row;
    let mut main = words_of(main);
    let back = words_of(back);
    let words = among_others(alloc, state, &main, &back)?;
    let mut memory = device(alloc, words.as_slice(), AMPLE, &[failing])?;
    let told = recovered(&mut memory) == Some(Err(why)) && memory.fault_count() == faults;
    for (word, other) in main.iter_mut().zip(back.iter()).take(copied) {
        *word = *other;
    }
    let left = among_others(alloc, state, &main, &back)?;
    Ok(told && memory.words() == left.as_slice())
}

#[test]
fn what_comes_first_is_answered(rt: HostRuntime) -> Result<(), Fail> {
    for (at, row) in REFUSED.iter().enumerate() {
        right("refused", at, is_refused(rt.alloc(), row)?)?;
    }
    Ok(())
}
