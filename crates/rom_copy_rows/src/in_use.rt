//! Heaps that are in use while they are read, as rows: what is read, and what `check` tells of it.
ghost use Rattle.std.specs.Prelude.{◌≡◌, ◌<◌, ◌^◌, List, [], false, length};
ghost use Rattle.rom_model.specs.Faults.{counted};

use crate::dumps::dump_words;
use crate::heaps::{PAIRS, PUT, QUEUED, TORN, WORDS, change, heap_of};
use rom_copy::{put_whole, snapshot};
use rom_device::{Device, Failed, Ram};
use rom_header::FormatRefused;
use rom_steady::{Unsteady, Watched};
use rom_test::{Limits, right};
use std::alloc::{AllocError, Global};
use std::test::Fail;

/// What differs from a new region in main and in back, behind a state, and for how many reads.
#[derive(Clone, Copy)]
struct Moment {
    state: u64,
    main: &'static [(usize, u64)],
    back: &'static [(usize, u64)],
    reads: u64,
}

/// The moments of a heap, of which the last one stays, how many tries there are, and what `check` tells of what was
/// read; nothing where nothing was.
struct Row {
    moments: &'static [Moment],
    tries: u32,
    text: Option<&'static str>,
}

/// A heap that moves on by itself as it is read.
#[derive(Drop)]
struct Moving {
    moments: Vec<Vec<u64>>,
    reads: Vec<u64>,
    at: usize,
    failed: u64,
}

impl Watched for Moving {
    ghost use Rattle.std.proofs.Common.{arith};

    ghost shown = { record {
      size = λ _. 232;
      tells = false;
      words = λ _ _. [];
      now = λ _. 0;
      faults = λ moving. moving.failed;
    } };

    fn len(&self) -> u64 {
        WORDS as u64
    }

    fn read_words(&mut self, at: u64, into: &mut [u64]) -> Result<(), Failed> {
        let Some(words) = self.moments.get(self.at) else {
            self.failed = self.failed.saturating_add(1);
            return Err(Failed);
        };
        for index in 0..into.len() {
            if let Some(word) = words.get(at as usize + index) {
                into[index] = *word;
            }
        }
        if let Some(left) = self.reads.get_mut(self.at) {
            if *left > 0 {
                *left -= 1;
            } else if self.at < usize::MAX && self.at + 1 < self.moments.len() {
                self.at += 1;
            }
        }
        Ok(())
    }

    ghost words_fit = { λ _ _ no. Prim.cc };

    ghost size_fits = { λ _. Prim.omega arith };
}

const LONG: u64 = 1_000_000;

const REST: Moment = Moment {
    state: 0,
    main: &[],
    back: &[],
    reads: LONG,
};

const NEW: &str =
    "region both: idle\nkind a queue, a set and a map\norder 4\ncount 0\nqueue 0 set 0 map 0\nfree 15\ntotal 0\n";

const ONE: &str =
    "region both: idle\nkind a queue, a set and a map\norder 4\ncount 1\nqueue 1 set 0 map 0\nfree 14\ntotal 0\n";

const TWO: &str =
    "region both: idle\nkind a queue, a set and a map\norder 4\ncount 2\nqueue 0 set 0 map 2\nfree 13\ntotal 3\n";

/// A batch that is committed, and not yet copied.
const COMMITTED: Moment = Moment {
    state: 2,
    main: &QUEUED,
    back: &[],
    reads: LONG,
};

/// The same once it is copied: so a file looks at rest, since IDLE is handed over late.
const COPIED: Moment = Moment {
    back: &QUEUED,
    ..COMMITTED
};

/// Room for all calls and all bytes of a check.
const AMPLE_LIMITS: Limits = Limits {
    calls: 1_000_000,
    room: 4096,
};

static ROWS: [Row; 9] = [
    Row {
        moments: &[REST],
        tries: 1,
        text: Some(NEW),
    },
    Row {
        moments: &[COPIED],
        tries: 1,
        text: Some(ONE),
    },
    // Main is half changed, and back is read.
    Row {
        moments: &[Moment {
            state: 1,
            main: &TORN,
            back: &QUEUED,
            reads: LONG,
        }],
        tries: 1,
        text: Some(ONE),
    },
    // COPYING may be in doubt, or back half copied, for ever.
    Row {
        moments: &[COMMITTED],
        tries: 3,
        text: None,
    },
    // It is copied by the second try.
    Row {
        moments: &[
            Moment {
                reads: 6,
                ..COMMITTED
            },
            COPIED,
        ],
        tries: 2,
        text: Some(ONE),
    },
    // Back is read whole, and a batch is committed before the look at its end.
    Row {
        moments: &[Moment { reads: 4, ..REST }, COMMITTED, COPIED],
        tries: 1,
        text: None,
    },
    Row {
        moments: &[Moment { reads: 4, ..REST }, COPIED],
        tries: 2,
        text: Some(ONE),
    },
    // Whole batches come in between, in two tries.
    Row {
        moments: &[
            Moment { reads: 3, ..REST },
            Moment {
                state: 0,
                main: &QUEUED,
                back: &QUEUED,
                reads: 8,
            },
            Moment {
                state: 0,
                main: &PAIRS,
                back: &PAIRS,
                reads: LONG,
            },
        ],
        tries: 1,
        text: None,
    },
    Row {
        moments: &[
            Moment { reads: 3, ..REST },
            Moment {
                state: 1,
                main: &PUT,
                back: &PAIRS,
                reads: LONG,
            },
        ],
        tries: 2,
        text: Some(TWO),
    },
];

/// The heap of a row, with words of a name.
fn moving_of(alloc: Global, row: &Row) -> Result<Moving, AllocError> {
    let mut moments = Vec::new(alloc);
    let mut reads = Vec::new(alloc);
    for moment in row.moments {
        let mut words = heap_of(alloc, moment.state, moment.main, moment.back)?;
        change(&mut words, 4, &[(0, 7), (1, 8)]);
        moments.push(words)?;
        reads.push(moment.reads)?;
    }
    Ok(Moving {
        moments,
        reads,
        at: 0,
        failed: 0,
    })
}

/// The words of the name in a row's heap.
const NAME: [u64; 4] = [7, 8, 0, 0];

/// The words of a device.
fn words_in<D: Device>(alloc: Global, device: &mut D) -> Result<Vec<u64>, AllocError> {
    let mut words = vec![in alloc; 0u64; device.len() as usize]?;
    let _ = device.read_words(0, words.as_mut_slice());
    Ok(words)
}

/// Whether these words, put on a device that has none, are there then, and no heap is put over them.
fn is_put(alloc: Global, words: &[u64]) -> Result<bool, AllocError> {
    if words.is_empty() {
        return Ok(false);
    }
    let mut device = Ram::zeroed(alloc, words.len() as u64)?;
    let put = put_whole(&mut device, words);
    let again = put_whole(&mut device, words);
    let found = words_in(alloc, &mut device)?;
    Ok(put == Ok(()) && again == Err(FormatRefused::AlreadyAHeap) && found.as_slice() == words)
}

/// Whether a row is read and told as it is to be, and can be put.
fn is_read(alloc: Global, row: &Row) -> Result<bool, AllocError> {
    let mut moving = moving_of(alloc, row)?;
    let mut heap = match snapshot(alloc, &mut moving, row.tries) {
        Ok(heap) => heap,
        Err(why) => return Ok(row.text.is_none() && why == Unsteady::Busy),
    };
    let words = words_in(alloc, &mut heap)?;
    let found = dump_words(alloc, &["check", "heap"], words.as_slice(), AMPLE_LIMITS)?;
    let named = words.get(4..8) == Some(&NAME[..]);
    Ok(row.text == Some(found.text()) && named && is_put(alloc, words.as_slice())?)
}

#[test]
fn a_heap_in_use_is_read_as_it_is_committed(rt: HostRuntime) -> Result<(), Fail> {
    for (at, row) in ROWS.iter().enumerate() {
        right("row", at, is_read(rt.alloc(), row)?)?;
    }
    Ok(())
}
