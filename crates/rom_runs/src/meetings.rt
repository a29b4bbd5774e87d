//! Callers who meet: each goes on with its first line only when all others have begun theirs, and so with
//! its last one, before which there are others in most scripts. And calls that come together at the last counts that there are, so that a pass finds more of them than it does.

use crate::rows::{PLAIN, Row, Text, Words};
use crate::runner::try_rows;
use rom_test::Holding;
use std::test::Fail;

/// Scripts of few lines and of several.
const SHORT: &str = "enq 7\nget 7\n";

const THREE: &str = "put 1 1\nadd 2\nrem 2\n";

/// Queries alone.
const QUERIES: &str = "peek\nlen\nget 1\nfresh 0\n";

const LONG: &str = "put 1 1\nadd 2\nhas 2\nrem 2\nget 1\nmove 1 1 1\ntotal\nlen\n";

/// Two callers of whom each goes on with its first line when the other has begun its own.
const TWO: Row = Row {
    words: &["try", "one", "two"],
    scripts: &["enq 7\nadd 7\n"; 2],
    text: Text::OneHistory(0),
    ..PLAIN
};

const SIXTEEN: Row = Row {
    words: &[
        "try", "a", "a", "a", "a", "a", "a", "a", "a", "a", "a", "a", "a", "a", "a", "a", "a",
    ],
    scripts: &[LONG; 16],
    ..TWO
};

/// The same on a heap in a file.
const RUN: Row = Row {
    words: &[
        "run", "F", "a", "a", "a", "a", "a", "a", "a", "a", "a", "a", "a", "a", "a", "a", "a", "a",
    ],
    device: Words::Heap(&[]),
    ..SIXTEEN
};

static ROWS: [Row; 12] = [
    TWO,
    Row {
        words: &["run", "file", "one", "two"],
        scripts: &["add 1\nadd 2\nhas 1\n", "enq 7\nqed\n"],
        device: Words::Heap(&[]),
        status: 1,
        shown: "order 4\ncount 3\nqueue 1 set 2 map 0\nfree 12\ntotal 0\n",
        ..TWO
    },
    SIXTEEN,
    Row {
        scripts: &[SHORT; 16],
        ..SIXTEEN
    },
    Row {
        scripts: &[
            THREE, LONG, SHORT, LONG, THREE, LONG, SHORT, LONG, THREE, LONG, SHORT, LONG, THREE,
            LONG, SHORT, LONG,
        ],
        ..SIXTEEN
    },
    Row {
        scripts: &["enq 1\ndeq\n"; 16],
        ..SIXTEEN
    },
    Row {
        scripts: &[THREE; 16],
        ..RUN
    },
    Row {
        scripts: &[QUERIES; 2],
        ..TWO
    },
    Row {
        words: &["run", "file", "one", "two", "three"],
        scripts: &[QUERIES; 3],
        device: Words::Kept,
        ..RUN
    },
    Row {
        scripts: &[QUERIES; 16],
        ..RUN
    },
    Row {
        words: &["drill", "1", "--callers", "2", "--calls", "3"],
        scripts: &[],
        device: Words::Zeros(49_192),
        text: Text::Is(
            "drill 1 callers 2 calls 3\nenqueued 227 dequeued 227\nqueue 0 set 0 map 8\ntotal 8000\ncount 12\n",
        ),
        drawn: &[8, 7],
        ..TWO
    },
    Row {
        words: &["drill", "3", "--callers", "16", "--calls", "6"],
        scripts: &[],
        device: Words::Zeros(49_192),
        text: Text::Is(
            "drill 3 callers 16 calls 6\nenqueued 105831 dequeued 105831\nqueue 0 set 10 map 64\ntotal 64000\ncount 159\n",
        ),
        drawn: &[
            11, 12, 11, 12, 12, 11, 10, 13, 10, 10, 15, 11, 11, 13, 10, 12,
        ],
        ..TWO
    },
];

/// Two updates before the last count that there is. The first pass is held up until all callers have posted,
/// so that a later one finds more calls than it does.
const LAST_TWO: Row = Row {
    scripts: &["enq 7\n"; 16],
    gate: Holding::FirstPass,
    device: Words::Heap(&[
        (10, 4_611_686_018_427_387_902),
        (122, 4_611_686_018_427_387_902),
    ]),
    text: Text::OneHistory(4_611_686_018_427_387_902),
    shown: "order 4\ncount 4611686018427387904\nqueue 2 set 0 map 0\nfree 13\ntotal 0\n",
    ..RUN
};

#[test]
fn callers_run_beside_each_other(rt: HostRuntime) -> Result<(), Fail> {
    try_rows(&rt, &ROWS)
}

#[test]
fn a_batch_that_is_cut_short_is_told_as_what_it_did(rt: HostRuntime) -> Result<(), Fail> {
    try_rows(&rt, &[LAST_TWO, LAST_TWO, LAST_TWO])
}
