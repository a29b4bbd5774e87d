//! Heaps that are made, shown and refused, and scripts on devices that are torn, fail, or count no further.

use crate::rows::{PLAIN, Row, Sink, Text, Words};
use crate::runner::try_rows;
use rom_device::{CallKind, Trip};
use std::test::Fail;

/// A new heap, as it is shown.
const SHOWN: &str = "order 4\ncount 0\nqueue 0 set 0 map 0\nfree 15\ntotal 0\n";

const FORMAT: Row = Row {
    words: &["format", "file", "--order", "4"],
    text: Text::Is("formatted order 4\n"),
    ..PLAIN
};

const STAT: Row = Row {
    words: &["stat", "file"],
    device: Words::Heap(&[]),
    text: Text::Is(SHOWN),
    ..PLAIN
};

/// A heap that is refused, with a sink of any room.
const REFUSED: Row = Row {
    sink: Sink::Each,
    status: 3,
    ..STAT
};

const RUN: Row = Row {
    words: &["run", "file", "script"],
    scripts: &["enq 1\nenq 2\n"],
    device: Words::Heap(&[]),
    text: Text::Is("caller 1\nqueued @0\nqueued @1\ncount 2\n"),
    ..PLAIN
};

/// A run under which a call of the device fails.
const FAULTY: Row = Row { faults: 1, ..RUN };

/// The first sync fails.
const FIRST_SYNC: Trip = Trip {
    call: CallKind::Sync,
    from: 0,
    to: 0,
    nth: 1,
    keeps_new: false,
};

/// The first write of a word of back fails.
const WRITE_OF_BACK: Trip = Trip {
    call: CallKind::Write,
    from: 120,
    to: 232,
    nth: 1,
    keeps_new: false,
};

static HEAPS: [Row; 16] = [
    Row {
        left: Some(Words::Heap(&[])),
        ..FORMAT
    },
    Row {
        device: Words::Kept,
        status: 3,
        text: Text::Is("refused: already a heap\n"),
        ..FORMAT
    },
    Row {
        device: Words::Kept,
        ..STAT
    },
    Row {
        device: Words::Zeros(231),
        status: 3,
        text: Text::Is("refused: too small, need 232, have 231\n"),
        ..FORMAT
    },
    Row {
        device: Words::Torn(8, 120, &[(3, 1)]),
        left: Some(Words::Heap(&[])),
        ..STAT
    },
    Row {
        device: Words::Heap(&[(10, 5), (122, 4)]),
        text: Text::Is("refused: twins differ at 2, main 5, back 4\n"),
        ..REFUSED
    },
    Row {
        device: Words::Heap(&[(3, 3)]),
        text: Text::Is("refused: state 3\n"),
        ..REFUSED
    },
    Row {
        device: Words::Heap(&[(0, 0)]),
        text: Text::Is("refused: not a heap\n"),
        ..REFUSED
    },
    Row {
        device: Words::Heap(&[(1, 2)]),
        text: Text::Is("refused: version 2\n"),
        ..REFUSED
    },
    Row {
        device: Words::Heap(&[(2, 17)]),
        text: Text::Is("refused: order 17\n"),
        ..REFUSED
    },
    Row {
        device: Words::Heap(&[(2, 5)]),
        text: Text::Is("refused: too small, need 424, have 232\n"),
        ..REFUSED
    },
    Row {
        device: Words::Zeros(5),
        text: Text::Is("refused: too small, need 8, have 5\n"),
        ..REFUSED
    },
    Row {
        trip: Some(FIRST_SYNC),
        faults: 1,
        status: 7,
        text: Text::Is("device failed\n"),
        ..STAT
    },
    Row {
        trip: Some(FIRST_SYNC),
        faults: 1,
        status: 7,
        text: Text::Is("device failed\n"),
        ..FORMAT
    },
    // Where a text has no room, the status stays.
    Row {
        sink: Sink::Each,
        ..STAT
    },
    Row {
        sink: Sink::Each,
        ..FORMAT
    },
];

/// A heap whose regions are refused.
const BROKEN_HEAP: Row = Row {
    sink: Sink::Ample,
    ..REFUSED
};

/// Regions that are none, of a heap at rest: both alike, new or with 9 in the queue, with some words changed.
static BROKEN: [Row; 18] = [
    Row {
        device: Words::Regions(&[(17, 5)]),
        text: Text::Is("refused: malformed at 17, rule tree\n"),
        ..BROKEN_HEAP
    },
    Row {
        device: Words::Regions(&[(0, 2)]),
        text: Text::Is("refused: malformed at 0, rule root\n"),
        ..BROKEN_HEAP
    },
    Row {
        device: Words::Regions(&[(2, 4_611_686_018_427_387_905)]),
        text: Text::Is("refused: malformed at 2, rule root\n"),
        ..BROKEN_HEAP
    },
    // Into the bucket table, to no block, and behind the region.
    Row {
        device: Words::Regions(&[(3, 48)]),
        text: Text::Is("refused: malformed at 3, rule link\n"),
        ..BROKEN_HEAP
    },
    Row {
        device: Words::Regions(&[(3, 53)]),
        text: Text::Is("refused: malformed at 3, rule link\n"),
        ..BROKEN_HEAP
    },
    Row {
        device: Words::Regions(&[(3, 112)]),
        text: Text::Is("refused: malformed at 3, rule link\n"),
        ..BROKEN_HEAP
    },
    // A cycle, and a node with two owners.
    Row {
        device: Words::Regions(&[
            (2, 1),
            (3, 52),
            (4, 52),
            (5, 1),
            (24, 0),
            (33, 0),
            (52, 9),
            (53, 52),
        ]),
        text: Text::Is("refused: malformed at 53, rule link\n"),
        ..BROKEN_HEAP
    },
    Row {
        device: Words::Regions(&[
            (2, 1),
            (3, 52),
            (4, 52),
            (5, 1),
            (24, 0),
            (33, 0),
            (52, 9),
            (6, 52),
        ]),
        text: Text::Is("refused: malformed at 6, rule link\n"),
        ..BROKEN_HEAP
    },
    Row {
        device: Words::Regions(&[
            (2, 1),
            (3, 52),
            (4, 52),
            (5, 1),
            (24, 0),
            (33, 0),
            (52, 9),
            (54, 1),
        ]),
        text: Text::Is("refused: malformed at 54, rule pad\n"),
        ..BROKEN_HEAP
    },
    Row {
        device: Words::Regions(&[
            (2, 1),
            (3, 52),
            (4, 52),
            (5, 1),
            (24, 0),
            (33, 0),
            (52, 9),
            (4, 56),
        ]),
        text: Text::Is("refused: malformed at 4, rule ends\n"),
        ..BROKEN_HEAP
    },
    Row {
        device: Words::Regions(&[
            (2, 1),
            (3, 52),
            (4, 52),
            (5, 1),
            (24, 0),
            (33, 0),
            (52, 9),
            (5, 3),
        ]),
        text: Text::Is("refused: malformed at 5, rule count\n"),
        ..BROKEN_HEAP
    },
    // Two numbers that do not rise, a key in another bucket, and one key twice.
    Row {
        device: Words::Regions(&[(6, 52), (52, 5), (53, 56), (56, 5)]),
        text: Text::Is("refused: malformed at 56, rule order\n"),
        ..BROKEN_HEAP
    },
    Row {
        device: Words::Regions(&[(48, 52), (52, 1), (53, 7)]),
        text: Text::Is("refused: malformed at 52, rule bucket\n"),
        ..BROKEN_HEAP
    },
    Row {
        device: Words::Regions(&[(48, 52), (52, 5), (53, 7), (54, 56), (56, 5), (57, 8)]),
        text: Text::Is("refused: malformed at 56, rule order\n"),
        ..BROKEN_HEAP
    },
    // Two keys of one bucket that fall, and a stamp above the count.
    Row {
        device: Words::Regions(&[(48, 52), (52, 5), (54, 56)]),
        text: Text::Is("refused: malformed at 56, rule order\n"),
        ..BROKEN_HEAP
    },
    Row {
        device: Words::Regions(&[(2, 3), (48, 52), (52, 5), (55, 4)]),
        text: Text::Is("refused: malformed at 55, rule stamp\n"),
        ..BROKEN_HEAP
    },
    // A version that there is not.
    Row {
        device: Words::Regions(&[(1, 3)]),
        text: Text::Is("refused: malformed at 1, rule root\n"),
        ..BROKEN_HEAP
    },
    // A block that is taken and that nothing leads to.
    Row {
        device: Words::Regions(&[(24, 0), (33, 0)]),
        text: Text::Is("refused: malformed at 24, rule tree\n"),
        ..BROKEN_HEAP
    },
];

#[test]
fn a_heap_is_made_shown_and_refused(rt: HostRuntime) -> Result<(), Fail> {
    try_rows(&rt, &HEAPS)?;
    try_rows(&rt, &BROKEN)
}

static RUNS: [Row; 9] = [
    // At the commit, before it, at the opening, and after the commit.
    Row {
        trip: Some(Trip {
            nth: 4,
            ..FIRST_SYNC
        }),
        status: 7,
        text: Text::Is("caller 1\ndoubt\nqueued @0\ncount 1\n"),
        ..FAULTY
    },
    Row {
        trip: Some(Trip {
            nth: 2,
            ..FIRST_SYNC
        }),
        status: 7,
        text: Text::Is("caller 1\nfault\nqueued @0\ncount 1\n"),
        ..FAULTY
    },
    Row {
        trip: Some(FIRST_SYNC),
        status: 7,
        text: Text::Is("device failed\n"),
        ..FAULTY
    },
    Row {
        trip: Some(WRITE_OF_BACK),
        ..FAULTY
    },
    Row {
        trip: Some(Trip {
            keeps_new: true,
            ..WRITE_OF_BACK
        }),
        ..FAULTY
    },
    // The last update that there can be.
    Row {
        device: Words::Heap(&[
            (10, 4_611_686_018_427_387_903),
            (122, 4_611_686_018_427_387_903),
        ]),
        text: Text::Is("caller 1\nqueued @4611686018427387903\nspent\ncount 4611686018427387904\n"),
        ..RUN
    },
    Row {
        words: &["try", "script"],
        status: 3,
        text: Text::Is("refused: already a heap\n"),
        ..RUN
    },
    Row {
        words: &["try", "script"],
        device: Words::Zeros(231),
        status: 3,
        text: Text::Is("refused: too small, need 232, have 231\n"),
        ..RUN
    },
    Row {
        device: Words::Zeros(232),
        status: 3,
        text: Text::Is("refused: not a heap\n"),
        ..RUN
    },
];

#[test]
fn a_script_is_told_what_its_device_allows(rt: HostRuntime) -> Result<(), Fail> {
    try_rows(&rt, &RUNS)
}
