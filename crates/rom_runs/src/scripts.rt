//! Scripts that are tried, and run on a heap that was just made, to the byte; and those that cannot be
//! read, or whose texts find no room.

use crate::rows::{PLAIN, Row, Sink, Text, Words};
use crate::runner::try_rows;
use std::test::Fail;

/// Fifteen elements fill the heap, and the sixteenth finds it full; one leaves it, and one more has
/// room.
const FILL: &str =
    "enq 1\nenq 2\nenq 3\nenq 4\nenq 5\nenq 6\nenq 7\nenq 8\nenq 9\nenq 10\nenq 11\nenq 12\nenq 13\nenq 14\nenq 15\nenq 16\ndeq\nenq 1\n";

const FILLED: &str =
    "caller 1\nqueued @0\nqueued @1\nqueued @2\nqueued @3\nqueued @4\nqueued @5\nqueued @6\nqueued @7\nqueued @8\nqueued @9\nqueued @10\nqueued @11\nqueued @12\nqueued @13\nqueued @14\nfull @15\nhead 1 @16\nqueued @17\ncount 18\n";

/// Fourteen elements in the queue, and the fifteenth in the map: its value can change, and another
/// key finds the heap full.
const SHARED: &str = "14 * enq 1\nput 1 1\nput 1 2\nput 2 2\n";

const SHARED_TOLD: &str =
    "caller 1\nqueued @0\nqueued @1\nqueued @2\nqueued @3\nqueued @4\nqueued @5\nqueued @6\nqueued @7\nqueued @8\nqueued @9\nqueued @10\nqueued @11\nqueued @12\nqueued @13\nnone @14\nwas 1 @15\nfull @16\ncount 17\n";

/// Amounts that go from one key to another, or do not.
const MOVED: &str =
    "put 1 100\nput 2 0\nmove 1 2 60\nmove 1 2 60\nmove 1 3 1\nmove 1 1 40\ntotal\n";

const MOVED_TOLD: &str =
    "caller 1\nnone @0\nnone @1\nmoved @2\nshort 40 @3\nabsent @4\nmoved @5\ntotal 100 #6\ncount 6\n";

/// A sum of values that is greater than a value can be.
const GREAT: &str = "put 0 18446744073709551615\nput 1 18446744073709551615\ntotal\nmove 0 1 1\n";

const GREAT_TOLD: &str =
    "caller 1\nnone @0\nnone @1\ntotal 36893488147419103230 #2\nover @2\ncount 3\n";

/// A group that finds no room for its second member, and one that takes an element out before it puts
/// one in.
const GROUPED: &str = "14 * enq 1\ntx add 1 ; add 2\nhas 1\ntx deq ; add 1 ; add 1\n";

const GROUPED_TOLD: &str =
    "caller 1\nqueued @0\nqueued @1\nqueued @2\nqueued @3\nqueued @4\nqueued @5\nqueued @6\nqueued @7\nqueued @8\nqueued @9\nqueued @10\nqueued @11\nqueued @12\nqueued @13\nfull @14\nno #15\nall head 1 ; added ; present @15\ncount 16\n";

/// Values that are written, one of them twice, and how many keys have one since a place.
const FRESH: &str = "put 1 5\nput 2 6\nput 1 7\nfresh 0\nfresh 2\nfresh 3\n";

const FRESH_TOLD: &str =
    "caller 1\nnone @0\nnone @1\nwas 5 @2\nfresh 2 #3\nfresh 1 #3\nfresh 0 #3\ncount 3\n";

/// A move writes both values, also of nothing; to the same key, or one that is short, it writes none. The
/// members of a group write at one place.
const STAMPED: &str =
    "put 1 5\nput 2 6\nput 3 7\nmove 1 2 0\nfresh 3\nmove 3 3 7\nmove 1 2 9\nfresh 4\ntx put 3 1 ; put 4 2 ; del 1\nfresh 6\nfresh 7\nput 4 2\nfresh 7\n";

const STAMPED_TOLD: &str =
    "caller 1\nnone @0\nnone @1\nnone @2\nmoved @3\nfresh 2 #4\nmoved @4\nshort 5 @5\nfresh 0 #6\nall was 7 ; none ; was 5 @6\nfresh 2 #7\nfresh 0 #7\nwas 2 @7\nfresh 1 #8\ncount 8\n";

const TRIED: Row = Row {
    words: &["try", "script"],
    ..PLAIN
};

static SCRIPTS: [Row; 18] = [
    Row {
        scripts: &[""],
        text: Text::Is("caller 1\ncount 0\n"),
        ..TRIED
    },
    Row {
        scripts: &["enq 9\ndeq\ndeq\n"],
        text: Text::Is("caller 1\nqueued @0\nhead 9 @1\nempty @2\ncount 3\n"),
        ..TRIED
    },
    Row {
        scripts: &["put 5 7\nget 5\nput 5 8\ndel 5\nget 5\n"],
        text: Text::Is("caller 1\nnone @0\nvalue 7 #1\nwas 7 @1\nwas 8 @2\nnone #3\ncount 3\n"),
        ..TRIED
    },
    Row {
        scripts: &[FILL],
        text: Text::Is(FILLED),
        ..TRIED
    },
    Row {
        scripts: &[SHARED],
        text: Text::Is(SHARED_TOLD),
        ..TRIED
    },
    Row {
        scripts: &["add 3\nadd 3\nrem 3\nrem 3\nhas 3\n"],
        text: Text::Is("caller 1\nadded @0\npresent @1\nremoved @2\nabsent @3\nno #4\ncount 4\n"),
        ..TRIED
    },
    Row {
        scripts: &[MOVED],
        text: Text::Is(MOVED_TOLD),
        ..TRIED
    },
    Row {
        scripts: &[GREAT],
        text: Text::Is(GREAT_TOLD),
        ..TRIED
    },
    Row {
        scripts: &["put 18446744073709551616 1\n\nPUT 1 1\nenq 007\n"],
        status: 1,
        text: Text::Is("caller 1\nunread\nunread\nunread\nunread\ncount 0\n"),
        ..TRIED
    },
    // Both keys are in one bucket.
    Row {
        scripts: &["put 0 1\nput 5 2\ndel 0\nget 5\n"],
        text: Text::Is("caller 1\nnone @0\nnone @1\nwas 1 @2\nvalue 2 #3\ncount 3\n"),
        ..TRIED
    },
    Row {
        scripts: &["peek\nlen\ndel 1\nhas 0"],
        text: Text::Is("caller 1\nempty #0\nqueue 0 set 0 map 0 #0\nnone @0\nno #1\ncount 1\n"),
        ..TRIED
    },
    Row {
        scripts: &["enq 9\npeek\nqed\ndeq\n"],
        status: 1,
        text: Text::Is("caller 1\nqueued @0\nhead 9 #1\nunread\nhead 9 @1\ncount 2\n"),
        ..TRIED
    },
    Row {
        scripts: &["tx put 1 5 ; put 2 6 ; move 1 2 5\nget 2\n"],
        text: Text::Is("caller 1\nall none ; none ; moved @0\nvalue 11 #1\ncount 1\n"),
        ..TRIED
    },
    Row {
        scripts: &[GROUPED],
        text: Text::Is(GROUPED_TOLD),
        ..TRIED
    },
    Row {
        scripts: &["tx enq 1\ntx enq 1 ; peek\ntx enq 1;deq\n"],
        status: 1,
        text: Text::Is("caller 1\nunread\nunread\nunread\ncount 0\n"),
        ..TRIED
    },
    Row {
        scripts: &[FRESH],
        text: Text::Is(FRESH_TOLD),
        ..TRIED
    },
    Row {
        scripts: &[STAMPED],
        text: Text::Is(STAMPED_TOLD),
        ..TRIED
    },
    Row {
        scripts: &["fresh\nfresh 01\nfresh 1 2\nfresh 18446744073709551615\n"],
        status: 1,
        text: Text::Is("caller 1\nunread\nunread\nunread\nfresh 0 #0\ncount 0\n"),
        ..TRIED
    },
];

/// Twelve reads give the 34 bytes of this script, and the thirteenth tells their end.
const READ: Row = Row {
    scripts: &["put 5 7\nget 5\nput 5 8\ndel 5\nget 5\n"],
    status: 4,
    text: Text::Is("script 1 failed\n"),
    ..TRIED
};

/// The number of each of its reads.
const READS: [&[u64]; 13] = [
    &[1],
    &[2],
    &[3],
    &[4],
    &[5],
    &[6],
    &[7],
    &[8],
    &[9],
    &[10],
    &[11],
    &[12],
    &[13],
];

static ROWS: [Row; 10] = [
    // A lone dash is a script's name.
    Row {
        words: &["try", "-"],
        scripts: &["deq\n"],
        text: Text::Is("caller 1\nempty @0\ncount 1\n"),
        ..PLAIN
    },
    Row {
        failing: &[3],
        sink: Sink::Each,
        ..READ
    },
    // No read has this number.
    Row {
        failing: &[14],
        status: 0,
        text: Text::Is("caller 1\nnone @0\nvalue 7 #1\nwas 7 @1\nwas 8 @2\nnone #3\ncount 3\n"),
        sink: Sink::Each,
        ..READ
    },
    // The update is done, though its reply is not printed.
    Row {
        scripts: &["enq 9"],
        sink: Sink::Only(10),
        text: Text::Is("caller 1\nqueued @0\ncount 1\n"),
        shown: "order 4\ncount 1\nqueue 1 set 0 map 0\nfree 14\ntotal 0\n",
        ..TRIED
    },
    Row {
        scripts: &[FILL],
        sink: Sink::Each,
        text: Text::Is(FILLED),
        ..TRIED
    },
    // The first script that fails, or is too long, is named.
    Row {
        words: &["run", "file", "one", "two", "three"],
        scripts: &["enq 7\n", "enq 7\n", "enq 7\n"],
        failing: &[0, 1, 1],
        device: Words::Heap(&[]),
        status: 4,
        text: Text::Is("script 2 failed\n"),
        ..PLAIN
    },
    Row {
        words: &["try", "one", "two"],
        scripts: &["enq 7\n", "enq 7\n"],
        failing: &[0, 1],
        device: Words::Heap(&[]),
        status: 4,
        text: Text::Is("script 2 failed\n"),
        ..PLAIN
    },
    Row {
        words: &["run", "file", "one", "two", "three"],
        scripts: &["enq 7\n", "61681 * put 1234567 8901\n", "enq 7\n"],
        failing: &[0, 0, 1],
        device: Words::Heap(&[]),
        status: 8,
        text: Text::Is("script 2 too long\n"),
        ..PLAIN
    },
    Row {
        scripts: &["1048576 * \n"],
        status: 8,
        text: Text::Is("script 1 too long\n"),
        ..TRIED
    },
    Row {
        scripts: &["131073 * \n"],
        status: 8,
        text: Text::Is("script 1 too long\n"),
        ..TRIED
    },
];

const MADE: Row = Row {
    words: &["format", "file", "--order", "4"],
    text: Text::Is("formatted order 4\n"),
    ..PLAIN
};

#[test]
fn scripts_are_told_their_replies(rt: HostRuntime) -> Result<(), Fail> {
    for tried in &SCRIPTS {
        let played = Row {
            words: &["run", "file", "script"],
            device: Words::Kept,
            ..*tried
        };
        try_rows(&rt, &[*tried, MADE, played])?;
    }
    Ok(())
}

#[test]
fn a_script_that_fails_or_a_full_sink_is_told(rt: HostRuntime) -> Result<(), Fail> {
    for failing in READS {
        try_rows(&rt, &[Row { failing, ..READ }])?;
    }
    try_rows(&rt, &ROWS)
}
