//! Drills on new heaps, to the byte. The lines that are wanted, and how many lines each caller draws, were
//! counted by a program of its own.

use crate::rows::{PLAIN, Row, Sink, Text, Words};
use crate::runner::try_rows;
use std::test::Fail;

/// How many calls it takes to make the heap of a drill: a read, a write of each word, and three syncs.
const MAKING: u64 = 1 + 49_192 + 3;

/// How many calls the first update of a drill makes, which stores to 14 words: these of main and of back,
/// three of the state, and four syncs.
const FIRST: u64 = 2 * 14 + 3 + 4;

/// How many the first five make. The others store to 7, 8, 8 and 9 words.
const FIVE: u64 = FIRST + 2 * (7 + 8 + 8 + 9) + 4 * (3 + 4);

const DRILL: Row = Row {
    words: &["drill", "1", "--callers", "1", "--calls", "3"],
    device: Words::Zeros(49_192),
    text: Text::Is(
        "drill 1 callers 1 calls 3\nenqueued 227 dequeued 227\nqueue 0 set 0 map 4\ntotal 4000\ncount 7\n",
    ),
    drawn: &[8],
    ..PLAIN
};

/// Of four callers.
const FOUR: Row = Row {
    words: &["drill", "7", "--callers", "4", "--calls", "20"],
    text: Text::Is(
        "drill 7 callers 4 calls 20\nenqueued 57272 dequeued 57272\nqueue 0 set 8 map 16\ntotal 16000\ncount 89\n",
    ),
    drawn: &[28, 26, 28, 29],
    ..DRILL
};

/// The device fails under an update: the first are four puts and an `enq`. Each line is begun all the same.
const FAILED: Row = Row { status: 7, ..DRILL };

static SHORT: [Row; 12] = [
    DRILL,
    FOUR,
    FOUR,
    Row {
        words: &["drill", "--calls", "9", "7", "--callers=2"],
        text: Text::Is(
            "drill 7 callers 2 calls 9\nenqueued 23530 dequeued 23530\nqueue 0 set 2 map 8\ntotal 8000\ncount 25\n",
        ),
        drawn: &[16, 14],
        ..DRILL
    },
    Row {
        words: &[
            "drill",
            "18446744073709551615",
            "--callers=3",
            "--calls=12",
            "--",
        ],
        text: Text::Is(
            "drill 18446744073709551615 callers 3 calls 12\nenqueued 26401 dequeued 26401\nqueue 0 set 3 map 12\ntotal 12000\ncount 45\n",
        ),
        drawn: &[20, 17, 18],
        ..DRILL
    },
    Row {
        words: &["drill", "0", "--callers", "1", "--calls", "1"],
        text: Text::Is(
            "drill 0 callers 1 calls 1\nenqueued 0 dequeued 0\nqueue 0 set 1 map 4\ntotal 4000\ncount 5\n",
        ),
        drawn: &[5],
        ..DRILL
    },
    Row {
        sink: Sink::Only(30),
        ..DRILL
    },
    Row {
        device: Words::Zeros(49_191),
        status: 3,
        text: Text::Is("refused: too small, need 49192, have 49191\n"),
        ..DRILL
    },
    Row {
        calls: MAKING - 1,
        text: Text::Is("device failed\n"),
        ..FAILED
    },
    Row {
        calls: MAKING,
        text: Text::Is(
            "drill 1 callers 1 calls 3\nenqueued 0 dequeued 0\nqueue 0 set 0 map 0\ntotal 0\ncount 0\n",
        ),
        ..FAILED
    },
    Row {
        calls: MAKING + FIRST,
        text: Text::Is(
            "drill 1 callers 1 calls 3\nenqueued 0 dequeued 0\nqueue 0 set 0 map 1\ntotal 1000\ncount 1\n",
        ),
        ..FAILED
    },
    Row {
        calls: MAKING + FIVE,
        text: Text::Is(
            "drill 1 callers 1 calls 3\nenqueued 227 dequeued 0\nqueue 1 set 0 map 4\ntotal 4000\ncount 5\n",
        ),
        ..FAILED
    },
];

/// Each from another start, and twice: whichever caller comes first, the lines are the same.
const LONG_ONE: Row = Row {
    words: &["drill", "1", "--callers", "4", "--calls", "1000"],
    text: Text::Is(
        "drill 1 callers 4 calls 1000\nenqueued 4237937 dequeued 4237937\nqueue 0 set 16 map 16\ntotal 16000\ncount 4028\n",
    ),
    drawn: &[1241, 1280, 1263, 1251],
    ..DRILL
};

const LONG_TWO: Row = Row {
    words: &["drill", "7", "--callers", "4", "--calls", "1000"],
    text: Text::Is(
        "drill 7 callers 4 calls 1000\nenqueued 3973046 dequeued 3973046\nqueue 0 set 19 map 16\ntotal 16000\ncount 4011\n",
    ),
    drawn: &[1250, 1263, 1255, 1231],
    ..DRILL
};

const LONG_THREE: Row = Row {
    words: &[
        "drill",
        "18446744073709551615",
        "--callers",
        "4",
        "--calls",
        "1000",
    ],
    text: Text::Is(
        "drill 18446744073709551615 callers 4 calls 1000\nenqueued 4191978 dequeued 4191978\nqueue 0 set 19 map 16\ntotal 16000\ncount 4037\n",
    ),
    drawn: &[1271, 1238, 1241, 1280],
    ..DRILL
};

#[test]
fn a_drill_is_told_in_five_lines(rt: HostRuntime) -> Result<(), Fail> {
    try_rows(&rt, &SHORT)
}

#[test]
fn a_drill_tells_the_same_each_time(rt: HostRuntime) -> Result<(), Fail> {
    try_rows(
        &rt,
        &[
            LONG_ONE, LONG_ONE, LONG_TWO, LONG_TWO, LONG_THREE, LONG_THREE,
        ],
    )
}
