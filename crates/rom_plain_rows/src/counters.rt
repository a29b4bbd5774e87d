//! Rows of a counter, each on the device that the row before it left.

use crate::rows::{RUN, Row, TRY};

const FORMAT: Row = Row {
    words: &["format", "heap", "4"],
    text: "formatted order 4\n",
    ..RUN
};

/// Where main and back begin on a device of order 4.
const MAIN: usize = 8;

const BACK: usize = 120;

pub static ROWS: [Row; 12] = [
    Row {
        scripts: &["add 5\nget\nadd 7\nsub 1\r\nadd 01\nget"],
        status: 1,
        text: "caller 1\nsum 5 @0\nsum 5 #1\nsum 12 @1\nunread\nunread\nsum 12 #2\ncount 2\n",
        ..TRY
    },
    // A new heap of `try` stands on the same words.
    Row {
        status: 3,
        text: "refused: already a heap\n",
        ..FORMAT
    },
    Row {
        scripts: &["add 18446744073709551600\nadd 9\nget\n"],
        text: "caller 1\nsum 18446744073709551612 @2\nsum 18446744073709551615 @3\nsum 18446744073709551615 #4\ncount 4\n",
        ..RUN
    },
    Row {
        words: &["run", "heap", "a", "b"],
        scripts: &["get\nget\n", "get\n"],
        text: "caller 1\nsum 18446744073709551615 #4\nsum 18446744073709551615 #4\ncaller 2\nsum 18446744073709551615 #4\ncount 4\n",
        ..RUN
    },
    Row {
        scripts: &["get"],
        changes: &[(MAIN + 1, 40), (BACK + 1, 40)],
        text: "caller 1\nsum 40 #4\ncount 4\n",
        ..RUN
    },
    Row {
        scripts: &["get"],
        changes: &[
            (MAIN + 2, 4611686018427387905),
            (BACK + 2, 4611686018427387905),
        ],
        status: 3,
        text: "refused: malformed at 2, rule root\n",
        ..RUN
    },
    Row {
        scripts: &["get\nadd 1\nget\n"],
        changes: &[
            (MAIN + 2, 4611686018427387904),
            (BACK + 2, 4611686018427387904),
        ],
        text: "caller 1\nsum 40 #4611686018427387904\nspent\nsum 40 #4611686018427387904\ncount 4611686018427387904\n",
        ..RUN
    },
    Row {
        scripts: &["get"],
        changes: &[(BACK + 1, 41)],
        status: 3,
        text: "refused: twins differ at 1, main 40, back 41\n",
        ..RUN
    },
    Row {
        words: &["run", "-heap", "a"],
        status: 2,
        text: "not a command\n",
        ..RUN
    },
    Row {
        words: &["format", "heap", "--order", "4"],
        status: 2,
        text: "not a command\n",
        ..RUN
    },
    Row {
        words: &["format", "heap", "04"],
        status: 2,
        text: "not a command\n",
        ..RUN
    },
    Row {
        words: &[],
        status: 2,
        text: "not a command\n",
        ..RUN
    },
];
