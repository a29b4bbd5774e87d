//! Rows of an ordered index, and its regions that break a rule.

use crate::broken::Broken;
use crate::rows::{Row, TRY};

pub static ROWS: [Row; 7] = [
    Row {
        scripts: &[""],
        text: "caller 1\ncount 0\n",
        ..TRY
    },
    Row {
        scripts: &[
            "put 1 10\nput 2 20\nput 3 30\nrange 2 3\nfrom 2\ndel 2\nrange 0 9\nrange 9 1\n",
        ],
        text: "caller 1\nnone @0\nnone @1\nnone @2\nrange 2 sum 50 #3\npair 2 20 #3\nwas 20 @3\nrange 2 sum 40 #4\nrange 0 sum 0 #4\ncount 4\n",
        ..TRY
    },
    Row {
        scripts: &[
            "put 1 0\nput 2 0\nput 3 0\nput 4 0\nput 5 0\nput 6 0\nput 7 0\nput 8 0\nput 9 0\nput 8 5\nfrom 9\n",
        ],
        text: "caller 1\nnone @0\nnone @1\nnone @2\nnone @3\nnone @4\nnone @5\nnone @6\nnone @7\nfull @8\nwas 0 @9\nnone #10\ncount 10\n",
        ..TRY
    },
    // There is room again once a key has gone, and none for one more.
    Row {
        scripts: &[
            "put 8 1\nput 7 1\nput 6 1\nput 5 1\nput 4 1\nput 3 1\nput 2 1\nput 1 1\nput 0 1\ndel 4\ndel 4\nget 4\nfrom 4\nput 0 2\nput 9 1\nrange 0 8\nfrom 0\n",
        ],
        text: "caller 1\nnone @0\nnone @1\nnone @2\nnone @3\nnone @4\nnone @5\nnone @6\nnone @7\nfull @8\nwas 1 @9\nnone @10\nnone #11\npair 5 1 #11\nnone @11\nfull @12\nrange 8 sum 9 #13\npair 0 2 #13\ncount 13\n",
        ..TRY
    },
    // The greatest numbers, a sum that has more digits than they, and ends of lines.
    Row {
        scripts: &[
            "put 18446744073709551615 18446744073709551615\r\nput 0 18446744073709551615\nrange 0 18446744073709551615\nfrom 18446744073709551615\nfrom 1\nget 0\nrange 5 5\nrange 0 0\nrange 1 18446744073709551614\nget 18446744073709551615",
        ],
        text: "caller 1\nnone @0\nnone @1\nrange 2 sum 36893488147419103230 #2\npair 18446744073709551615 18446744073709551615 #2\npair 18446744073709551615 18446744073709551615 #2\nvalue 18446744073709551615 #2\nrange 0 sum 0 #2\nrange 1 sum 18446744073709551615 #2\nrange 0 sum 0 #2\nvalue 18446744073709551615 #2\ncount 2\n",
        ..TRY
    },
    // Words: too few, too many, another space, numbers that are none, and names that are none.
    Row {
        scripts: &[
            "put\nput 1\nput 1 2 \nput  1 2\nput 1  2\n put 1 2\nput 01 2\nput 1 18446744073709551616\nput 1 2 3\ndel\ndel 1 2\ndel -\nget\nget x\nget 1 2\nfrom\nfrom +1\nfrom 1 2\nrange\nrange 1\nrange 1 2 3\nrange 1-2\nPut 1 2\nenq 1\nfetch 1\n\n",
        ],
        status: 1,
        text: "caller 1\nunread\nunread\nunread\nunread\nunread\nunread\nunread\nunread\nunread\nunread\nunread\nunread\nunread\nunread\nunread\nunread\nunread\nunread\nunread\nunread\nunread\nunread\nunread\nunread\nunread\nunread\ncount 0\n",
        ..TRY
    },
    // A line that is not read between two that are.
    Row {
        scripts: &["put 5 50\nput 5\nrange 5 4\nrange 4 5\nfrom 6\nfrom 5\nput 5 51\nget 5\n"],
        status: 1,
        text: "caller 1\nnone @0\nunread\nrange 0 sum 0 #1\nrange 1 sum 50 #1\nnone #1\npair 5 50 #1\nwas 50 @1\nvalue 51 #2\ncount 2\n",
        ..TRY
    },
];

/// By these updates the keys 2, 4, 6 and 5 stand in the nodes at 48, 56, 64 and 72. That of 4 is on top, with
/// that of 2 on its left and that of 6 on its right, which has that of 5 on its left. Then what is asked.
pub const BEFORE: [&str; 2] = [
    "put 2 20\nput 4 40\nput 6 60\nput 5 50\n",
    "range 0 9\nfrom 3\n",
];

/// Of broken regions, one or more for each rule, and with two broken the one that is told.
pub static BROKEN: [Broken; 32] = [
    // Root words: another kind, another version, a count past the last, and words that are 0.
    Broken {
        changes: &[(0, 2), (1, 2)],
        text: "refused: another kind, keys with bytes\n",
    },
    Broken {
        changes: &[(1, 2), (2, 4_611_686_018_427_387_905)],
        text: "refused: malformed at 1, rule root\n",
    },
    Broken {
        changes: &[(2, 4_611_686_018_427_387_905), (5, 1)],
        text: "refused: malformed at 2, rule root\n",
    },
    Broken {
        changes: &[(5, 1), (16, 1)],
        text: "refused: malformed at 5, rule root\n",
    },
    Broken {
        changes: &[(16, 1), (3, 57)],
        text: "refused: malformed at 16, rule root\n",
    },
    // Links: before the first block, into the middle of one, to a unit that no node begins at, behind the
    // last block, past all words, to the node itself, and to one on another way.
    Broken {
        changes: &[(3, 40)],
        text: "refused: malformed at 3, rule link\n",
    },
    Broken {
        changes: &[(3, 57)],
        text: "refused: malformed at 3, rule link\n",
    },
    Broken {
        changes: &[(3, 60)],
        text: "refused: malformed at 3, rule link\n",
    },
    Broken {
        changes: &[(67, 112)],
        text: "refused: malformed at 67, rule link\n",
    },
    Broken {
        changes: &[(75, 18_446_744_073_709_551_608)],
        text: "refused: malformed at 75, rule link\n",
    },
    Broken {
        changes: &[(50, 48)],
        text: "refused: malformed at 50, rule link\n",
    },
    Broken {
        changes: &[(75, 48)],
        text: "refused: malformed at 75, rule link\n",
    },
    // A node comes before its left subtree, and that before its right one.
    Broken {
        changes: &[(50, 49), (66, 49)],
        text: "refused: malformed at 50, rule link\n",
    },
    Broken {
        changes: &[(63, 1), (50, 49)],
        text: "refused: malformed at 63, rule pad\n",
    },
    // Words of a node that are 0.
    Broken {
        changes: &[(53, 1), (54, 1)],
        text: "refused: malformed at 53, rule pad\n",
    },
    Broken {
        changes: &[(70, 1), (71, 1)],
        text: "refused: malformed at 70, rule pad\n",
    },
    Broken {
        changes: &[(79, 1), (72, 9)],
        text: "refused: malformed at 79, rule pad\n",
    },
    // Keys: on the wrong side of the node above, equal to it, and on that of one further above.
    Broken {
        changes: &[(48, 5)],
        text: "refused: malformed at 48, rule order\n",
    },
    Broken {
        changes: &[(48, 4)],
        text: "refused: malformed at 48, rule order\n",
    },
    Broken {
        changes: &[(64, 4)],
        text: "refused: malformed at 64, rule order\n",
    },
    Broken {
        changes: &[(72, 6)],
        text: "refused: malformed at 72, rule order\n",
    },
    Broken {
        changes: &[(72, 3)],
        text: "refused: malformed at 72, rule order\n",
    },
    Broken {
        changes: &[(72, 4), (60, 9)],
        text: "refused: malformed at 72, rule order\n",
    },
    // Heights that are not those of the subtrees: of a node that has none, and of two of which the lower
    // is told.
    Broken {
        changes: &[(52, 0)],
        text: "refused: malformed at 52, rule count\n",
    },
    Broken {
        changes: &[(60, 4)],
        text: "refused: malformed at 60, rule count\n",
    },
    Broken {
        changes: &[(60, 2), (68, 1)],
        text: "refused: malformed at 68, rule count\n",
    },
    // Subtrees that differ by two, whose node has the right height, and has another one.
    Broken {
        changes: &[(58, 0), (4, 3)],
        text: "refused: malformed at 60, rule ends\n",
    },
    Broken {
        changes: &[(58, 0), (60, 2)],
        text: "refused: malformed at 60, rule count\n",
    },
    // The number of keys, and the allocator's tree.
    Broken {
        changes: &[(4, 3), (47, 9)],
        text: "refused: malformed at 4, rule count\n",
    },
    Broken {
        changes: &[(47, 9)],
        text: "refused: malformed at 47, rule tree\n",
    },
    // A node less, which is still taken: the words of its block and of the blocks above it differ.
    Broken {
        changes: &[(66, 0), (68, 1), (60, 2), (4, 3)],
        text: "refused: malformed at 18, rule tree\n",
    },
    // And what breaks none: words of blocks that are free, and other values.
    Broken {
        changes: &[(80, 7), (111, 7), (49, 0), (57, 41)],
        text: "caller 1\nrange 4 sum 151 #4\npair 4 41 #4\ncount 4\n",
    },
];
