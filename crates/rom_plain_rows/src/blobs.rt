//! Rows of keys with bytes, and their regions that break a rule.

use crate::broken::Broken;
use crate::rows::{Row, TRY};

pub static ROWS: [Row; 5] = [
    Row {
        scripts: &["set 1 00ff\nfetch 1\nset 1 -\nfetch 1\ncut 1\ncut 1\n"],
        text: "caller 1\nnew @0\nbytes 00ff #1\nwas 2 @1\nbytes - #2\nwas 0 @2\nnone @3\ncount 4\n",
        ..TRY
    },
    // Two times 256 bytes do not fit, and what did not is not there.
    Row {
        scripts: &[
            "set 1 000102030405060708090a0b0c0d0e0f101112131415161718191a1b1c1d1e1f202122232425262728292a2b2c2d2e2f303132333435363738393a3b3c3d3e3f404142434445464748494a4b4c4d4e4f505152535455565758595a5b5c5d5e5f606162636465666768696a6b6c6d6e6f707172737475767778797a7b7c7d7e7f808182838485868788898a8b8c8d8e8f909192939495969798999a9b9c9d9e9fa0a1a2a3a4a5a6a7a8a9aaabacadaeafb0b1b2b3b4b5b6b7b8b9babbbcbdbebfc0c1c2c3c4c5c6c7c8c9cacbcccdcecfd0d1d2d3d4d5d6d7d8d9dadbdcdddedfe0e1e2e3e4e5e6e7e8e9eaebecedeeeff0f1f2f3f4f5f6f7f8f9fafbfcfdfeff\nset 2 000102030405060708090a0b0c0d0e0f101112131415161718191a1b1c1d1e1f202122232425262728292a2b2c2d2e2f303132333435363738393a3b3c3d3e3f404142434445464748494a4b4c4d4e4f505152535455565758595a5b5c5d5e5f606162636465666768696a6b6c6d6e6f707172737475767778797a7b7c7d7e7f808182838485868788898a8b8c8d8e8f909192939495969798999a9b9c9d9e9fa0a1a2a3a4a5a6a7a8a9aaabacadaeafb0b1b2b3b4b5b6b7b8b9babbbcbdbebfc0c1c2c3c4c5c6c7c8c9cacbcccdcecfd0d1d2d3d4d5d6d7d8d9dadbdcdddedfe0e1e2e3e4e5e6e7e8e9eaebecedeeeff0f1f2f3f4f5f6f7f8f9fafbfcfdfeff\nset 2 00\nsize\nfetch 1\nfetch 3\n",
        ],
        text: "caller 1\nnew @0\nfull @1\nnew @2\nkeys 2 #3\nbytes 000102030405060708090a0b0c0d0e0f101112131415161718191a1b1c1d1e1f202122232425262728292a2b2c2d2e2f303132333435363738393a3b3c3d3e3f404142434445464748494a4b4c4d4e4f505152535455565758595a5b5c5d5e5f606162636465666768696a6b6c6d6e6f707172737475767778797a7b7c7d7e7f808182838485868788898a8b8c8d8e8f909192939495969798999a9b9c9d9e9fa0a1a2a3a4a5a6a7a8a9aaabacadaeafb0b1b2b3b4b5b6b7b8b9babbbcbdbebfc0c1c2c3c4c5c6c7c8c9cacbcccdcecfd0d1d2d3d4d5d6d7d8d9dadbdcdddedfe0e1e2e3e4e5e6e7e8e9eaebecedeeeff0f1f2f3f4f5f6f7f8f9fafbfcfdfeff #3\nnone #3\ncount 3\n",
        ..TRY
    },
    // The greatest key, and a line that ends with CR and LF.
    Row {
        scripts: &["set 18446744073709551615 09af\r\nfetch 18446744073709551615\nsize"],
        text: "caller 1\nnew @0\nbytes 09af #1\nkeys 1 #1\ncount 1\n",
        ..TRY
    },
    // Digits: of the other case, an odd number, none, a byte too many, and no digits at all.
    Row {
        scripts: &[
            "set 1 0A\nset 1 0\nset 1 \nset 1 000102030405060708090a0b0c0d0e0f101112131415161718191a1b1c1d1e1f202122232425262728292a2b2c2d2e2f303132333435363738393a3b3c3d3e3f404142434445464748494a4b4c4d4e4f505152535455565758595a5b5c5d5e5f606162636465666768696a6b6c6d6e6f707172737475767778797a7b7c7d7e7f808182838485868788898a8b8c8d8e8f909192939495969798999a9b9c9d9e9fa0a1a2a3a4a5a6a7a8a9aaabacadaeafb0b1b2b3b4b5b6b7b8b9babbbcbdbebfc0c1c2c3c4c5c6c7c8c9cacbcccdcecfd0d1d2d3d4d5d6d7d8d9dadbdcdddedfe0e1e2e3e4e5e6e7e8e9eaebecedeeeff0f1f2f3f4f5f6f7f8f9fafbfcfdfeff00\nset 1 0g\nset 1 --\nset 1 -0\nset 1 +1\n",
        ],
        status: 1,
        text: "caller 1\nunread\nunread\nunread\nunread\nunread\nunread\nunread\nunread\ncount 0\n",
        ..TRY
    },
    // Words: too few, too many, another space, a key that is none, and names that are none.
    Row {
        scripts: &[
            "set\nset 1\nset 1 00 \nset  1 00\nset 1  00\n set 1 00\nset 01 00\nset 18446744073709551616 00\ncut\ncut 1 2\ncut -\nfetch\nfetch x\nsize 1\nsize \nSize\nget 1\n\n",
        ],
        status: 1,
        text: "caller 1\nunread\nunread\nunread\nunread\nunread\nunread\nunread\nunread\nunread\nunread\nunread\nunread\nunread\nunread\nunread\nunread\nunread\nunread\ncount 0\n",
        ..TRY
    },
];

/// By these updates the heap has 9 bytes at 52, the node of their key 1 at 56, and at 60 that of the key 2,
/// which has none; the heads of their buckets are at 50 and 48. Then what is asked.
pub const BEFORE: [&str; 2] = ["set 1 0102030405060708ff\nset 2 -\n", "fetch 1\nfetch 2\n"];

pub static BROKEN: [Broken; 20] = [
    // A kind that has no name is told by its number.
    Broken {
        changes: &[(0, 1)],
        text: "refused: another kind, a queue, a set and a map\n",
    },
    Broken {
        changes: &[(0, 3), (1, 2)],
        text: "refused: another kind, an ordered index\n",
    },
    Broken {
        changes: &[(0, 77)],
        text: "refused: another kind, kind 77\n",
    },
    Broken {
        changes: &[(1, 2)],
        text: "refused: malformed at 1, rule root\n",
    },
    Broken {
        changes: &[(5, 1)],
        text: "refused: malformed at 5, rule root\n",
    },
    Broken {
        changes: &[(8, 52)],
        text: "refused: malformed at 8, rule root\n",
    },
    Broken {
        changes: &[(2, 4_611_686_018_427_387_905)],
        text: "refused: malformed at 2, rule root\n",
    },
    // A link into the middle of a block, into the bucket table, and to a node that was reached.
    Broken {
        changes: &[(50, 57)],
        text: "refused: malformed at 50, rule link\n",
    },
    Broken {
        changes: &[(58, 48)],
        text: "refused: malformed at 58, rule link\n",
    },
    Broken {
        changes: &[(58, 56)],
        text: "refused: malformed at 58, rule link\n",
    },
    Broken {
        changes: &[(57, 257)],
        text: "refused: malformed at 57, rule count\n",
    },
    Broken {
        changes: &[(56, 3)],
        text: "refused: malformed at 56, rule bucket\n",
    },
    Broken {
        changes: &[(48, 0), (58, 60), (60, 1)],
        text: "refused: malformed at 60, rule repeat\n",
    },
    // Bytes at no block, in a block that was reached, and at a block of a key that has none.
    Broken {
        changes: &[(59, 53)],
        text: "refused: malformed at 59, rule link\n",
    },
    Broken {
        changes: &[(59, 60)],
        text: "refused: malformed at 59, rule link\n",
    },
    Broken {
        changes: &[(63, 64)],
        text: "refused: malformed at 63, rule link\n",
    },
    Broken {
        changes: &[(53, 511)],
        text: "refused: malformed at 53, rule pad\n",
    },
    Broken {
        changes: &[(3, 3)],
        text: "refused: malformed at 3, rule count\n",
    },
    Broken {
        changes: &[(35, 1)],
        text: "refused: malformed at 35, rule tree\n",
    },
    // And what breaks none: a word of a block that is free.
    Broken {
        changes: &[(54, 7), (64, 7)],
        text: "caller 1\nbytes 0102030405060708ff #2\nbytes - #2\ncount 2\n",
    },
];
