//! What the commands tell of one region of a heap, by itself. What is to be told was written by hand.

use crate::again::{dumped, ran};
use crate::dumps::{NEW, NO_COMMAND, REFUSED, Row, SCRIPT, is_told};
use crate::heaps::{PAIRS, PUT, QUEUED, TORN};
use rom_device::Ram;
use rom_test::right;
use std::test::Fail;

/// The words of each command, by the region.
const CHECK_MAIN: &[&str] = &["check", "heap", "--from", "main"];

const CHECK_BACK: &[&str] = &["check", "heap", "--from", "back"];

const SCRIPT_MAIN: &[&str] = &["script", "heap", "--from", "main"];

const SCRIPT_BACK: &[&str] = &["script", "heap", "--from", "back"];

/// Under IDLE, the queue's length in main has one bit that is another: 3 in place of 1.
const LENGTH_IN_MAIN: Row = Row {
    main: &QUEUED,
    back: &QUEUED,
    changes: &[(13, 3)],
    ..SCRIPT
};

/// The head of a bucket's chain in back has one: 53 in place of 52.
const CHAIN_IN_BACK: Row = Row {
    main: &PUT,
    back: &PUT,
    changes: &[(168, 53)],
    ..SCRIPT
};

/// The queue's value in main has one, which no inspection sees: 8 in place of 9.
const VALUE_IN_MAIN: Row = Row {
    main: &QUEUED,
    back: &QUEUED,
    changes: &[(60, 8)],
    ..SCRIPT
};

/// The state has one: 4 in place of 0.
const STATE: Row = Row {
    main: &QUEUED,
    back: &QUEUED,
    state: 4,
    ..SCRIPT
};

static ROWS: [Row; 47] = [
    // One bit of a region under IDLE: nothing is shown of the heap, the whole region is shown by itself, and
    // of the broken one its break is named.
    Row {
        status: 3,
        text: "refused: twins differ at 5, main 3, back 1\n",
        ..LENGTH_IN_MAIN
    },
    Row {
        words: SCRIPT_BACK,
        text: "enq 9\n",
        ..LENGTH_IN_MAIN
    },
    Row {
        words: CHECK_BACK,
        text: "region back by itself\nkind a queue, a set and a map\norder 4\ncount 1\nqueue 1 set 0 map 0\nfree 14\ntotal 0\n",
        ..LENGTH_IN_MAIN
    },
    Row {
        words: SCRIPT_MAIN,
        status: 3,
        text: "refused: malformed at 5, rule count\n",
        ..LENGTH_IN_MAIN
    },
    Row {
        words: CHECK_MAIN,
        status: 3,
        text: "refused: malformed at 5, rule count\n",
        ..LENGTH_IN_MAIN
    },
    Row {
        status: 3,
        text: "refused: twins differ at 48, main 52, back 53\n",
        ..CHAIN_IN_BACK
    },
    Row {
        words: SCRIPT_MAIN,
        text: "put 5 7\n",
        ..CHAIN_IN_BACK
    },
    Row {
        words: CHECK_MAIN,
        text: "region main by itself\nkind a queue, a set and a map\norder 4\ncount 1\nqueue 0 set 0 map 1\nfree 14\ntotal 7\n",
        ..CHAIN_IN_BACK
    },
    Row {
        words: SCRIPT_BACK,
        status: 3,
        text: "refused: malformed at 48, rule link\n",
        ..CHAIN_IN_BACK
    },
    // One that no inspection sees: both regions are shown, and they differ.
    Row {
        status: 3,
        text: "refused: twins differ at 52, main 8, back 9\n",
        ..VALUE_IN_MAIN
    },
    Row {
        words: SCRIPT_MAIN,
        text: "enq 8\n",
        ..VALUE_IN_MAIN
    },
    Row {
        words: SCRIPT_BACK,
        text: "enq 9\n",
        ..VALUE_IN_MAIN
    },
    // A region of the version before.
    Row {
        words: SCRIPT_MAIN,
        main: &[(1, 1)],
        text: "refused: region version 1\n",
        ..REFUSED
    },
    Row {
        words: CHECK_BACK,
        main: &[(1, 1)],
        text: "region back by itself\nkind a queue, a set and a map\norder 4\ncount 0\nqueue 0 set 0 map 0\nfree 15\ntotal 0\n",
        ..NEW
    },
    // In the midst of an update: the region that is named is read, whether it counts or not.
    Row {
        words: SCRIPT_BACK,
        state: 1,
        main: &TORN,
        back: &QUEUED,
        text: "enq 9\n",
        ..SCRIPT
    },
    Row {
        words: SCRIPT_MAIN,
        state: 1,
        main: &TORN,
        back: &QUEUED,
        text: "refused: malformed at 4, rule ends\n",
        ..REFUSED
    },
    Row {
        words: SCRIPT_MAIN,
        state: 1,
        main: &PUT,
        back: &QUEUED,
        text: "put 5 7\n",
        ..SCRIPT
    },
    Row {
        words: SCRIPT_MAIN,
        state: 2,
        main: &PUT,
        back: &TORN,
        text: "put 5 7\n",
        ..SCRIPT
    },
    Row {
        words: CHECK_BACK,
        state: 2,
        main: &PUT,
        back: &TORN,
        text: "refused: malformed at 4, rule ends\n",
        ..REFUSED
    },
    Row {
        words: SCRIPT_BACK,
        state: 2,
        main: &PUT,
        back: &QUEUED,
        text: "enq 9\n",
        ..SCRIPT
    },
    // A state that is none.
    Row {
        status: 3,
        text: "refused: state 4\n",
        ..STATE
    },
    Row {
        words: SCRIPT_MAIN,
        text: "enq 9\n",
        ..STATE
    },
    Row {
        words: CHECK_BACK,
        text: "region back by itself\nkind a queue, a set and a map\norder 4\ncount 1\nqueue 1 set 0 map 0\nfree 14\ntotal 0\n",
        ..STATE
    },
    // The rest of the header is tested as ever, and before the region.
    Row {
        words: SCRIPT_MAIN,
        changes: &[(0, 7), (13, 3)],
        text: "refused: not a heap\n",
        ..REFUSED
    },
    Row {
        words: SCRIPT_BACK,
        changes: &[(1, 2)],
        text: "refused: version 2\n",
        ..REFUSED
    },
    Row {
        words: CHECK_MAIN,
        changes: &[(2, 3)],
        text: "refused: order 3\n",
        ..REFUSED
    },
    Row {
        words: CHECK_BACK,
        len: 7,
        text: "refused: too small, need 8, have 7\n",
        ..REFUSED
    },
    Row {
        words: SCRIPT_MAIN,
        state: 3,
        len: 231,
        text: "refused: too small, need 232, have 231\n",
        ..REFUSED
    },
    // The header and one region are read, and the order once more where the state is none.
    Row {
        words: SCRIPT_BACK,
        calls: 116,
        text: "enq 9\n",
        ..LENGTH_IN_MAIN
    },
    Row {
        words: SCRIPT_BACK,
        calls: 115,
        status: 7,
        text: "device failed\n",
        ..LENGTH_IN_MAIN
    },
    Row {
        words: SCRIPT_MAIN,
        calls: 117,
        text: "enq 9\n",
        ..STATE
    },
    Row {
        words: CHECK_MAIN,
        calls: 4,
        status: 7,
        text: "device failed\n",
        ..STATE
    },
    // Parts, and a sink that fails.
    Row {
        words: &["script", "heap", "--from", "main", "--part", "1"],
        main: &PAIRS,
        text: "tx put 0 1 ; put 5 2\n",
        ..SCRIPT
    },
    Row {
        words: &["script", "heap", "--from", "main", "--part", "2"],
        main: &PAIRS,
        ..SCRIPT
    },
    Row {
        words: SCRIPT_BACK,
        back: &PAIRS,
        room: 10,
        status: 5,
        text: "tx put 0 1",
        ..SCRIPT
    },
    Row {
        words: CHECK_MAIN,
        room: 17,
        text: "region main by it",
        ..NEW
    },
    // And words that are none.
    Row {
        words: &["script", "heap", "--from"],
        ..NO_COMMAND
    },
    Row {
        words: &["script", "heap", "--from", "both"],
        ..NO_COMMAND
    },
    Row {
        words: &["check", "heap", "--from", "Main"],
        ..NO_COMMAND
    },
    Row {
        words: &["script", "heap", "--from", ""],
        ..NO_COMMAND
    },
    Row {
        words: &["script", "heap", "--from=main", "main"],
        ..NO_COMMAND
    },
    Row {
        words: &["script", "--from", "main", "heap"],
        ..NO_COMMAND
    },
    Row {
        words: &["script", "-heap", "--from", "main"],
        ..NO_COMMAND
    },
    Row {
        words: &["script", "heap", "--part", "1", "--from", "main"],
        ..NO_COMMAND
    },
    Row {
        words: &["script", "heap", "--from", "main", "--from", "back"],
        ..NO_COMMAND
    },
    Row {
        words: &["script", "heap", "--from", "main", "--part", "65"],
        ..NO_COMMAND
    },
    Row {
        words: &["check", "heap", "--from", "main", "--part", "1"],
        ..NO_COMMAND
    },
];

#[test]
fn each_region_is_told(rt: HostRuntime) -> Result<(), Fail> {
    for (at, row) in ROWS.iter().enumerate() {
        right("row", at, is_told(rt.alloc(), row)?)?;
    }
    Ok(())
}

/// A new heap of each order: the order, the words of its device, and for how many elements there is room.
static ORDERS: [(&str, u64, &str); 13] = [
    ("4", 232, "15"),
    ("5", 424, "30"),
    ("6", 808, "60"),
    ("7", 1576, "120"),
    ("8", 3112, "240"),
    ("9", 6184, "480"),
    ("10", 12_328, "960"),
    ("11", 24_616, "1920"),
    ("12", 49_192, "3840"),
    ("13", 98_344, "7680"),
    ("14", 196_648, "15360"),
    ("15", 393_256, "30720"),
    ("16", 786_472, "61440"),
];

#[test]
fn a_region_of_each_order_is_shown(rt: HostRuntime) -> Result<(), Fail> {
    let alloc = rt.alloc();
    for (order, words, free) in &ORDERS {
        let device = Ram::zeroed(alloc, *words)?;
        let mut made = ran(&rt, &["format", "heap", "--order", *order], device, None)?;
        let told = dumped(alloc, SCRIPT_MAIN, &mut made.device, 0)?;
        right("script of words", *words as usize, told.as_str() == "")?;
        let told = dumped(alloc, CHECK_BACK, &mut made.device, 0)?;
        let wanted = format!(in alloc;
            "region back by itself\nkind a queue, a set and a map\norder {order}\ncount 0\nqueue 0 set 0 map 0\nfree {free}\ntotal 0\n"
        )?;
        right(
            "check of words",
            *words as usize,
            told.as_str() == wanted.as_str(),
        )?;
    }
    Ok(())
}
