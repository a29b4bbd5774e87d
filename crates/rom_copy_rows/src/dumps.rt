//! What the commands tell of heaps of order 4, as rows of data. What is to be told was written by hand.

use crate::heaps::{PAIRS, PUT, QUEUED, TAKEN, TORN, WORDS, change, heap_of};
use rom_device::Device;
use rom_dump::dump;
use rom_heap::Trio;
use rom_rebuild::CarryTrio;
use rom_test::{Found, Limits, device_of, names_of, right};
use rom_text::Collect;
use std::alloc::{AllocError, Global};
use std::test::Fail;

/// A heap, what is asked, and what is to be told.
#[derive(Clone, Copy)]
pub(crate) struct Row {
    pub(crate) words: &'static [&'static str],
    /// The word of the state.
    pub(crate) state: u64,
    /// What differs from a new region in main and in back.
    pub(crate) main: &'static [(usize, u64)],
    pub(crate) back: &'static [(usize, u64)],
    /// Words of the device that are others.
    pub(crate) changes: &'static [(usize, u64)],
    /// How many words the device has.
    pub(crate) len: usize,
    /// How many calls of it succeed.
    pub(crate) calls: u64,
    /// For how many bytes the sink has room.
    pub(crate) room: u64,
    pub(crate) status: u8,
    pub(crate) text: &'static str,
}

pub(crate) const NEW: Row = Row {
    words: &["check", "heap"],
    state: 0,
    main: &[],
    back: &[],
    changes: &[],
    len: WORDS,
    calls: 1_000_000,
    room: 4096,
    status: 0,
    text: "region both: idle\nkind a queue, a set and a map\norder 4\ncount 0\nqueue 0 set 0 map 0\nfree 15\ntotal 0\n",
};

pub(crate) const SCRIPT: Row = Row {
    words: &["script", "heap"],
    text: "",
    ..NEW
};

pub(crate) const NO_COMMAND: Row = Row {
    status: 2,
    text: "not a command\n",
    ..NEW
};

pub(crate) const REFUSED: Row = Row {
    status: 3,
    ..SCRIPT
};

/// What a monitor reads of a heap with one element, in which a batch is under way.
const METRICS: &str = "\
# TYPE romulus_order gauge
romulus_order 4
# TYPE romulus_kind gauge
romulus_kind 1
# TYPE romulus_updates gauge
romulus_updates 1
# TYPE romulus_state gauge
romulus_state 1
# TYPE romulus_queue_elements gauge
romulus_queue_elements 1
# TYPE romulus_set_elements gauge
romulus_set_elements 0
# TYPE romulus_map_elements gauge
romulus_map_elements 0
# TYPE romulus_free_elements gauge
romulus_free_elements 14
# TYPE romulus_free_percent gauge
romulus_free_percent 93
# TYPE romulus_total gauge
romulus_total 0
";

static ROWS: [Row; 42] = [
    // The worked regions.
    NEW,
    SCRIPT,
    Row {
        main: &QUEUED,
        back: &QUEUED,
        text: "region both: idle\nkind a queue, a set and a map\norder 4\ncount 1\nqueue 1 set 0 map 0\nfree 14\ntotal 0\n",
        ..NEW
    },
    Row {
        main: &QUEUED,
        back: &QUEUED,
        text: "enq 9\n",
        ..SCRIPT
    },
    Row {
        main: &TAKEN,
        back: &TAKEN,
        text: "region both: idle\nkind a queue, a set and a map\norder 4\ncount 2\nqueue 0 set 0 map 0\nfree 15\ntotal 0\n",
        ..NEW
    },
    Row {
        main: &TAKEN,
        back: &TAKEN,
        ..SCRIPT
    },
    Row {
        main: &PUT,
        back: &PUT,
        text: "region both: idle\nkind a queue, a set and a map\norder 4\ncount 1\nqueue 0 set 0 map 1\nfree 14\ntotal 7\n",
        ..NEW
    },
    Row {
        main: &PUT,
        back: &PUT,
        text: "put 5 7\n",
        ..SCRIPT
    },
    Row {
        main: &PAIRS,
        back: &PAIRS,
        text: "tx put 0 1 ; put 5 2\n",
        ..SCRIPT
    },
    // In the midst of an update: it is read from the region that counts, whatever the other one is.
    Row {
        state: 1,
        main: &TORN,
        back: &QUEUED,
        text: "region back: a batch is under way\nkind a queue, a set and a map\norder 4\ncount 1\nqueue 1 set 0 map 0\nfree 14\ntotal 0\n",
        ..NEW
    },
    Row {
        state: 1,
        main: &PUT,
        back: &QUEUED,
        text: "enq 9\n",
        ..SCRIPT
    },
    Row {
        state: 2,
        main: &PUT,
        back: &TORN,
        text: "region main: a copy is under way\nkind a queue, a set and a map\norder 4\ncount 1\nqueue 0 set 0 map 1\nfree 14\ntotal 7\n",
        ..NEW
    },
    Row {
        state: 2,
        main: &PUT,
        back: &QUEUED,
        text: "put 5 7\n",
        ..SCRIPT
    },
    // Parts, and a sink that fails.
    Row {
        words: &["script", "heap", "--part", "1"],
        main: &PAIRS,
        back: &PAIRS,
        text: "tx put 0 1 ; put 5 2\n",
        ..SCRIPT
    },
    Row {
        words: &["script", "heap", "--part", "2"],
        main: &PAIRS,
        back: &PAIRS,
        ..SCRIPT
    },
    Row {
        words: &["script", "heap", "--part", "64"],
        main: &PAIRS,
        back: &PAIRS,
        ..SCRIPT
    },
    Row {
        main: &PAIRS,
        back: &PAIRS,
        room: 10,
        status: 5,
        text: "tx put 0 1",
        ..SCRIPT
    },
    Row {
        room: 20,
        text: "region both: idle\nki",
        ..NEW
    },
    // What a monitor watches.
    Row {
        words: &["metrics", "heap"],
        state: 1,
        main: &TORN,
        back: &QUEUED,
        text: METRICS,
        ..NEW
    },
    Row {
        words: &["metrics", "heap"],
        room: 10,
        status: 5,
        text: "# TYPE rom",
        ..NEW
    },
    Row {
        words: &["metrics", "heap", "--from", "main"],
        ..NO_COMMAND
    },
    // What is refused.
    Row {
        changes: &[(0, 7)],
        text: "refused: not a heap\n",
        ..REFUSED
    },
    Row {
        changes: &[(1, 2)],
        text: "refused: version 2\n",
        ..REFUSED
    },
    Row {
        changes: &[(2, 17)],
        text: "refused: order 17\n",
        ..REFUSED
    },
    Row {
        state: 3,
        text: "refused: state 3\n",
        ..REFUSED
    },
    Row {
        len: 7,
        text: "refused: too small, need 8, have 7\n",
        ..REFUSED
    },
    Row {
        words: &["check", "heap"],
        len: 231,
        text: "refused: too small, need 232, have 231\n",
        ..REFUSED
    },
    Row {
        words: &["check", "heap"],
        main: &QUEUED,
        text: "refused: twins differ at 2, main 1, back 0\n",
        ..REFUSED
    },
    Row {
        main: &[(1, 1)],
        back: &[(1, 1)],
        text: "refused: region version 1\n",
        ..REFUSED
    },
    Row {
        words: &["check", "heap"],
        state: 1,
        main: &QUEUED,
        back: &[(5, 3)],
        text: "refused: malformed at 5, rule count\n",
        ..REFUSED
    },
    Row {
        state: 2,
        main: &TORN,
        back: &QUEUED,
        text: "refused: malformed at 4, rule ends\n",
        ..REFUSED
    },
    Row {
        words: &["check", "heap"],
        calls: 2,
        status: 7,
        text: "device failed\n",
        ..REFUSED
    },
    Row {
        state: 1,
        calls: 100,
        status: 7,
        text: "device failed\n",
        ..REFUSED
    },
    // And words that are none.
    Row {
        words: &[],
        ..NO_COMMAND
    },
    Row {
        words: &["stat", "heap"],
        ..NO_COMMAND
    },
    Row {
        words: &["check"],
        ..NO_COMMAND
    },
    Row {
        words: &["check", "heap", "--part"],
        ..NO_COMMAND
    },
    Row {
        words: &["check", "-heap"],
        ..NO_COMMAND
    },
    Row {
        words: &["script", ""],
        ..NO_COMMAND
    },
    Row {
        words: &["script", "heap", "--part"],
        ..NO_COMMAND
    },
    Row {
        words: &["script", "heap", "--part", "65"],
        ..NO_COMMAND
    },
    Row {
        words: &["script", "heap", "--part=1", "1"],
        ..NO_COMMAND
    },
];

/// The words of a row's device.
fn words_for(alloc: Global, row: &Row) -> Result<Vec<u64>, AllocError> {
    let mut words = heap_of(alloc, row.state, row.main, row.back)?;
    change(&mut words, 0, row.changes);
    words.truncate(row.len);
    Ok(words)
}

/// What a command of `romulus_dump` tells of these words of a device, within these limits, and what it leaves.
pub(crate) fn dump_words(
    alloc: Global,
    words: &[&str],
    device: &[u64],
    limits: Limits,
) -> Result<Found, AllocError> {
    let names = names_of(alloc, words)?;
    let mut device = device_of(
        alloc,
        device.to_vec(alloc)?,
        0,
        Vec::new(alloc),
        limits.calls,
    )?;
    let mut out = Collect::with_room(alloc, limits.room, 5)?;
    let status = dump::<_, Trio, CarryTrio, _>(alloc, &names, &mut device, &mut out);
    Ok(Found {
        status,
        bytes: out.bytes().to_vec(alloc)?,
        has_session: false,
        device: device.inner(),
    })
}

/// Whether a row tells what it is to tell, and leaves the device as it was.
pub(crate) fn is_told(alloc: Global, row: &Row) -> Result<bool, AllocError> {
    let words = words_for(alloc, row)?;
    let limits = Limits {
        calls: row.calls,
        room: row.room,
    };
    let found = dump_words(alloc, row.words, &words, limits)?;
    let same = found.device.words() == words.as_slice();
    Ok(same && found.status == row.status && found.text() == row.text)
}

#[test]
fn each_row_is_told(rt: HostRuntime) -> Result<(), Fail> {
    for (at, row) in ROWS.iter().enumerate() {
        right("row", at, is_told(rt.alloc(), row)?)?;
    }
    Ok(())
}
