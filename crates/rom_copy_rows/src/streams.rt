//! Rows of streams that a follower takes, and of words that are no command.

use crate::runner::{ROOM, behind, bytes_of, formatted, front, ran, ran_from};
use rom_device::Device;
use rom_test::{Found, NEVER, SMALL, right, source_of};
use rom_text::Bytes;
use std::sync::Wait;
use std::test::Fail;
use std::thread::Threads;

/// A stream of words, without its last bytes, whose read of this number fails; and what is to be told of it.
#[derive(Clone, Copy)]
struct Row {
    words: &'static [u64],
    cut: usize,
    trip: u64,
    room: u64,
    status: u8,
    text: &'static str,
}

const FOLLOW: Row = Row {
    words: &[],
    cut: 0,
    trip: 0,
    room: ROOM,
    status: 0,
    text: "",
};

static ROWS: [Row; 17] = [
    Row {
        text: "applied 0 known 0 early 0\ncount 0\n",
        ..FOLLOW
    },
    // `enq 9` and `deq`, in order; and in another order and more than once.
    Row {
        words: &[7, 0, 2, 1, 9, 1, 1, 7, 1, 1, 2, 2, 3, 9],
        text: "applied 2 known 0 early 0\ncount 2\n",
        ..FOLLOW
    },
    Row {
        words: &[
            7, 1, 1, 2, 2, 3, 9, 7, 0, 2, 1, 9, 1, 1, 7, 0, 2, 1, 9, 1, 1, 7, 1, 1, 2, 2, 3, 9,
        ],
        text: "applied 2 known 1 early 1\ncount 2\n",
        ..FOLLOW
    },
    // The stream ends inside a frame: in its last word, in its first, and behind that.
    Row {
        words: &[7, 0, 2, 1, 9, 1, 1, 7, 1, 1, 2, 2, 3, 9],
        cut: 1,
        status: 1,
        text: "applied 1 known 0 early 0\ncount 1\n",
        ..FOLLOW
    },
    Row {
        words: &[7, 0, 2, 1, 9, 1, 1, 7],
        cut: 1,
        status: 1,
        text: "applied 1 known 0 early 0\ncount 1\n",
        ..FOLLOW
    },
    Row {
        words: &[64],
        status: 1,
        text: "applied 0 known 0 early 0\ncount 0\n",
        ..FOLLOW
    },
    // A first word below 4 and above 64, whatever comes behind it.
    Row {
        words: &[3, 0, 0],
        status: 1,
        text: "applied 0 known 0 early 0\ncount 0\n",
        ..FOLLOW
    },
    Row {
        words: &[65, 0, 2, 1, 9, 1, 1],
        status: 1,
        text: "applied 0 known 0 early 0\ncount 0\n",
        ..FOLLOW
    },
    // Whole messages that are no frame: without a call, and with a number of words that isn't the call's.
    Row {
        words: &[4, 0, 0, 0],
        status: 1,
        text: "applied 0 known 0 early 0\ncount 0\n",
        ..FOLLOW
    },
    Row {
        words: &[7, 0, 2, 1, 9, 1, 1, 7, 1, 2, 2, 2, 3, 9],
        status: 1,
        text: "applied 1 known 0 early 0\ncount 1\n",
        ..FOLLOW
    },
    // The first read fails; the one of the second message; and the one behind the last.
    Row {
        words: &[7, 0, 2, 1, 9, 1, 1],
        trip: 1,
        status: 4,
        text: "applied 0 known 0 early 0\ncount 0\n",
        ..FOLLOW
    },
    Row {
        words: &[7, 0, 2, 1, 9, 1, 1, 7, 1, 1, 2, 2, 3, 9],
        trip: 4,
        status: 4,
        text: "applied 1 known 0 early 0\ncount 1\n",
        ..FOLLOW
    },
    Row {
        words: &[7, 0, 2, 1, 9, 1, 1],
        trip: 3,
        status: 4,
        text: "applied 1 known 0 early 0\ncount 1\n",
        ..FOLLOW
    },
    // The sink has room for some of the lines.
    Row {
        words: &[7, 0, 2, 1, 9, 1, 1],
        room: 11,
        status: 5,
        text: "applied 1 k",
        ..FOLLOW
    },
    // `enq 9` with the reply `full`: it is done, and told another reply; what comes behind it is not taken.
    Row {
        words: &[7, 0, 2, 1, 9, 1, 2, 7, 1, 1, 2, 2, 3, 9],
        status: 9,
        text: "applied 0 known 0 early 0\ncount 1\n",
        ..FOLLOW
    },
    // A limit of streams: the front of `enq 9`, and `deq` behind it, begin with the frame of `enq 7`.
    Row {
        words: &[7, 0, 2, 1, 7, 1, 1, 2, 2, 3, 9],
        status: 1,
        text: "applied 1 known 0 early 0\ncount 1\n",
        ..FOLLOW
    },
    // A frame of the greatest place is early.
    Row {
        words: &[7, 18446744073709551615, 2, 1, 9, 1, 1],
        text: "applied 0 known 0 early 1\ncount 0\n",
        ..FOLLOW
    },
];

#[test]
fn streams_are_followed_as_written(rt: HostRuntime) -> Result<(), Fail> {
    let alloc = rt.alloc();
    let heap = formatted(&rt, 4)?;
    for (at, row) in ROWS.iter().enumerate() {
        let bytes = bytes_of(alloc, row.words)?;
        let stream = front(&bytes, bytes.len().saturating_sub(row.cut));
        let mut sources = Vec::new(alloc);
        sources.push(source_of(alloc, stream, 4096, row.trip)?)?;
        let found = ran_from(
            &rt,
            &["follow", "heap", "s"],
            sources,
            heap.clone()?,
            NEVER,
            row.room,
        )?;
        right(
            "row",
            at,
            found.status == row.status && found.text() == row.text,
        )?;
    }
    Ok(())
}

/// So many calls of the device before each one fails, and what is told then of a stream of two frames.
fn failing<R: Threads + Wait + Sync + AllocGlobal>(
    rt: &R,
    heap: &[u64],
    calls: u64,
) -> Result<Found, Fail> {
    let alloc = rt.alloc();
    let stream = bytes_of(alloc, &[7, 0, 2, 1, 9, 1, 1, 7, 1, 1, 2, 2, 3, 9])?;
    let mut sources = Vec::new(alloc);
    sources.push(source_of(alloc, &stream, 4096, 0)?)?;
    let heap = heap.to_vec(alloc)?;
    ran_from(rt, &["follow", "heap", "s"], sources, heap, calls, ROOM)
}

#[test]
fn a_device_that_fails_stops_a_stream(rt: HostRuntime) -> Result<(), Fail> {
    let heap = formatted(&rt, 4)?;
    let opening = ran(&rt, &["follow", "heap", "s"], &[b""], &heap)?
        .device
        .calls_made();
    // In the opening there is no stream; then no frame, and then one, is applied.
    let found = failing(&rt, &heap, opening.saturating_sub(1))?;
    assert!(&rt; found.status == 7 && found.text() == "device failed\n");
    let found = failing(&rt, &heap, opening)?;
    assert!(&rt; found.status == 7 && found.text() == "applied 0 known 0 early 0\ncount 0\n");
    let mut one: u64 = 0;
    let whole = failing(&rt, &heap, NEVER)?.device.calls_made();
    for calls in opening..whole {
        let found = failing(&rt, &heap, calls)?;
        match found.text() {
            "applied 0 known 0 early 0\ncount 0\n" => assert!(&rt; found.status == 7 && one == 0),
            "applied 1 known 0 early 0\ncount 1\n" => {
                assert!(&rt; found.status == 7);
                one = one.saturating_add(1);
            }
            // Behind the last commit.
            text => assert!(&rt;
                found.status == 0 && text == "applied 2 known 0 early 0\ncount 2\n"
            ),
        }
    }
    assert!(&rt; one > 0);
    Ok(())
}

#[test]
fn a_heap_is_made_once(rt: HostRuntime) -> Result<(), Fail> {
    let made = formatted(&rt, 4)?;
    let again = ran(&rt, &["format", "heap", "4"], &[], &made)?;
    assert!(&rt; again.status == 3 && again.text() == "refused: already a heap\n");
    Ok(())
}

/// Words that are no command: of another program, too few, too many, names that are none, orders that are
/// none.
static WORDS: [&[&str]; 11] = [
    &[],
    &["try", "a"],
    &["ship", "heap"],
    &[
        "ship", "heap", "1", "2", "3", "4", "5", "6", "7", "8", "9", "10", "11", "12", "13", "14",
        "15", "16", "17",
    ],
    &["ship", "heap", "-a"],
    &["follow", "heap"],
    &["follow", "heap", "a", "b"],
    &["follow", "", "a"],
    &["format", "heap"],
    &["format", "heap", "3"],
    &["format", "heap", "17"],
];

#[test]
fn other_words_and_other_devices_are_refused(rt: HostRuntime) -> Result<(), Fail> {
    let zeros = vec![in rt.alloc(); 0u64; SMALL]?;
    for (at, words) in WORDS.iter().enumerate() {
        let found = ran(&rt, words, &[], &zeros)?;
        let told = found.status == 2 && found.text() == "not a command\n";
        right("words", at, told && found.device.calls_made() == 0)?;
    }
    // No heap: the stream is not read, or it would be status 1.
    let found = ran(&rt, &["follow", "heap", "s"], &[b"torn"], &zeros)?;
    assert!(&rt; found.status == 3 && found.text() == "refused: not a heap\n");
    let found = ran(&rt, &["ship", "heap", "s"], &[b"enq 9\n"], &zeros)?;
    assert!(&rt; found.status == 3 && found.text() == "refused: not a heap\n");
    Ok(())
}

/// The last count, and the frames of `enq 9` at the last place and behind it.
const LAST: u64 = 4_611_686_018_427_387_904;

const AT_THE_LAST: [u64; 14] = [7, LAST - 1, 2, 1, 9, 1, 1, 7, LAST, 2, 1, 9, 1, 1];

/// Where the count of updates stands, in both regions.
const COUNT: [usize; 2] = [10, 122];

#[test]
fn the_last_count_is_a_stop(rt: HostRuntime) -> Result<(), Fail> {
    let alloc = rt.alloc();
    let frames = bytes_of(alloc, &AT_THE_LAST)?;
    for (count, begin, text) in [
        (
            LAST - 1,
            0,
            "applied 1 known 0 early 0\ncount 4611686018427387904\n",
        ),
        (
            LAST,
            56,
            "applied 0 known 0 early 0\ncount 4611686018427387904\n",
        ),
    ] {
        let mut heap = formatted(&rt, 4)?;
        for at in COUNT {
            if let Some(word) = heap.get_mut(at) {
                *word = count;
            }
        }
        let found = ran(
            &rt,
            &["follow", "heap", "s"],
            &[behind(&frames, begin)],
            &heap,
        )?;
        assert!(&rt; found.status == 10 && found.text() == text);
    }
    Ok(())
}

/// An early frame of 448 bytes, a group of eight with what each was told, and one of 256 bytes.
const LONG: [u64; 56] = [
    56, 5, 34, 8, 8, 7, 1, 2, 3, 7, 1, 2, 3, 7, 1, 2, 3, 7, 1, 2, 3, 7, 1, 2, 3, 7, 1, 2, 3, 7, 1,
    2, 3, 7, 1, 2, 3, 18, 14, 8, 12, 1, 12, 1, 12, 1, 12, 1, 12, 1, 12, 1, 12, 1, 12, 1,
];

const SHORT: [u64; 32] = [
    32, 5, 26, 8, 6, 7, 1, 2, 3, 7, 1, 2, 3, 7, 1, 2, 3, 7, 1, 2, 3, 7, 1, 2, 3, 7, 1, 2, 3, 2, 3,
    9,
];

#[test]
fn the_greatest_length_is_a_stop(rt: HostRuntime) -> Result<(), Fail> {
    let alloc = rt.alloc();
    let heap = formatted(&rt, 4)?;
    let frame = bytes_of(alloc, &LONG)?;
    // 64 MiB, all of which is taken, and one byte more.
    let mut stream = Vec::with_capacity(alloc, 67_108_865)?;
    for _ in 0..149_796 {
        stream.extend_from_slice(&frame)?;
    }
    stream.extend_from_slice(&bytes_of(alloc, &SHORT)?)?;
    assert!(&rt; stream.len() == 67_108_864);
    stream.push(56)?;
    let mut sources = Vec::new(alloc);
    sources.push(Bytes::new(stream, 4096, Vec::new(alloc)))?;
    let found = ran_from(&rt, &["follow", "heap", "s"], sources, heap, NEVER, ROOM)?;
    let text = "applied 0 known 0 early 149797\ncount 0\n";
    assert!(&rt; found.status == 8 && found.text() == text);
    Ok(())
}
