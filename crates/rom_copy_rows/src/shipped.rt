//! Rows of what a primary ships, and whole histories that a follower takes.

use crate::runner::{ROOM, bytes_of, formatted, front, ran, ran_from};
use rom_device::Device;
use rom_test::{NEVER, right, source_of};
use std::test::Fail;

/// A script, and the status and the words of what is shipped, on the device that the row before left.
#[derive(Clone, Copy)]
struct Row {
    script: &'static str,
    status: u8,
    words: &'static [u64],
}

static ROWS: [Row; 4] = [
    Row {
        script: "enq 9\ndeq\n",
        status: 0,
        words: &[7, 0, 2, 1, 9, 1, 1, 7, 1, 1, 2, 2, 3, 9],
    },
    // The history of this session alone, from its opening count on.
    Row {
        script: "deq",
        status: 0,
        words: &[6, 2, 1, 2, 1, 4],
    },
    // A group is one entry.
    Row {
        script: "tx enq 1 ; add 2\n",
        status: 0,
        words: &[14, 3, 6, 8, 2, 1, 1, 3, 2, 4, 14, 2, 1, 5],
    },
    // Reads, and lines that are none.
    Row {
        script: "len\nfoo\npeek\n",
        status: 1,
        words: &[],
    },
];

#[test]
fn frames_are_shipped_as_written(rt: HostRuntime) -> Result<(), Fail> {
    let alloc = rt.alloc();
    let mut heap = formatted(&rt, 4)?;
    for (at, row) in ROWS.iter().enumerate() {
        let found = ran(&rt, &["ship", "heap", "s"], &[row.script.as_bytes()], &heap)?;
        right("status of row", at, found.status == row.status)?;
        right(
            "bytes of row",
            at,
            found.bytes == bytes_of(alloc, row.words)?,
        )?;
        heap = found.device.words().to_vec(alloc)?;
    }
    // A sink with room for 100 bytes has the first 100.
    let mut sources = Vec::new(alloc);
    sources.push(source_of(alloc, b"enq 9\ndeq\n", 4096, 0)?)?;
    let found = ran_from(
        &rt,
        &["ship", "heap", "s"],
        sources,
        formatted(&rt, 4)?,
        NEVER,
        100,
    )?;
    assert!(&rt; found.status == 5 && found.bytes.len() == 100);
    let whole = bytes_of(alloc, ROWS[0].words)?;
    assert!(&rt; found.bytes.as_slice() == front(&whole, 100));
    Ok(())
}

#[test]
fn a_script_or_a_device_that_fails_is_told(rt: HostRuntime) -> Result<(), Fail> {
    let alloc = rt.alloc();
    let heap = formatted(&rt, 4)?;
    // A read of the second script fails.
    let mut sources = Vec::new(alloc);
    sources.push(source_of(alloc, b"enq 9\n", 4096, 0)?)?;
    sources.push(source_of(alloc, b"enq 9\n", 4096, 1)?)?;
    let words = ["ship", "heap", "a", "b"];
    let found = ran_from(&rt, &words, sources, heap.clone()?, NEVER, ROOM)?;
    assert!(&rt; found.status == 4 && found.text() == "script 2 failed\n");
    // The device fails from the second update on: the frame of the first one alone.
    let first = bytes_of(alloc, &[7, 0, 2, 1, 9, 1, 1])?;
    let calls = ran(&rt, &["ship", "heap", "s"], &[b"enq 9\n"], &heap)?
        .device
        .calls_made();
    let mut sources = Vec::new(alloc);
    sources.push(source_of(alloc, b"enq 9\ndeq\n", 4096, 0)?)?;
    let found = ran_from(&rt, &["ship", "heap", "s"], sources, heap, calls, ROOM)?;
    assert!(&rt; found.status == 7);
    assert!(&rt; found.bytes == first);
    Ok(())
}

/// Every kind of reply, alone and in groups.
const ALL: &str =
    "enq 1\nenq 2\ndeq\ndeq\ndeq\nadd 3\nadd 3\nrem 3\nrem 3\nput 1 9\nput 1 8\nput 2 18446744073709551615\nmove 1 2 1\nmove 1 2 9\nmove 1 3 1\nput 2 7\nmove 1 2 1\ndel 1\ndel 1\ntx enq 5 ; add 6 ; put 7 8\ntx deq ; deq ; rem 6 ; rem 6 ; del 7 ; del 7 ; put 1 1 ; put 1 2\nadd 1\nadd 2\nadd 3\nadd 4\nadd 5\nadd 6\nadd 7\nadd 8\nadd 9\nadd 10\nadd 11\nadd 12\nadd 13\nadd 14\nenq 4\nput 9 9\ntx add 90 ; add 91\n";

#[test]
fn a_follower_has_the_words_of_its_primary(rt: HostRuntime) -> Result<(), Fail> {
    let alloc = rt.alloc();
    let heap = formatted(&rt, 4)?;
    let primary = ran(&rt, &["ship", "heap", "s"], &[ALL.as_bytes()], &heap)?;
    assert!(&rt; primary.status == 0);
    let follower = ran(&rt, &["follow", "heap", "s"], &[&primary.bytes], &heap)?;
    let text = "applied 38 known 0 early 0\ncount 38\n";
    assert!(&rt; follower.status == 0 && follower.text() == text);
    assert!(&rt; follower.device.words() == primary.device.words());
    // Once more: all is known, and nothing changes.
    let again = ran(
        &rt,
        &["follow", "heap", "s"],
        &[&primary.bytes],
        follower.device.words(),
    )?;
    let text = "applied 0 known 38 early 0\ncount 38\n";
    assert!(&rt; again.status == 0 && again.text() == text);
    assert!(&rt; again.device.words() == primary.device.words());
    Ok(())
}
