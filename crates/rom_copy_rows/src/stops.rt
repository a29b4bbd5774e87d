//! A follower that is stopped at any call of its device, and opened again, takes the frames to their end.

use crate::runner::{ROOM, bytes_of, formatted, ran, ran_from};
use rom_device::Device;
use rom_test::{Found, NEVER, SMALL, right, source_of};
use std::sync::Wait;
use std::test::Fail;
use std::thread::Threads;

/// The frames of `enq 9` and of `deq`.
const IN_ORDER: [u64; 14] = [7, 0, 2, 1, 9, 1, 1, 7, 1, 1, 2, 2, 3, 9];

/// The second, the first, the first again, the second.
const IN_DISORDER: [u64; 28] = [
    7, 1, 1, 2, 2, 3, 9, 7, 0, 2, 1, 9, 1, 1, 7, 0, 2, 1, 9, 1, 1, 7, 1, 1, 2, 2, 3, 9,
];

/// What the frames in order are told by a follower with so many of them.
const TOLD: [&str; 3] = [
    "applied 2 known 0 early 0\ncount 2\n",
    "applied 1 known 1 early 0\ncount 2\n",
    "applied 0 known 2 early 0\ncount 2\n",
];

/// Follows a stream on a device, after so many calls of which each one fails.
fn followed<R: Threads + Wait + Sync + AllocGlobal>(
    rt: &R,
    stream: &[u8],
    device: &[u64],
    calls: u64,
) -> Result<Found, Fail> {
    let alloc = rt.alloc();
    let mut sources = Vec::new(alloc);
    sources.push(source_of(alloc, stream, 4096, 0)?)?;
    ran_from(
        rt,
        &["follow", "heap", "s"],
        sources,
        device.to_vec(alloc)?,
        calls,
        ROOM,
    )
}

/// How many of the frames this heap had before it is sent them all, if it then is as if nothing had been: as
/// that one, and told so once more.
fn ends<R: Threads + Wait + Sync + AllocGlobal>(
    rt: &R,
    heap: &[u64],
    frames: &[u8],
    whole: &[u64],
) -> Result<Option<usize>, Fail> {
    let found = ran(rt, &["follow", "heap", "s"], &[frames], heap)?;
    let text = found.text();
    let had = TOLD.iter().position(|told| *told == text);
    let words = found.device.words();
    let again = ran(rt, &["follow", "heap", "s"], &[frames], words)?;
    if found.status != 0 || words != whole || again.text() != TOLD[2] {
        return Ok(None);
    }
    Ok(had)
}

#[test]
fn every_stop_leaves_a_follower(rt: HostRuntime) -> Result<(), Fail> {
    let alloc = rt.alloc();
    let heap = formatted(&rt, 4)?;
    let stream = bytes_of(alloc, &IN_DISORDER)?;
    let frames = bytes_of(alloc, &IN_ORDER)?;
    let whole = followed(&rt, &stream, &heap, NEVER)?;
    assert!(&rt; whole.text() == "applied 2 known 1 early 1\ncount 2\n");
    let mut before = 0;
    for calls in 0..whole.device.calls_made() {
        for choice in [0, 1] {
            let run = followed(&rt, &stream, &heap, calls)?;
            // Where the last update was done, the device may have failed behind its commit.
            let told = run.status == 7 || run.text() == whole.text();
            right("told after calls", calls as usize, told)?;
            let choices = vec![in alloc; choice; SMALL]?;
            let left = run.device.crash(&choices);
            let had = ends(&rt, &left, &frames, whole.device.words())?;
            let had = had.ok_or(("left after calls", calls))?;
            if choice == 0 {
                // Later stops leave no fewer.
                right("frames after calls", calls as usize, before <= had)?;
                before = had;
            }
        }
    }
    Ok(())
}
