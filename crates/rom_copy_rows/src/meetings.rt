//! Callers who meet: each goes on with a line only when all others have begun theirs. What is shipped of
//! them is one history, in which each one's updates stand in their order.

use crate::dumps::dump_words;
use crate::runner::{ROOM, behind, bytes_of, formatted, front, ran, ran_at};
use rom_device::Device;
use rom_test::{AMPLE, Found, Holding, NEVER, Roll, right, source_of};
use rom_text::Bytes;
use std::alloc::{AllocError, Global};
use std::sync::Wait;
use std::test::Fail;
use std::thread::Threads;

/// How many lines a script has.
const LINES: u64 = 3;

/// The script of each caller: it gives one key values that are no other's, the caller's number from 1 on
/// before the line's.
fn scripts(alloc: Global, callers: u64) -> Result<Vec<Bytes>, AllocError> {
    let mut scripts = Vec::new(alloc);
    for i in 0..callers {
        let caller = i.saturating_add(1);
        let script = format!(in alloc; "put 1 {caller}0\nput 1 {caller}1\nput 1 {caller}2\n")?;
        scripts.push(source_of(alloc, script.as_bytes(), 4096, 0)?)?;
    }
    Ok(scripts)
}

/// The frame of a caller that gives the key a value, which had this one before.
fn frame(
    alloc: Global,
    place: u64,
    value: u64,
    before: Option<u64>,
) -> Result<Vec<u8>, AllocError> {
    match before {
        None => bytes_of(alloc, &[8, place, 3, 5, 1, value, 1, 9]),
        Some(before) => bytes_of(alloc, &[9, place, 3, 5, 1, value, 2, 10, before]),
    }
}

/// Whether these bytes are the frames of all lines of the callers, with places from 0 on, each one's in
/// their order.
fn is_history(alloc: Global, bytes: &[u8], callers: u64) -> Result<bool, AllocError> {
    let mut next = vec![in alloc; 0u64; callers as usize]?;
    let mut rest = bytes;
    let mut before = None;
    for place in 0..callers.saturating_mul(LINES) {
        let value = rest.get(40).copied().map_or(0, u64::from);
        let wanted = frame(alloc, place, value, before)?;
        let Some(caller) = (value / 10).checked_sub(1) else {
            return Ok(false);
        };
        let Some(line) = next.get_mut(caller as usize) else {
            return Ok(false);
        };
        if front(rest, wanted.len()) != wanted.as_slice() || value % 10 != *line || *line >= LINES {
            return Ok(false);
        }
        *line = line.saturating_add(1);
        before = Some(value);
        rest = behind(rest, wanted.len());
    }
    Ok(rest.is_empty())
}

/// Runs so many callers of `ship` on this heap, who meet at each line, and a follower that takes what was
/// shipped. Asserts that both come to their end and to the same words, by one history, and gives what the
/// primary left.
fn ship_and_follow<R: Threads + Wait + Sync + AllocGlobal>(
    rt: &R,
    heap: &[u64],
    callers: u64,
) -> Result<Found, Fail> {
    let alloc = rt.alloc();
    let mut words = ["ship", "heap"].to_vec(alloc)?;
    for _ in 0..callers {
        words.push("s")?;
    }
    let lines = vec![in alloc; LINES; callers as usize]?;
    let gate = Roll::new(alloc, &lines, Holding::EachLine)?;
    let scripts = scripts(alloc, callers)?;
    let primary = ran_at(rt, &words, scripts, heap.to_vec(alloc)?, NEVER, ROOM, &gate)?;
    let done = callers.saturating_mul(LINES);
    let well = primary.status == 0 && gate.differs(true, done).is_none();
    right("a primary's callers", callers as usize, well)?;
    let lawful = is_history(alloc, &primary.bytes, callers)?;
    right("the history of callers", callers as usize, lawful)?;
    let follower = ran(rt, &["follow", "heap", "s"], &[&primary.bytes], heap)?;
    let text = format!(in alloc; "applied {done} known 0 early 0\ncount {done}\n")?;
    let well = follower.status == 0 && follower.text() == text.as_str();
    right("a follower of callers", callers as usize, well)?;
    let same = follower.device.words() == primary.device.words();
    right("the words of callers", callers as usize, same)?;
    Ok(primary)
}

#[test]
fn callers_who_meet_ship_one_history(rt: HostRuntime) -> Result<(), Fail> {
    let heap = formatted(&rt, 4)?;
    for callers in [2, 16] {
        ship_and_follow(&rt, &heap, callers)?;
    }
    Ok(())
}

/// The value of the last of these frames, which have nine words each but for the first.
fn last_value(frames: &[u8]) -> u64 {
    let last = behind(frames, frames.len().saturating_sub(72));
    last.get(40).copied().map_or(0, u64::from)
}

#[test]
fn each_order_has_room_for_its_callers(rt: HostRuntime) -> Result<(), Fail> {
    for order in 4u32..17 {
        let primary = ship_and_follow(&rt, &formatted(&rt, order)?, u64::from(order))?;
        let script = ["script", "heap"];
        let dumped = dump_words(rt.alloc(), &script, primary.device.words(), AMPLE)?;
        let wanted = format!(in rt.alloc(); "put 1 {}\n", last_value(&primary.bytes))?;
        let well = dumped.status == 0 && dumped.text() == wanted.as_str();
        right("order", order as usize, well)?;
    }
    Ok(())
}
