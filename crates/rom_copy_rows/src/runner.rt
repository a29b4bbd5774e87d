//! Runs a command of a replica on a device of words.

use rom_replica::{files_of, run_replica};
use rom_store::{Gate, NoGate};
use rom_test::{Found, NEVER, device_of, names_of, source_of, words_of_order};
use rom_text::{Bytes, Collect};
use std::alloc::{AllocError, Global};
use std::sync::Wait;
use std::test::Fail;
use std::thread::Threads;

/// Room for what is printed.
pub const ROOM: u64 = 16384;

/// No stream has more frames that call the device.
const FRAMES: u64 = 256;

/// The first bytes, so many, or all that there are.
pub fn front(bytes: &[u8], len: usize) -> &[u8] {
    &bytes[..len.min(bytes.len())]
}

/// The bytes behind so many.
pub fn behind(bytes: &[u8], len: usize) -> &[u8] {
    &bytes[len.min(bytes.len())..]
}

/// Words as bytes, the least first.
pub fn bytes_of(alloc: Global, words: &[u64]) -> Result<Vec<u8>, AllocError> {
    let mut bytes = Vec::new(alloc);
    for word in words {
        bytes.extend_from_slice(&word.to_le_bytes())?;
    }
    Ok(bytes)
}

/// Runs a command on a device of these words, of which each call after so many fails. There is room for
/// so many bytes of text, and the gate is told of lines and passes.
pub fn ran_at<R: Threads + Wait + Sync + AllocGlobal, G: Gate + Sync>(
    rt: &R,
    words: &[&str],
    sources: Vec<Bytes>,
    device: Vec<u64>,
    calls: u64,
    room: u64,
    gate: &G,
) -> Result<Found, Fail> {
    let alloc = rt.alloc();
    let names = names_of(alloc, words)?;
    if files_of(alloc, &names)?.scripts.len() != sources.len() as u64 {
        return Err("another number of inputs".into());
    }
    let device = device_of(alloc, device, FRAMES, Vec::new(alloc), calls)?;
    let mut out = Collect::with_room(alloc, room, 4096)?;
    let ended = run_replica(rt, alloc, &names, device, sources, &mut out, gate);
    Ok(Found {
        status: ended.status,
        bytes: out.bytes().to_vec(alloc)?,
        has_session: ended.session.is_some(),
        device: ended.device.inner(),
    })
}

/// The same, where nobody is told of anything.
pub fn ran_from<R: Threads + Wait + Sync + AllocGlobal>(
    rt: &R,
    words: &[&str],
    sources: Vec<Bytes>,
    device: Vec<u64>,
    calls: u64,
    room: u64,
) -> Result<Found, Fail> {
    ran_at(rt, words, sources, device, calls, room, &NoGate)
}

/// The same, where nothing fails.
pub fn ran<R: Threads + Wait + Sync + AllocGlobal>(
    rt: &R,
    words: &[&str],
    inputs: &[&[u8]],
    device: &[u64],
) -> Result<Found, Fail> {
    let alloc = rt.alloc();
    let mut sources = Vec::new(alloc);
    for input in inputs {
        sources.push(source_of(alloc, input, 4096, 0)?)?;
    }
    ran_from(rt, words, sources, device.to_vec(alloc)?, NEVER, ROOM)
}

/// The words of a new heap of that order, of which is told that it was made.
pub fn formatted<R: Threads + Wait + Sync + AllocGlobal>(
    rt: &R,
    order: u32,
) -> Result<Vec<u64>, Fail> {
    let alloc = rt.alloc();
    let digits = format!(in alloc; "{order}")?;
    let zeros = vec![in alloc; 0u64; words_of_order(order)]?;
    let made = ran(rt, &["format", "heap", digits.as_str()], &[], &zeros)?;
    let wanted = format!(in alloc; "formatted order {order}\n")?;
    if made.status != 0 || made.text() != wanted.as_str() {
        return Err("a new heap was not made".into());
    }
    Ok(made.device.words().to_vec(alloc)?)
}
