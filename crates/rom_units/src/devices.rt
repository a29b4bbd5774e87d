//! Devices in memory that fail where a test wants it, and calls of a device as data.

use rom_device::{CallKind, Device, Memory, Trip};
use std::alloc::{AllocError, Global};
use std::test::Fail;

/// Room for all calls of a test.
pub(crate) const AMPLE: u64 = 2000;

/// A call that fails: its kind, the words from one place up to another of which it is one, its number
/// among those, counted from 1, and whether the word of a write becomes the new one.
pub(crate) type Failing = (CallKind, u64, u64, u64, bool);

/// A device of these words with room for so many calls, of which these fail.
pub(crate) fn device(
    alloc: Global,
    words: &[u64],
    room: u64,
    failing: &[Failing],
) -> Result<Memory, AllocError> {
    let mut trips = Vec::new(alloc);
    for (call, from, to, nth, keeps_new) in failing {
        trips.push(Trip {
            call: *call,
            from: *from,
            to: *to,
            nth: *nth,
            keeps_new: *keeps_new,
        })?;
    }
    Memory::new(alloc, words.to_vec(alloc)?, room, trips)
}

/// For each word which of its possible ones a stop leaves: each time the first, each time the second,
/// or a mix by word or by 16 words.
pub(crate) fn choice(kind: u64) -> [u64; 240] {
    let mut numbers = [0; 240];
    for (at, number) in numbers.iter_mut().enumerate() {
        *number = match kind {
            0 => 0,
            1 => 1,
            2 => at as u64 % 2,
            _ => at as u64 / 16 % 2,
        };
    }
    numbers
}

/// A call of a device and what comes of it, or several of one kind.
#[derive(Clone, Copy)]
pub(crate) enum Step {
    /// The word at a place, or that its read fails.
    Read(u64, Option<u64>),
    /// Of so many words from a place on, read at one call, these come.
    ReadMany(u64, usize, &'static [u64]),
    /// A word is written at a place, and whether that is done.
    Write(u64, u64, bool),
    /// These words are written from a place on at one call, and whether that is done.
    WriteMany(u64, &'static [u64], bool),
    /// Whether a sync is done.
    Sync(bool),
    /// How many calls have failed.
    Faults(u64),
    /// From one place up to another each word is written one by one: its place and one.
    Number(u64, u64),
    /// These words are read, one by one and each time the one so many places on as well.
    Numbered(u64, u64, u64),
    /// These words are read at one call.
    NumberedAtOnce(u64, u64),
}

/// Whether the word at a place is this one, or cannot be read.
fn reads<D: Device>(device: &mut D, at: u64, word: Option<u64>) -> bool {
    at < device.len() && device.read(at).ok() == word
}

/// Whether a word is written, or not, as is wanted.
fn writes<D: Device>(device: &mut D, at: u64, word: u64, done: bool) -> bool {
    at < device.len() && device.write(at, word).is_ok() == done
}

/// Those that come of so many words from a place on, which are read at one call.
fn read_many<D: Device>(
    alloc: Global,
    device: &mut D,
    at: u64,
    room: usize,
) -> Result<Vec<u64>, Fail> {
    let mut words = vec![in alloc; 0u64; room]?;
    if at > device.len() || words.len() as u64 > device.len() - at {
        return Err("no such words".into());
    }
    let count = device.read_words(at, words.as_mut_slice());
    words.truncate(count);
    Ok(words)
}

/// Whether all these words are written, each its place and one, or are read so, each with the one so many
/// places on.
fn numbers<D: Device>(device: &mut D, from: u64, to: u64, beside: Option<u64>) -> bool {
    let mut right = true;
    for at in from..to {
        let word = at.wrapping_add(1);
        let done = match beside {
            None => writes(device, at, word, true),
            Some(beside) => {
                reads(device, at, Some(word))
                    && reads(
                        device,
                        at.wrapping_add(beside),
                        Some(word.wrapping_add(beside)),
                    )
            }
        };
        right = right && done;
    }
    right
}

/// Makes a call, and tells whether that comes of it which is wanted.
fn does<D: Device>(alloc: Global, device: &mut D, step: &Step) -> Result<bool, Fail> {
    Ok(match *step {
        Step::Read(at, word) => reads(device, at, word),
        Step::ReadMany(at, room, words) => {
            read_many(alloc, device, at, room)?.as_slice() == words
        }
        Step::Write(at, word, done) => writes(device, at, word, done),
        Step::WriteMany(at, words, done) => {
            at <= device.len()
                && words.len() as u64 <= device.len() - at
                && device.write_words(at, words).is_ok() == done
        }
        Step::Sync(done) => device.sync().is_ok() == done,
        Step::Faults(count) => device.fault_count() == count,
        Step::Number(from, to) => numbers(device, from, to, None),
        Step::Numbered(from, to, beside) => numbers(device, from, to, Some(beside)),
        Step::NumberedAtOnce(from, to) => {
            let mut next = from;
            for word in read_many(alloc, device, from, to.saturating_sub(from) as usize)? {
                next = next.wrapping_add(1);
                if word != next {
                    return Ok(false);
                }
            }
            next == to
        }
    })
}

/// Makes these calls. It is an error where another thing comes of one of them.
pub(crate) fn takes<D: Device>(alloc: Global, device: &mut D, steps: &[Step]) -> Result<(), Fail> {
    for (index, step) in steps.iter().enumerate() {
        if !does(alloc, device, step)? {
            return Err(("at step", index).into());
        }
    }
    Ok(())
}
