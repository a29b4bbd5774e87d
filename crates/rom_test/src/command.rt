//! What a run of a program is given, and what it leaves.
ghost use Rattle.std.specs.Prelude.{◌<◌};

use crate::device::NEVER;
use crate::texts::{lines_in, lines_of};
use rom_device::{Fuse, Memory};
use rom_text::{Bytes, Collect, Names};
use std::alloc::{AllocError, Global};

/// A script of at most so many bytes is read in pieces of few, and a text of so many lines written so.
const SHORT: u64 = 4096;

/// How far a run goes.
#[derive(Clone, Copy, Debug)]
pub struct Limits {
    /// How many calls of the device are done before each later one fails.
    pub calls: u64,
    /// For how many bytes the sink has room.
    pub room: u64,
}

/// No call of the device fails, and there is room for a text of some hundred lines.
pub const AMPLE: Limits = Limits {
    calls: NEVER,
    room: 65_536,
};

/// What a program is handed.
#[derive(Drop)]
pub struct Handed {
    pub names: Names,
    pub scripts: Vec<Bytes>,
    pub device: Fuse<Memory>,
    pub out: Collect,
}

/// What a run left.
#[derive(Drop)]
pub struct Found {
    pub status: u8,
    pub bytes: Vec<u8>,
    pub has_session: bool,
    pub device: Memory,
}

impl Found {
    /// What was printed. Bytes that are no text are told so.
    pub fn text(&self) -> &str {
        str::from_utf8(&self.bytes).unwrap_or("bytes that are no text")
    }
}

/// The words of a command, as a program has them.
pub fn names_of(alloc: Global, words: &[&str]) -> Result<Names, AllocError> {
    let mut names = Names::new(alloc);
    for word in words {
        names.push(alloc, word)?;
    }
    Ok(names)
}

/// A source of these bytes, which gives at most so many at a time, and of which the read of this number
/// fails. No read has the number 0.
pub fn source_of(alloc: Global, bytes: &[u8], piece: u64, trip: u64) -> Result<Bytes, AllocError>
    requires { 0 < piece }
{
    let trips = vec![in alloc; trip; 1]?;
    Ok(Bytes::new(bytes.to_vec(alloc)?, piece, trips))
}

/// Sources of these scripts, of each of which the read of its number fails. A short one comes in pieces of
/// three bytes.
fn sources_of(alloc: Global, scripts: &[&str], failing: &[u64]) -> Result<Vec<Bytes>, AllocError> {
    let mut sources = Vec::new(alloc);
    for (index, script) in scripts.iter().enumerate() {
        let trip = failing.get(index).copied().unwrap_or(0);
        let piece = if script.len() as u64 <= SHORT {
            3
        } else {
            4096
        };
        sources.push(source_of(alloc, script.as_bytes(), piece, trip)?)?;
    }
    Ok(sources)
}

/// What a program is handed: these words, a script for each that they name, a device, and a sink of so much
/// room. Of each script the read of its number in `failing` fails.
pub fn hand(
    alloc: Global,
    words: &[&str],
    scripts: &[&str],
    failing: &[u64],
    device: Fuse<Memory>,
    room: u64,
) -> Result<Handed, AllocError> {
    let lines = lines_in(&lines_of(alloc, scripts)?);
    let piece = if lines <= SHORT { 5 } else { 4096 };
    Ok(Handed {
        names: names_of(alloc, words)?,
        scripts: sources_of(alloc, scripts, failing)?,
        device,
        out: Collect::with_room(alloc, room, piece)?,
    })
}
