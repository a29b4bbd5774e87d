//! The bytes of a script, read to their end.
ghost use Rattle.std.specs.Prelude.{◌≡◌, ℕ, length, IfOk};
ghost use Rattle.std.specs.Io.KnownBytes.{Consumes};
ghost use Rattle.rom_text.specs.Limits.{EndsReadingBytes, IsWithinLimit};

use crate::streams::Source;
use std::alloc::{AllocError, AllocFailed, Global};

/// The greatest number of bytes in a script.
pub const MAX_BYTES: usize = 1 << 20;

/// The greatest number of lines in a script. A line and its result are kept to the end of a run. They take 56
/// bytes, and those of the words of a call and its reply. A limit on bytes alone would let in a million
/// empty lines.
pub const MAX_LINES: usize = 1 << 17;

/// How many bytes a read asks for, unless fewer may still come.
const BLOCK: usize = 4096;

/// How many bytes there is room for at once, also for a script of one line. A longer script moves three times at
/// most as it grows, where one that began with no room would move nine times.
const ROOM: usize = 1 << 18;

/// Why a script was not read.
#[derive(Clone, Copy, Debug, PartialEq, Eq)]
pub enum ReadRefused {
    /// Its source failed.
    Failed,
    /// It has more than `MAX_BYTES` bytes or more than `MAX_LINES` lines.
    TooLong,
    OutOfMemory,
}

impl From<AllocError> for ReadRefused {
    ghost use Rattle.rom_text.specs.declared.read.ReadRefused.TheVariants.{OutOfMemory};

    ghost from_gives = { λ _ e. e ≡ OutOfMemory };

    fn from(_: AllocError) -> Self {
        ReadRefused::OutOfMemory
    }
}

impl<T: Drop> From<AllocFailed<T>> for ReadRefused {
    ghost use Rattle.rom_text.specs.declared.read.ReadRefused.TheVariants.{OutOfMemory};

    ghost from_gives = { λ _ e. e ≡ OutOfMemory };

    fn from(_: AllocFailed<T>) -> Self {
        ReadRefused::OutOfMemory
    }
}

/// Reads all that a source has left. What it has taken is lost to the source after an `Err`.
pub fn read_bytes<S: Source>(alloc: Global, source: &mut S) -> Result<Vec<u8>, ReadRefused>
    // After `Ok`, where the source tells its bytes: these are the first that it had left, and it has them
    // no more. By `ends` none is left behind them.
    ensures all { IfOk result (λ bytes.
        Consumes (S.shown.left source.old) (S.shown.left source.new) bytes.items) }
    ensures within { IfOk result (λ bytes. IsWithinLimit bytes.items) }
    // After `Ok` the source has come to its end. `Failed` and `TooLong` come only for their cause. At most
    // one byte too many is taken, and no read follows one that gave none.
    ensures ends { EndsReadingBytes S.shown source.old source.new result }
{
    let mut bytes = Vec::with_capacity(alloc, ROOM)?;
    let mut block = [0; BLOCK];
    while bytes.len() <= MAX_BYTES {
        // One byte past the greatest number tells that there are too many.
        let most = BLOCK.min(MAX_BYTES + 1 - bytes.len());
        let Ok(count) = source.read(&mut block[..most]) else {
            return Err(ReadRefused::Failed);
        };
        if count == 0 {
            return Ok(bytes);
        }
        bytes.extend_from_slice(&block[..count as usize])?;
    }
    Err(ReadRefused::TooLong)
}
