//! Std's readers and writers as sources and sinks. They are trusted: nothing is told of the bytes
//! that they give and take.
use crate::streams::{IoFailed, Sink, Source};
use std::io::{Read, Write};

/// A reader or a writer of std, or none, of which each call fails.
#[derive(Drop)]
pub struct Adapted<R> {
    inner: Option<R>,
    faults: u64,
    idle: u64,
    // Whether the last read gave no byte.
    ended: bool,
    // Whether the last write failed.
    failing: bool,
}

impl<R> Adapted<R> {
    ghost use Rattle.std.specs.Prelude.{◌≡◌, true, false};
    ghost use Rattle.rom_text.specs.Adapts.{HasMadeNoCalls, is_missing};

    /// The source or sink that this reader or writer is.
    pub fn new(inner: R) -> Self
        ensures present { is_missing result ≡ false }
        ensures fresh { HasMadeNoCalls result }
    {
        Adapted::over(Some(inner))
    }

    /// What stands for a file that could not be opened: each call fails and raises the count.
    pub fn missing() -> Self
        ensures missing { is_missing result ≡ true }
        ensures fresh { HasMadeNoCalls result }
    {
        Adapted::over(None)
    }

    fn over(inner: Option<R>) -> Self
        ensures inner { result.inner ≡ inner }
        ensures fresh { HasMadeNoCalls result }
    {
        Adapted {
            inner,
            faults: 0,
            idle: 0,
            ended: false,
            failing: false,
        }
    }
}

impl<R: Read> Source for Adapted<R> {
    ghost use Rattle.std.specs.Prelude.{◌≡◌, ◌<◌, ◌≤◌, length, IfOk, IsErr, IsTrue};
    ghost use Rattle.rom_text.specs.Adapts.{is_missing, shown_source};
    ghost use Rattle.rom_text.specs.Streams.{CountsRead};

    ghost shown = { shown_source };

    fn read(&mut self, buf: &mut [u8]) -> Result<u64, IoFailed>
        requires { 0 < length buf.old }
        ensures within { IfOk result (λ n. n ≤ length buf.new) }
        ensures counts { CountsRead shown_source self.old self.new result }

        ensures missing { IsTrue (is_missing self.old) → IsErr result }
        ensures kept { is_missing self.new ≡ is_missing self.old }
    {
        let answer = match &mut self.inner {
            Some(reader) => reader.read(buf).ok(),
            None => None,
        };
        self.ended = !matches!(answer, Some(count) if count > 0);
        if self.ended {
            self.idle = self.idle.saturating_add(1);
        }
        match answer {
            Some(count) => Ok(count as u64),
            None => {
                self.faults = self.faults.saturating_add(1);
                Err(IoFailed)
            }
        }
    }
}

impl<W: Write> Sink for Adapted<W> {
    ghost use Rattle.std.specs.Prelude.{◌≡◌, ◌<◌, ◌≤◌, length, IfOk, IsErr, IsTrue};
    ghost use Rattle.rom_text.specs.Adapts.{is_missing, shown_sink};
    ghost use Rattle.rom_text.specs.Streams.{CountsWrite};

    ghost shown = { shown_sink };

    /// A writer that takes nothing has failed, though std lets it answer `Ok(0)`. So a sink takes at least
    /// one byte at `Ok`, and each loop that prints ends.
    fn write(&mut self, piece: &[u8]) -> Result<u64, IoFailed>
        requires { 0 < length piece.now }
        ensures some { IfOk result (λ n. (0 < n) × (n ≤ length piece.now)) }
        ensures counts { CountsWrite shown_sink self.old self.new result }

        ensures missing { IsTrue (is_missing self.old) → IsErr result }
        ensures kept { is_missing self.new ≡ is_missing self.old }
    {
        let answer = match &mut self.inner {
            Some(writer) => writer.write(piece).ok(),
            None => None,
        };
        match answer {
            Some(count) if count > 0 => {
                self.failing = false;
                Ok(count as u64)
            }
            _ => {
                self.failing = true;
                self.faults = self.faults.saturating_add(1);
                Err(IoFailed)
            }
        }
    }
}
