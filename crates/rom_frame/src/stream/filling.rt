//! The first bytes of a block, read from a source.
ghost use Rattle.std.specs.Prelude.{◌≡◌, ◌<◌, ◌≤◌, take, drop};
ghost use Rattle.std.specs.Io.KnownBytes.{Consumes};
ghost use Rattle.rom_text.specs.Limits.{CameToEnd};
ghost use Rattle.rom_text.specs.Streams.{ReadFailed};
ghost use Rattle.rom_frame.specs.Messages.{GaveOn};

use crate::frame::MOST_BYTES;
use rom_text::Source;

/// How the filling of a block ended.
#[derive(Clone, Copy, Debug, PartialEq, Eq)]
pub enum Filling {
    /// All bytes that were asked for are there.
    Full,
    /// The source came to its end before.
    Ended,
    /// A read failed before.
    Failed,
}

/// How many bytes of a block are there, and how its filling ended.
#[derive(Clone, Copy, Debug, PartialEq, Eq)]
pub struct Filled {
    pub len: usize,
    pub filling: Filling,
}

/// Reads until the first `to` bytes of a block, which has room for the longest frame, are there, of which the first `from` are already.
pub fn fill<S: Source>(
    source: &mut S,
    block: &mut [u8; MOST_BYTES],
    from: usize,
    to: usize,
) -> Filled
    requires order { from ≤ to }
    requires room { to ≤ 512 }
    ensures within { (from ≤ result.len) × (result.len ≤ to) }
    ensures front { take from block.new ≡ take from block.old }
    ensures bytes { Consumes (S.shown.left source.old) (S.shown.left source.new)
        (drop from (take result.len block.new)) }
    ensures full { result.filling ≡ Filling.Full →
        (result.len ≡ to) × GaveOn S.shown source.old source.new }
    ensures ended { result.filling ≡ Filling.Ended →
        (result.len < to) × CameToEnd S.shown source.old source.new }
    ensures failed { result.filling ≡ Filling.Failed →
        (result.len < to) × ReadFailed S.shown source.old source.new }
{
    let mut len = from;
    while len < to {
        let Ok(count) = source.read(&mut block[len..to]) else {
            return Filled {
                len,
                filling: Filling::Failed,
            };
        };
        if count == 0 {
            return Filled {
                len,
                filling: Filling::Ended,
            };
        }
        len += count as usize;
    }
    Filled {
        len,
        filling: Filling::Full,
    }
}
