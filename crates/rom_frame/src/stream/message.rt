//! The next message of a stream. It is read in two parts: its first word, then the rest. So no byte behind a
//! message is read, and nothing is left in a block between two messages. The price is two reads of a file for
//! each message.
ghost use Rattle.std.specs.Prelude.{◌≡◌, ◌+◌, ◌-◌, ◌<◌, ◌≤◌, take, drop};
ghost use Rattle.std.specs.Io.KnownBytes.{Consumes};
ghost use Rattle.rom_text.specs.Limits.{CameToEnd};
ghost use Rattle.rom_text.specs.Streams.{IsAskedOnce, ReadFailed};
ghost use Rattle.rom_frame.specs.Messages.{GaveOn, IsMessageHeard};

use crate::frame::MOST_BYTES;
use crate::stream::filling::{Filling, fill};
use byteorder::{ByteOrder, LittleEndian};
use rom_text::Source;

/// The most bytes of a stream.
pub const MAX_STREAM: u64 = 67_108_864;

/// The fewest words of a message.
const MIN_WORDS: u64 = 4;

/// The most words of a message.
const MAX_WORDS: u64 = 64;

/// What the next bytes of a stream are.
#[derive(Clone, Copy, Debug, PartialEq, Eq)]
pub enum MessageKind {
    /// A whole message.
    Whole,
    /// None: the stream has ended.
    End,
    /// No message: their first word is the number of no message's words, or the stream ends in the midst
    /// of one.
    Broken,
    /// Some of a message, before a read failed.
    Failed,
    /// Some of a message, and the byte that makes the stream too long.
    TooLong,
}

/// What was read of a stream: how many bytes, which stand at the front of a block, and what they are.
#[derive(Clone, Copy, Debug, PartialEq, Eq)]
pub struct Heard {
    pub len: usize,
    pub kind: MessageKind,
}

/// Reads the bytes of a block from `from` up to `to`, as far as the stream may be that long. `room` is
/// how many bytes of it make it too long, counted from the front of the block.
fn read_part<S: Source>(
    source: &mut S,
    block: &mut [u8; MOST_BYTES],
    from: usize,
    to: usize,
    room: u64,
) -> Heard
    requires order { from ≤ to }
    requires most { to ≤ 512 }
    requires room { from < room }
    ensures within { (from ≤ result.len) × (result.len ≤ to) }
    ensures front { take from block.new ≡ take from block.old }
    ensures bytes { Consumes (S.shown.left source.old) (S.shown.left source.new)
        (drop from (take result.len block.new)) }
    ensures whole { result.kind ≡ MessageKind.Whole →
        (result.len ≡ to) × (to < room) × GaveOn S.shown source.old source.new }
    ensures end { result.kind ≡ MessageKind.End →
        (result.len ≡ 0) × CameToEnd S.shown source.old source.new }
    ensures broken { result.kind ≡ MessageKind.Broken → (0 < result.len) × (result.len < to)
        × (result.len < room) × CameToEnd S.shown source.old source.new }
    ensures failed { result.kind ≡ MessageKind.Failed → (result.len < to) × (result.len < room)
        × ReadFailed S.shown source.old source.new }
    ensures too_long { result.kind ≡ MessageKind.TooLong →
        (result.len ≡ room) × GaveOn S.shown source.old source.new }
{
    let most = room.min(to as u64) as usize;
    let filled = fill(source, block, from, most);
    let kind = match filled.filling {
        Filling::Full if room <= to as u64 => MessageKind::TooLong,
        Filling::Full => MessageKind::Whole,
        Filling::Ended if filled.len == 0 => MessageKind::End,
        Filling::Ended => MessageKind::Broken,
        Filling::Failed => MessageKind::Failed,
    };
    Heard {
        len: filled.len,
        kind,
    }
}

/// Reads the next message of a stream, of which so many bytes were taken before, into the block: its bytes
/// stand at the front, and so do those of which there came some before it was known that they are none.
/// What is behind them in the block tells nothing. After any kind but `Whole` the stream is at an end, and
/// is not to be read on.
pub fn next_message<S: Source>(source: &mut S, taken: u64, block: &mut [u8; MOST_BYTES]) -> Heard
    requires { taken ≤ MAX_STREAM }
    ensures within { result.len ≤ 512 }
    // Where a source tells its bytes, those that were read are the first `len` bytes of the block.
    ensures bytes { Consumes (S.shown.left source.old) (S.shown.left source.new)
        (take result.len block.new) }
    // The kind is true of these bytes, of those taken before, and of what the source did.
    ensures heard { IsMessageHeard S.shown taken (take result.len block.new) source.old source.new
        result.kind }
    // No read was made after one that gave no byte.
    ensures asked_once { IsAskedOnce S.shown source.old source.new }
{
    let room = MAX_STREAM + 1 - taken;
    let first = read_part(source, block, 0, 8, room);
    let MessageKind::Whole = first.kind else {
        return first;
    };
    let words = LittleEndian::read_u64(&block[..8]);
    if !(MIN_WORDS..=MAX_WORDS).contains(&words) {
        return Heard {
            len: 8,
            kind: MessageKind::Broken,
        };
    }
    read_part(source, block, 8, 8 * words as usize, room)
}
