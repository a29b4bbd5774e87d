//! What stands at the front of bytes that wait.
ghost use Rattle.std.specs.Prelude.{◌≡◌};
ghost use Rattle.rom_tail.specs.Fronts.{IsFront};

use byteorder::{ByteOrder, LittleEndian};
use rom_frame::{Frame, read_frame};

/// What the first bytes of some that wait are.
#[derive(Clone, Copy, Debug, PartialEq, Eq)]
pub enum Front {
    /// A frame of so many bytes.
    Whole(Frame, usize),
    /// Some of a message whose other bytes are yet to come, or nothing.
    Unfinished,
    /// No frame, whatever comes behind.
    Broken,
}

/// What the bytes begin with. Their first word says how many words a message has.
pub fn front_of(bytes: &[u8]) -> Front
    ensures { IsFront bytes.now result }
{
    if bytes.len() < 8 {
        return Front::Unfinished;
    }
    let words = LittleEndian::read_u64(&bytes[..8]);
    if !(4..=64).contains(&words) {
        return Front::Broken;
    }
    let len = 8 * words as usize;
    if bytes.len() < len {
        return Front::Unfinished;
    }
    match read_frame(&bytes[..len]) {
        Some(frame) => Front::Whole(frame, len),
        None => Front::Broken,
    }
}
