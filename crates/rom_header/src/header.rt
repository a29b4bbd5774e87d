//! The header of a heap.
ghost use Rattle.std.specs.Prelude.{◌≡◌, ◌<◌, ◌≤◌, IsTrue, IfOk, IfErr, IfSome, IfNone};
ghost use Rattle.rom_device.specs.Device.{Makes, OnlyReads};
ghost use Rattle.rom_header.specs.Calls.{header_fault, header_reads};
ghost use Rattle.rom_header.specs.Headers.{IsHeaderAnswer, IsOrderAnswer, HasTooFew};
ghost use Rattle.rom_header.specs.Layout.{words_needed};

use crate::geometry::Geometry;
use rom_device::{Device, Failed};

/// The first word of a heap, the ASCII letters `ROMULUS1`.
pub const MAGIC: u64 = 0x524F_4D55_4C55_5331;

/// The format version that this heap has.
pub const HEADER_VERSION: u64 = 1;

/// The place of the word that names the state.
pub const STATE: u64 = 3;

/// How many words the header has.
const HEADER: u64 = 8;

/// Which region counts.
#[derive(Clone, Copy, Debug, PartialEq, Eq)]
pub enum State {
    /// Both, and they are the same. The word is 0.
    Idle,
    /// Back: main is being changed. The word is 1.
    Mutating,
    /// Main: it is being copied to back. The word is 2.
    Copying,
}

impl State {
    ghost use Rattle.rom_header.specs.Headers.{state_word};

    /// The state that a word stands for, if any.
    pub fn of(word: u64) -> Option<State>
        ensures some { IfSome result (λ state. word ≡ state_word state) }
        ensures none { IfNone result (2 < word) }
    {
        match word {
            0 => Some(State::Idle),
            1 => Some(State::Mutating),
            2 => Some(State::Copying),
            _ => None,
        }
    }

    /// The word that stands for it.
    pub fn word(self) -> u64
        ensures word { result ≡ state_word self }
    {
        match self {
            State::Idle => 0,
            State::Mutating => 1,
            State::Copying => 2,
        }
    }
}

/// An accepted header.
#[derive(Clone, Copy, Debug, PartialEq, Eq)]
pub struct Header {
    pub geometry: Geometry,
    pub state: State,
}

/// Why a device holds no heap. The tests are made in this order, but for `TooSmall`, which is made
/// before all others for the 8 words of a header, and after the order for the words of the heap.
#[derive(Clone, Copy, Debug, PartialEq, Eq)]
pub enum HeaderRefused {
    /// The device has fewer words, `have`, than a header or the heap of its order needs, `need`.
    TooSmall { need: u64, have: u64 },
    /// Word 0 is not the magic.
    NotAHeap,
    /// Word 1 is this in place of 1.
    BadVersion(u64),
    /// Word 2 is this in place of 4 to 16.
    BadOrder(u64),
    /// Word 3 is this in place of 0 to 2.
    BadState(u64),
    /// The device failed.
    Device,
}

impl From<Failed> for HeaderRefused {
    ghost use Rattle.rom_header.specs.declared.header.HeaderRefused.TheVariants.{Device};

    ghost from_gives = { λ _ e. e ≡ Device };

    fn from(_: Failed) -> Self {
        HeaderRefused::Device
    }
}

/// Reads the magic, the version and the order.
fn read_order<D: Device>(device: &mut D) -> Result<Geometry, HeaderRefused>
    requires { 8 ≤ D.shown.size device.old }
    ensures answer { IsTrue D.shown.tells_words → IsOrderAnswer (D.shown.words device.old) result }
    ensures sizes { IfErr result (HasTooFew (D.shown.size device.old)) }
    ensures only { OnlyReads D.shown device.old device.new }
    ensures makes { Makes D.shown (header_reads 3 result) 0 0 device.old device.new
        (header_fault result) }
{
    let magic = device.read(0)?;
    if magic != MAGIC {
        return Err(HeaderRefused::NotAHeap);
    }
    let version = device.read(1)?;
    if version != HEADER_VERSION {
        return Err(HeaderRefused::BadVersion(version));
    }
    let order = device.read(2)?;
    Geometry::of(order).ok_or(HeaderRefused::BadOrder(order))
}

/// Reads the header, and refuses what is no heap by the first test that fails. It calls no write
/// and no sync, and reads no word behind one that it refuses.
pub fn read_header<D: Device>(device: &mut D) -> Result<Header, HeaderRefused>
    // Where the device tells its words, the answer is exactly theirs.
    ensures answer { IsTrue D.shown.tells_words → IsHeaderAnswer (D.shown.words device.old) result }
    ensures fits { IfOk result (λ header. words_needed header.geometry ≤ D.shown.size device.old) }
    // A device of fewer than 8 words is too small for a header, whether or not it tells its words.
    ensures too_small { D.shown.size device.old < 8 →
        result ≡ Err (HeaderRefused.TooSmall 8 (D.shown.size device.old)) }
    // `TooSmall` names how many words are needed, and how many the device has.
    ensures sizes { IfErr result (HasTooFew (D.shown.size device.old)) }
    // The words stay as far as they are told, and no write and no sync is counted.
    ensures only { OnlyReads D.shown device.old device.new }
    // `Device` comes exactly where a read failed, which is the last. Any other answer says how many were
    // made.
    ensures makes { Makes D.shown (header_reads 4 result) 0 0 device.old device.new
        (header_fault result) }
{
    let have = device.len();
    if have < HEADER {
        return Err(HeaderRefused::TooSmall { need: HEADER, have });
    }
    let geometry = read_order(device)?;
    let need = geometry.need();
    if have < need {
        return Err(HeaderRefused::TooSmall { need, have });
    }
    let word = device.read(STATE)?;
    let state = State::of(word).ok_or(HeaderRefused::BadState(word))?;
    Ok(Header { geometry, state })
}
