//! Where each word stands in the shared table.
ghost use Rattle.std.specs.Prelude.{◌≡◌, ◌^◌, ◌<◌, ◌≤◌};
ghost use Rattle.rom_model.specs.Blocks.{IsOrder, region_len};
ghost use Rattle.rom_rule.specs.Places.{AreCallers, side_at, version_at, indicator_at, indicator_of, slot_at, main_word_at, back_word_at, table_len};

use rom_model::region_len;

/// The first caller's read indicator of version 0. A large table begins 16 bytes into a line of a
/// processor's cache, so this word begins a line, and shares none with `side` and `version`, which
/// every caller loads.
const FIRST: u64 = 14;

/// The number of words from a caller's read indicators to the next caller's, as many as a line holds. So no
/// two callers' indicators share a line, and an arrival takes no line from another caller. On bare words,
/// with four threads reading on four processors, a read took 38 ns with these lines. It took 96 ns where
/// each thread's two words stand beside its neighbours', and 99 ns where all share two words.
const LINE: u64 = 8;

/// The number of words of a caller's slot.
const SLOT: u64 = 64;

/// The word of a slot that has the turn: odd while a call is posted, even once it is answered.
pub const TURN: u64 = 0;

/// Where the posted call stands in a slot: the number of its words, then they.
pub const CALL: u64 = 1;

/// The word of a slot that has the place of the last answer, or the code of one that was not done.
pub const PLACE: u64 = 42;

/// Where the reply of the last answer stands in a slot: the number of its words, then they.
pub const REPLY: u64 = 43;

/// The places of the words of one shared table. Every place is the word's number in the table.
#[derive(Clone, Copy, Debug, PartialEq, Eq)]
pub struct Layout {
    order: u32,
    callers: u32,
    ghost fits: { (4 ≤ order) × (order ≤ 16) × (1 ≤ callers) × (callers ≤ 16) },
}

impl Layout {
    /// The layout for a heap's order, from 4 to 16, and a number of callers, from 1 to 16.
    pub fn new(order: u32, callers: u32) -> Layout
        requires order { IsOrder order }
        requires callers { AreCallers callers }
        ensures is { (result.order ≡ order) × (result.callers ≡ callers) }
    {
        Layout { order, callers }
    }

    /// The heap's order.
    pub fn order(&self) -> u32
        ensures is { result ≡ self.now.order }
        ensures fits { IsOrder result }
    {
        self.order
    }

    /// The number of callers.
    pub fn callers(&self) -> u32
        ensures is { result ≡ self.now.callers }
        ensures fits { AreCallers result }
    {
        self.callers
    }

    /// The number of words of the table.
    pub fn len(&self) -> u64
        ensures is { result ≡ table_len self.now.order self.now.callers }
    {
        self.slots() + SLOT * self.callers as u64 + 2 * region_len(self.order)
    }

    /// The word that names the side that readers are sent to: 0 is main, 1 is back.
    pub fn side(&self) -> u64
        ensures is { result ≡ side_at }
    {
        0
    }

    /// The word that names the version that readers arrive at: 0 or 1.
    pub fn version(&self) -> u64
        ensures is { result ≡ version_at }
    {
        1
    }

    /// A caller's read indicator of a version: 1 from its arrival there to its departure, else 0.
    /// Callers are numbered from 1.
    pub fn indicator(&self, caller: u32, version: u64) -> u64
        requires caller { (1 ≤ caller) × (caller ≤ self.now.callers) }
        requires version { version < 2 }
        ensures is { result ≡ indicator_at (indicator_of caller version) }
    {
        FIRST + LINE * (caller as u64 - 1) + version
    }

    // where the first slot begins
    fn slots(&self) -> u64
        ensures is { result ≡ slot_at self.now.callers 1 0 }
    {
        FIRST + LINE * self.callers as u64
    }

    /// Word j, below 64, of the slot in which a caller posts its calls and finds their answers, as
    /// `TURN`, `CALL`, `PLACE` and `REPLY`; callers are numbered from 1.
    pub fn slot(&self, caller: u32, j: u64) -> u64
        requires caller { (1 ≤ caller) × (caller ≤ self.now.callers) }
        requires word { j < 64 }
        ensures is { result ≡ slot_at self.now.callers caller j }
    {
        self.slots() + SLOT * (caller as u64 - 1) + j
    }

    /// Word `at` of shared main, an offset from the region's start.
    pub fn main(&self, at: u64) -> u64
        requires inside { at < region_len self.now.order }
        ensures is { result ≡ main_word_at self.now.order self.now.callers at }
        ensures near { result < 2 ^ 32 }
    {
        self.slots() + SLOT * self.callers as u64 + at
    }

    /// Word `at` of shared back, an offset from the region's start.
    pub fn back(&self, at: u64) -> u64
        requires inside { at < region_len self.now.order }
        ensures is { result ≡ back_word_at self.now.order self.now.callers at }
        ensures near { result < 2 ^ 32 }
    {
        self.slots() + SLOT * self.callers as u64 + region_len(self.order) + at
    }
}
