//! What a row of data has.

use rom_device::Trip;
use rom_test::{Holding, NEVER};

/// A run of the program, and what it tells.
#[derive(Clone, Copy, Debug)]
pub struct Row {
    /// The words of the command.
    pub words: &'static [&'static str],
    /// A script for each that the words name. A line `N * LINE` stands for so many lines, in a text too.
    pub scripts: &'static [&'static str],
    /// Of each script the number of its read that fails; no read has the number 0.
    pub failing: &'static [u64],
    pub device: Words,
    /// A call of the device that fails.
    pub trip: Option<Trip>,
    /// How many calls of the device are done before each later one fails.
    pub calls: u64,
    pub sink: Sink,
    pub gate: Holding,
    pub status: u8,
    pub text: Text,
    /// How many lines each caller of a drill begins.
    pub drawn: &'static [u64],
    /// How many calls of the device failed by that.
    pub faults: u64,
    /// What `stat` prints of the device then, or nothing where that is not asked.
    pub shown: &'static str,
    /// The device's words then, where that is asked. Where nothing is done they stay in any case.
    pub left: Option<Words>,
}

/// The words of a device.
#[derive(Clone, Copy, Debug)]
pub enum Words {
    /// So many words, each 0.
    Zeros(u64),
    /// A new heap of order 4, with other words at these places.
    Heap(&'static [(usize, u64)]),
    /// A new heap of order 4, with other words at these offsets of both its regions.
    Regions(&'static [(usize, u64)]),
    /// The same as `Heap`, with the words of one region all 77: those from the first place to the one
    /// before the second.
    Torn(usize, usize, &'static [(usize, u64)]),
    /// Those that the row before left.
    Kept,
}

/// What a sink has room for.
#[derive(Clone, Copy, Debug)]
pub enum Sink {
    /// All that is printed.
    Ample,
    /// So many bytes.
    Only(u64),
    /// In turn each number of bytes from 0 to those of the text, and then all that is printed.
    Each,
}

/// What is printed.
#[derive(Clone, Copy, Debug)]
pub enum Text {
    /// This.
    Is(&'static str),
    /// A text of one history that begins in an empty heap with this count.
    OneHistory(u64),
}

/// A row that prints nothing, of which others say how they differ.
pub const PLAIN: Row = Row {
    words: &[],
    scripts: &[],
    failing: &[],
    device: Words::Zeros(232),
    trip: None,
    calls: NEVER,
    sink: Sink::Ample,
    gate: Holding::Callers,
    status: 0,
    text: Text::Is(""),
    drawn: &[],
    faults: 0,
    shown: "",
    left: None,
};
