//! The words of a heap's name.
ghost use Rattle.std.specs.Prelude.{◌≡◌, ◌≤◌, IfOk, IsTrue};
ghost use Rattle.rom_steady.specs.Watched.{HasRisen, IsLater, StoodAt};

use crate::watched::Watched;
use rom_device::Failed;

/// The place of the first of them.
const NAMES: u64 = 4;

/// The words 4 to 7 of a heap: both words of its name, the number of its epoch, and the count at which that began.
#[derive(Clone, Copy, Debug, PartialEq, Eq)]
pub struct NameWords {
    pub high: u64,
    pub low: u64,
    pub epoch: u64,
    pub since: u64,
}

/// Reads the words of the name.
pub fn read_names<W: Watched>(words: &mut W) -> Result<NameWords, Failed>
    requires { 8 ≤ W.shown.size words.old }
    ensures high { IsTrue W.shown.tells →
        IfOk result (λ names. StoodAt W.shown words.old words.new 4 names.high) }
    ensures low { IsTrue W.shown.tells →
        IfOk result (λ names. StoodAt W.shown words.old words.new 5 names.low) }
    ensures epoch { IsTrue W.shown.tells →
        IfOk result (λ names. StoodAt W.shown words.old words.new 6 names.epoch) }
    ensures since { IsTrue W.shown.tells →
        IfOk result (λ names. StoodAt W.shown words.old words.new 7 names.since) }
    ensures later { IsLater W.shown words.old words.new }
    ensures faults { HasRisen result (W.shown.faults words.old) (W.shown.faults words.new) }
{
    let mut read = [0u64; 4];
    words.read_words(NAMES, &mut read)?;
    Ok(NameWords {
        high: read[0],
        low: read[1],
        epoch: read[2],
        since: read[3],
    })
}
