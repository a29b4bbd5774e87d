//! The state, and how old a region is.
ghost use Rattle.std.specs.Prelude.{◌≡◌, ◌↔◌, ◌+◌, ◌<◌, ◌≤◌, ℕ, IfOk, IsTrue};
ghost use Rattle.rom_header.specs.Layout.{STATE, words_needed};
ghost use Rattle.rom_steady.specs.Rule.{IsKept, Stage, age, committed_at};
ghost use Rattle.rom_steady.specs.Seen.{CommittedNoOlder};
ghost use Rattle.rom_steady.specs.Watched.{HasRisen, IsLater, StoodAt};

use crate::watched::Watched;
use rom_device::Failed;
use rom_header::{Geometry, STATE, State};

/// The region version and the count of updates of a region.
#[derive(Clone, Copy, Debug, PartialEq, Eq)]
pub struct Age {
    pub version: u64,
    pub count: u64,
}

/// Reads the age of the region that begins at that place.
pub fn read_age<W: Watched>(words: &mut W, region: u64) -> Result<Age, Failed>
    requires { region + 3 ≤ W.shown.size words.old }
    ensures version { IsTrue W.shown.tells →
        IfOk result (λ old. StoodAt W.shown words.old words.new (region + 1) old.version) }
    ensures count { IsTrue W.shown.tells →
        IfOk result (λ old. StoodAt W.shown words.old words.new (region + 2) old.count) }
    ensures later { IsLater W.shown words.old words.new }
    ensures faults { HasRisen result (W.shown.faults words.old) (W.shown.faults words.new) }
{
    let mut read = [0u64; 2];
    words.read_words(region + 1, &mut read)?;
    Ok(Age {
        version: read[0],
        count: read[1],
    })
}

/// Says whether the state is COPYING.
pub fn is_copying<W: Watched>(words: &mut W) -> Result<bool, Failed>
    requires { 8 ≤ W.shown.size words.old }
    ensures state { IsTrue W.shown.tells → IfOk result (λ is. (word : ℕ) ×
        StoodAt W.shown words.old words.new STATE word × (IsTrue is ↔ (word ≡ 2))) }
    ensures later { IsLater W.shown words.old words.new }
    ensures faults { HasRisen result (W.shown.faults words.old) (W.shown.faults words.new) }
{
    let mut read = [0u64; 1];
    words.read_words(STATE, &mut read)?;
    Ok(read[0] == State::Copying.word())
}

/// Looks whether nothing older was committed yet than back was found to be before: back is as old still, and under
/// COPYING main is no older. A batch that is in doubt has made main older.
pub fn is_as_old<W: Watched>(words: &mut W, geometry: Geometry, before: Age) -> Result<bool, Failed>
    requires { words_needed geometry ≤ W.shown.size words.old }
    ensures committed { (stages : ℕ → Stage) → IsTrue W.shown.tells →
        IsKept geometry stages (W.shown.words words.old) → IfOk result (λ is. IsTrue is →
        CommittedNoOlder geometry stages (W.shown.words words.old) (W.shown.now words.old)
        (W.shown.now words.new) (before.version + before.count)) }
    ensures later { IsLater W.shown words.old words.new }
    ensures faults { HasRisen result (W.shown.faults words.old) (W.shown.faults words.new) }
{
    if is_copying(words)? && read_age(words, geometry.main())? != before {
        return Ok(false);
    }
    Ok(read_age(words, geometry.back())? == before)
}
