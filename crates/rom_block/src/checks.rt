//! Tests of single words of a region.
ghost use Rattle.std.specs.Prelude.{◌≡◌, ◌+◌, ◌^◌, ◌<◌, ◌≤◌, [], ◌∷◌, length};
ghost use Rattle.rom_model.specs.Tests.{test, checked, is_word, are_zero};

use rom_model::{Break, Rule};

/// Tells the break of a test that does not hold.
pub fn check(holds: bool, offset: u64, rule: Rule) -> Result<(), Break>
    ensures { result ≡ checked (test offset rule holds ∷ []) }
{
    if holds {
        Ok(())
    } else {
        Err(Break { offset, rule })
    }
}

/// Tests that the word at an offset is this one. Offsets are in words from the region's start.
pub fn check_word(region: &[u64], offset: u64, rule: Rule, word: u64) -> Result<(), Break>
    requires within { offset < length region.now }
    ensures { result ≡ checked (is_word region.now offset rule word ∷ []) }
{
    check(region[offset as usize] == word, offset, rule)
}

/// Tests that so many words from an offset on are 0, and tells the first that is not.
pub fn check_zeros(region: &[u64], offset: u64, many: u64, rule: Rule) -> Result<(), Break>
    requires within { offset + many ≤ length region.now }
    requires small { length region.now < 2 ^ 32 }
    ensures { result ≡ checked (are_zero region.now offset many rule) }
{
    for at in offset..offset + many {
        check_word(region, at, rule, 0)?;
    }
    Ok(())
}
