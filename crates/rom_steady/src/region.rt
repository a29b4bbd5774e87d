//! A region that is read while others write.
ghost use Rattle.std.specs.Prelude.{◌≡◌, ◌+◌, ◌<◌, ◌≤◌, ℕ, List, IfOk, IsTrue, length, slice_index};
ghost use Rattle.rom_model.specs.Blocks.{region_len};
ghost use Rattle.rom_header.specs.Layout.{words_needed};
ghost use Rattle.rom_steady.specs.Rule.{IsKept, Stage, committed_at};
ghost use Rattle.rom_steady.specs.Seen.{CommittedStood};
ghost use Rattle.rom_steady.specs.Watched.{HasRisen, IsLater, StoodAt, StoodFrom};

use crate::age::is_copying;
use crate::watched::Watched;
use rom_device::Failed;
use rom_header::Geometry;

/// How many words are compared at a time.
const PIECE: usize = 8192;

/// Reads so many words from that place on, and says whether they are these.
fn is_piece<W: Watched>(words: &mut W, at: u64, expected: &[u64]) -> Result<bool, Failed>
    requires inside { at + length expected.now ≤ W.shown.size words.old }
    requires room { length expected.now ≤ 8192 }
    ensures found { IsTrue W.shown.tells → IfOk result (λ is. IsTrue is →
        StoodFrom W.shown words.old words.new at expected.now) }
    ensures later { IsLater W.shown words.old words.new }
    ensures faults { HasRisen result (W.shown.faults words.old) (W.shown.faults words.new) }
{
    let mut read = [0u64; PIECE];
    let piece = &mut read[..expected.len()];
    words.read_words(at, piece)?;
    for index in 0..expected.len() {
        if read[index] != expected[index] {
            return Ok(false);
        }
    }
    Ok(true)
}

/// Reads as many words from that place on, and says whether they are these, each at some moment.
fn are_words<W: Watched>(words: &mut W, at: u64, expected: &[u64]) -> Result<bool, Failed>
    requires { at + length expected.now ≤ W.shown.size words.old }
    ensures found { IsTrue W.shown.tells → IfOk result (λ is. IsTrue is →
        StoodFrom W.shown words.old words.new at expected.now) }
    ensures later { IsLater W.shown words.old words.new }
    ensures faults { HasRisen result (W.shown.faults words.old) (W.shown.faults words.new) }
{
    let mut from = 0;
    while from < expected.len() {
        let count = (expected.len() - from).min(PIECE);
        if !is_piece(words, at + from as u64, &expected[from..from + count])? {
            return Ok(false);
        }
        from += count;
    }
    Ok(true)
}

/// Reads back into the image, and says whether these are the words that are committed, if that does not change
/// meanwhile. Under COPYING back may have old words still; so main is read first, and back is to be the same. On a
/// file this is what is seen at rest, since IDLE is handed over late.
pub fn read_back<W: Watched>(
    words: &mut W,
    geometry: Geometry,
    image: &mut [u64],
) -> Result<bool, Failed>
    requires fits { words_needed geometry ≤ W.shown.size words.old }
    requires image { length image.old ≡ region_len geometry }
    ensures as_long { length image.new ≡ length image.old }
    ensures read { (stages : ℕ → Stage) (region : List ℕ) → IsTrue W.shown.tells →
        IsKept geometry stages (W.shown.words words.old) →
        CommittedStood geometry stages (W.shown.words words.old) (W.shown.now words.old)
        (W.shown.now words.new) region →
        IfOk result (λ is. IsTrue is → image.new ≡ region) }
    ensures later { IsLater W.shown words.old words.new }
    ensures faults { HasRisen result (W.shown.faults words.old) (W.shown.faults words.new) }
{
    if is_copying(words)? {
        words.read_words(geometry.main(), image)?;
        return are_words(words, geometry.back(), image);
    }
    words.read_words(geometry.back(), image)?;
    Ok(true)
}
