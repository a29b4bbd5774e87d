//! The comparison of both regions.
ghost use Rattle.std.specs.Prelude.{◌≡◌, ◌≢◌, ◌+◌, ◌*◌, ◌<◌, ◌≤◌, ℕ};
ghost use Rattle.std.specs.Prelude.{IfErr, IfSome, IfNone, OnOk, IsTrue, length, slice_index};
ghost use Rattle.rom_model.specs.Blocks.{region_len};
ghost use Rattle.rom_header.specs.Headers.{IsIdle};
ghost use Rattle.rom_header.specs.Layout.{MAIN, words_needed};
ghost use Rattle.rom_recover.specs.Calls.{Compares};
ghost use Rattle.rom_recover.specs.Image.{IsEmptyOrFull, IsReadFrom};
ghost use Rattle.rom_recover.specs.Recovered.{AreTwins, IsFirst, StandsFrom};

use crate::keep::keep;
use crate::piece::PIECE;
use crate::recovery::RecoverRefused;
use rom_device::Device;
use rom_header::Geometry;

/// A piece of each region.
#[derive(Drop)]
struct Pieces {
    main: [u64; PIECE],
    back: [u64; PIECE],
}

/// Where so many words differ first, if they do.
fn first_difference(main: &[u64; PIECE], back: &[u64; PIECE], count: usize) -> Option<usize>
    requires { count ≤ 64 }
    ensures within { IfSome result (λ index. index < count) }
    ensures differ { IfSome result (λ index.
        slice_index main.now index ≢ slice_index back.now index) }
    ensures first { IfSome result (λ index.
        (k : ℕ) → k < index → slice_index main.now k ≡ slice_index back.now k) }
    ensures none { IfNone result ((k : ℕ) → k < count →
        slice_index main.now k ≡ slice_index back.now k) }
{
    for index in 0..count {
        if main[index] != back[index] {
            return Some(index);
        }
    }
    None
}

/// Compares so many words of both regions behind those that are the same, up to the first
/// difference. Back's words that were read before one that could not be read are compared all the
/// same, since that calls the device no more.
fn compare_piece<D: Device>(
    device: &mut D,
    geometry: Geometry,
    from: u64,
    count: usize,
    pieces: &mut Pieces,
) -> Result<(), RecoverRefused>
    requires fits { words_needed geometry ≤ D.shown.size device.old }
    requires within { from + count ≤ region_len geometry }
    requires room { count ≤ 64 }
    requires idle { IsTrue D.shown.tells_words → IsIdle (D.shown.words device.old) }
    requires so_far { IsTrue D.shown.tells_words →
        AreTwins geometry from (D.shown.words device.old) }
    ensures same { IsTrue D.shown.tells_words →
        OnOk result (AreTwins geometry (from + count) (D.shown.words device.old)) }
    ensures filled { OnOk result (count ≤ length pieces.new.main) }
    ensures main { IsTrue D.shown.tells_words →
        OnOk result (IsReadFrom (MAIN + from) count (D.shown.words device.old) pieces.new.main) }
    ensures twins { IsTrue D.shown.tells_words →
        IfErr result (IsFirst geometry (D.shown.words device.old)) }
    ensures stands { IfErr result (StandsFrom from) }
    ensures compares { Compares D.shown (2 * count) device.old device.new result }
{
    let (main, back) = (geometry.main() + from, geometry.back() + from);
    if device.read_words(main, &mut pieces.main[..count]) < count {
        return Err(RecoverRefused::Device);
    }
    let read = device.read_words(back, &mut pieces.back[..count]);
    if let Some(index) = first_difference(&pieces.main, &pieces.back, read) {
        return Err(RecoverRefused::Twins {
            offset: from + index as u64,
            main: pieces.main[index],
            back: pieces.back[index],
        });
    }
    if read < count {
        return Err(RecoverRefused::Device);
    }
    Ok(())
}

/// Compares the regions up to the first difference, and keeps main in the image where that has words.
pub fn compare<D: Device>(
    device: &mut D,
    geometry: Geometry,
    image: &mut [u64],
) -> Result<(), RecoverRefused>
    requires fits { words_needed geometry ≤ D.shown.size device.old }
    requires idle { IsTrue D.shown.tells_words → IsIdle (D.shown.words device.old) }
    requires room { IsEmptyOrFull (region_len geometry) image.old }
    ensures as_long { length image.new ≡ length image.old }
    // Where words are told: after `Ok` the words of the image, if it has any, are those of main.
    ensures kept { IsTrue D.shown.tells_words →
        OnOk result (IsReadFrom MAIN (region_len geometry) (D.shown.words device.old) image.new) }
    // Where words are told: after `Ok` both regions have the same words.
    ensures same { IsTrue D.shown.tells_words →
        OnOk result (AreTwins geometry (region_len geometry) (D.shown.words device.old)) }
    // Where words are told: a difference that is answered is the first one.
    ensures twins { IsTrue D.shown.tells_words →
        IfErr result (IsFirst geometry (D.shown.words device.old)) }
    // It only reads: after `Ok` as many words as both regions have. Where they differ it reads at most up
    // to the end of the piece, of 64 words, with the difference.
    ensures compares { Compares D.shown (2 * region_len geometry) device.old device.new result }
{
    let len = geometry.region();
    let mut pieces = Pieces {
        main: [0; PIECE],
        back: [0; PIECE],
    };
    let mut from = 0;
    while from < len {
        let count = (len - from).min(PIECE as u64);
        compare_piece(device, geometry, from, count as usize, &mut pieces)?;
        keep(image, from, &pieces.main[..count as usize]);
        from += count;
    }
    Ok(())
}
