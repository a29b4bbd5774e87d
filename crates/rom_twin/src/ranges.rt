//! Ranges of an image, written to a region of the device.
ghost use Rattle.std.specs.Prelude.{◌≡◌, ◌+◌, ◌-◌, ◌<◌, ◌≤◌, ◌^◌, ℕ, [], OnOk, IsTrue, length, slice_index};
ghost use Rattle.rom_model.specs.Space.{Looks};
ghost use Rattle.rom_device.specs.Device.{Does, IsSynced, Makes};
ghost use Rattle.rom_ranges.specs.Ranges.{AreWithin, held_count};
ghost use Rattle.rom_twin.specs.Ranges.{IsBut, PutsRanges, WritesPart, WritesRanges};

use rom_device::{Device, Failed};
use rom_model::Look;
use rom_ranges::Range;

/// How many words are handed to the device by one call at most.
const PIECE: usize = 16;

/// Loads words of the image, from an offset on, as many as there is room for.
fn load_piece<M: Look>(image: &mut M, from: u64, piece: &mut [u64])
    requires within { from + length piece.old ≤ length (M.shown.image image.old) }
    requires small { from + length piece.old < 2 ^ 64 }
    ensures len { length piece.new ≡ length piece.old }
    ensures loaded { (k : ℕ) → k < length piece.old →
        slice_index piece.new k ≡ slice_index (M.shown.image image.old) (from + k) }
    ensures looks { Looks M.shown (length piece.old) image.old image.new }
{
    for index in 0..piece.len() {
        piece[index] = image.load(from + index as u64);
    }
}

/// Writes so many words of the image, from an offset on, to the region that begins at `base`.
fn write_piece<D: Device, M: Look>(
    device: &mut D,
    image: &mut M,
    base: u64,
    from: u64,
    count: usize,
    piece: &mut [u64; PIECE],
) -> Result<(), Failed>
    requires fits { base + length (M.shown.image image.old) ≤ D.shown.size device.old }
    requires within { from + count ≤ length (M.shown.image image.old) }
    requires room { count ≤ 16 }
    ensures looks { Looks M.shown count image.old image.new }
    ensures written { IsTrue D.shown.tells_words → OnOk result ((k : ℕ) → k < count →
        slice_index (D.shown.words device.new) (base + from + k)
        ≡ slice_index (M.shown.image image.old) (from + k)) }
    ensures does { Does D.shown (WritesPart base from count (M.shown.image image.old))
        device.old device.new }
    ensures makes { Makes D.shown 0 count 0 device.old device.new result }
{
    load_piece(image, from, &mut piece[..count]);
    device.write_words(base + from, &piece[..count])
}

/// Writes a range of the image.
fn write_range<D: Device, M: Look>(
    device: &mut D,
    image: &mut M,
    base: u64,
    range: Range,
    piece: &mut [u64; PIECE],
) -> Result<(), Failed>
    requires fits { base + length (M.shown.image image.old) ≤ D.shown.size device.old }
    requires within { range.end ≤ length (M.shown.image image.old) }
    ensures looks { Looks M.shown (range.end - range.start) image.old image.new }
    ensures written { IsTrue D.shown.tells_words →
        OnOk result ((k : ℕ) → range.start ≤ k → k < range.end →
        slice_index (D.shown.words device.new) (base + k)
        ≡ slice_index (M.shown.image image.old) k) }
    ensures does { Does D.shown (WritesPart base range.start (range.end - range.start)
        (M.shown.image image.old))
        device.old device.new }
    ensures makes { Makes D.shown 0 (range.end - range.start) 0 device.old device.new result }
{
    let mut at = range.start;
    while at < range.end {
        let count = (range.end - at).min(PIECE as u64);
        write_piece(device, image, base, at, count as usize, piece)?;
        at += count;
    }
    Ok(())
}

/// Writes the ranges of the image to the region that begins at `base`.
fn write_ranges<D: Device, M: Look>(
    device: &mut D,
    image: &mut M,
    base: u64,
    ranges: &[Range],
) -> Result<(), Failed>
    requires fits { base + length (M.shown.image image.old) ≤ D.shown.size device.old }
    requires within { AreWithin (length (M.shown.image image.old)) ranges.now }
    ensures looks { Looks M.shown (held_count ranges.now) image.old image.new }
    ensures written { IsTrue D.shown.tells_words →
        IsBut ranges.now base (M.shown.image image.old) (D.shown.words device.old) →
        OnOk result (IsBut [] base (M.shown.image image.old) (D.shown.words device.new)) }
    ensures does { Does D.shown (WritesRanges ranges.now base (M.shown.image image.old))
        device.old device.new }
    ensures makes { Makes D.shown 0 (held_count ranges.now) 0 device.old device.new result }
{
    let mut piece = [0; PIECE];
    for range in ranges {
        write_range(device, image, base, *range, &mut piece)?;
    }
    Ok(())
}

/// Writes the ranges of the image to the region that begins at `base`, and makes them certain. It
/// takes no memory: words go to the device by an array on the stack.
pub fn put_ranges<D: Device, M: Look>(
    device: &mut D,
    image: &mut M,
    base: u64,
    ranges: &[Range],
) -> Result<(), Failed>
    requires fits { base + length (M.shown.image image.old) ≤ D.shown.size device.old }
    requires within { AreWithin (length (M.shown.image image.old)) ranges.now }
    ensures written { IsTrue D.shown.tells_words →
        IsBut ranges.now base (M.shown.image image.old) (D.shown.words device.old) →
        OnOk result (IsBut [] base (M.shown.image image.old) (D.shown.words device.new)) }
    ensures certain { OnOk result (IsSynced D.shown device.new) }
    ensures puts { PutsRanges D.shown M.shown ranges.now base
        device.old device.new image.old image.new result }
{
    write_ranges(device, image, base, ranges)?;
    device.sync()
}
