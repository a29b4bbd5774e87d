//! Copies of words on a device.
ghost use Rattle.std.specs.Prelude.{◌≡◌, ◌⊎◌, ◌+◌, ◌≤◌, OnOk, IsTrue, length};
ghost use Rattle.rom_device.specs.Device.{AreRenewed, Does, Makes};
ghost use Rattle.rom_recover.specs.Copied.{Copied, CopiesSome};
ghost use Rattle.rom_recover.specs.Image.{IsEmptyOrFull, IsReadFrom};

use crate::keep::keep;
use crate::piece::PIECE;
use rom_device::{Device, Failed};

/// Copies so many words, all of which are read before the first is written. Where one cannot be
/// read none is written.
fn copy_piece<D: Device>(
    device: &mut D,
    from: u64,
    to: u64,
    count: usize,
    words: &mut [u64; PIECE],
) -> Result<(), Failed>
    requires from_fits { from + count ≤ D.shown.size device.old }
    requires to_fits { to + count ≤ D.shown.size device.old }
    requires room { count ≤ 64 }
    ensures read { IsTrue D.shown.tells_words →
        OnOk result (IsReadFrom from count (D.shown.words device.old) words.new) }
    ensures copied { IsTrue D.shown.tells_words →
        OnOk result (Copied from to count (D.shown.words device.old) (D.shown.words device.new)) }
    ensures does { Does D.shown (CopiesSome (D.shown.words device.old) from to count)
        device.old device.new }
    ensures renews { OnOk result (AreRenewed D.shown to count device.new) }
    ensures makes { Makes D.shown count count 0 device.old device.new result }
{
    if device.read_words(from, &mut words[..count]) < count {
        return Err(Failed);
    }
    device.write_words(to, &words[..count])
}

/// Copies so many words from one place to another that does not overlap it, and keeps them in the
/// image where that has words.
pub fn copy_words<D: Device>(
    device: &mut D,
    from: u64,
    to: u64,
    len: u64,
    image: &mut [u64],
) -> Result<(), Failed>
    requires from_fits { from + len ≤ D.shown.size device.old }
    requires to_fits { to + len ≤ D.shown.size device.old }
    requires apart { (from + len ≤ to) ⊎ (to + len ≤ from) }
    requires room { IsEmptyOrFull len image.old }
    ensures as_long { length image.new ≡ length image.old }
    ensures kept { IsTrue D.shown.tells_words →
        OnOk result (IsReadFrom from len (D.shown.words device.old) image.new) }
    ensures copied { IsTrue D.shown.tells_words →
        OnOk result (Copied from to len (D.shown.words device.old) (D.shown.words device.new)) }
    ensures does { Does D.shown (CopiesSome (D.shown.words device.old) from to len)
        device.old device.new }
    ensures renews { OnOk result (AreRenewed D.shown to len device.new) }
    ensures makes { Makes D.shown len len 0 device.old device.new result }
{
    let mut words = [0; PIECE];
    let mut done = 0;
    while done < len {
        let count = (len - done).min(PIECE as u64);
        copy_piece(device, from + done, to + done, count as usize, &mut words)?;
        keep(image, done, &words[..count as usize]);
        done += count;
    }
    Ok(())
}
