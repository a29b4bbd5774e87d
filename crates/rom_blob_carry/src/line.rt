//! The line of a key with its bytes.
ghost use Rattle.std.specs.Prelude.{◌≡◌, ◌*◌, ◌≤◌, ◌==◌, if◌then◌else◌, length};
ghost use Rattle.std.specs.List.{flat_map};
ghost use Rattle.rom_text.specs.Streams.{Prints};
ghost use Rattle.rom_text.specs.Text.{line_text};
ghost use Rattle.rom_blob_region.specs.Texts.{bytes_text, digits_of};
ghost use Rattle.rom_blob_carry.specs.Elements.{entry_of};
ghost use Rattle.rom_blob_carry.specs.Lines.{set_line};

use crate::elements::Kept;
use itoa::Buffer;
use rom_text::{IoFailed, Sink, print_bytes, print_pieces, print_text};

/// Writes bytes in their digits, the one for the higher four bits first.
fn write_digits(bytes: &[u8], digits: &mut [u8])
    requires room { length digits.old ≡ 2 * length bytes.now }
    ensures { digits.new ≡ flat_map digits_of bytes.now }
{
    match hex::encode_to_slice(bytes, digits) {
        Ok(()) => (),
        Err(_) => unreachable!(),
    }
}

/// Prints bytes in their digits, or a dash where there are none.
fn print_digits<K: Sink>(out: &mut K, bytes: &[u8]) -> Result<(), IoFailed>
    requires few { length bytes.now ≤ 256 }
    ensures prints { Prints K.shown out.old out.new result (bytes_text bytes.now) }
{
    let len = bytes.len();
    if len == 0 {
        return print_text(out, "-");
    }
    let mut digits = [0; 512];
    write_digits(bytes, &mut digits[..2 * len]);
    print_bytes(out, &digits[..2 * len])
}

/// Prints the line that gives a key its bytes.
pub fn print_line<K: Sink>(out: &mut K, kept: &Kept) -> Result<(), IoFailed>
    ensures prints { Prints K.shown out.old out.new result
        (line_text (set_line (entry_of kept.now))) }
{
    print_pieces(out, &["set ", Buffer::new().format(kept.key()), " "])?;
    print_digits(out, kept.bytes())?;
    print_text(out, "\n")
}

/// How many bytes so many bytes are written in.
fn digits_len(len: u64) -> u64
    requires few { len ≤ 256 }
    ensures is { result ≡ if len == 0 then 1 else 2 * len }
    ensures most { result ≤ 512 }
{
    if len == 0 { 1 } else { 2 * len }
}

/// How many bytes that line has, with its LF.
pub fn line_len(kept: &Kept) -> u64
    ensures len { result ≡ length (line_text (set_line (entry_of kept.now))) }
    ensures most { result ≤ 538 }
{
    let key = Buffer::new().format(kept.key()).len() as u64;
    6 + key + digits_len(kept.bytes().len() as u64)
}
