//! The line of an entry.
ghost use Rattle.std.specs.Prelude.{◌≡◌, ◌≤◌, decimal, length};
ghost use Rattle.rom_text.specs.Streams.{Prints};
ghost use Rattle.rom_text.specs.Text.{line_text};
ghost use Rattle.rom_order_carry.specs.Entries.{entry_line};

use itoa::Buffer;
use rom_text::{IoFailed, Sink, print_pieces};

/// Prints the line of an entry, with its LF.
pub fn print_line<K: Sink>(out: &mut K, entry: (u64, u64)) -> Result<(), IoFailed>
    ensures prints { Prints K.shown out.old out.new result (line_text (entry_line entry)) }
{
    let mut of_key = Buffer::new();
    let mut of_value = Buffer::new();
    let key = of_key.format(entry.0);
    let value = of_value.format(entry.1);
    print_pieces(out, &["put ", key, " ", value, "\n"])
}

/// How many digits a number has.
fn digits(number: u64) -> u64
    ensures digits { result ≡ length (decimal number) }
    ensures most { result ≤ 20 }
{
    Buffer::new().format(number).len() as u64
}

/// How many bytes the line of an entry has, with its LF.
pub fn line_len(entry: (u64, u64)) -> u64
    ensures len { result ≡ length (line_text (entry_line entry)) }
    ensures most { result ≤ 46 }
{
    6 + digits(entry.0) + digits(entry.1)
}
