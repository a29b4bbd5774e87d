//! The texts of what calls and queries are told. They stand here since an `impl` stands with its trait
//! or with its type.
ghost use Rattle.std.specs.Prelude.{◌≡◌, ◌*◌, length, OnOk};
ghost use Rattle.std.specs.List.{flat_map};
ghost use Rattle.rom_text.specs.Streams.{Prints};
ghost use Rattle.rom_blob_region.specs.Texts.{AreBytes, bytes_text, digits_of, shown_blob_answer, shown_blob_reply};

use crate::bytes::Chunk;
use crate::call::{BlobAnswer, BlobReply};
use itoa::Buffer;
use rom_text::{IoFailed, Print, Sink, print_pieces, print_text};

/// Writes bytes in their digits, the one for the higher four bits first.
fn write_digits(bytes: &[u8], digits: &mut [u8])
    requires room { length digits.old ≡ 2 * length bytes.now }
    ensures { digits.new ≡ flat_map digits_of bytes.now }
{
    // All at once: digit by digit, each one would be printed by itself. `hex` is a library, and proved; a
    // loop of our own that reckons each digit might take fewer instructions.
    match hex::encode_to_slice(bytes, digits) {
        Ok(()) => (),
        Err(_) => unreachable!(),
    }
}

/// Prints bytes in their digits, or a dash where there are none.
fn print_bytes<O: Sink>(out: &mut O, bytes: &Chunk) -> Result<(), IoFailed>
    ensures prints { Prints O.shown out.old out.new result (bytes_text bytes.now) }
    ensures fits { OnOk result (AreBytes bytes.now) }
{
    let len = bytes.len() as usize;
    if len == 0 {
        return print_text(out, "-");
    }
    let padded = bytes.padded();
    let mut digits = [0; 512];
    write_digits(&padded[..len], &mut digits[..2 * len]);
    rom_text::print_bytes(out, &digits[..2 * len])
}

impl Print for BlobReply {
    ghost shown = { shown_blob_reply };

    fn print<O: Sink>(&self, out: &mut O) -> Result<(), IoFailed> {
        match self {
            BlobReply::New => print_text(out, "new"),
            BlobReply::Was(len) => print_pieces(out, &["was ", Buffer::new().format(*len)]),
            BlobReply::Full => print_text(out, "full"),
            BlobReply::NoPrior => print_text(out, "none"),
        }
    }
}

impl Print for BlobAnswer {
    ghost shown = { shown_blob_answer };

    fn print<O: Sink>(&self, out: &mut O) -> Result<(), IoFailed> {
        match self {
            BlobAnswer::Bytes(bytes) => {
                print_text(out, "bytes ")?;
                print_bytes(out, bytes)
            }
            BlobAnswer::Missing => print_text(out, "none"),
            BlobAnswer::Keys(count) => print_pieces(out, &["keys ", Buffer::new().format(*count)]),
        }
    }
}
