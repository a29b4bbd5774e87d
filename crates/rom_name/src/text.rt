//! The lines that tell of a stream that is refused, and of a copy that is made a primary.
ghost use Rattle.std.specs.Prelude.{◌≡◌, ◌++◌, codes, decimal};
ghost use Rattle.rom_text.specs.Streams.{Prints};
ghost use Rattle.rom_text.specs.Text.{line_text};
ghost use Rattle.rom_name.specs.Texts.{adopted_text, epoch_text, identity_text, name_text, named_text, refusal_text};

use crate::adoption::Adopted;
use crate::count::Own;
use crate::identity::Identity;
use crate::meeting::Refusal;
use byteorder::{BigEndian, ByteOrder};
use itoa::Buffer;
use rom_frame::HeapName;
use rom_text::{IoFailed, Report, Sink, print_bytes, print_gathered, print_pieces, print_text};

/// The status of a program whose stream is refused.
pub const REFUSED: u8 = 3;

/// The digits of a name.
fn digits_of(name: HeapName) -> [u8; 32]
    ensures { result ≡ name_text name }
{
    let mut bytes = [0; 16];
    BigEndian::write_u64_into(&[name.high, name.low], &mut bytes);
    let mut digits = [0; 32];
    match hex::encode_to_slice(&bytes[..], &mut digits) {
        Ok(()) => digits,
        Err(_) => unreachable!(),
    }
}

// Prints a text and a name behind it.
fn print_named<O: Sink>(out: &mut O, before: &str, name: HeapName) -> Result<(), IoFailed>
    ensures prints { Prints O.shown out.old out.new result (before.now ++ name_text name) }
{
    print_text(out, before)?;
    print_bytes(out, &digits_of(name))
}

// Prints a text, a number, a text and a number as a line.
fn print_two<O: Sink>(
    out: &mut O,
    before: &str,
    first: u64,
    between: &str,
    second: u64,
) -> Result<(), IoFailed>
    ensures prints { Prints O.shown out.old out.new result
        (line_text (before.now ++ decimal first ++ between.now ++ decimal second)) }
{
    let mut of_first = Buffer::new();
    let mut of_second = Buffer::new();
    let first = of_first.format(first);
    let second = of_second.format(second);
    print_pieces(out, &[before, first, between, second, "\n"])
}

// Prints a text and a number as a line.
fn print_one<O: Sink>(out: &mut O, before: &str, number: u64) -> Result<(), IoFailed>
    ensures prints { Prints O.shown out.old out.new result
        (line_text (before.now ++ decimal number)) }
{
    print_pieces(out, &[before, Buffer::new().format(number), "\n"])
}

// Prints that the stream is of another heap.
fn print_other<O: Sink>(out: &mut O, name: HeapName) -> Result<(), IoFailed>
    ensures prints { Prints O.shown out.old out.new result
        (line_text (codes "refused: another heap " ++ name_text name)) }
{
    print_named(out, "refused: another heap ", name)?;
    print_text(out, "\n")
}

// Prints the line of a refusal.
fn print_line<O: Sink>(out: &mut O, refusal: &Refusal) -> Result<(), IoFailed>
    ensures prints { Prints O.shown out.old out.new result (refusal_text refusal.now) }
{
    match *refusal {
        Refusal::NoName => print_text(out, "refused: no name\n"),
        Refusal::OtherName(name) => print_other(out, name),
        Refusal::OlderEpoch { epoch, have } => {
            print_two(out, "refused: epoch ", epoch, " is older than ", have)
        }
        Refusal::SkippedEpoch { epoch, have } => {
            print_two(
                out,
                "refused: epoch ",
                epoch,
                " is more than one after ",
                have,
            )
        }
        Refusal::Parted { since, done } => {
            print_two(out, "refused: parted at ", since, ", count ", done)
        }
        Refusal::Gap(place) => print_one(out, "refused: lacks ", place),
        Refusal::Nameless => print_text(out, "refused: nameless stream\n"),
    }
}

// Prints the line of an adoption.
fn print_adoption<O: Sink>(out: &mut O, adopted: &Adopted) -> Result<(), IoFailed>
    ensures prints { Prints O.shown out.old out.new result (adopted_text adopted.now) }
{
    print_named(out, "adopted ", adopted.name)?;
    print_two(out, " epoch ", adopted.epoch, " at ", adopted.count)
}

// Prints the line of the identity of a heap that has a name.
fn print_with_name<O: Sink>(out: &mut O, identity: &Identity) -> Result<(), IoFailed>
    ensures prints { Prints O.shown out.old out.new result (named_text identity.now) }
{
    print_named(out, "name ", identity.name)?;
    print_two(out, " epoch ", identity.epoch, " since ", identity.since)
}

// Prints the line of an identity.
fn print_whose<O: Sink>(out: &mut O, identity: &Identity) -> Result<(), IoFailed>
    ensures prints { Prints O.shown out.old out.new result (identity_text identity.now) }
{
    if identity.name.high == 0 {
        return print_text(out, "no name\n");
    }
    print_with_name(out, identity)
}

impl Report for Identity {
    ghost use Rattle.rom_name.specs.Texts.{identity_text};

    ghost shown = { record {
      text = λ identity. identity_text identity;
      Fits = λ _. Unit {0};
    } };

    fn print<O: Sink>(&self, out: &mut O) -> Result<(), IoFailed> {
        print_whose(out, self)
    }
}

impl Report for Refusal {
    ghost use Rattle.rom_name.specs.Texts.{refusal_text};

    ghost shown = { record {
      text = λ refusal. refusal_text refusal;
      Fits = λ _. Unit {0};
    } };

    fn print<O: Sink>(&self, out: &mut O) -> Result<(), IoFailed> {
        print_line(out, self)
    }
}

impl Report for Adopted {
    ghost use Rattle.rom_name.specs.Texts.{adopted_text};

    ghost shown = { record {
      text = λ adopted. adopted_text adopted;
      Fits = λ _. Unit {0};
    } };

    fn print<O: Sink>(&self, out: &mut O) -> Result<(), IoFailed> {
        print_adoption(out, self)
    }
}

/// Prints why a stream is refused. After `IoFailed` the sink has taken some of the line, from its front.
pub fn print_refusal<O: Sink>(out: &mut O, refusal: &Refusal) -> Result<(), IoFailed>
    ensures prints { Prints O.shown out.old out.new result (refusal_text refusal.now) }
{
    print_gathered(out, refusal)
}

/// Prints what a copy that was made a primary begins.
pub fn print_adopted<O: Sink>(out: &mut O, adopted: &Adopted) -> Result<(), IoFailed>
    ensures prints { Prints O.shown out.old out.new result (adopted_text adopted.now) }
{
    print_gathered(out, adopted)
}

/// Prints whose updates a heap holds.
pub fn print_identity<O: Sink>(out: &mut O, own: &Own) -> Result<(), IoFailed>
    ensures prints { Prints O.shown out.old out.new result (identity_text own.now.identity) }
{
    print_gathered(out, &own.identity)
}

/// Prints the epoch of a heap that has a name, in the text format of Prometheus: its type, and the value behind the name.
pub fn print_epoch<O: Sink>(out: &mut O, own: &Own) -> Result<(), IoFailed>
    ensures prints { Prints O.shown out.old out.new result (epoch_text own.now.identity) }
{
    let identity = own.identity;
    print_named(
        out,
        "# TYPE romulus_epoch gauge\nromulus_epoch{name=\"",
        identity.name,
    )?;
    print_one(out, "\"} ", identity.epoch)
}
