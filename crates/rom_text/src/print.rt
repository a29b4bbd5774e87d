//! Texts, written piece by piece. Nothing here takes memory. After `IoFailed` the sink has taken
//! some of the text, from its front.
ghost use Rattle.std.specs.Prelude.{◌≡◌, ◌+◌, ◌≤◌, ◌++◌, length, drop, decimal, OnOk};
ghost use Rattle.std.specs.List.{flat_map};
ghost use Rattle.rom_model.specs.declared.call.Updated.TheVariants.{Done};
ghost use Rattle.rom_text.specs.Streams.{Prints};
ghost use Rattle.rom_text.specs.Text.{UpdateFits, read_text, update_text};

use crate::printing::Print;
use crate::streams::{IoFailed, Sink};
use itoa::{Buffer, write_digits};
use rom_model::Updated;

/// Prints bytes.
pub fn print_bytes<O: Sink>(out: &mut O, bytes: &[u8]) -> Result<(), IoFailed>
    ensures prints { Prints O.shown out.old out.new result bytes.now }
{
    let mut at = 0;
    while at < bytes.len() {
        at += out.write(&bytes[at..])? as usize;
    }
    Ok(())
}

/// Prints a text.
pub fn print_text<O: Sink>(out: &mut O, text: &str) -> Result<(), IoFailed>
    ensures prints { Prints O.shown out.old out.new result text.now }
{
    print_bytes(out, text.as_bytes())
}

/// Prints a number in decimal digits.
pub fn print_number<O: Sink>(out: &mut O, n: u128) -> Result<(), IoFailed>
    ensures prints { Prints O.shown out.old out.new result (decimal n) }
{
    print_text(out, Buffer::new().format(n))
}

/// How many bytes `print_between` has at most: twenty are a number's.
const ROOM: usize = 32;

/// Writes a number in decimal digits between two texts to the end of the room, and says where they start.
#[inline(always)]
fn write_between(before: &str, number: u64, behind: &str, room: &mut [u8; ROOM]) -> usize
    requires short { length before.now + length behind.now ≤ 12 }
    ensures within { result ≤ ROOM }
    ensures written { drop result room.new ≡ (before.now ++ decimal number) ++ behind.now }
{
    let end = ROOM - behind.len();
    room[end..].copy_from_slice(behind.as_bytes());
    let digits = write_digits(number, room, end);
    let start = digits - before.len();
    room[start..digits].copy_from_slice(before.as_bytes());
    start
}

/// Prints a number in decimal digits between two short texts. The sink has them in one piece, which costs
/// less than three.
#[inline(always)]
pub(crate) fn print_between<O: Sink>(
    out: &mut O,
    before: &str,
    number: u64,
    behind: &str,
) -> Result<(), IoFailed>
    requires short { length before.now + length behind.now ≤ 12 }
    ensures prints { Prints O.shown out.old out.new result
        ((before.now ++ decimal number) ++ behind.now) }
{
    let mut room = [0; ROOM];
    let start = write_between(before, number, behind, &mut room);
    print_bytes(out, &room[start..])
}

/// Prints texts one after another.
pub fn print_pieces<O: Sink>(out: &mut O, pieces: &[&str]) -> Result<(), IoFailed>
    ensures prints { Prints O.shown out.old out.new result
        (flat_map (λ piece. piece.now) pieces.now) }
{
    for piece in pieces {
        print_text(out, piece)?;
    }
    Ok(())
}

/// Prints what an update was told that was done, and its place.
pub(crate) fn print_done<R: Print, O: Sink>(
    out: &mut O,
    reply: &R,
    place: u64,
) -> Result<(), IoFailed>
    ensures prints { Prints O.shown out.old out.new result
        (update_text R.shown.text (Done reply.now place)) }
    ensures fits { OnOk result (R.shown.Fits reply.now) }
{
    reply.print(out)?;
    print_pieces(out, &[" @", Buffer::new().format(place)])
}

/// Prints what an update was told, with its place where it was done.
pub fn print_update<R: Print, O: Sink>(out: &mut O, updated: &Updated<R>) -> Result<(), IoFailed>
    ensures prints { Prints O.shown out.old out.new result (update_text R.shown.text updated.now) }
    ensures fits { OnOk result (UpdateFits R.shown.Fits updated.now) }
{
    match updated {
        Updated::Done(reply, place) => print_done(out, reply, *place),
        Updated::Spent => print_text(out, "spent"),
        Updated::Failed => print_text(out, "fault"),
        Updated::Doubt => print_text(out, "doubt"),
    }
}

/// Prints what a query was told, with the front that it read.
pub fn print_answer<A: Print, O: Sink>(out: &mut O, answer: &A, front: u64) -> Result<(), IoFailed>
    ensures prints { Prints O.shown out.old out.new result
        (read_text A.shown.text answer.now front) }
    ensures fits { OnOk result (A.shown.Fits answer.now) }
{
    answer.print(out)?;
    print_pieces(out, &[" #", Buffer::new().format(front)])
}
