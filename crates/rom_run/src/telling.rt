//! One line that is printed, whatever becomes of it.
ghost use Rattle.std.specs.Prelude.{◌≡◌};
ghost use Rattle.std.specs.List.{flat_map};
ghost use Rattle.rom_text.specs.Runs.{IsLineWrittenOrCutShort};
ghost use Rattle.rom_text.specs.Streams.{Prints};
ghost use Rattle.rom_text.specs.Text.{line_text};

use rom_text::{IoFailed, Sink, print_pieces, print_text};

fn print_line<O: Sink>(out: &mut O, pieces: &[&str]) -> Result<(), IoFailed>
    ensures prints { Prints O.shown out.old out.new result
        (line_text (flat_map (λ piece. piece.now) pieces.now)) }
{
    print_pieces(out, pieces)?;
    print_text(out, "\n")
}

/// Prints the line of these pieces. A sink that fails may have taken some of it.
pub fn tell<O: Sink>(out: &mut O, pieces: &[&str])
    ensures told { IsLineWrittenOrCutShort O.shown out.old out.new (flat_map (λ piece. piece.now) pieces.now) }
    ensures rest { O.shown.rest out.new ≡ O.shown.rest out.old }
{
    let _ = print_line(out, pieces);
}
