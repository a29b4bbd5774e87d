//! A part of the lines of a script.
ghost use Rattle.std.specs.Prelude.{◌*◌, ◌≤◌, length};

use crate::written::Written;
use rom_text::{IoFailed, MAX_BYTES, Report, Sink};

/// Some of the lines of a script, in order.
#[derive(Drop)]
pub struct Part<'a, E: Written> {
    elements: &'a E,
    // The first of them, and the first behind them.
    from: u64,
    to: u64,
    ghost order: { from ≤ to },
    ghost within: { to ≤ length (E.lines elements.now) },
    ghost few: { length (E.lines elements.now) ≤ E.bounds.part * E.bounds.parts },
}

impl<'a, E: Written> Part<'a, E> {
    ghost use Rattle.std.specs.Prelude.{◌≡◌, ◌+◌, ◌<◌, ℕ, IsTrue};
    ghost use Rattle.std.specs.Bool.{MatchBool};
    ghost use Rattle.rom_carry.specs.Parts.{AreTooManyBytes, lines_in};
    ghost use Rattle.rom_carry.specs.Scripts.{part_of, parts_needed, script_of};
    ghost use Rattle.rom_text.specs.Limits.{IsWithinLimit};

    /// All lines of a script.
    pub fn whole(elements: &'a E) -> Part<'a, E>
        requires { length (E.lines elements.now) ≤ E.bounds.part * E.bounds.parts }
        ensures lines { lines_in result ≡ E.lines elements.now }
    {
        Part {
            elements,
            from: 0,
            to: elements.len(),
        }
    }

    /// The lines of a part of it, counted from 1. Those behind the last one have none.
    pub fn of(elements: &'a E, part: u64) -> Part<'a, E>
        requires few { length (E.lines elements.now) ≤ E.bounds.part * E.bounds.parts }
        requires least { 1 ≤ part }
        requires most { part ≤ 64 }
        ensures { lines_in result ≡ part_of E.bounds.part part (E.lines elements.now) }
    {
        let len = elements.len();
        let from = ((part - 1) * E::PART).min(len);
        let to = (from + E::PART).min(len);
        Part { elements, from, to }
    }

    /// Whether a script may have as many bytes.
    pub fn fits(&self) -> bool
        // `true` comes exactly where the script of these lines has no more bytes than a script may have.
        ensures { MatchBool result (IsWithinLimit (script_of (lines_in self.now)))
            (AreTooManyBytes (script_of (lines_in self.now))) }
    {
        self.elements.lines_len(self.from, self.to) <= MAX_BYTES as u64
    }

    /// How many parts these lines have, where they are a whole script.
    pub fn parts(&self) -> u64
        ensures { result ≡ parts_needed E.bounds.part (lines_in self.now) }
    {
        (self.to - self.from).div_ceil(E::PART)
    }
}

impl<E: Written> Report for Part<'_, E> {
    ghost use Rattle.rom_carry.specs.Parts.{lines_in};
    ghost use Rattle.rom_carry.specs.Scripts.{script_of};

    ghost shown = { record {
      text = λ part. script_of (lines_in part);
      Fits = λ _. Unit {0};
    } };

    fn print<K: Sink>(&self, out: &mut K) -> Result<(), IoFailed> {
        self.elements.print_lines(self.from, self.to, out)
    }
}
