//! Elements that are written in the lines of a script.
ghost use Rattle.std.specs.Prelude.{◌≡◌, ℕ, ◌+◌, ◌*◌, ◌<◌, ◌≤◌, List, length};
ghost use Rattle.rom_text.specs.Streams.{Prints};
ghost use Rattle.rom_carry.specs.Carried.{Bounds};
ghost use Rattle.rom_carry.specs.Scripts.{between, script_of};

use rom_text::{IoFailed, Sink};

/// Elements of a heap, as they are written in the lines of a script.
pub trait Written {
    /// The lines that put them into a heap, without LF.
    ghost lines: { Self → List (List ℕ) };

    /// How long a line is at most, how many lines a part of them has, and how many parts there are at most.
    ghost bounds: { Bounds };

    ghost PART: { ℕ };

    /// How many lines a part of them has at most. A part is within what a script may have.
    const PART: u64;

    /// How many lines there are.
    fn len(&self) -> u64
        requires few { length (lines self.now) ≤ bounds.part * bounds.parts }
        ensures { result ≡ length (lines self.now) };

    /// Prints the lines from that index on up to the other one, each with its LF.
    fn print_lines<K: Sink>(&self, from: u64, to: u64, out: &mut K) -> Result<(), IoFailed>
        requires order { from ≤ to }
        requires within { to ≤ length (lines self.now) }
        requires few { length (lines self.now) ≤ bounds.part * bounds.parts }
        ensures prints { Prints K.shown out.old out.new result
            (script_of (between from to (lines self.now))) };

    /// How many bytes these lines have, with their LFs.
    fn lines_len(&self, from: u64, to: u64) -> u64
        requires order { from ≤ to }
        requires within { to ≤ length (lines self.now) }
        requires few { length (lines self.now) ≤ bounds.part * bounds.parts }
        ensures { result ≡ length (script_of (between from to (lines self.now))) };

    /// The constant is what the bounds say.
    ghost part_is: { bounds.part ≡ PART };

    /// A part is within what a script may have.
    ghost part_fits: { (0 < bounds.part) × (bounds.part * (bounds.longest + 1) ≤ 1048576) × (bounds.part ≤ 131072) };

    /// There are at most 61,440 lines, and 64 parts.
    ghost at_most: { (bounds.part * bounds.parts ≤ 61440) × (bounds.parts ≤ 64) };
}
