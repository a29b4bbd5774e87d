//! Languages whose commands are short.
ghost use Rattle.std.specs.Prelude.{ℕ, ◌<◌, List, length};
ghost use Rattle.rom_model.specs.declared.line.Step.TheVariants.{Unread};
ghost use Rattle.rom_text.specs.declared.short.TheConstants.{LONGEST};

use crate::lines::Lines;
use rom_model::Object;

/// How many bytes a command has at most, in any language of this kind. Who hears lines as they come need keep no
/// more of one.
pub const LONGEST: u64 = 2048;

/// A language in which a longer line is no command.
pub trait ShortLines<O: Object>: Lines<O> {
    /// It is written as no step is.
    ghost long_unread: { (line : List ℕ) → LONGEST < length line → Self.Reads line Unread };
}
