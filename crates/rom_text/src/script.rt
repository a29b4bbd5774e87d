//! Whole scripts: what their lines ask for, in order.
ghost use Rattle.std.specs.Prelude.{◌≤◌, length, IfOk, IfSome, OnOk};
ghost use Rattle.rom_text.specs.declared.read.TheConstants.{MAX_LINES};
ghost use Rattle.rom_text.specs.Limits.{EndsReading, FitsScript};
ghost use Rattle.rom_text.specs.Lines.{AreStepsOf};

use crate::lines::{Lines, lines_in};
use crate::read::{ReadRefused, read_bytes};
use crate::streams::Source;
use rom_lines::Script;
use rom_model::Object;
use std::alloc::Global;

/// Reads a script to the end of its source, and then its lines: so too many bytes are noticed before too
/// many lines. What was taken is lost to the source after an `Err`.
pub fn read_script<O: Object, L: Lines<O>, S: Source>(
    alloc: Global,
    source: &mut S,
) -> Result<Script<O>, ReadRefused>
    // After `Ok`, where the source tells its bytes: each step is what its line asks for, in order.
    ensures lines { IfOk result (λ lines.
        AreStepsOf L.Reads (S.shown.left source.old) lines.items) }
    ensures few { IfOk result (λ lines. length lines.items ≤ MAX_LINES) }
    ensures fits { OnOk result (IfSome (S.shown.left source.old) FitsScript) }
    // After `Ok` the source has come to its end. `Failed` and `TooLong` come only for their cause. At most
    // one byte too many is taken, and no read follows one that gave none.
    ensures ends { EndsReading S.shown source.old source.new result }
{
    let bytes = read_bytes(alloc, source)?;
    let lines = lines_in::<O, L>(alloc, &bytes)?;
    Ok(lines)
}
