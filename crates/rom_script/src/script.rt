//! Whole scripts, for whoever compares or shows lines. No program uses them: a run keeps its scripts as
//! `rom_text::read_script` reads them.
ghost use Rattle.std.specs.Prelude.{◌≡◌, ◌≤◌, length, IfOk, IfSome, OnOk, slice_get};
ghost use Rattle.rom_text.specs.declared.read.TheConstants.{MAX_LINES};
ghost use Rattle.rom_text.specs.Limits.{EndsReading, FitsScript};
ghost use Rattle.rom_text.specs.Lines.{AreStepsOf};
ghost use Rattle.rom_script.specs.Lines.{ReadsTrio};
ghost use Rattle.rom_script.specs.Scripts.{script_steps};

use crate::line::{Line, TrioLines};
use rom_heap::Trio;
use rom_lines::Script as Small;
use rom_text::{ReadRefused, Source};
use std::alloc::{AllocError, Global};

/// The lines of a script, in order. A contract sees them as `script_steps` of the script. Each line is as wide as
/// a group, some 280 bytes: a `rom_lines::Script` has the same lines in less.
#[derive(Drop)]
pub struct Script {
    lines: Vec<Line>,
}

impl Script {
    /// How many lines there are.
    pub fn len(&self) -> u64
        ensures { result ≡ length (script_steps self.now) }
    {
        self.lines.len() as u64
    }

    /// The line at an index, counted from 0.
    pub fn at(&self, i: u64) -> Option<Line>
        ensures { result ≡ slice_get (script_steps self.now) i }
    {
        self.lines.get(i as usize).copied()
    }

    /// All lines.
    pub fn lines(&self) -> &[Line]
        ensures { result.now ≡ script_steps self.now }
    {
        &self.lines
    }

    /// All lines, for whoever keeps them.
    pub fn into_lines(self) -> Vec<Line>
        ensures { result.items ≡ script_steps self }
    {
        let Script { lines } = self;
        lines
    }
}

/// The lines of a small script, each with its call.
fn whole_lines(alloc: Global, script: &Small<Trio>) -> Result<Vec<Line>, AllocError>
    ensures { IfOk result (λ lines. lines.items ≡ script.now.items) }
{
    let mut lines = Vec::with_capacity(alloc, script.len())?;
    for i in 0..script.len() {
        lines.push(script.whole(i))?;
    }
    Ok(lines)
}

/// Reads a script to the end of its source. What was taken is lost to the source after an `Err`.
pub fn read_script<S: Source>(alloc: Global, source: &mut S) -> Result<Script, ReadRefused>
    // After `Ok` the lines are those of the bytes that the source had left, where it tells them.
    ensures lines { IfOk result (λ script.
        AreStepsOf ReadsTrio (S.shown.left source.old) (script_steps script)) }
    ensures few { IfOk result (λ script. length (script_steps script) ≤ MAX_LINES) }
    // After `Ok` these bytes are within a script's limits.
    ensures fits { OnOk result (IfSome (S.shown.left source.old) FitsScript) }
    ensures ends { EndsReading S.shown source.old source.new result }
{
    let script = rom_text::read_script::<Trio, TrioLines, S>(alloc, source)?;
    let lines = whole_lines(alloc, &script)?;
    Ok(Script { lines })
}
