//! The lines of a script, and what those of any object ask for.
ghost use Rattle.std.specs.Prelude.{◌≡◌, ◌≢◌, ◌⊎◌, ℕ, ◌-◌, ◌<◌, ◌≤◌, List, [], ◌∷◌, ◌++◌, length, drop, slice_index, slice_range, Err, IfOk, OnOk};
ghost use Rattle.rom_model.specs.declared.line.Step.{Step};
ghost use Rattle.rom_text.specs.declared.read.TheConstants.{MAX_LINES};
ghost use Rattle.rom_text.specs.declared.read.ReadRefused.TheVariants.{Failed, TooLong};
ghost use Rattle.rom_text.specs.Limits.{HasFewLines, HasManyLines};
ghost use Rattle.rom_text.specs.Lines.{AreRead, AsksFor, lines_of};
ghost use Rattle.rom_text.specs.Lines as lines;

use crate::phrase::len_before;
use crate::read::{MAX_LINES, ReadRefused};
use rom_lines::Script;
use rom_model::{Args, Object, Step};
use std::alloc::{AllocError, Global};

/// What a line asks for, where the words of its call stand beside it.
#[derive(Clone, Copy, Debug, PartialEq, Eq)]
pub enum Parsed<Q> {
    Update,
    Ask(Q),
    /// The line is no command; it makes no call.
    Unread,
}

/// How the calls and queries of an object are written.
pub trait Lines<O: Object> {
    /// The line is written as the step is, or as none is.
    ghost Reads: { List ℕ → Step O.Call O.Query → Type 0 };

    /// What a line asks for, which comes without its LF.
    fn read_line(line: &[u8]) -> Step<O::Call, O::Query>
        ensures reads { Reads line.now result };

    /// What a line asks for, as `read_line` does. It makes `words` those of the line's call, where it
    /// asks for one. A script is read by this, so that a language can do without a call of full width.
    fn read_words(line: &[u8], words: &mut Args) -> Parsed<O::Query>
        // What is answered, with the words that then stand in `words`, is a step that the line is read as.
        ensures reads { (step : Step O.Call O.Query)
            × AsksFor O.machine.words_call words.new result step × Reads line.now step }
    {
        match Self::read_line(line) {
            Step::Update(call) => {
                O::put_call_words(&call, words);
                Parsed::Update
            }
            Step::Ask(query) => Parsed::Ask(query),
            Step::Unread => Parsed::Unread,
        }
    }
}

/// The bytes without a CR at their end.
fn without_cr(piece: &[u8]) -> &[u8]
    ensures { result.now ≡ lines.without_cr piece.now }
{
    if piece.last() == Some(&b'\r') {
        &piece[..piece.len() - 1]
    } else {
        piece
    }
}

/// Where the line that begins at `start` ends, without its LF and one CR before it, and where the
/// next one begins. All are indices of `bytes`.
pub fn line_end(bytes: &[u8], start: u64) -> (u64, u64)
    requires { start < length bytes.now }
    // The line that begins at `start` ends at the first number of the result, and the lines behind it begin
    // at the second.
    ensures line { lines_of (drop start bytes.now)
        ≡ slice_range bytes.now start result.0 ∷ lines_of (drop result.1 bytes.now) }
    // The next line begins behind an LF, or at the end of the bytes, and then there is none.
    ensures next { (result.1 ≡ length bytes.now) ⊎ (slice_index bytes.now (result.1 - 1) ≡ 10) }
    ensures order { (start ≤ result.0) × (result.0 ≤ result.1) × (start < result.1) }
    ensures within { result.1 ≤ length bytes.now }
{
    let rest = &bytes[start as usize..];
    let len = len_before(b'\n', rest);
    let line = without_cr(&rest[..len]);
    let next = (len + 1).min(rest.len());
    (start + line.len() as u64, start + next as u64)
}

/// Adds what a line asks for. `words` are those of the line's call on the way, whatever they were.
fn push_line<O: Object, L: Lines<O>>(
    lines: &mut Script<O>,
    line: &[u8],
    words: &mut Args,
) -> Result<(), AllocError>
    ensures added { OnOk result ((step : Step O.Call O.Query) × L.Reads line.now step
        × (lines.new.items ≡ lines.old.items ++ step ∷ [])) }
{
    match L::read_words(line, words) {
        Parsed::Update => lines.push_words(words),
        Parsed::Ask(query) => lines.push_query(query),
        Parsed::Unread => lines.push_unread(),
    }
}

/// What the lines of some bytes ask for, unless they are too many for a script.
pub fn lines_in<O: Object, L: Lines<O>>(
    alloc: Global,
    bytes: &[u8],
) -> Result<Script<O>, ReadRefused>
    // After `Ok` each step is what its line asks for, in order.
    ensures read { IfOk result (λ lines. AreRead L.Reads (lines_of bytes.now) lines.items) }
    ensures few { IfOk result (λ lines. length lines.items ≤ MAX_LINES) }
    ensures fits { OnOk result (HasFewLines bytes.now) }
    ensures too_long { result ≡ Err TooLong → HasManyLines bytes.now }
    ensures unfailed { result ≢ Err Failed }
{
    // Hardly a line has fewer than four bytes, so no line moves as others come. The words of a script of short
    // numbers may move once.
    let many = MAX_LINES.min(bytes.len() / 4);
    let mut lines = Script::with_capacity(alloc, many, many)?;
    // All lines use the same words: a new list for each would be 328 bytes that are cleared.
    let mut words = Args::new();
    let mut start = 0;
    while start < bytes.len() as u64 {
        // No memory is taken for the first line that is too many.
        if lines.len() == MAX_LINES {
            return Err(ReadRefused::TooLong);
        }
        let (end, next) = line_end(bytes, start);
        let line = &bytes[start as usize..end as usize];
        push_line::<O, L>(&mut lines, line, &mut words)?;
        start = next;
    }
    Ok(lines)
}
