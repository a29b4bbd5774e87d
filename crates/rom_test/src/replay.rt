//! Whether a printed text is that of one history, by a replay of it.
//!
//! The replay takes all callers' lines in one order: before the update of each place, the reads of that
//! front. A caller's lines are taken in their own order alone. So it gets to the end of each caller
//! only where every place stands once, each caller's places and fronts rise as its lines do, and
//! every reply and answer is that of a plain model at that point.

use crate::texts::{count_of, number_after};
use std::alloc::{AllocError, Global};

/// The count at which no update is done any more.
const LAST: u64 = 4_611_686_018_427_387_904;

/// What a line asks for.
#[derive(Clone, Copy, Debug, PartialEq, Eq)]
pub enum Asked {
    Update,
    Query,
    /// Nothing: it is no line of the language.
    Unread,
}

/// What a program keeps, in the plainest form. It is told lines that were printed as they should be, and
/// never what was printed of them.
pub trait Replayed {
    /// What a line asks for that is well formed, or names no command.
    fn asked(&self, line: &str) -> Asked;

    /// Does the update that a line asks for, at this place, and gives what is printed of it.
    fn update(&mut self, alloc: Global, line: &str, place: u64) -> Result<String, AllocError>;

    /// What is printed of the query that a line asks for, at this front.
    fn answer(&self, alloc: Global, line: &str, front: u64) -> Result<String, AllocError>;
}

/// A line of a script, what it asks for, and what was printed of it.
#[derive(Clone, Copy)]
struct Line<'a> {
    asked: Asked,
    line: &'a str,
    told: &'a str,
}

/// A caller's lines, and how many are replayed.
#[derive(Drop)]
struct Caller<'a> {
    lines: Vec<Line<'a>>,
    at: usize,
}

impl Line<'_> {
    /// Whether it changes nothing: it is unread, or the count is the last one.
    fn is_idle(&self, front: u64) -> bool {
        match self.asked {
            Asked::Update => front == LAST && self.told == "spent",
            Asked::Query => false,
            Asked::Unread => self.told == "unread",
        }
    }

    /// Whether it is a query of this front.
    fn is_read_at(&self, front: u64) -> bool {
        self.asked == Asked::Query && number_after(self.told, '#') == Some(front)
    }

    /// Whether it is the update of this place.
    fn is_update_at(&self, place: u64) -> bool {
        self.asked == Asked::Update && number_after(self.told, '@') == Some(place)
    }
}

/// Takes a caller's reads of this front, and lines that change nothing. `false` says that an answer is
/// wrong.
fn take_reads<M: Replayed>(
    alloc: Global,
    caller: &mut Caller<'_>,
    model: &M,
    front: u64,
) -> Result<bool, AllocError> {
    for _ in 0..caller.lines.len() {
        let Some(line) = caller.lines.get(caller.at).copied() else {
            return Ok(true);
        };
        if line.is_read_at(front) {
            if model.answer(alloc, line.line, front)?.as_str() != line.told {
                return Ok(false);
            }
        } else if !line.is_idle(front) {
            return Ok(true);
        }
        caller.at = caller.at.saturating_add(1);
    }
    Ok(true)
}

/// Takes the reads of this front of all callers.
fn take_all_reads<M: Replayed>(
    alloc: Global,
    callers: &mut [Caller<'_>],
    model: &M,
    front: u64,
) -> Result<bool, AllocError> {
    for caller in callers.iter_mut() {
        if !take_reads(alloc, caller, model, front)? {
            return Ok(false);
        }
    }
    Ok(true)
}

/// Takes the update of this place, and tells whether there is one and no other, and its reply is right.
fn take_update<M: Replayed>(
    alloc: Global,
    callers: &mut [Caller<'_>],
    model: &mut M,
    place: u64,
) -> Result<bool, AllocError> {
    let mut taken = false;
    for caller in callers.iter_mut() {
        let line = match caller.lines.get(caller.at).copied() {
            Some(line) if line.is_update_at(place) => line,
            _ => continue,
        };
        if taken || model.update(alloc, line.line, place)?.as_str() != line.told {
            return Ok(false);
        }
        caller.at = caller.at.saturating_add(1);
        taken = true;
    }
    Ok(taken)
}

/// A caller of this script, who was told what these texts begin with. `None` says that there is not one
/// for each of its lines.
fn caller_of<'a, M: Replayed>(
    alloc: Global,
    model: &M,
    script: &'a str,
    texts: &[&'a str],
) -> Result<Option<Caller<'a>>, AllocError> {
    let mut lines = Vec::new(alloc);
    for (number, line) in script.lines().enumerate() {
        let Some(told) = texts.get(number).copied() else {
            return Ok(None);
        };
        let asked = model.asked(line);
        lines.push(Line { asked, line, told })?;
    }
    Ok(Some(Caller { lines, at: 0 }))
}

/// The callers of these scripts, with their parts of a text. `None` says that the text has other parts.
fn callers_of<'a, M: Replayed>(
    alloc: Global,
    model: &M,
    scripts: &[&'a str],
    text: &'a str,
) -> Result<Option<Vec<Caller<'a>>>, AllocError> {
    let texts: Vec<&str> = text.lines().collect(alloc)?;
    let mut callers = Vec::new(alloc);
    let mut at = 0usize;
    for (number, script) in scripts.iter().enumerate() {
        let head = format!(in alloc; "caller {}", number.saturating_add(1))?;
        if texts.get(at).copied() != Some(head.as_str()) {
            return Ok(None);
        }
        let begin = at.saturating_add(1);
        let own = texts.get(begin..).unwrap_or(&[]);
        let Some(caller) = caller_of(alloc, model, script, own)? else {
            return Ok(None);
        };
        at = begin.saturating_add(caller.lines.len());
        callers.push(caller)?;
    }
    // The line of the count alone is left.
    Ok(Some(callers).filter(|_| at.saturating_add(1) == texts.len()))
}

/// Whether a text of these scripts is that of one history, from what the model holds and this count on. The
/// model holds then what the history leaves.
pub fn is_lawful<M: Replayed>(
    alloc: Global,
    model: &mut M,
    from: u64,
    scripts: &[&str],
    text: &str,
) -> Result<bool, AllocError> {
    let Some(mut callers) = callers_of(alloc, model, scripts, text)? else {
        return Ok(false);
    };
    let Some(count) = count_of(text) else {
        return Ok(false);
    };
    for place in from..count {
        if !take_all_reads(alloc, &mut callers, model, place)?
            || !take_update(alloc, &mut callers, model, place)?
        {
            return Ok(false);
        }
    }
    let right = take_all_reads(alloc, &mut callers, model, count)?;
    let end = format!(in alloc; "\ncount {count}\n")?;
    let all = callers.iter().all(|caller| caller.at == caller.lines.len());
    Ok(right && all && text.ends_with(end.as_str()))
}
