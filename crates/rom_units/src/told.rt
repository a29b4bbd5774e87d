//! Scripts and results that are kept small, by what their lines ask for and were told.
ghost use Rattle.std.specs.Prelude.{◌≡◌, ◌+◌, ◌<◌, ◌≤◌, length, IfOk};
ghost use Rattle.rom_lines.specs.Replies.{TookRoom};

use rom_heap::Trio;
use rom_lines::{Became, Results, Script, Undone};
use rom_model::{Answer, Back, LineResult, Object, Reply, Updated};
use rom_script::Line;
use std::alloc::{AllocError, Global};

/// What a line is told.
pub(crate) type Told = LineResult<Reply, Answer>;

/// The script of these lines.
pub(crate) fn script_of(alloc: Global, lines: &[Line]) -> Result<Script<Trio>, AllocError>
    ensures { IfOk result (λ script. script.items ≡ lines.now) }
{
    let mut script = Script::new(alloc);
    for line in lines {
        script.push_step(line)?;
    }
    Ok(script)
}

/// Adds what a line was told.
fn push_told(results: &mut Results<Trio>, told: &Told)
    requires line { 0 < results.old.lines }
    requires room { 20 ≤ results.old.words }
    ensures room { TookRoom results.old results.new 20 }
    ensures many { length results.new.items ≡ length results.old.items + 1 }
{
    let updated = match told {
        LineResult::Unread => return results.push_unread(),
        LineResult::Read(answer, front) => return results.push_read(*answer, *front),
        LineResult::Update(updated) => updated,
    };
    match updated {
        Updated::Done(reply, place) => {
            results.push_update(Became::Done(*place), &Trio::reply_words(reply))
        }
        Updated::Spent => results.push_update(Became::Undone(Undone::Spent), &Back::new()),
        Updated::Failed => results.push_update(Became::Undone(Undone::Failed), &Back::new()),
        Updated::Doubt => results.push_update(Became::Undone(Undone::Doubt), &Back::new()),
    }
}

/// The results of lines that were told so.
pub(crate) fn results_of(alloc: Global, told: &[Told]) -> Result<Results<Trio>, AllocError>
    ensures { IfOk result (λ results. length results.items ≡ length told.now) }
{
    let Some(words) = told.len().checked_mul(20) else {
        return Err(AllocError);
    };
    let mut results = Results::with_room(alloc, told.len(), words)?;
    for line in told {
        push_told(&mut results, line);
    }
    Ok(results)
}
