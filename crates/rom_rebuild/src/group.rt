//! The line of a group of elements.
ghost use Rattle.std.specs.Prelude.{◌≡◌, ◌+◌, ◌*◌, ◌^◌, ◌<◌, ◌≤◌, length};
ghost use Rattle.std.specs.List.{flat_map};
ghost use Rattle.rom_rebuild.specs.Elements.{elements_in};
ghost use Rattle.rom_rebuild.specs.Lines.{behind_text, front_of, group_at, group_line, span};
ghost use Rattle.rom_text.specs.Streams.{Prints};
ghost use Rattle.rom_text.specs.Text.{line_text};

use crate::elements::Elements;
use crate::line::{element_len, print_element};
use rom_text::{IoFailed, Sink, print_text};

/// How many elements a line has. The last line has those that are left.
pub const GROUP: u64 = 8;

/// What stands before the first of so many elements in a line.
fn front(many: u64) -> &'static str
    ensures is { result.now ≡ front_of many }
    ensures most { length result.now ≤ 3 }
{
    if many == 1 { "" } else { "tx " }
}

/// Prints the elements from that index on up to the other one, each behind another one.
fn print_behind<O: Sink>(
    out: &mut O,
    elements: &Elements,
    from: u64,
    to: u64,
) -> Result<(), IoFailed>
    requires order { from ≤ to }
    requires within { to ≤ length (elements_in elements.now) }
    ensures prints { Prints O.shown out.old out.new result
        (flat_map behind_text (span from to (elements_in elements.now))) }
{
    for index in from..to {
        print_element(out, " ; ", elements.at(index))?;
    }
    Ok(())
}

/// How many bytes these have.
fn behind_len(elements: &Elements, from: u64, to: u64) -> u64
    requires order { from ≤ to }
    requires within { to ≤ length (elements_in elements.now) }
    requires few { to ≤ from + 7 }
    ensures len { result ≡ length (flat_map behind_text (span from to (elements_in elements.now))) }
    ensures most { result ≤ 48 * 7 }
{
    let mut total = 0;
    for index in from..to {
        total += 3 + element_len(elements.at(index));
    }
    total
}

/// Prints the line of the group of that number, counted from 0, with its LF.
pub fn print_group<O: Sink>(out: &mut O, elements: &Elements, number: u64) -> Result<(), IoFailed>
    requires within { number * 8 < length (elements_in elements.now) }
    requires few { length (elements_in elements.now) ≤ 61440 }
    ensures prints { Prints O.shown out.old out.new result
        (line_text (group_line (group_at number (elements_in elements.now)))) }
{
    let from = number * GROUP;
    let to = (from + GROUP).min(elements.count());
    print_element(out, front(to - from), elements.at(from))?;
    print_behind(out, elements, from + 1, to)?;
    print_text(out, "\n")
}

/// How many bytes it has.
pub fn group_len(elements: &Elements, number: u64) -> u64
    requires within { number * 8 < length (elements_in elements.now) }
    requires few { length (elements_in elements.now) ≤ 61440 }
    ensures len { result ≡ length (line_text (group_line (group_at number (elements_in elements.now)))) }
    ensures most { result ≤ 385 }
{
    let from = number * GROUP;
    let to = (from + GROUP).min(elements.count());
    let front = front(to - from).len() as u64;
    let first = element_len(elements.at(from));
    let behind = behind_len(elements, from + 1, to);
    front + first + behind + 1
}
