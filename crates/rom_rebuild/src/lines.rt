//! The lines of some groups that stand side by side.
ghost use Rattle.std.specs.Prelude.{◌≡◌, ◌≤◌, length};
ghost use Rattle.rom_carry.specs.Scripts.{between, script_of};
ghost use Rattle.rom_rebuild.specs.Elements.{elements_in};
ghost use Rattle.rom_rebuild.specs.Lines.{element_lines};
ghost use Rattle.rom_text.specs.Streams.{Prints};

use crate::elements::Elements;
use crate::group::{group_len, print_group};
use rom_text::{IoFailed, Sink};

/// Prints the lines from that number on up to the other one, counted from 0.
pub fn print_lines<O: Sink>(
    out: &mut O,
    elements: &Elements,
    from: u64,
    to: u64,
) -> Result<(), IoFailed>
    requires order { from ≤ to }
    requires within { to ≤ length (element_lines (elements_in elements.now)) }
    requires few { length (element_lines (elements_in elements.now)) ≤ 7680 }
    ensures prints { Prints O.shown out.old out.new result
        (script_of (between from to (element_lines (elements_in elements.now)))) }
{
    for number in from..to {
        print_group(out, elements, number)?;
    }
    Ok(())
}

/// How many bytes these lines have.
pub fn lines_len(elements: &Elements, from: u64, to: u64) -> u64
    requires order { from ≤ to }
    requires within { to ≤ length (element_lines (elements_in elements.now)) }
    requires few { length (element_lines (elements_in elements.now)) ≤ 7680 }
    ensures len { result
        ≡ length (script_of (between from to (element_lines (elements_in elements.now)))) }
{
    let mut total = 0;
    for number in from..to {
        total += group_len(elements, number);
    }
    total
}
