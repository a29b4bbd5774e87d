//! The elements of a region, as they are written in the lines of a script.
ghost use Rattle.rom_rebuild.specs.Carried as carried;
ghost use Rattle.rom_rebuild.specs.Elements.{elements_in};
ghost use Rattle.rom_rebuild.specs.Lines.{element_lines};
ghost use Rattle.rom_rebuild.specs.Laws as laws;

use crate::elements::Elements;
use crate::group::GROUP;
use crate::lines::{lines_len, print_lines};
use rom_carry::Written;
use rom_text::{IoFailed, Sink};

impl Written for Elements {
    ghost lines = { λ elements. element_lines (elements_in elements) };

    ghost bounds = { carried.bounds };

    ghost PART = { 2560 };

    // Parts measured in bytes might be fewer, but where one ends would depend on all lines before it.
    const PART: u64 = 2560;

    fn len(&self) -> u64 {
        self.count().div_ceil(GROUP)
    }

    fn print_lines<K: Sink>(&self, from: u64, to: u64, out: &mut K) -> Result<(), IoFailed> {
        print_lines(out, self, from, to)
    }

    fn lines_len(&self, from: u64, to: u64) -> u64 {
        lines_len(self, from, to)
    }

    ghost part_is = { laws.part_is };

    ghost part_fits = { laws.part_fits };

    ghost at_most = { laws.at_most };
}
