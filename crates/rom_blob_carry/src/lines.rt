//! The lines of the elements of a region.
ghost use Rattle.rom_blob_carry.specs.Lines.{blob_bounds, blob_part_fits, blob_part_is, blobs_at_most, lines_in};

use crate::elements::BlobElements;
use crate::line::{line_len, print_line};
use rom_carry::Written;
use rom_text::{IoFailed, Sink};

impl Written for BlobElements {
    ghost lines = { lines_in };

    // The longest line has 537 bytes, so a part has no more bytes than a script may have.
    ghost bounds = { blob_bounds };

    ghost PART = { 1920 };

    const PART: u64 = 1920;

    fn len(&self) -> u64 {
        self.kept().len() as u64
    }

    fn print_lines<K: Sink>(&self, from: u64, to: u64, out: &mut K) -> Result<(), IoFailed> {
        for index in from..to {
            print_line(out, &self.kept()[index as usize])?;
        }
        Ok(())
    }

    fn lines_len(&self, from: u64, to: u64) -> u64 {
        let mut total = 0;
        for index in from..to {
            total += line_len(&self.kept()[index as usize]);
        }
        total
    }

    ghost part_is = { blob_part_is };

    ghost part_fits = { blob_part_fits };

    ghost at_most = { blobs_at_most };
}
