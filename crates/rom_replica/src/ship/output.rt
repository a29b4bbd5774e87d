//! The frames of a history, as what a program prints.
ghost use Rattle.rom_replica.specs.Shipped.{frames_output};

use crate::ship::updates::print_updates;
use rom_heap::Trio;
use rom_lines::{Results, Script};
use rom_run::Output;
use rom_text::{IoFailed, Sink};

/// The frames of the updates that were done, one behind another from the opening count on.
pub struct HistoryFrames;

impl Output<Trio> for HistoryFrames {
    ghost shown = { frames_output };

    fn print<K: Sink>(
        out: &mut K,
        scripts: &[Script<Trio>],
        results: &[Results<Trio>],
        count: u64,
    ) -> Result<(), IoFailed> {
        print_updates(out, scripts, results, count)
    }
}
