//! Replies and answers of any object, and reports of many lines, as they are printed.
ghost use Rattle.std.specs.Prelude.{OnOk};
ghost use Rattle.rom_text.specs.Streams.{Prints};
ghost use Rattle.rom_text.specs.Text.{ShownText};

use crate::streams::{IoFailed, Sink};

/// A reply or an answer, as it is printed. It prints itself, so that what prints results knows no object.
pub trait Print {
    /// What it shows of itself: its text, and that its numbers are of their types.
    ghost shown: { ShownText Self };

    /// Prints it, without a line's end. It takes no memory. After `IoFailed` the sink has taken
    /// some of the text, from its front.
    fn print<O: Sink>(&self, out: &mut O) -> Result<(), IoFailed>
        ensures prints { Prints O.shown out.old out.new result (shown.text self.now) }
        ensures fits { OnOk result (shown.Fits self.now) };
}

/// Lines of text that tell of many values, printed piece by piece.
pub trait Report {
    /// What it shows of itself: its text, and that its numbers are of their types.
    ghost shown: { ShownText Self };

    /// Prints it. It takes no memory. After `IoFailed` the sink has taken some of the text, from its
    /// front.
    fn print<O: Sink>(&self, out: &mut O) -> Result<(), IoFailed>
        ensures prints { Prints O.shown out.old out.new result (shown.text self.now) }
        ensures of_type { OnOk result (shown.Fits self.now) };
}
