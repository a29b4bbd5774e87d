//! The two lines that tell of a stream that was followed.
ghost use Rattle.std.specs.Prelude.{◌≡◌};
ghost use Rattle.rom_text.specs.Streams.{Prints};
ghost use Rattle.rom_replica.specs.Following.{counts_text, follow_text};

use crate::tally::Tally;
use itoa::Buffer;
use rom_text::{IoFailed, Report, Sink, print_gathered, print_pieces};

/// How many frames were applied, known and early, and the count of updates behind them.
#[derive(Clone, Copy, Debug, PartialEq, Eq)]
pub struct Counts {
    pub applied: u64,
    pub known: u64,
    pub early: u64,
    pub count: u64,
}

fn print_lines<O: Sink>(out: &mut O, counts: &Counts) -> Result<(), IoFailed>
    ensures prints { Prints O.shown out.old out.new result
        (counts_text counts.now.applied counts.now.known counts.now.early counts.now.count) }
{
    let mut of_applied = Buffer::new();
    let mut of_known = Buffer::new();
    let mut of_early = Buffer::new();
    let mut of_count = Buffer::new();
    let applied = of_applied.format(counts.applied);
    let known = of_known.format(counts.known);
    let early = of_early.format(counts.early);
    let count = of_count.format(counts.count);
    print_pieces(
        out,
        &[
            "applied ", applied, " known ", known, " early ", early, "\n", "count ", count, "\n",
        ],
    )
}

impl Report for Counts {
    ghost use Rattle.rom_replica.specs.Following.{counts_text};

    ghost shown = { record {
      text = λ c. counts_text c.applied c.known c.early c.count;
      Fits = λ _. Unit {0};
    } };

    fn print<O: Sink>(&self, out: &mut O) -> Result<(), IoFailed> {
        print_lines(out, self)
    }
}

/// Prints the two lines. After `IoFailed` the sink has taken some of them, from the front.
pub fn print_counts<O: Sink>(out: &mut O, counts: Counts) -> Result<(), IoFailed>
    // The text is that of the four numbers.
    ensures prints { Prints O.shown out.old out.new result
        (counts_text counts.applied counts.known counts.early counts.count) }
{
    print_gathered(out, &counts)
}

/// So of a tally.
pub(crate) fn print_followed<O: Sink>(out: &mut O, tally: Tally, count: u64) -> Result<(), IoFailed>
    ensures prints { Prints O.shown out.old out.new result
        (follow_text tally count) }
{
    print_counts(
        out,
        Counts {
            applied: tally.applied,
            known: tally.known,
            early: tally.early,
            count,
        },
    )
}
