//! How many frames of a stream without an end there were, by what became of them.
ghost use Rattle.std.specs.Prelude.{◌≡◌, ◌≤◌, length};
ghost use Rattle.rom_model.specs.History.{LAST_COUNT};
ghost use Rattle.rom_tail.specs.Tallied.{CountsFrames};
ghost use Rattle.rom_tail.specs.declared.few.TheConstants.{MOST};

use rom_frame::Frame;

/// The frames that were taken of a stream before the stop. A number stands still at 2^64 - 1.
#[derive(Clone, Copy, Debug, PartialEq, Eq)]
pub struct Tally {
    /// Their places were the count at their turns.
    pub applied: u64,
    /// Their places were below it.
    pub known: u64,
    /// Their places were above it.
    pub early: u64,
}

impl Tally {
    /// None yet.
    pub fn none() -> Tally
        ensures { result ≡ record { applied = 0; known = 0; early = 0 } }
    {
        Tally {
            applied: 0,
            known: 0,
            early: 0,
        }
    }

    /// Counts frames by their places, from a count on.
    pub fn add(&mut self, count: u64, frames: &[Frame])
        requires few { length frames.now ≤ MOST }
        requires within { count ≤ LAST_COUNT }
        ensures { CountsFrames count frames.now self.old self.new }
    {
        let mut next = count;
        for frame in frames {
            if frame.place < next {
                self.known = self.known.saturating_add(1);
            } else if frame.place > next {
                self.early = self.early.saturating_add(1);
            } else {
                self.applied = self.applied.saturating_add(1);
                next += 1;
            }
        }
    }
}
