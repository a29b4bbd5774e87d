//! Why a heap is not taken.
ghost use Rattle.std.specs.Prelude.{◌≡◌};
ghost use Rattle.rom_copy.specs.declared.untaken.Untaken.TheVariants.{Refused};
ghost use Rattle.rom_open.specs.declared.reasons.Why.TheVariants as why;

use rom_device::Failed;
use rom_open::Why;

/// Why the heap that a device holds is not taken.
#[derive(Clone, Copy, Debug, PartialEq, Eq)]
pub enum Untaken {
    /// It is refused as by an opening, but nothing is recovered.
    Refused(Why),
    /// The state is COPYING, and back is not what main is. Whether COPYING is certain is not told, so a copy might
    /// be ahead of its source. An opening finishes the batch.
    Unfinished,
}

impl From<Why> for Untaken {
    ghost from_gives = { λ why e. e ≡ Refused why };

    fn from(why: Why) -> Self {
        Untaken::Refused(why)
    }
}

impl From<Failed> for Untaken {
    ghost from_gives = { λ _ e. e ≡ Refused why.Device };

    fn from(_: Failed) -> Self {
        Untaken::Refused(Why::Device)
    }
}
