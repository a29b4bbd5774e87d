//! Why a device is not opened.

use rom_header::HeaderRefused;
use rom_model::Rule;
use rom_recover::RecoverRefused;
use std::alloc::AllocError;

/// Why a device was not opened. First the header is tested, which refuses by the first five; then the
/// regions; then the region that counts.
#[derive(Clone, Copy, Debug, PartialEq, Eq)]
pub enum Why {
    /// Word 0 is not the magic.
    NotAHeap,
    /// Word 1 is this in place of 1.
    BadVersion(u64),
    /// Word 2 is this in place of 4 to 16.
    BadOrder(u64),
    /// Word 3 is this in place of 0 to 2.
    BadState(u64),
    /// The device has fewer words, `have`, than a header or the heap of its order needs, `need`.
    TooSmall { need: u64, have: u64 },
    /// The state is IDLE and the regions differ: the least offset at which they do, in words from a
    /// region's start, and the words there.
    Twins { offset: u64, main: u64, back: u64 },
    /// The region that counts is of version 1. The device has been recovered. An upgrade makes it one of
    /// version 2.
    OldRegion,
    /// The region that counts is of version 2 already, so there is nothing to upgrade. The device has been
    /// recovered.
    NewRegion,
    /// The region that counts is not well-formed: the first word that breaks a rule, in words from the
    /// region's start, and the word that was found there. The device has been recovered.
    Malformed { offset: u64, rule: Rule, found: u64 },
    /// The device failed. The opening may be tried again.
    Device,
    /// There was no memory for the region or its inspection. The device has been recovered.
    OutOfMemory,
}

impl From<HeaderRefused> for Why {
    ghost use Rattle.std.specs.Prelude.{◌≡◌};
    ghost use Rattle.rom_open.specs.Refusals.{of_header};

    ghost from_gives = { λ refused why. why ≡ of_header refused };

    fn from(refused: HeaderRefused) -> Why {
        match refused {
            HeaderRefused::TooSmall { need, have } => Why::TooSmall { need, have },
            HeaderRefused::NotAHeap => Why::NotAHeap,
            HeaderRefused::BadVersion(version) => Why::BadVersion(version),
            HeaderRefused::BadOrder(order) => Why::BadOrder(order),
            HeaderRefused::BadState(state) => Why::BadState(state),
            HeaderRefused::Device => Why::Device,
        }
    }
}

impl From<RecoverRefused> for Why {
    ghost use Rattle.std.specs.Prelude.{◌≡◌};
    ghost use Rattle.rom_open.specs.Refusals.{of_recovery};

    ghost from_gives = { λ refused why. why ≡ of_recovery refused };

    fn from(refused: RecoverRefused) -> Why {
        match refused {
            RecoverRefused::Twins { offset, main, back } => Why::Twins { offset, main, back },
            RecoverRefused::Device => Why::Device,
        }
    }
}

impl From<AllocError> for Why {
    ghost use Rattle.std.specs.Prelude.{◌≡◌};
    ghost use Rattle.rom_open.specs.declared.reasons.Why.TheVariants.{OutOfMemory};

    ghost from_gives = { λ _ why. why ≡ OutOfMemory };

    fn from(_: AllocError) -> Why {
        Why::OutOfMemory
    }
}
