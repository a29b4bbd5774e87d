//! How many frames of a stream there were, by what became of them.
ghost use Rattle.std.specs.Prelude.{◌≡◌, ◌+◌, ◌≤◌};
ghost use Rattle.rom_frame.specs.declared.stream.message.TheConstants.{MAX_STREAM};

/// The frames that were taken of a stream and were no stop, and how many bytes they have.
#[derive(Clone, Copy, Debug, PartialEq, Eq)]
pub struct Tally {
    /// Their places were the count at their turns.
    pub applied: u64,
    /// Their places were below it.
    pub known: u64,
    /// Their places were above it.
    pub early: u64,
    pub bytes: u64,
    // Each frame has a byte or more. So no number here overflows, and the loop over a stream ends.
    ghost some: { applied + known + early ≤ bytes },
    ghost within: { bytes ≤ MAX_STREAM },
}

impl Tally {
    /// None yet.
    pub fn none() -> Tally
        ensures none { (result.applied ≡ 0) × (result.known ≡ 0) × (result.early ≡ 0) }
        ensures bytes { result.bytes ≡ 0 }
    {
        Tally {
            applied: 0,
            known: 0,
            early: 0,
            bytes: 0,
        }
    }
}
