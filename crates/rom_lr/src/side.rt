//! The two sides.
ghost use Rattle.std.specs.Prelude.{◌≡◌};

/// A side of the shared words: each holds a whole region.
#[derive(Clone, Copy, Debug, Drop, PartialEq, Eq)]
pub enum Side {
    Main,
    Back,
}

impl Side {
    ghost use Rattle.rom_lr.specs.Side.{side_number};

    /// What the word `side` is where it names this side.
    pub fn number(self) -> u64
        ensures is { result ≡ side_number self }
    {
        match self {
            Side::Main => 0,
            Side::Back => 1,
        }
    }
}
