//! Why the following of a stream ended.
ghost use Rattle.std.specs.Prelude.{◌≡◌};
ghost use Rattle.rom_replica.specs.Stops.{stop_number};

/// What stopped the following of a stream of frames. Its number is the status of the program.
#[derive(Clone, Copy, Debug, PartialEq, Eq)]
pub enum Stop {
    /// The stream ended behind a whole frame, or was empty.
    End = 0,
    /// The next bytes are no frame, or the stream ended inside one.
    Broken = 1,
    /// A read of the stream failed.
    StreamFailed = 4,
    /// The device failed under an update.
    DeviceFailed = 7,
    /// The stream has more bytes than it may.
    TooLong = 8,
    /// An update was told another reply than its frame's.
    Diverged = 9,
    /// The count of updates stands at its limit.
    Spent = 10,
}

impl Stop {
    /// Its number.
    pub fn number(self) -> u8
        ensures { result ≡ stop_number self }
    {
        self as u8
    }
}
