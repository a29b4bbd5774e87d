//! How a run ended, as a number.
ghost use Rattle.std.specs.Prelude.{◌≡◌};
ghost use Rattle.rom_run.specs.Statuses.{exit_number};

/// The exit status of the program.
#[derive(Clone, Copy, Debug, PartialEq, Eq)]
pub enum Status {
    /// None of the others.
    Done = 0,
    /// As `Done`, but a line of a script is no command.
    Unread = 1,
    /// The words are no command.
    NotACommand = 2,
    /// The device is refused by name.
    HeapRefused = 3,
    /// A script could not be opened or read.
    ScriptFailed = 4,
    /// The text of a run could not be written.
    SinkFailed = 5,
    /// There was no memory, before any update.
    NoMemory = 6,
    /// The device failed, so that there is no heap, or under an update that was told so.
    DeviceFailed = 7,
    /// A script has more bytes than it may.
    ScriptTooLong = 8,
}

impl Status {
    /// Its number.
    pub fn number(self) -> u8
        ensures { result ≡ exit_number self }
    {
        self as u8
    }
}
