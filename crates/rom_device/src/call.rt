//! The calls of a device, as a memory device lists them.
ghost use Rattle.std.specs.Prelude.{◌≡◌};

/// What a call does.
#[derive(Clone, Copy, Debug, PartialEq, Eq)]
pub enum CallKind {
    Read,
    Write,
    Sync,
}

/// A call that was made.
#[derive(Clone, Copy, Debug, PartialEq, Eq)]
pub enum LoggedCall {
    /// Of the word at that place.
    Read { at: u64 },
    /// Of a value to the word at that place. `lands` says whether the word is that value from then on.
    Write { at: u64, value: u64, lands: bool },
    /// `done` says whether it made the words certain.
    Sync { done: bool },
}

impl LoggedCall {
    ghost use Rattle.rom_device.specs.Log.{call_kind, place_of};

    /// What the call did.
    pub fn kind(&self) -> CallKind
        ensures { result ≡ call_kind self.now }
    {
        match self {
            LoggedCall::Read { at: _ } => CallKind::Read,
            LoggedCall::Write {
                at: _,
                value: _,
                lands: _,
            } => CallKind::Write,
            LoggedCall::Sync { done: _ } => CallKind::Sync,
        }
    }

    /// The place of the word that it read or wrote. A sync is of no word, and has 0.
    pub fn place(&self) -> u64
        ensures { result ≡ place_of self.now }
    {
        match self {
            LoggedCall::Read { at } => *at,
            LoggedCall::Write {
                at,
                value: _,
                lands: _,
            } => *at,
            LoggedCall::Sync { done: _ } => 0,
        }
    }
}
