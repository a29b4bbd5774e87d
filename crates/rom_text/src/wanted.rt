//! What the words of a command line ask a program's `main` for.
use crate::names::{Name, Names};

/// The device that a command works on.
#[derive(Debug, Drop)]
pub enum DeviceWant {
    /// None: the words are no command.
    Nothing,
    /// So many words in memory, each 0.
    Fresh(u64),
    /// A file that is there.
    Old(Name),
    /// A file that is made if need be, and lengthened with zeros to so many words.
    Made(Name, u64),
}

/// The device and the scripts that the words name.
#[derive(Debug, Drop)]
pub struct Wanted {
    pub device: DeviceWant,
    pub scripts: Names,
}
