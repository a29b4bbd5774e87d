//! The command line.
use crate::calls::Calls;
use crate::stores::Work;
use rom_header::Geometry;

/// What the words ask for.
#[derive(Drop)]
pub enum Command {
    /// A heap of this order in the file of that name, where none stands.
    Make(String, Geometry),
    /// The opening of the heap in the file of that name.
    Open(String),
    /// So many of these calls on a heap in memory.
    Count(Calls, u64),
    /// So much of this work by the one caller of a store in memory.
    Store(Work, u64),
    /// So much of this work by the one caller of a heap in memory that asks for nothing.
    Caller(Work, u64),
    /// So many passes on a heap in memory, before each of which sixteen callers post a call.
    Pass(u64),
}

impl Command {
    /// The command that the words are, if any.
    pub fn read(words: Vec<String>) -> Option<Command> {
        let mut words = words.into_iter();
        let name = words.next()?;
        let what = words.next()?;
        let number = match words.next() {
            Some(word) => Some(word.as_str().parse::<u64>().ok()?),
            None => None,
        };
        if words.next().is_some() {
            return None;
        }
        match (name.as_str(), number) {
            ("make", Some(order)) => Some(Command::Make(what, Geometry::of(order)?)),
            ("open", None) => Some(Command::Open(what)),
            ("pass", None) => Some(Command::Pass(what.as_str().parse::<u64>().ok()?)),
            ("count", Some(calls)) => Some(Command::Count(Calls::of(what.as_str())?, calls)),
            ("caller", Some(times)) => Some(Command::Caller(Work::of(what.as_str())?, times)),
            ("store", Some(times)) => Some(Command::Store(Work::of(what.as_str())?, times)),
            _ => None,
        }
    }
}
