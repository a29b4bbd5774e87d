//! What the answer to a message adds to the tally.
ghost use Rattle.std.specs.Prelude.{◌+◌, ◌<◌, ◌≤◌};
ghost use Rattle.rom_replica.specs.Tallied.{AddsToTally};
ghost use Rattle.rom_frame.specs.declared.stream.message.TheConstants.{MAX_STREAM};

use crate::stop::Stop;
use crate::tally::Tally;
use rom_follow::MessageTaken;

impl Tally {
    /// Counts a message of so many bytes by its answer, or says that it is a stop.
    pub fn add(&mut self, taken: MessageTaken, len: usize) -> Option<Stop>
        requires some { 0 < len }
        requires room { self.old.bytes + len ≤ MAX_STREAM }
        // A frame that was applied, known or early is counted. Any other answer is a stop, and not counted.
        ensures adds { AddsToTally taken len self.old self.new result }
    {
        let Tally {
            mut applied,
            mut known,
            mut early,
            bytes,
        } = *self;
        match taken {
            MessageTaken::Applied(_) => applied += 1,
            MessageTaken::Known(_) => known += 1,
            MessageTaken::Early { .. } => early += 1,
            MessageTaken::NotAFrame => return Some(Stop::Broken),
            MessageTaken::Diverged { .. } => return Some(Stop::Diverged),
            MessageTaken::Spent => return Some(Stop::Spent),
            MessageTaken::Failed | MessageTaken::Doubt => return Some(Stop::DeviceFailed),
        }
        *self = Tally {
            applied,
            known,
            early,
            bytes: bytes + len as u64,
        };
        None
    }
}
