//! The bytes of a stream that came and are not taken yet.
ghost use Rattle.std.specs.Prelude.{◌≡◌, ◌⊎◌, ◌<◌, ◌≤◌, ◌++◌, [], IfErr, IfNone, IfOk, IfSome, OnErr, drop, length};
ghost use Rattle.std.specs.Bool.{OnFalse, OnTrue};
ghost use Rattle.std.specs.List.{AllByRecursion};
ghost use Rattle.std.specs.Io.KnownBytes.{Keeps};
ghost use Rattle.rom_frame.specs.Frames.{IsOfWords};
ghost use Rattle.rom_frame.specs.Messages.{GaveOn, IsUnfinished};
ghost use Rattle.rom_replica.specs.Turns.{bytes_of_all};
ghost use Rattle.rom_text.specs.Streams.{CountsRead, IsAskedOnce};
ghost use Rattle.rom_tail.specs.Fronts.{IsBroken};
ghost use Rattle.rom_tail.specs.Intakes.{HasCome, HasTaken, IsStopOfStream};
ghost use Rattle.rom_tail.specs.declared.few.TheConstants.{MOST};
ghost use Rattle.rom_tail.specs.declared.intake.TheConstants.{ROOM};

use crate::few::{Few, MOST};
use crate::front::{Front, front_of};
use rom_frame::Frame;
use rom_replica::Stop;
use rom_text::{IoFailed, Source};

/// How many bytes may wait: at least as many as the frames of a batch have.
pub const ROOM: usize = 8192;

/// Bytes that were read and are not taken yet.
#[derive(Drop)]
pub struct Intake {
    block: [u8; ROOM],
    // They are those from `start` to `end`.
    start: usize,
    end: usize,
    ghost order: { start ≤ end },
    ghost within: { end ≤ ROOM },
}

impl Intake {
    ghost use Rattle.rom_tail.specs.Waiting.{waits_in};

    /// No bytes.
    pub fn new() -> Self
        ensures { waits_in result ≡ [] }
    {
        Intake {
            block: [0; ROOM],
            start: 0,
            end: 0,
        }
    }

    // The bytes.
    fn waiting(&self) -> &[u8]
        ensures { result.now ≡ waits_in self.now }
    {
        &self.block[self.start..self.end]
    }

    // Takes the first bytes, so many.
    fn pass_over(&mut self, len: usize)
        requires { len ≤ length (waits_in self.old) }
        ensures { waits_in self.new ≡ drop len (waits_in self.old) }
    {
        self.start += len;
    }

    // Moves the bytes to the front of the block, so that there is room behind them.
    fn make_room(&mut self)
        requires { length (waits_in self.old) < ROOM }
        ensures room { self.new.end < ROOM }
        ensures waits { waits_in self.new ≡ waits_in self.old }
    {
        if self.start > 0 {
            self.block.copy_within(self.start..self.end, 0);
            self.end -= self.start;
            self.start = 0;
        }
    }

    // Reads more bytes, once, and says how many came.
    fn more<S: Source>(&mut self, stream: &mut S) -> Result<u64, IoFailed>
        requires { length (waits_in self.old) < ROOM }
        ensures came { IfOk result (HasCome S.shown (waits_in self.old) (waits_in self.new)
            stream.old stream.new) }
        ensures none { OnErr result (waits_in self.new ≡ waits_in self.old) }
        ensures kept { OnErr result (Keeps (S.shown.left stream.old) (S.shown.left stream.new)) }
        ensures counts { CountsRead S.shown stream.old stream.new result }
    {
        self.make_room();
        let count = stream.read(&mut self.block[self.end..])?;
        self.end += count as usize;
        Ok(count)
    }

    // Takes the frames at the front, up to the most of a batch, and says whether no frame stands behind them.
    fn cut(&mut self, frames: &mut Few<Frame>) -> bool
        requires none { frames.old.items ≡ [] }
        ensures taken { waits_in self.old ≡ bytes_of_all frames.new.items ++ waits_in self.new }
        ensures of_words { AllByRecursion IsOfWords frames.new.items }
        ensures broken { OnTrue result (IsBroken (waits_in self.new)) }
        ensures whole { OnFalse result (IsUnfinished (waits_in self.new)
            ⊎ (length frames.new.items ≡ MOST)) }
    {
        for _i in 0..MOST {
            match front_of(self.waiting()) {
                Front::Whole(frame, len) => {
                    frames.push(frame);
                    self.pass_over(len);
                }
                Front::Unfinished => return false,
                Front::Broken => return true,
            }
        }
        false
    }

    // Why there is no more, where the stream has ended.
    fn end(&self) -> Stop
        ensures { ((result ≡ Stop.End) × (waits_in self.now ≡ []))
            ⊎ ((result ≡ Stop.Broken) × (0 < length (waits_in self.now))) }
    {
        if self.waiting().is_empty() {
            Stop::End
        } else {
            Stop::Broken
        }
    }

    /// Puts the next frames of a stream into the list: those whole ones that wait, or that the next read brings, but
    /// at least one, and as many as a batch has at most. Or it says why there is none, and then the stream is not to be
    /// read on. Frames that came before a stop are handed out first. It takes no memory, and waits as a read does.
    pub fn next_frames<S: Source>(
        &mut self,
        stream: &mut S,
        frames: &mut Few<Frame>,
    ) -> Option<Stop>
        // What waited, and what was read behind it, are the bytes of the frames and those that wait now.
        ensures taken { HasTaken S.shown (waits_in self.old) (waits_in self.new) stream.old
            stream.new frames.new.items }
        ensures of_words { AllByRecursion IsOfWords frames.new.items }
        ensures some { IfNone result (0 < length frames.new.items) }
        // They are all the frames that have come: behind them no whole one waits, or they fill a batch.
        ensures all { IfNone result (IsUnfinished (waits_in self.new) ⊎ IsBroken (waits_in self.new)
            ⊎ (length frames.new.items ≡ MOST)) }
        ensures gave { IfNone result (GaveOn S.shown stream.old stream.new) }
        // At a stop there is no frame, and it has its cause.
        ensures none { IfSome result (λ _. frames.new.items ≡ []) }
        ensures stop { IfSome result (IsStopOfStream S.shown (waits_in self.new) stream.old
            stream.new) }
        // No read was made after one that gave no byte.
        ensures asked_once { IsAskedOnce S.shown stream.old stream.new }
    {
        frames.clear();
        loop {
            let broken = self.cut(frames);
            if !frames.is_empty() {
                return None;
            }
            if broken {
                return Some(Stop::Broken);
            }
            let Ok(count) = self.more(stream) else {
                return Some(Stop::StreamFailed);
            };
            if count == 0 {
                return Some(self.end());
            }
        }
    }
}
