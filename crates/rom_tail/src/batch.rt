//! The frames of a batch: whose calls are next, and what became of them.
ghost use Rattle.std.specs.Prelude.{◌≡◌, ◌≢◌, ◌≤◌, [], length, map, IsSome};
ghost use Rattle.std.specs.Bool.{OnFalse, OnTrue};
ghost use Rattle.std.specs.List.{AllByRecursion};
ghost use Rattle.rom_model.specs.Codes.{words_call};
ghost use Rattle.rom_model.specs.History.{LAST_COUNT};
ghost use Rattle.rom_replica.specs.Turns.{applied};
ghost use Rattle.rom_tail.specs.Batches.{IsCompared, call_in, reply_in};
ghost use Rattle.rom_tail.specs.declared.few.TheConstants.{MOST};

use crate::few::Few;
use rom_frame::Frame;
use rom_model::{Args, Back, call_words, reply_words};
use rom_replica::Stop;

/// What became of frames that were taken together.
#[derive(Clone, Copy, Debug, PartialEq, Eq)]
pub struct Took {
    /// How many stand before the stop: all, where there is none.
    pub counted: usize,
    pub stop: Option<Stop>,
}

/// Puts the calls of those frames into the list whose places run on from a count.
pub fn next_calls(count: u64, frames: &[Frame], calls: &mut Few<Args>)
    requires few { length frames.now ≤ MOST }
    requires within { count ≤ LAST_COUNT }
    requires none { calls.old.items ≡ [] }
    ensures calls { calls.new.items ≡ map call_in (applied count frames.now) }
    ensures known { AllByRecursion (λ words. IsSome (words_call words)) calls.new.items }
{
    let mut next = count;
    for frame in frames {
        if frame.place == next {
            calls.push(call_words(&frame.call));
            next += 1;
        }
    }
}

/// Whether the words are those of the frame's reply.
fn is_reply(words: &Back, frame: &Frame) -> bool
    ensures same { OnTrue result (words.now ≡ reply_in frame.now) }
    ensures other { OnFalse result (words.now ≢ reply_in frame.now) }
{
    words.as_slice() == reply_words(&frame.reply).as_slice()
}

/// Compares the replies of the calls that were done with those of their frames, whose places run on from a count. If
/// fewer were done than there are, `short` says why.
pub fn compare(count: u64, frames: &[Frame], replies: &[Back], done: usize, short: Stop) -> Took
    requires few { length frames.now ≤ MOST }
    requires within { count ≤ LAST_COUNT }
    requires told { done ≤ length replies.now }
    ensures { IsCompared count frames.now replies.now done short result }
{
    let mut same = 0;
    for i in 0..frames.len() {
        let frame = &frames[i];
        if frame.place != count + same as u64 {
            continue;
        }
        if same >= done {
            return Took {
                counted: i,
                stop: Some(short),
            };
        }
        if !is_reply(&replies[same], frame) {
            return Took {
                counted: i,
                stop: Some(Stop::Diverged),
            };
        }
        same += 1;
    }
    Took {
        counted: frames.len(),
        stop: None,
    }
}
