//! A heap that follows another heap's history by its frames, in batches.
ghost use Rattle.std.specs.Prelude.{◌≡◌, ℕ, ◌+◌, ◌<◌, ◌≤◌, [], List, length, IsSome, IsTrue};
ghost use Rattle.std.specs.List.{AllByRecursion};
ghost use Rattle.rom_model.specs.Codes.{words_call};
ghost use Rattle.rom_model.specs.Leaving.{IsClosed};
ghost use Rattle.rom_model.specs.Machine.{on_words};
ghost use Rattle.rom_model.specs.Region.{Contents};
ghost use Rattle.rom_model.specs.State.{State};
ghost use Rattle.rom_model.specs.Trio.{trio};
ghost use Rattle.rom_rule.specs.Views.{base_of};
ghost use Rattle.rom_store.specs.Callers.{IsNewCaller};
ghost use Rattle.rom_store.specs.Closing.{IsClosedFrom};
ghost use Rattle.rom_store.specs.Indexed.{Indexed};
ghost use Rattle.rom_store.specs.Moments.{LastsFor};
ghost use Rattle.rom_store.specs.Sessions.{EachStory};
ghost use Rattle.rom_store.specs.Start.{device_start};
ghost use Rattle.rom_tail.specs.Chased.{DoesBatch, HasDone, IsChaser, TakesFrames, chased};
ghost use Rattle.rom_tail.specs.declared.few.TheConstants.{MOST};

use crate::batch::{Took, compare, next_calls};
use crate::few::{Few, MOST};
use rom_combine::{Outcome, Replies};
use rom_device::Device;
use rom_frame::Frame;
use rom_heap::Trio;
use rom_model::{Args, LAST_COUNT};
use rom_replica::Stop;
use rom_store::{Closed, Gate, Label, Lone, Opening};
use std::marker::Model;
use std::sync::Wait;

/// A heap of its own that does the updates whose frames it is sent, each once and in the order of their
/// places. Those that come together share one pass.
pub struct Chaser<D: Device, N: Label> {
    lone: Lone<D, Trio, N>,
    // What the calls of the last batch were told.
    replies: Replies,
    count: u64,
}

impl<D: Device, N: Label> Model for Chaser<D, N> {
    ghost use Rattle.rom_tail.specs.Chased.{Chased, IsChaser, chased};

    ghost Value = { Chased };

    ghost view = { λ c. chased c.count c.lone.core.view };

    ghost invariant = { λ c. IsChaser N.base c.lone.core.view.base c.lone.many c.lone.turns
        (chased c.count c.lone.core.view) };
}

/// How many calls of a batch were done, and if they are not all, why.
#[derive(Clone, Copy)]
struct Batched {
    done: usize,
    short: Stop,
}

/// Does these calls as one batch, where one can still be asked for, and keeps their replies.
fn do_calls<D: Device, N: Label, R: Wait, G: Gate>(
    rt: &R,
    lone: &mut Lone<D, Trio, N>,
    calls: &[Args],
    replies: &mut Replies,
    gate: &G,
) -> Batched
    requires some { 0 < length calls.now }
    requires few { length calls.now ≤ lone.old.many }
    requires calls { AllByRecursion (λ words. IsSome (words_call words)) calls.now }
    // Whatever the count is called that belongs to the heap's history:
    ensures keeps { (count : ℕ) → IsChaser N.base lone.old.core.view.base lone.old.many
        lone.old.turns (chased count lone.old.core.view) →
        IsChaser N.base lone.new.core.view.base lone.new.many lone.new.turns
        (chased (count + result.done) lone.new.core.view) }
    ensures does { (count : ℕ) → IsChaser N.base lone.old.core.view.base lone.old.many
        lone.old.turns (chased count lone.old.core.view) →
        DoesBatch calls.now (chased count lone.old.core.view)
        (chased (count + result.done) lone.new.core.view) replies.new result.done result.short }
{
    if lone.turns() >= LAST_COUNT {
        return Batched {
            done: 0,
            short: Stop::Spent,
        };
    }
    let passed = lone.update_all(rt, calls, replies, gate);
    match passed.outcome {
        Outcome::Published => Batched {
            done: passed.done as usize,
            short: Stop::Spent,
        },
        _ => Batched {
            done: 0,
            short: Stop::DeviceFailed,
        },
    }
}

impl<D: Device, N: Label> Chaser<D, N> {
    /// Starts on a heap that `open_store` has opened for as many callers as a batch has calls. It takes no memory.
    pub fn start(opening: Opening<D, Trio>) -> Self
        requires table { N.table ≡ opening.table_id }
        requires base { N.base ≡ base_of opening.key }
        requires started { N.start ≡ device_start D.shown opening.device }
        // Where images are told, the label tells of each moment exactly what a stop since then might have
        // left of this device.
        requires since { IsTrue D.shown.tells_images → (t : ℕ) (i : List ℕ) →
            (N.since t i → D.shown.left_since opening.device t i)
            × (D.shown.left_since opening.device t i → N.since t i) }
        requires many { (length opening.passes ≡ MOST) × (N.base.callers ≡ MOST) }
        requires passes { Indexed (IsNewCaller Contents N.table N.base) opening.passes }
        requires formed { (s : State) × (k : ℕ) × Contents N.base.order N.base.image s k }
        // Nothing is done yet.
        ensures none { (result.history ≡ []) × (result.records ≡ []) }
        ensures done { (s : State) (k : ℕ) → Contents N.base.order N.base.image s k →
            HasDone N.base.order s k result }
    {
        let mut lone = opening.start_lone::<N>();
        let count = lone.count();
        Chaser {
            lone,
            replies: Replies::new(),
            count,
        }
    }

    /// The count of updates in the heap, which is the place of the frame that is taken next.
    pub fn count(&self) -> u64
        ensures count { result ≡ self.now.count }
        // What was done is legal from the opening's state and count on, and ends at the count.
        ensures done { (s : State) (k : ℕ) → Contents N.base.order N.base.image s k →
            HasDone N.base.order s k self.now }
        ensures within { result ≤ LAST_COUNT }
    {
        self.count
    }

    /// Takes frames that came together. Those whose places run on from the count are done as one batch; a frame
    /// below the count is known, one above it early, and both are passed over. Where no place is the count, the
    /// device is not called. It takes no memory, and waits as a pass does.
    ///
    /// Where the device fails, nothing of the batch is done. Where a reply is not its frame's, all of it is done.
    pub fn take_frames<R: Wait, G: Gate>(&mut self, rt: &R, frames: &[Frame], gate: &G) -> Took
        requires few { length frames.now ≤ MOST }
        ensures takes { TakesFrames frames.now self.old self.new result }
        ensures done { (s : State) (k : ℕ) → Contents N.base.order N.base.image s k →
            HasDone N.base.order s k self.new }
    {
        let mut calls = Few::new(Args::new());
        next_calls(self.count, frames, &mut calls);
        if calls.is_empty() {
            return Took {
                counted: frames.len(),
                stop: None,
            };
        }
        let batched = do_calls(
            rt,
            &mut self.lone,
            calls.as_slice(),
            &mut self.replies,
            gate,
        );
        let took = compare(
            self.count,
            frames,
            self.replies.as_slice(),
            batched.done,
            batched.short,
        );
        self.count += batched.done as u64;
        took
    }

    /// Ends the session. It takes no memory.
    pub fn close(self) -> Closed<D, Trio>
        ensures history { result.session.history ≡ self.history }
        ensures records { result.session.records ≡ self.records }
        ensures done { (s : State) (k : ℕ) → Contents N.base.order N.base.image s k →
            HasDone N.base.order s k self }
        ensures ended { IsClosedFrom D.shown trio Contents N.base N.start N.since result }
        // The session's history is that of its passes, and each update that they found is of one of its callers.
        ensures closed { EachStory trio Contents result.session (λ story.
            IsClosed trio story N.base.callers) }
        // All that a caller has seen was committed at the moments that it knows. Each image that a stop has left
        // since the moment of an entry holds the history up to it.
        ensures told_lasts { EachStory trio Contents result.session (λ story. AllByRecursion
            (LastsFor D.shown Contents (on_words trio) story result.device)
            result.session.callers) }
    {
        let Chaser {
            lone,
            replies: _,
            count: _,
        } = self;
        lone.close()
    }
}
