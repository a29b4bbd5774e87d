//! A heap that follows another heap's history by its frames.
ghost use Rattle.std.specs.Prelude.{◌≡◌, ◌≢◌, ◌⊎◌, ℕ, ◌+◌, ◌<◌, ◌≤◌, ◌++◌, ◌∷◌, [], All, List, length, None, IfSome, IsTrue, slice_get, Some};
ghost use Rattle.std.specs.List.{AllByRecursion};
ghost use Rattle.rom_model.specs.Codes as codes;
ghost use Rattle.rom_model.specs.History.{IsLegal};
ghost use Rattle.rom_model.specs.Leaving.{IsClosed};
ghost use Rattle.rom_model.specs.Machine.{on_words};
ghost use Rattle.rom_model.specs.Region.{Contents};
ghost use Rattle.rom_model.specs.State.{State};
ghost use Rattle.rom_model.specs.Trio.{trio};
ghost use Rattle.rom_model.specs.declared.entry.Entry.{Entry};
ghost use Rattle.rom_rule.specs.CallKinds.{IsToldByPass};
ghost use Rattle.rom_rule.specs.Views.{Told, base_of};
ghost use Rattle.rom_store.specs.Callers.{IsNewCaller};
ghost use Rattle.rom_store.specs.Closing.{HasLeftSince, IsClosedFrom};
ghost use Rattle.rom_store.specs.Indexed.{Indexed};
ghost use Rattle.rom_store.specs.Moments.{LastsFor};
ghost use Rattle.rom_store.specs.Sessions.{EachStory};
ghost use Rattle.rom_store.specs.Start.{device_start};
ghost use Rattle.rom_frame.specs.declared.frame.Frame.{Frame};
ghost use Rattle.rom_follow.specs.Closing.{ArePassesOf, KeepsWhole};
ghost use Rattle.rom_follow.specs.Followed.{HasDoneUpdates};
ghost use Rattle.rom_follow.specs.Following.{AgreesBelow, FollowsHistory, HasWords, HoldsPrefix, MayArrive, state_after_first};
ghost use Rattle.rom_follow.specs.Taking.{AreTaken, IsFrame, IsNoFrame, TakesFrame, TakesNextFrame};
ghost use Rattle.rom_follow.specs.declared.taken.MessageTaken.TheVariants as taken;

use crate::taken::{Divergence, MessageTaken};
use crate::update::{count_of, update_alone};
use rom_device::Device;
use rom_frame::{Frame, read_frame};
use rom_heap::Trio;
use rom_store::{Closed, Gate, Label, Opening, Pass, Store};
use std::marker::Model;
use std::sync::Wait;

/// A heap of its own that does the updates whose frames it is sent, each once and in the order of their
/// places. It is the one caller of its store.
pub struct Follower<D: Device, N: Label> {
    store: Store<D, Trio, N>,
    // The one pass, in a list since the store takes it back so.
    passes: Vec<Pass>,
    // The store tells it only to a read: `start` reads once, and `take` adds what it has done.
    count: u64,
    diverged: Option<Divergence>,
}

impl<D: Device, N: Label> Model for Follower<D, N> {
    ghost use Rattle.rom_follow.specs.Alone.{IsFollower, followed};
    ghost use Rattle.rom_follow.specs.Followed.{Followed};

    ghost Value = { Followed };

    ghost view = { λ f. followed f.count f.passes.items f.diverged };

    ghost invariant = { λ f. IsFollower N.table N.base f.passes.items
        (followed f.count f.passes.items f.diverged) };
}

impl<D: Device, N: Label> Follower<D, N> {
    /// Starts on a heap that `open_store` has opened for one caller. It takes no memory.
    pub fn start(opening: Opening<D, Trio>) -> Self
        requires table { N.table ≡ opening.table_id }
        requires base { N.base ≡ base_of opening.key }
        requires started { N.start ≡ device_start D.shown opening.device }
        // Where images are told, the label tells of each moment exactly what a stop since then might have
        // left of this device.
        requires since { IsTrue D.shown.tells_images → (t : ℕ) (i : List ℕ) →
            (N.since t i → D.shown.left_since opening.device t i)
            × (D.shown.left_since opening.device t i → N.since t i) }
        requires one { (length opening.passes ≡ 1) × (N.base.callers ≡ 1) }
        requires passes { Indexed (IsNewCaller Contents N.table N.base) opening.passes }
        requires formed { (s : State) × (k : ℕ) × Contents N.base.order N.base.image s k }

        // The follower has done nothing yet.
        ensures none { (result.history ≡ []) × (result.tried ≡ []) × (result.diverged ≡ None) }
        // The follower's count is that of the heap as it was opened, since nothing was done.
        ensures done { (s : State) (k : ℕ) → Contents N.base.order N.base.image s k →
            HasDoneUpdates N.base.order s k result }

        // The follower follows each history of which the heap holds the state and the count after a prefix.
        ensures follows { (s0 : State) (n0 : ℕ) (history : List Entry) (first : ℕ) →
            first ≤ length history → Contents N.base.order N.base.image
            (state_after_first N.base.order s0 n0 history first) (n0 + first) →
            FollowsHistory N.base s0 n0 history first result }
    {
        let (store, mut passes) = opening.start::<N>();
        let count = count_of(&store, &mut passes[0]);
        Follower {
            store,
            passes,
            count,
            diverged: None,
        }
    }

    /// The count of updates in the heap, which is the place of the frame that it takes next.
    pub fn count(&self) -> u64
        ensures count { result ≡ self.now.count }
        // What the follower has done is legal from the opening's state and count on, and ends at its count.
        ensures done { (s : State) (k : ℕ) → Contents N.base.order N.base.image s k →
            HasDoneUpdates N.base.order s k self.now }
    {
        self.count
    }

    /// Takes a message. The frame whose place is the count is done. Each other one, and a message that
    /// is no frame, leaves the follower as it was, as does each message once the heaps have parted. It
    /// takes no memory.
    pub fn take<R: Wait, G: Gate>(&mut self, rt: &R, message: &[u8], gate: &G) -> MessageTaken
        // Once the heaps have parted, each message gets the same `Diverged`, and nothing is done.
        ensures parted { IfSome self.old.diverged (λ d.
            (result ≡ taken.Diverged d.place d.ours d.theirs) × (self.new ≡ self.old)) }
        // While they have not parted, a message that is no frame gets `NotAFrame`, and nothing is done.
        ensures no_frame { self.old.diverged ≡ None → IsNoFrame message.now →
            (result ≡ taken.NotAFrame) × (self.new ≡ self.old) }
        // While they have not parted, a frame whose place is below the count gets `Known`, one above it gets
        // `Early`, and nothing is done. The update of a frame at the count is tried, or the answer is
        // `Spent`.
        ensures frame { self.old.diverged ≡ None → (f : Frame) → IsFrame f message.now →
            TakesFrame f self.old result self.new }
        // While they have not parted, each message is a frame or none: one of the two clauses above speaks of
        // it.
        ensures either { self.old.diverged ≡ None →
            ((f : Frame) × IsFrame f message.now) ⊎ IsNoFrame message.now }

        // If an update was tried, one pass told what became of it. The record of that pass has the device's
        // count of faults before and after it.
        ensures told { (x : Told) → self.new.tried ≡ self.old.tried ++ x ∷ [] →
            IsToldByPass Contents (on_words trio) N.base x (length self.old.history) self.old.history
            self.new.history }
        // What the follower has done is legal from the opening's state and count on, and ends at its count.
        ensures done { (s : State) (k : ℕ) → Contents N.base.order N.base.image s k →
            HasDoneUpdates N.base.order s k self.new }

        // The count never falls.
        ensures rises { self.old.count ≤ self.new.count }

        // A follower of a legal history of 64-bit words stays one, and answers no `Diverged`. The message may
        // be a frame of that history, whole or torn, or be no frame at all.
        ensures follows { (s0 : State) (n0 : ℕ) (history : List Entry) (first : ℕ) →
            IsLegal (on_words trio) N.base.order s0 n0 history → HasWords n0 history →
            FollowsHistory N.base s0 n0 history first self.old → MayArrive n0 history message.now →
            FollowsHistory N.base s0 n0 history first self.new × AgreesBelow self.new.count result }
    {
        if let Some(
            Divergence {
                place,
                ours,
                theirs,
            },
        ) = self.diverged
        {
            return MessageTaken::Diverged {
                place,
                ours,
                theirs,
            };
        }
        match read_frame(message) {
            None => MessageTaken::NotAFrame,
            Some(frame) => self.take_frame(rt, &frame, gate),
        }
    }

    // Takes a frame, by its place.
    fn take_frame<R: Wait, G: Gate>(&mut self, rt: &R, frame: &Frame, gate: &G) -> MessageTaken
        requires agrees { self.old.diverged ≡ None }
        ensures gives { TakesFrame frame.now self.old result self.new }
        ensures told { (x : Told) → self.new.tried ≡ self.old.tried ++ x ∷ [] →
            IsToldByPass Contents (on_words trio) N.base x (length self.old.history) self.old.history
            self.new.history }
        ensures done { (s : State) (k : ℕ) → Contents N.base.order N.base.image s k →
            HasDoneUpdates N.base.order s k self.old × HasDoneUpdates N.base.order s k self.new }
        ensures rises { self.old.count ≤ self.new.count }
    {
        if frame.place < self.count {
            return MessageTaken::Known(frame.place);
        }
        if frame.place > self.count {
            return MessageTaken::Early {
                place: frame.place,
                want: self.count,
            };
        }
        self.take_next(rt, frame, gate)
    }

    // Takes the frame whose place is the count.
    fn take_next<R: Wait, G: Gate>(&mut self, rt: &R, frame: &Frame, gate: &G) -> MessageTaken
        requires agrees { self.old.diverged ≡ None }
        requires next { frame.now.place ≡ self.old.count }
        ensures next { TakesNextFrame frame.now self.old result self.new }
        ensures told { (x : Told) → self.new.tried ≡ self.old.tried ++ x ∷ [] →
            IsToldByPass Contents (on_words trio) N.base x (length self.old.history) self.old.history
            self.new.history }
        ensures done { (s : State) (k : ℕ) → Contents N.base.order N.base.image s k →
            HasDoneUpdates N.base.order s k self.old × HasDoneUpdates N.base.order s k self.new }
        ensures rises { self.old.count ≤ self.new.count }
    {
        let told = update_alone(&self.store, rt, &mut self.passes[0], &frame.call, gate);
        let taken = MessageTaken::of(told, frame.reply);
        self.count += taken.done();
        self.diverged = taken.parted();
        taken
    }

    /// Takes messages one after another, and says what became of each. It takes no memory.
    pub fn take_all<R: Wait, G: Gate>(
        &mut self,
        rt: &R,
        messages: &[Vec<u8>],
        answers: &mut [MessageTaken],
        gate: &G,
    )
        requires as_many { length answers.old ≡ length messages.now }
        ensures as_many { length answers.new ≡ length messages.now }
        // The messages are taken one after another, each as `take` says.
        ensures taken { AreTaken messages.now self.old answers.new self.new }
        // A follower of a legal history of 64-bit words stays one, and answers no `Diverged`. Each message
        // may be a frame of that history, whole or torn, or be no frame at all.
        ensures follows { (s0 : State) (n0 : ℕ) (history : List Entry) (first : ℕ) →
            IsLegal (on_words trio) N.base.order s0 n0 history → HasWords n0 history →
            FollowsHistory N.base s0 n0 history first self.old →
            All (λ m. MayArrive n0 history m.items) messages.now →
            FollowsHistory N.base s0 n0 history first self.new
            × All (AgreesBelow self.new.count) answers.new }
    {
        for i in 0..messages.len() {
            answers[i] = self.take(rt, &messages[i], gate);
        }
    }

    /// Ends the session. It takes no memory.
    pub fn close<R: Wait>(self, rt: &R) -> Closed<D, Trio>
        ensures ended { IsClosedFrom D.shown trio Contents N.base N.start N.since result }
        // What the follower has done is legal from the opening's state and count on, and ends at its count.
        ensures done { (s : State) (k : ℕ) → Contents N.base.order N.base.image s k →
            HasDoneUpdates N.base.order s k self }
        // The session's history is the follower's.
        ensures history { result.session.history ≡ self.history }
        // There is one pass for each update that was tried. It found that update alone, and ended as the
        // update was told.
        ensures passes { ArePassesOf result.session.records self.tried }
        // The session's history is that of its passes, and each update that they found is of caller 1.
        ensures closed { EachStory trio Contents result.session (λ story. IsClosed trio story 1) }
        // The one caller keeps all of that history, and each update with what it was told.
        ensures kept { KeepsWhole self result.session.callers }
        // All of it was committed at the moments that the caller knows, and each image that a stop has left since
        // the moment of an entry holds the history up to this entry.
        ensures told_lasts { EachStory trio Contents result.session (λ story. AllByRecursion
            (LastsFor D.shown Contents (on_words trio) story result.device) result.session.callers) }

        // Where images are told, what a stop leaves now holds a prefix of each history that is followed. That
        // prefix is no shorter than the one at the start.
        ensures follows_now { IsTrue D.shown.tells_images →
            (s0 : State) (n0 : ℕ) (history : List Entry) (first : ℕ) →
            FollowsHistory N.base s0 n0 history first self → (i : List ℕ) →
            D.shown.leaves result.device i →
            HoldsPrefix N.base.order s0 n0 history first i }
        // Where images are told, what a stop since the start might have left could be left before, or holds a
        // prefix of each history that is followed. That prefix is no shorter than the one at the start.
        ensures follows_since { IsTrue D.shown.tells_images →
            (s0 : State) (n0 : ℕ) (history : List Entry) (first : ℕ) →
            FollowsHistory N.base s0 n0 history first self →
            HasLeftSince D.shown N.start N.since
            (HoldsPrefix N.base.order s0 n0 history first) result.device }
    {
        let Follower {
            store,
            passes,
            count: _,
            diverged: _,
        } = self;
        store.close(rt, passes)
    }
}
