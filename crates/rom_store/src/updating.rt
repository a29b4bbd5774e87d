//! How callers update.
ghost use Rattle.std.specs.Prelude.{◌≡◌, ℕ, ◌*◌, ◌≤◌, [], length, IsSome};
ghost use Rattle.rom_model.specs.Lawful.{as_words};
ghost use Rattle.rom_model.specs.Machine.{on_words};
ghost use Rattle.rom_model.specs.declared.call.Updated.{Updated};
ghost use Rattle.rom_model.specs.declared.words.TheConstants.{CALL_WORDS};
ghost use Rattle.rom_lines.specs.Replies.{HasReplyWords, updated_as};
ghost use Rattle.rom_lines.specs.declared.results.Became.{Became};
ghost use Rattle.rom_lines.specs.declared.results.Undone.{Undone};
ghost use Rattle.rom_lr.specs.Seats.{IsPosted, IsSameSeat, IsSeatOf, view};
ghost use Rattle.rom_store.specs.Callers.{IsCallerOf};
ghost use Rattle.rom_store.specs.Updating.{HasBeenTold, HasLooked, HasUpdated, Says};

use crate::held::Held;
use crate::label::Label;
use crate::pace::Pace;
use crate::pass::Pass;
use crate::store::Store;
use rom_announce::{answered, linger, nap, post_words, take_into, wake_next};
use rom_combine::{Gate, Shipper};
use rom_device::Device;
use rom_lines::{Became, Undone};
use rom_lr::Seat;
use rom_model::{Args, Back, DOUBT, FAILED, LAST_COUNT, Object, SPENT, Updated};
use std::sync::{MutexGuard, Wait};

/// How often a caller looks at its turn before it waits for the lock.
const LOOKS: u64 = 64;

/// What became of an update, by the word that is told: a place or a code.
fn became_of(word: u64) -> Became
    ensures { Says result word }
{
    match word {
        SPENT => Became::Undone(Undone::Spent),
        FAILED => Became::Undone(Undone::Failed),
        DOUBT => Became::Undone(Undone::Doubt),
        place => Became::Done(place),
    }
}

/// What a caller is told, with its reply, which is read from its words.
fn updated_by<O: Object>(became: Became, words: &Back) -> Updated<O::Reply>
    requires { HasReplyWords O.machine.words_reply became words.now }
    ensures { result ≡ updated_as O.machine.words_reply became words.now }
{
    match became {
        Became::Done(place) => Updated::Done(O::words_reply(words).unwrap(), place),
        Became::Undone(Undone::Spent) => Updated::Spent,
        Became::Undone(Undone::Failed) => Updated::Failed,
        Became::Undone(Undone::Doubt) => Updated::Doubt,
    }
}

impl<D: Device, O: Object, N: Label, W: Shipper> Store<D, O, N, W> {
    /// Does an update in one pass with those of other callers, and tells its reply and place, or
    /// why it was not done. `Failed` and `Doubt` come only where the device failed in the pass that
    /// took it, and `Spent` only where the count stood at 2^62, or this caller has posted 2^62
    /// calls: then nothing is posted. It may sleep until it is answered, and wait for the lock, and a
    /// pass that it runs waits for readers. It is answered before the pass that did it waits, so
    /// the count of faults in that pass's record may still rise. Who has the words of a call, and needs
    /// those of its reply, updates by `update_words`.
    pub fn update<R: Wait, G: Gate>(
        &self,
        rt: &R,
        pass: &mut Pass,
        call: &O::Call,
        gate: &G,
    ) -> Updated<O::Reply>
        requires of { IsCallerOf O.Contents N.table N.base pass.old }
        // What became of a call with these words, and what the caller has then seen and keeps.
        ensures { HasUpdated O.machine O.Contents N.table N.base (O.machine.call_words call.now)
            result pass.old pass.new }
    {
        let mut words = Args::new();
        let mut told = Back::new();
        O::put_call_words(call, &mut words);
        let became = self.update_words(rt, pass, words.as_slice(), &mut told, gate);
        updated_by::<O>(became, &told)
    }

    /// As [`update`](Store::update), by the words of the call, at most `CALL_WORDS`, which may stand anywhere.
    /// It makes `told` the words of the reply, whatever they were, and leaves none where the update was not
    /// done.
    pub fn update_words<R: Wait, G: Gate>(
        &self,
        rt: &R,
        pass: &mut Pass,
        words: &[u64],
        told: &mut Back,
        gate: &G,
    ) -> Became
        requires of { IsCallerOf O.Contents N.table N.base pass.old }
        requires call { IsSome (O.machine.words_call words.now) }
        requires few { length words.now ≤ CALL_WORDS }
        // The same of a call with these words, where the reply is read from the words that are left.
        ensures updated { HasUpdated O.machine O.Contents N.table N.base words.now
            (updated_as O.machine.words_reply result told.new) pass.old pass.new }
        // The words that are left are those of a reply, where it is done.
        ensures replied { HasReplyWords O.machine.words_reply result told.new }
        // Where it is done, that reply's words are no others.
        ensures reply { (place : ℕ) → result ≡ Became.Done place →
            as_words O.machine (updated_as O.machine.words_reply result told.new)
            ≡ Updated.Done told.new place }
        // No words are left where it is not done.
        ensures none { (why : Undone) → result ≡ Became.Undone why → told.new ≡ [] }
        // So many words at most are left, so that room for them can be reserved before.
        ensures room { length told.new ≤ 2 * length words.now }
    {
        if pass.seat.posted >= LAST_COUNT {
            told.clear();
            return Became::Undone(Undone::Spent);
        }
        post_words(&self.shared, &mut pass.seat, words);
        self.await_answer(rt, &mut pass.seat, gate);
        let word = take_into(&self.shared, &mut pass.seat, told);
        became_of(word)
    }

    // Until the posted call is answered: looks at the turn some times, and then takes the lock.
    fn await_answer<R: Wait, G: Gate>(&self, rt: &R, seat: &mut Seat, gate: &G)
        requires of { IsSeatOf self.now.shared seat.old }
        requires posted { IsPosted seat.old }
        ensures same { IsSameSeat seat.old seat.new }
        ensures told { HasBeenTold O.Contents (on_words O.machine) (view seat.old) (view seat.new) }
    {
        if self.look(rt, seat, gate) {
            return;
        }
        for _ in rt.forever() {
            let held = self.held.lock(rt);
            if self.look_or_pass(rt, seat, gate, held) {
                break;
            }
        }
    }

    // Looks at the turn up to 64 times: under the lock, where it is free, and else after a sleep.
    fn look<R: Wait, G: Gate>(&self, rt: &R, seat: &mut Seat, gate: &G) -> bool
        requires of { IsSeatOf self.now.shared seat.old }
        requires posted { IsPosted seat.old }
        ensures { HasLooked O.Contents (on_words O.machine) result seat.old seat.new }
    {
        for looked in 0..LOOKS {
            if self.look_once(rt, seat, gate, looked) {
                return true;
            }
        }
        false
    }

    fn look_once<R: Wait, G: Gate>(&self, rt: &R, seat: &mut Seat, gate: &G, looked: u64) -> bool
        requires of { IsSeatOf self.now.shared seat.old }
        requires posted { IsPosted seat.old }
        ensures { HasLooked O.Contents (on_words O.machine) result seat.old seat.new }
    {
        match self.held.try_lock() {
            Some(held) => self.look_or_pass(rt, seat, gate, held),
            None => {
                self.rest(rt, seat, looked);
                answered(&self.shared, seat)
            }
        }
    }

    // While another caller runs a pass: where that is quick, the answer may come before a sleep, which
    // is longer the more often the caller has looked. Where a pass is slow, to linger would only begin the
    // next one earlier, with fewer calls.
    fn rest<R: Wait>(&self, rt: &R, seat: &Seat, looked: u64)
        requires of { IsSeatOf self.now.shared seat.now }
        requires posted { IsPosted seat.now }
    {
        match self.pace {
            Pace::Slow => {}
            Pace::Quick => linger(&self.shared, seat),
        }
        nap(rt, &self.shared, seat, looked);
    }

    // Under the lock: whether the posted call is answered, after a pass where it was not. A caller that
    // posted its call during that pass is woken once the lock is given back.
    fn look_or_pass<R: Wait, G: Gate>(
        &self,
        rt: &R,
        seat: &mut Seat,
        gate: &G,
        mut held: MutexGuard<'_, Held<D, O, N, W>>,
    ) -> bool
        requires of { IsSeatOf self.now.shared seat.old }
        requires posted { IsPosted seat.old }
        ensures { HasLooked O.Contents (on_words O.machine) result seat.old seat.new }
    {
        if answered(&self.shared, seat) {
            return true;
        }
        held.pass(rt, &self.shared, gate, self.pace);
        drop(held);
        wake_next(&self.shared);
        // The pass has found the call, but no contract knows that, since a seat knows no other seat's view.
        // So the turn is loaded once more.
        answered(&self.shared, seat)
    }
}
