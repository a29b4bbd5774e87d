//! How the writer sends readers to a side, and waits until the other is left.
ghost use Rattle.std.specs.Prelude.{◌≡◌, ◌≢◌, ℕ, ◌+◌, ◌-◌, ◌<◌, ◌≤◌};
ghost use Rattle.rom_model.specs.Machine.{on_words};
ghost use Rattle.rom_lr.specs.Seats.{IsWriterOf, plan, steps_of, writer_view};
ghost use Rattle.rom_lr.specs.Switch.{CanSwitch, HasSwitched};
ghost use Rattle.rom_lr.specs.Writing.{HasWaited, SetsPlan, plan_after_both_waits, plan_after_wait};
ghost use Rattle.rom_lr.specs.declared.side.Side.TheVariants.{Back, Main};
ghost use Rattle.rom_rule.specs.Kinds.{CanSwitchToBack, CanSwitchToMain, observed};
ghost use Rattle.rom_rule.specs.Places.{indicator_of};
ghost use Rattle.rom_rule.specs.Readers.{Settled};

use crate::seats::WriterSeat;
use crate::shared::Shared;
use crate::side::Side;
use crossbeam_utils::Backoff;
use rom_model::Object;
use rom_rule::{ChecksIndicator, PassEnd, StoresVersion, SwitchesToBack, SwitchesToMain};
use std::marker::Brand;
use std::sync::Wait;

impl<O: Object> Shared<O> {
    /// Sends readers to a side from now on, in one step. To main it publishes the batch of the calls
    /// that were found in this pass, and makes the pass's record where there are any. `before` and
    /// `after` are the device's counts of faults at the pass's start and now; they go into the record.
    pub fn switch(&self, seat: &mut WriterSeat, side: Side, before: u64, after: u64)
        requires of { IsWriterOf self.now seat.old }
        // That side stands for the history as the call leaves it, and the counts of faults do not fall. To
        // main: the pass has no record yet, and all words of the calls that it found are loaded.
        requires can { CanSwitch O.Contents (on_words O.machine) (writer_view seat.old).base
            (plan seat.old) side before after }
        // To main: the batch is published, and the pass has its record where calls were found. To back: where
        // it has one, the count after it is the one of now. No indicator counts as loaded any more. The record
        // has the moment 0.
        ensures switched { HasSwitched O.Contents (on_words O.machine) seat.old seat.new side before
            after 0 }
        ensures step { steps_of seat.new ≡ steps_of seat.old + 1 }
    {
        self.switch_as::<Brand>(seat, side, before, after);
    }

    /// As [`Shared::switch`], for who knows the device's moment at which the batch was committed: `N` has it, and
    /// the record that the pass gets by a switch to main has it too.
    pub fn switch_as<N: PassEnd>(&self, seat: &mut WriterSeat, side: Side, before: u64, after: u64)
        requires picked { (N.before ≡ before) × (N.after ≡ after) }
        requires of { IsWriterOf self.now seat.old }
        // As for `switch`.
        requires can { CanSwitch O.Contents (on_words O.machine) (writer_view seat.old).base
            (plan seat.old) side before after }
        // As by `switch`, with that moment.
        ensures switched { HasSwitched O.Contents (on_words O.machine) seat.old seat.new side before
            after N.moment }
        ensures step { steps_of seat.new ≡ steps_of seat.old + 1 }
    {
        match side {
            Side::Main => self.switch_to_main::<N>(seat, before, after),
            Side::Back => self.switch_to_back::<N>(seat, before, after),
        }
    }

    fn switch_to_main<N: PassEnd>(&self, seat: &mut WriterSeat, before: u64, after: u64)
        requires picked { (N.before ≡ before) × (N.after ≡ after) }
        requires of { IsWriterOf self.now seat.old }
        requires can { CanSwitchToMain O.Contents (on_words O.machine) (writer_view seat.old).base
            (plan seat.old) before after }
        ensures switched { HasSwitched O.Contents (on_words O.machine) seat.old seat.new Main before
            after N.moment }
        ensures step { steps_of seat.new ≡ steps_of seat.old + 1 }
    {
        let word = self.layout.side() as usize;
        self.table
            .shared
            .store::<SwitchesToMain<O, N>>(&mut seat.token, word, Side::Main.number());
    }

    fn switch_to_back<N: PassEnd>(&self, seat: &mut WriterSeat, before: u64, after: u64)
        requires picked { (N.before ≡ before) × (N.after ≡ after) }
        requires of { IsWriterOf self.now seat.old }
        requires can { CanSwitchToBack O.Contents (on_words O.machine) (writer_view seat.old).base
            (plan seat.old) before after }
        ensures switched { HasSwitched O.Contents (on_words O.machine) seat.old seat.new Back before
            after N.moment }
        ensures step { steps_of seat.new ≡ steps_of seat.old + 1 }
    {
        let word = self.layout.side() as usize;
        self.table
            .shared
            .store::<SwitchesToBack<N>>(&mut seat.token, word, Side::Back.number());
    }

    /// Waits until nobody reads the side that readers were sent from. It returns only after it has
    /// loaded each caller's two indicators as 0 since the last [`Shared::switch`]: all of the other
    /// version first, then, with `version` stored as the other one, all of the former. An indicator is
    /// loaded only while `version` names the other one, so a caller that loads `version` meanwhile
    /// arrives at its other indicator.
    pub fn settle<R: Wait>(&self, rt: &R, seat: &mut WriterSeat)
        requires of { IsWriterOf self.now seat.old }
        // Of the writer's plan only `version` and which indicators count as loaded may change.
        ensures waited { HasWaited seat.old seat.new }
        // For who asks how it waits: the list of all its loads, with what `version` was at each.
        ensures loads { plan seat.new ≡ plan_after_both_waits self.now.layout.callers (plan seat.old) }
        // For the crates above, which do not know how many indicators there are: both waits are over.
        ensures settled { Settled (writer_view seat.new).base (plan seat.new) }
    {
        let former = seat.version;
        self.wait_for_all(rt, seat, 1 - former);
        self.name_version(seat, 1 - former);
        self.wait_for_all(rt, seat, former);
    }

    // Loads the indicators of the version that isn't named, one caller after the other, each until it
    // is 0.
    fn wait_for_all<R: Wait>(&self, rt: &R, seat: &mut WriterSeat, version: u64)
        requires of { IsWriterOf self.now seat.old }
        requires low { version < 2 }
        requires other { (plan seat.old).version ≢ version }
        ensures waited { SetsPlan seat.old seat.new (plan_after_wait version self.now.layout.callers
            (plan seat.old)) }
    {
        for i in 0..self.layout.callers() {
            self.wait_for(rt, seat, i + 1, version);
        }
    }

    // Loads a caller's indicator of the version that isn't named until it is 0.
    #[inline(always)]
    fn wait_for<R: Wait>(&self, rt: &R, seat: &mut WriterSeat, caller: u32, version: u64)
        requires of { IsWriterOf self.now seat.old }
        requires caller { (1 ≤ caller) × (caller ≤ self.now.layout.callers) }
        requires low { version < 2 }
        requires other { (plan seat.old).version ≢ version }
        ensures waited { SetsPlan seat.old seat.new (observed (indicator_of caller version) 0
            (plan seat.old)) }
    {
        if self.check(seat, caller, version) != 0 {
            self.wait_beside(rt, seat, caller, version);
        }
    }

    // The same, where the caller reads.
    #[cold]
    #[inline(never)]
    fn wait_beside<R: Wait>(&self, rt: &R, seat: &mut WriterSeat, caller: u32, version: u64)
        requires of { IsWriterOf self.now seat.old }
        requires caller { (1 ≤ caller) × (caller ≤ self.now.layout.callers) }
        requires low { version < 2 }
        requires other { (plan seat.old).version ≢ version }
        ensures waited { SetsPlan seat.old seat.new (observed (indicator_of caller version) 0
            (plan seat.old)) }
    {
        // The wait pauses a little longer each time. No clause rests on that.
        let backoff = Backoff::new();
        for _ in rt.forever() {
            backoff.snooze();
            if self.check(seat, caller, version) == 0 {
                return;
            }
        }
        unreachable!()
    }

    // One load of a caller's indicator of the version that isn't named.
    #[inline(always)]
    fn check(&self, seat: &mut WriterSeat, caller: u32, version: u64) -> u64
        requires of { IsWriterOf self.now seat.old }
        requires caller { (1 ≤ caller) × (caller ≤ self.now.layout.callers) }
        requires low { version < 2 }
        requires other { (plan seat.old).version ≢ version }
        ensures checked { SetsPlan seat.old seat.new (observed (indicator_of caller version) result
            (plan seat.old)) }
    {
        let word = self.layout.indicator(caller, version) as usize;
        self.table
            .shared
            .load::<ChecksIndicator>(&mut seat.token, word)
    }

    fn name_version(&self, seat: &mut WriterSeat, version: u64)
        requires of { IsWriterOf self.now seat.old }
        requires low { version < 2 }
        ensures named { let p = plan seat.old in
            SetsPlan seat.old seat.new (record p { version = version }) }
    {
        let word = self.layout.version() as usize;
        self.table
            .shared
            .store::<StoresVersion>(&mut seat.token, word, version);
        seat.version = version;
    }
}
