//! How callers read. No call here takes the lock, waits, takes memory or can be refused.
//!
//! A query is inlined down to its loads, since each call between them would save registers and hand the
//! answer over in memory. With the call of the object's `answer` alone left, a read of the queue's head made
//! 67 instructions, and 40 with none.
ghost use Rattle.std.specs.Prelude.{◌≡◌, ℕ, ◌+◌, ◌<◌, ◌++◌, ◌∷◌, [], IsTrue, length};
ghost use Rattle.rom_model.specs.Machine.{on_words};
ghost use Rattle.rom_model.specs.Seen.{StartsWith};
ghost use Rattle.rom_lr.specs.Seats.{IsSameSeat, IsSeatOf, view};
ghost use Rattle.rom_rule.specs.Readers.{IsHeldSinceOpening};
ghost use Rattle.rom_rule.specs.Views.{front_of, image_of, is_reading};
ghost use Rattle.rom_rule.specs.declared.views.Position.TheVariants.{Out};
ghost use Rattle.rom_store.specs.Callers.{IsCallerOf, IsDatedBy, IsReaderOf, IsSameCaller};
ghost use Rattle.rom_store.specs.Reading.{HasAnswered, HasCost, IsAnswer, OnlySteps};

use crate::label::Label;
use crate::pass::Pass;
use crate::store::Store;
use rom_combine::Shipper;
use rom_device::Device;
use rom_lr::{Seat, Steps, ask};
use rom_model::{COUNT, Object};
use std::marker::{Brand, Model};
use std::sync::ledger::{Blank, Ledger};

// A caller enters in three steps: it loads the version, arrives, and loads the side.
const ENTER_STEPS: u64 = 3;

/// A pass that has entered. All its answers are of one committed state, until it is spent by
/// [`Store::leave`], which gives the pass back. Meanwhile its caller can make no update; a writer waits
/// for it before it changes what it reads, so it can be spent alone and not be dropped.
pub struct Reading {
    seat: Seat,
}

impl Model for Reading {
    ghost use Rattle.std.specs.Prelude.{IsTrue};
    ghost use Rattle.rom_lr.specs.Seats.{IsAnswered};
    ghost use Rattle.rom_rule.specs.Views.{is_reading};
    ghost use Rattle.rom_store.specs.Callers.{Caller, caller_at};

    ghost Value = { Caller };

    ghost view = { λ r. caller_at r.seat };

    ghost invariant = { λ r. IsTrue (is_reading (caller_at r.seat).view.position)
        × IsAnswered r.seat };
}

impl<D: Device, O: Object, N: Label, W: Shipper> Store<D, O, N, W> {
    /// Answers a query from one committed state. The number is the front: the count of updates in that
    /// state, which is at least one past each place, and at least each front, that the caller was told
    /// before. It makes at most five steps more than the query costs.
    #[inline(always)]
    pub fn read<L: Ledger>(
        &self,
        pass: &mut Pass,
        query: &O::Query,
        steps: &mut Steps<L>,
    ) -> (O::Answer, u64)
        requires of { IsCallerOf O.Contents N.table N.base pass.old }
        ensures answered { HasAnswered O.machine O.Contents N.base N.table query.now pass.old pass.new
            result }
        // The read makes at most five steps more than the query costs in the state after the updates that the
        // caller has now seen, and the counter rises by them.
        ensures cost { HasCost O.machine O.Contents N.base 5 pass.new.view.seen query.now
            pass.old.view pass.new.view steps.old steps.new }
    {
        self.shared.enter(&mut pass.seat);
        steps.add(ENTER_STEPS);
        let told = self.ask_seat(&mut pass.seat, query, steps);
        self.shared.leave(&mut pass.seat);
        steps.add(1);
        told
    }

    // As `query`, with a count of its own, whose ledger has to be a type parameter.
    #[inline(always)]
    fn read_counted<L: Ledger>(
        &self,
        blank: Blank,
        pass: &mut Pass,
        query: &O::Query,
    ) -> (O::Answer, u64)
        requires name { blank.name ≡ L.name }
        requires parts { (blank.parts ≡ L.parts) × (0 < blank.parts) }
        requires of { IsCallerOf O.Contents N.table N.base pass.old }
        ensures { HasAnswered O.machine O.Contents N.base N.table query.now pass.old pass.new result }
    {
        self.read(pass, query, &mut Steps::<L>::of(blank))
    }

    /// Answers a query as [`Store::read`] does, for who has no use for the count of its steps. By `read` that
    /// takes two functions: one that is generic in the ledger, and one that calls it with `Brand`.
    #[inline(always)]
    pub fn query(&self, pass: &mut Pass, query: &O::Query) -> (O::Answer, u64)
        requires of { IsCallerOf O.Contents N.table N.base pass.old }
        ensures { HasAnswered O.machine O.Contents N.base N.table query.now pass.old pass.new result }
    {
        self.read_counted::<Brand>(Blank::new(1), pass, query)
    }

    /// Enters, in three steps: from now on the caller reads one committed state.
    pub fn enter<L: Ledger>(&self, pass: Pass, steps: &mut Steps<L>) -> Reading
        requires of { IsCallerOf O.Contents N.table N.base pass }
        // The caller reads one committed image, of the state after all that it has now seen, with the count
        // there as its front.
        ensures of { IsReaderOf O.Contents (on_words O.machine) N.table N.base result }
        ensures same { IsSameCaller pass result }
        // What the caller has now seen begins with all that it had seen.
        ensures later { StartsWith result.view.seen pass.view.seen }
        // The caller keeps the front, behind those that it was told before.
        ensures fronts { result.view.fronts
            ≡ pass.view.fronts ++ front_of result.view.position ∷ [] }
        // It knows the moments at which what it has now seen was committed, and those that it knew stay.
        ensures dated { IsDatedBy O.Contents (on_words O.machine) N.base pass.view result.view }
        // Of what the caller knows only its position, what it has seen, its moments, its fronts and the number
        // of its steps change.
        ensures still { result.view ≡ record pass.view {
          position = result.view.position;
          seen = result.view.seen;
          moments = result.view.moments;
          fronts = result.view.fronts;
          steps = pass.view.steps + 3;
        } }
        ensures counted { steps.new ≡ steps.old + 3 }
    {
        let Pass { mut seat } = pass;
        self.shared.enter(&mut seat);
        steps.add(ENTER_STEPS);
        Reading { seat }
    }

    /// Answers a query from the state that the reading entered. The number is the front, the same for
    /// all its answers. It makes at most one step more than the query costs.
    #[inline(always)]
    pub fn ask<L: Ledger>(
        &self,
        reading: &mut Reading,
        query: &O::Query,
        steps: &mut Steps<L>,
    ) -> (O::Answer, u64)
        requires of { IsReaderOf O.Contents (on_words O.machine) N.table N.base reading.old }
        ensures of { IsReaderOf O.Contents (on_words O.machine) N.table N.base reading.new }
        ensures same { IsSameCaller reading.old reading.new }
        // The front is the one that the reading entered with.
        ensures front { result.1 ≡ front_of reading.old.view.position }
        // The front is the count at the opening, and one more for each update that the caller has seen.
        ensures seen { (s : O.State) (k : ℕ) → O.Contents N.base.order N.base.image s k →
            result.1 ≡ k + length reading.old.view.seen }
        // The answer is the object's in the state after the updates that the caller has seen.
        ensures answer { IsAnswer O.machine O.Contents N.base reading.old.view.seen query.now
            result.0 }
        ensures still { OnlySteps reading.old.view reading.new.view }
        // The call makes at most one step more than the query costs in that state, and the counter rises by
        // its steps.
        ensures cost { HasCost O.machine O.Contents N.base 1 reading.old.view.seen query.now
            reading.old.view reading.new.view steps.old steps.new }
    {
        self.ask_seat(&mut reading.seat, query, steps)
    }

    /// Leaves, in one step, and gives the pass back.
    pub fn leave<L: Ledger>(&self, reading: Reading, steps: &mut Steps<L>) -> Pass
        requires of { IsReaderOf O.Contents (on_words O.machine) N.table N.base reading }
        ensures of { IsCallerOf O.Contents N.table N.base result }
        ensures same { IsSameCaller reading result }
        ensures still { result.view ≡ record reading.view {
          position = Out;
          steps = reading.view.steps + 1;
        } }
        ensures counted { steps.new ≡ steps.old + 1 }
    {
        let Reading { mut seat } = reading;
        self.shared.leave(&mut seat);
        steps.add(1);
        Pass::of(seat)
    }

    // The answer to a query and its front, from the image that the seat reads.
    #[inline(always)]
    fn ask_seat<L: Ledger>(
        &self,
        seat: &mut Seat,
        query: &O::Query,
        steps: &mut Steps<L>,
    ) -> (O::Answer, u64)
        requires of { IsSeatOf self.now.shared seat.old }
        requires reads { IsTrue (is_reading (view seat.old).position) }
        requires stands { let v = view seat.old in IsHeldSinceOpening O.Contents (on_words O.machine)
            v.base (image_of v.position) v.seen (front_of v.position) }
        ensures same { IsSameSeat seat.old seat.new }
        ensures still { OnlySteps (view seat.old) (view seat.new) }
        ensures front { result.1 ≡ front_of (view seat.old).position }
        ensures answer { let v = view seat.old in
            IsAnswer O.machine O.Contents v.base v.seen query.now result.0 }
        ensures cost { let v = view seat.old in HasCost O.machine O.Contents v.base 1 v.seen
            query.now v (view seat.new) steps.old steps.new }
    {
        let front = self.shared.load(seat, COUNT);
        steps.add(1);
        let answer = ask(&self.shared, seat, query, steps);
        (answer, front)
    }
}
