//! The side that a caller reads as words, of which a query can be asked.
ghost use Rattle.std.specs.Prelude.{◌≡◌, ℕ, ◌+◌, ◌≤◌, IsTrue, length};
ghost use Rattle.rom_model.specs.Blocks.{region_len};
ghost use Rattle.rom_lr.specs.Seats.{IsSameSeat, IsSeatOf, view};
ghost use Rattle.rom_rule.specs.Views.{image_of, is_reading};

use crate::seats::Seat;
use crate::shared::Shared;
use crate::steps::Steps;
use rom_model::{Look, Object};
use std::sync::ledger::Ledger;

/// The side that a seat reads. Its words are those of the seat's image, which nobody changes, and
/// each load is one of the seat's steps and is counted.
struct SideLook<'a, 'b, O: Object, L: Ledger> {
    shared: &'a Shared<O>,
    seat: &'a mut Seat,
    steps: &'b mut Steps<L>,
    ghost of: { IsSeatOf shared.now seat.now },
    ghost entered: { IsTrue (is_reading (view seat.now).position) },
    ghost sized: { length (image_of (view seat.now).position)
        ≡ region_len shared.now.layout.order },
}

impl<'a, 'b, O: Object, L: Ledger> Look for SideLook<'a, 'b, O, L> {
    ghost use Rattle.std.specs.Prelude.{ℕ, ◌-◌, true, false};
    ghost use Rattle.atomic_table.specs.Seated.{TableId};
    ghost use Rattle.rom_lr.specs.Reading.{but_steps};
    ghost use Rattle.rom_lr.specs.Seats.{view};
    ghost use Rattle.rom_rule.specs.Views.{image_of};
    ghost use Rattle.rom_rule.specs.declared.views.View.{View};

    // The counter and the seat's steps rise together, so neither difference changes.
    ghost shown = { record {
      image = λ s. image_of (view s.seat.now).position;
      tells_loads = true;
      loads = λ s. s.steps.now;
      tells_stores = false;
      stores = λ _. 0;
      has_limit = false;
      limit = λ _. 0;
      Rest = ((ℕ × ℕ) × TableId × ℕ × View) × ℕ × ℕ;
      rest = λ s. let v = view s.seat.now in (
        (
          (s.seat.ghost_name, s.steps.ghost_name),
          s.seat.now.token.table_id,
          s.seat.now.number,
          but_steps v,
        ),
        s.steps.now - v.steps,
        v.steps - s.steps.now,
      );
    } };

    fn load(&mut self, at: u64) -> u64 {
        self.steps.add(1);
        self.shared.load(self.seat, at)
    }

    ghost limit_counts = { λ no. no };
}

/// Answers a query from the side that the seat reads, in at most as many steps as the query costs,
/// and counts them. It neither waits nor takes memory.
#[inline(always)]
pub fn ask<O: Object, L: Ledger>(
    shared: &Shared<O>,
    seat: &mut Seat,
    query: &O::Query,
    steps: &mut Steps<L>,
) -> O::Answer
    requires of { IsSeatOf shared.now seat.old }
    requires entered { IsTrue (is_reading (view seat.old).position) }
    // The image that the seat reads stands for some state and count of the object.
    requires region { let v = view seat.old in
        (s : O.State) × (k : ℕ) × O.Contents v.base.order (image_of v.position) s k }
    ensures same { IsSameSeat seat.old seat.new }
    ensures still { view seat.new ≡ record (view seat.old) { steps = (view seat.new).steps } }
    // The answer is the object's in the state that this image stands for.
    ensures told { let v = view seat.old in
        (s : O.State) (k : ℕ) → O.Contents v.base.order (image_of v.position) s k →
        result ≡ O.machine.tell s query.now }
    // The counter rises by the steps that the seat makes.
    ensures counted { steps.new + (view seat.old).steps ≡ steps.old + (view seat.new).steps }
    ensures least { steps.old ≤ steps.new }
    // The steps are at most as many as the query costs in that state.
    ensures most { let v = view seat.old in
        (s : O.State) (k : ℕ) → O.Contents v.base.order (image_of v.position) s k →
        steps.new ≤ steps.old + O.machine.cost v.base.order s query.now }
{
    let order = shared.layout.order();
    let mut side = SideLook {
        shared,
        seat,
        steps,
    };
    let answer = O::answer(&mut side, order, query);
    let SideLook {
        shared: _,
        seat: _,
        steps: _,
    } = side;
    answer
}
