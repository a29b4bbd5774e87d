//! Queries of the side that a caller reads.
ghost use Rattle.std.specs.Prelude.{◌≡◌, ◌<◌, ℕ, IsTrue};
ghost use Rattle.rom_lr.specs.Seats.{IsSeatOf, view};
ghost use Rattle.rom_model.specs.Region.{Contents};
ghost use Rattle.rom_model.specs.State.{State};
ghost use Rattle.rom_rule.specs.Views.{image_of, is_reading};

use rom_heap::Trio;
use rom_lr::{Seat, Shared, Steps, ask};
use rom_model::{Answer, Query};
use std::marker::Brand;
use std::sync::ledger::{Blank, Ledger};

/// What a query is told in the image that the seat has entered.
pub fn asked(shared: &Shared<Trio>, seat: &mut Seat, query: Query) -> Answer
    requires of { IsSeatOf shared.now seat.old }
    requires entered { IsTrue (is_reading (view seat.old).position) }
    requires region { let v = view seat.old in (s : State) × (k : ℕ)
        × Contents v.base.order (image_of v.position) s k }
    ensures of { IsSeatOf shared.now seat.new }
    ensures entered { IsTrue (is_reading (view seat.new).position) }
    ensures region { let v = view seat.new in (s : State) × (k : ℕ)
        × Contents v.base.order (image_of v.position) s k }
{
    asked_as::<Brand>(Blank::new(1), shared, seat, query)
}

/// The same, with its steps counted in a new counter of the ledger.
fn asked_as<L: Ledger>(blank: Blank, shared: &Shared<Trio>, seat: &mut Seat, query: Query) -> Answer
    requires name { blank.name ≡ L.name }
    requires parts { blank.parts ≡ L.parts }
    requires part { 0 < blank.parts }
    requires of { IsSeatOf shared.now seat.old }
    requires entered { IsTrue (is_reading (view seat.old).position) }
    requires region { let v = view seat.old in (s : State) × (k : ℕ)
        × Contents v.base.order (image_of v.position) s k }
    ensures of { IsSeatOf shared.now seat.new }
    ensures still { view seat.new ≡ record (view seat.old) { steps = (view seat.new).steps } }
{
    let mut steps = Steps::<L>::of(blank);
    ask(shared, seat, &query, &mut steps)
}
