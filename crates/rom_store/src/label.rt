//! The one name that a store and the value behind its lock carry.
ghost use Rattle.std.specs.Prelude.{ℕ, List};
ghost use Rattle.atomic_table.specs.Seated.{TableId};
ghost use Rattle.rom_combine.specs.Shipping.{Shipped};
ghost use Rattle.rom_rule.specs.declared.views.Base.{Base};
ghost use Rattle.rom_store.specs.Start.{Start};

use std::marker::Brand;

/// What a store was started on, by a type. It stands in contracts alone, so that what holds behind the
/// lock can speak of the opening; who starts a store picks it.
pub trait Label {
    /// The table of the store.
    ghost table: { TableId };

    /// The order, the number of callers, the image and the device's count of faults.
    ghost base: { Base };

    /// The device as it was then.
    ghost start: { Start };

    /// The images that a stop at some moment since another one might have left by then.
    ghost since: { ℕ → List ℕ → Type 0 };

    /// What the shipper had handed on by then.
    ghost ships: { Shipped };
}

impl Label for Brand {
    ghost use Rattle.rom_store.specs.Blank.{no_base, no_ships, no_start, no_table};

    ghost table = { no_table };

    ghost base = { no_base };

    ghost start = { no_start };

    ghost since = { λ _ _. Unit {0} };

    ghost ships = { no_ships };
}
