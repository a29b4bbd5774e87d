//! The rule, as the table has it.

use crate::layout::Layout;
use crate::views::View;
use atomic_table::{Seat, Shared, TableRule};
use rom_model::Object;
use std::marker::PhantomData;
use std::snapshot::Snapshot;

/// What a table is told once, when it is opened.
#[derive(Drop)]
pub struct Key {
    pub layout: Layout,
    /// The words of the whole table at the opening. It stands in contracts alone and costs nothing.
    pub words: Snapshot<Vec<u64>>,
    /// The device's count of faults then.
    pub faults: u64,
}

/// The rule of a table whose regions are those of an object.
pub struct Law<O> {
    object: PhantomData<O>,
}

impl<O: Object> TableRule<u8, View, Key> for Law<O> {
    ghost use Rattle.rom_model.specs.Machine.{on_words};
    ghost use Rattle.rom_rule.specs.Views.{base_of, opening_view};
    ghost use Rattle.rom_rule.specs.Rule.{IsRuled};

    ghost holds = { λ key. IsRuled O.Contents (on_words O.machine) (base_of key) };

    ghost first = { λ key. opening_view (base_of key) };
}

/// The shared words, as threads see them. The table has no slots for values.
pub type SharedWords<O> = Shared<u8, View, Key, Law<O>>;

/// A seat at the shared words. It has no bytes.
pub type Token = Seat<u8, View>;
