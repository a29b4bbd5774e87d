//! Short lists in place, whose room is used again.
ghost use Rattle.std.specs.Prelude.{◌≡◌, ◌+◌, ◌<◌, ◌≤◌, ◌==◌, [], ◌∷◌, ◌++◌, length};
ghost use Rattle.rom_tail.specs.declared.few.TheConstants.{MOST};

use rom_model::MAX_CALLERS;
use std::marker::Model;

/// The most values of a list, and of a batch: a pass has one for each caller.
pub const MOST: usize = MAX_CALLERS as usize;

/// At most so many values, in order. What stands behind them is left as it is, so that clearing costs nothing.
#[derive(Drop)]
pub struct Few<T: Copy> {
    cells: [T; MOST],
    count: usize,
}

impl<T: Copy> Model for Few<T> {
    ghost use Rattle.std.specs.Prelude.{◌≡◌, ◌≤◌, length, take};
    ghost use Rattle.rom_tail.specs.declared.few.TheConstants.{MOST};
    ghost use Rattle.rom_tail.specs.Few.{Few as Items};

    ghost Value = { Items T };

    ghost view = { λ l. record { items = take l.count l.cells } };

    ghost invariant = { λ l. (l.count ≤ MOST) × (length l.cells ≡ MOST) };
}

impl<T: Copy> Few<T> {
    /// No values. The blank fills the room, and is told to nobody.
    pub fn new(blank: T) -> Self
        ensures { result.items ≡ [] }
    {
        Few {
            cells: [blank; MOST],
            count: 0,
        }
    }

    /// Whether there is none.
    pub fn is_empty(&self) -> bool
        ensures { result ≡ (length self.now.items == 0) }
    {
        self.count == 0
    }

    /// The values.
    pub fn as_slice(&self) -> &[T]
        ensures value { result.now ≡ self.now.items }
        ensures fits { length result.now ≤ MOST }
    {
        &self.cells[..self.count]
    }

    /// Adds a value at the end.
    pub fn push(&mut self, value: T)
        requires { length self.old.items < MOST }
        ensures { self.new.items ≡ self.old.items ++ value ∷ [] }
    {
        self.cells[self.count] = value;
        self.count += 1;
    }

    /// Forgets all values.
    pub fn clear(&mut self)
        ensures { self.new.items ≡ [] }
    {
        self.count = 0;
    }
}
