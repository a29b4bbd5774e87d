//! Short lists that stand in the core, and whose room is used again in each pass.
//!
//! On the stack each function that has such a list would fill it with zeros: 8,000 bytes for a scan that
//! finds nothing. `ArrayVec` writes a blank into each place that is cleared: 520 instructions for each call
//! in a pass of sixteen. These lists are cleared by their count alone.
ghost use Rattle.std.specs.Prelude.{◌≡◌, ◌+◌, ◌<◌, ◌≤◌, ◌==◌, [], ◌∷◌, ◌++◌, length};
ghost use Rattle.rom_model.specs.declared.limits.TheConstants.{MAX_CALLERS};

use rom_model::MAX_CALLERS;
use std::marker::Model;

/// How many callers there may be.
const MANY: usize = MAX_CALLERS as usize;

/// At most one value for each caller, in order. What stands behind them is left as it is, so that
/// neither clearing nor filling costs more than the values that are there.
#[derive(Drop)]
pub(crate) struct PerCaller<T: Copy> {
    pub(crate) cells: [T; MANY],
    pub(crate) count: usize,
}

impl<T: Copy> Model for PerCaller<T> {
    ghost use Rattle.std.specs.Prelude.{◌≡◌, ◌≤◌, length, take};
    ghost use Rattle.rom_model.specs.declared.limits.TheConstants.{MAX_CALLERS};
    ghost use Rattle.rom_combine.specs.PerCaller.{PerCaller as Items};

    ghost Value = { Items T };

    ghost view = { λ l. record { items = take l.count l.cells } };

    ghost invariant = { λ l. (l.count ≤ MAX_CALLERS) × (length l.cells ≡ MAX_CALLERS) };
}

impl<T: Copy> PerCaller<T> {
    /// No values. The blank fills the room, and is told to nobody.
    pub fn new(blank: T) -> Self
        ensures { result.items ≡ [] }
    {
        PerCaller {
            cells: [blank; MANY],
            count: 0,
        }
    }

    /// How many values there are.
    #[inline]
    pub fn len(&self) -> usize
        ensures value { result ≡ length self.now.items }
        ensures fits { result ≤ MAX_CALLERS }
    {
        self.count
    }

    /// Whether there is none.
    #[inline]
    pub fn is_empty(&self) -> bool
        ensures { result ≡ (length self.now.items == 0) }
    {
        self.count == 0
    }

    /// The values.
    #[inline]
    pub fn as_slice(&self) -> &[T]
        ensures value { result.now ≡ self.now.items }
        ensures fits { length result.now ≤ MAX_CALLERS }
    {
        &self.cells[..self.count]
    }

    /// Adds a value at the end.
    #[inline]
    pub fn push(&mut self, value: T)
        requires { length self.old.items < MAX_CALLERS }
        ensures items { self.new.items ≡ self.old.items ++ value ∷ [] }
        ensures len { length self.new.items ≡ length self.old.items + 1 }
    {
        self.cells[self.count] = value;
        self.count += 1;
    }

    /// Forgets all values.
    #[inline]
    pub fn clear(&mut self)
        ensures { self.new.items ≡ [] }
    {
        self.count = 0;
    }
}
