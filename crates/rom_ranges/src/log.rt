//! The offsets that were added since a moment, as ranges.
ghost use Rattle.std.specs.Prelude.{◌≡◌, ◌⊎◌, ◌↔◌, ℕ, ◌+◌, ◌^◌, ◌<◌, ◌≤◌, [], length, IfOk};
ghost use Rattle.rom_ranges.specs.Ranges.{AreApart, AreWithin, IsHeld, held_count};

use crate::holding::hold;
use crate::range::Range;
use std::alloc::{AllocError, Global};
use std::marker::Model;

/// The offsets that were added since it was cleared, as ranges that rise, are disjoint and do not
/// touch. It has room for so many ranges, and within it `add` takes no memory.
#[derive(Drop)]
pub struct RangeLog {
    ranges: Vec<Range>,
    // How often an offset was added, which is counted as far as there is room for ranges.
    added: u64,
    room: u64,
}

impl Model for RangeLog {
    ghost use Rattle.std.specs.Prelude.{◌≤◌};
    ghost use Rattle.std.specs.Vec.{vec_capacity};
    ghost use Rattle.rom_ranges.specs.Log.{Logged};
    ghost use Rattle.rom_ranges.specs.Ranges.{AreApart};

    ghost Value = { Logged };

    ghost view = { λ l. record { ranges = l.ranges.items; added = l.added; room = l.room } };

    ghost invariant = { λ l. AreApart l.ranges.items × (l.room ≤ vec_capacity l.ranges) };
}

impl RangeLog {
    /// An empty log with room for so many ranges. There is no other error than want of memory.
    pub fn with_room(alloc: Global, max: u64) -> Result<RangeLog, AllocError>
        ensures { IfOk result (λ log. log ≡ record { ranges = []; added = 0; room = max }) }
    {
        Ok(RangeLog {
            ranges: Vec::with_capacity(alloc, max as usize)?,
            added: 0,
            room: max,
        })
    }

    /// Holds an offset from now on, whether it did before or not. Words that follow each other are stored
    /// one after another, so the last range is looked at first. An offset in it or behind it is found by a
    /// comparison or two. Any other costs a binary search, and a shift of the ranges behind it where it
    /// makes a range or joins two.
    pub fn add(&mut self, at: u64)
        requires room { length self.old.ranges < self.old.room }
        requires small { at < 2 ^ 63 }
        // It holds this offset and those that it held, and no other.
        ensures held { (k : ℕ) → IsHeld self.new.ranges k ↔ (IsHeld self.old.ranges k ⊎ (k ≡ at)) }
        ensures apart { AreApart self.new.ranges }
        // Where the offset is below a length within which all ranges ended, they end within it still.
        ensures within { (len : ℕ) → at < len → AreWithin len self.old.ranges →
            AreWithin len self.new.ranges }
        ensures longer { length self.new.ranges ≤ length self.old.ranges + 1 }
        // At most one offset more is held than before.
        ensures count { held_count self.new.ranges ≤ held_count self.old.ranges + 1 }
        // The call is counted where the count is below the room.
        ensures added { self.old.added < self.old.room → self.new.added ≡ self.old.added + 1 }
        ensures room { self.new.room ≡ self.old.room }
    {
        self.added = self.added.saturating_add(1);
        hold(&mut self.ranges, at);
    }

    /// The ranges in rising order.
    pub fn list(&self) -> &[Range]
        ensures ranges { result.now ≡ self.now.ranges }
        // They are rising and disjoint, and do not touch.
        ensures apart { AreApart self.now.ranges }
        // Ranges that end within a length hold no more offsets than that.
        ensures few { (len : ℕ) → AreWithin len self.now.ranges → held_count self.now.ranges ≤ len }
    {
        self.ranges.as_slice()
    }

    /// Holds no offset from now on. It keeps the room.
    pub fn clear(&mut self)
        ensures { self.new ≡ record { ranges = []; added = 0; room = self.old.room } }
    {
        self.ranges.clear();
        self.added = 0;
    }
}
