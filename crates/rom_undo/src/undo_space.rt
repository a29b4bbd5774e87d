//! A space whose stores can be rolled back.
ghost use Rattle.std.specs.Prelude.{◌≡◌, ◌-◌, ◌*◌, ◌≤◌, length, take};
ghost use Rattle.rom_model.specs.Space.{HasRoom, Stores};
ghost use Rattle.rom_undo.specs.RolledBack.{AreWithin, rolled_back};

use crate::before_image::BeforeImage;
use rom_model::{Look, Space};

/// A space whose stores can be rolled back, as many as it has cells. The space below has room for all that
/// may come and for as many that roll them back.
pub struct UndoSpace<'a, M: Space> {
    /// The space below.
    pub space: &'a mut M,
    /// What stood where words were stored over, from the first store to the last.
    pub cells: &'a mut [BeforeImage],
    /// How many words were stored over.
    pub len: usize,
    // What was stored over has a cell, the space below has room for what may still come, and each
    // before-image is of a word that is there.
    pub ghost few: { len ≤ length cells.now },
    pub ghost roomy: { HasRoom M.shown (2 * length cells.now - len) space.now },
    pub ghost within: { AreWithin (length (M.shown.image space.now)) (take len cells.now) },
}

impl<'a, M: Space> Look for UndoSpace<'a, M> {
    ghost use Rattle.std.specs.Prelude.{ℕ, ◌+◌, ◌-◌, List, length, take, true, if◌then◌else◌};
    ghost use Rattle.rom_undo.specs.RolledBack.{rolled_back};

    ghost shown = { record {
      image = λ s. M.shown.image s.space.now;
      tells_loads = M.shown.tells_loads;
      loads = λ s. M.shown.loads s.space.now + (length s.cells.now - s.len);
      tells_stores = true;
      stores = λ s. s.len;
      has_limit = true;
      limit = λ s. length s.cells.now;
      Rest = ℕ × ℕ × List ℕ × ℕ × ℕ × M.shown.Rest;
      rest = λ s. (
        s.space.ghost_name,
        s.cells.ghost_name,
        rolled_back (take s.len s.cells.now) (M.shown.image s.space.now),
        (if M.shown.tells_stores then M.shown.stores s.space.now - s.len else 0),
        M.shown.limit s.space.now,
        M.shown.rest s.space.now,
      );
    } };

    fn load(&mut self, at: u64) -> u64 {
        self.space.load(at)
    }

    ghost limit_counts = { λ is. is };
}

impl<'a, M: Space> Space for UndoSpace<'a, M> {
    fn store(&mut self, at: u64, value: u64) {
        let word = self.space.load(at);
        self.cells[self.len] = BeforeImage { at, word };
        self.len += 1;
        self.space.store(at, value);
    }
}

/// Puts back what stood where words were stored over, the last first.
pub fn roll_back<M: Space>(space: &mut M, words: &[BeforeImage])
    requires within { AreWithin (length (M.shown.image space.old)) words.now }
    requires room { HasRoom M.shown (length words.now) space.old }
    ensures image { M.shown.image space.new ≡ rolled_back words.now (M.shown.image space.old) }
    ensures stores { Stores M.shown (length words.now) space.old space.new }
{
    for i in 0..words.len() {
        let before = words[words.len() - 1 - i];
        space.store(before.at, before.word);
    }
}
