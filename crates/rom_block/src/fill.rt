//! The four words of a unit.
ghost use Rattle.std.specs.Prelude.{◌≡◌, ◌+◌, ◌≤◌, ◌<◌, ◌^◌, length, slice_index};
ghost use Rattle.rom_model.specs.Space.{Costs, HasRoom, IsSparing, ChangesOnly};

use rom_model::{Space, store_changed};

/// Makes the four words from that offset on these, counted in words from the first. A unit that was
/// free before may already hold some of them, and those are left alone.
pub fn fill_node<M: Space>(space: &mut M, at: u64, words: [u64; 4])
    requires within { at + 4 ≤ length (M.shown.image space.old) }
    requires small { at + 4 < 2 ^ 64 }
    requires room { HasRoom M.shown 4 space.old }
    ensures first { slice_index (M.shown.image space.new) at ≡ slice_index words 0 }
    ensures second { slice_index (M.shown.image space.new) (at + 1) ≡ slice_index words 1 }
    ensures third { slice_index (M.shown.image space.new) (at + 2) ≡ slice_index words 2 }
    ensures fourth { slice_index (M.shown.image space.new) (at + 3) ≡ slice_index words 3 }
    ensures others { ChangesOnly at 4 (M.shown.image space.old) (M.shown.image space.new) }
    ensures costs { Costs M.shown 4 4 space.old space.new }
    // No more stores are counted than words differ afterwards.
    ensures sparing { IsSparing M.shown space.old space.new }
{
    store_changed(space, at, words[0]);
    store_changed(space, at + 1, words[1]);
    store_changed(space, at + 2, words[2]);
    store_changed(space, at + 3, words[3]);
}
