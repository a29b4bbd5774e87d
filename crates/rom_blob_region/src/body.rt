//! Blocks for bytes.
ghost use Rattle.std.specs.Prelude.{◌≡◌, ◌≢◌, ℕ, ◌+◌, ◌*◌, ◌≤◌, Bool, length, MatchOption, IfNone};
ghost use Rattle.rom_model.specs.Space.{Costs, Looks, HasRoom};
ghost use Rattle.rom_model.specs.Blocks.{IsOrder, IsDisjoint, AreWords, region_len};
ghost use Rattle.rom_block.specs.Taken.{IsSomeTree};
ghost use Rattle.rom_block.specs.Walk.{ChangesTree};
ghost use Rattle.rom_blob_region.specs.State.{order_for};
ghost use Rattle.rom_blob_region.specs.Calls.{BodyTaken, NoBody, HoldsBody, BodyGiven};

use rom_block::Blocks;
use rom_model::Space;

/// The least order of a block with room for so many bytes, which are at most 256.
pub fn order_for(len: u64) -> u32
    ensures is { result ≡ order_for len }
    ensures small { result ≤ 3 }
{
    if len <= 32 {
        0
    } else if len <= 64 {
        1
    } else if len <= 128 {
        2
    } else {
        3
    }
}

/// Takes the lowest block that is free for so many bytes, and tells where it begins, or 0 for no bytes.
/// `None` where no block is free for them; then nothing is stored.
pub fn take_body<M: Space>(space: &mut M, order: u32, len: u64) -> Option<u64>
    requires order { IsOrder order }
    requires sized { length (M.shown.image space.old) ≡ region_len order }
    requires blocks { IsSomeTree order (M.shown.image space.old) }
    requires room { HasRoom M.shown 17 space.old }
    ensures taken { (blocks : ℕ → Bool) → IsDisjoint order blocks
        → AreWords order blocks (M.shown.image space.old)
        → MatchOption result (NoBody order len blocks)
        (BodyTaken order len blocks (M.shown.image space.old) (M.shown.image space.new)) }
    ensures none { IfNone result (Looks M.shown 17 space.old space.new) }
    ensures others { ChangesTree M.shown order space.old space.new }
    ensures costs { Costs M.shown 49 17 space.old space.new }
{
    if len == 0 {
        return Some(0);
    }
    Blocks::take(space, order, order_for(len))
}

/// Gives the block back in which so many bytes stood, where there were any.
pub fn give_body<M: Space>(space: &mut M, order: u32, at: u64, len: u64)
    requires order { IsOrder order }
    requires sized { length (M.shown.image space.old) ≡ region_len order }
    requires holds { len ≢ 0 → (blocks : ℕ → Bool) × (x : ℕ)
        × HoldsBody order len at blocks (M.shown.image space.old) x }
    requires room { HasRoom M.shown 17 space.old }
    ensures given { BodyGiven order len at (M.shown.image space.old) (M.shown.image space.new) }
    ensures others { ChangesTree M.shown order space.old space.new }
    ensures costs { Costs M.shown 32 17 space.old space.new }
{
    if len != 0 {
        Blocks::give(space, order, at, order_for(len));
    }
}
