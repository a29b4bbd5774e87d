//! The calls on the queue.
ghost use Rattle.std.specs.Prelude.{◌≡◌, ℕ, ◌+◌, ◌*◌, ◌<◌, drop, length, IfSome, IfNone, slice_get};
ghost use Rattle.std.specs.Bool.{MatchBool, OnTrue, OnFalse};
ghost use Rattle.rom_model.specs.Space.{Costs, Looks, HasRoom, IsSparing};
ghost use Rattle.rom_model.specs.State.{State, live, cap};
ghost use Rattle.rom_model.specs.Blocks.{IsOrder};
ghost use Rattle.rom_model.specs.Region.{IsWellFormed, Contents};
ghost use Rattle.rom_queue.specs.Queue.{with_last, with_queue, IsPushed, IsPopped};

use crate::ends::{append, unlink_first};
use rom_block::Blocks;
use rom_model::{Look, QUEUE_HEAD, QUEUE_LEN, Space};

/// Puts a value at the end of the queue. It is false exactly where the heap is full, and then
/// nothing is stored.
pub fn queue_push<M: Space>(space: &mut M, order: u32, value: u64) -> bool
    requires order { IsOrder order }
    requires region { IsWellFormed order (M.shown.image space.old) }
    requires room { HasRoom M.shown 31 space.old }
    // `true`: the heap had room for one element more. `false`: the heap was full.
    ensures had_room { (s : State) (k : ℕ) → Contents order (M.shown.image space.old) s k
        → MatchBool result (live s < cap order) (live s ≡ cap order) }
    // After `true` the value stands at the queue's end, and all else of the state and the count stay.
    ensures contents { (s : State) (k : ℕ) → Contents order (M.shown.image space.old) s k
        → OnTrue result (Contents order (M.shown.image space.new) (with_last s value) k) }
    // After `true` the value has the first block that was free, and each other element keeps its block. No
    // word differs but those of the queue and of the allocator.
    ensures others { (s : State) (k : ℕ) (held : Contents order (M.shown.image space.old) s k)
        → OnTrue result (IsPushed held value (M.shown.image space.new)) }
    ensures region { IsWellFormed order (M.shown.image space.new) }
    // After `false` the words stay.
    ensures full { OnFalse result (Looks M.shown (order + 1) space.old space.new) }
    ensures costs { Costs M.shown (3 * order + 7) (order + 8) space.old space.new }
    // No more stores are counted than words differ afterwards.
    ensures sparing { IsSparing M.shown space.old space.new }
{
    let Some(node) = Blocks::take(space, order, 0) else {
        return false;
    };
    append(space, order, node, value);
    true
}

/// Takes the queue's first value. It is `None` exactly where the queue is empty, and then nothing is
/// stored.
pub fn queue_pop<M: Space>(space: &mut M, order: u32) -> Option<u64>
    requires order { IsOrder order }
    requires region { IsWellFormed order (M.shown.image space.old) }
    requires room { HasRoom M.shown 31 space.old }
    // The answer is the first value, and `None` exactly where the queue is empty.
    ensures first { (s : State) (k : ℕ) → Contents order (M.shown.image space.old) s k
        → result ≡ slice_get s.queue 0 }
    // The queue has lost its first value, if it had one. All else of the state and the count stay.
    ensures contents { (s : State) (k : ℕ) → Contents order (M.shown.image space.old) s k
        → Contents order (M.shown.image space.new) (with_queue s (drop 1 s.queue)) k }
    // If a value was taken, each other element keeps its block, and the words of the block that is given back
    // stay. No word differs but those of the queue and of the allocator.
    ensures others { (s : State) (k : ℕ) (held : Contents order (M.shown.image space.old) s k)
        → IfSome result (λ value. IsPopped held value (M.shown.image space.new)) }
    ensures region { IsWellFormed order (M.shown.image space.new) }
    // After `None` the words stay.
    ensures empty { IfNone result (Looks M.shown 1 space.old space.new) }
    ensures costs { Costs M.shown (2 * order + 4) (order + 4) space.old space.new }
    // No more stores are counted than words differ afterwards.
    ensures sparing { IsSparing M.shown space.old space.new }
{
    let head = space.load(QUEUE_HEAD);
    if head == 0 {
        return None;
    }
    let value = space.load(head);
    unlink_first(space, order, head);
    Blocks::give(space, order, head, 0);
    Some(value)
}

/// The queue's first value.
pub fn queue_front<M: Look>(space: &mut M, order: u32) -> Option<u64>
    requires order { IsOrder order }
    requires region { IsWellFormed order (M.shown.image space.old) }
    // The answer is the first value, and `None` exactly where the queue is empty.
    ensures front { (s : State) (k : ℕ) → Contents order (M.shown.image space.old) s k
        → result ≡ slice_get s.queue 0 }
    ensures looks { Looks M.shown 2 space.old space.new }
{
    let first = space.load(QUEUE_HEAD);
    if first == 0 {
        return None;
    }
    Some(space.load(first))
}

/// How many values the queue has.
pub fn queue_len<M: Look>(space: &mut M, order: u32) -> u64
    requires order { IsOrder order }
    requires region { IsWellFormed order (M.shown.image space.old) }
    ensures len { (s : State) (k : ℕ) → Contents order (M.shown.image space.old) s k
        → result ≡ length s.queue }
    ensures looks { Looks M.shown 1 space.old space.new }
{
    space.load(QUEUE_LEN)
}
