//! The two ends of the queue: its head, its tail and its length among the root words, and its nodes.
ghost use Rattle.std.specs.Prelude.{◌≡◌, ◌≢◌, ℕ, ◌+◌, ◌^◌, ◌<◌, ◌≤◌, List, length, slice_index};
ghost use Rattle.rom_model.specs.Space.{Costs, Looks, HasRoom, IsSparing, ChangesOnly};
ghost use Rattle.rom_model.specs.Blocks.{region_len};
ghost use Rattle.rom_model.specs.Region.{IsQueue};
ghost use Rattle.rom_model.specs.Links.{link_after};
ghost use Rattle.rom_queue.specs.Ends.{IsTailLinked, MayTake, IsAppended, HasHead, BeginsQueue, IsHeadUnlinked};

use crate::node::QUEUE_LINK;
use rom_block::fill_node;
use rom_model::{Look, QUEUE_HEAD, QUEUE_LEN, QUEUE_TAIL, Space};

/// The offset of the word that links to the end of the queue: the tail's next one, or the head
/// where the queue is empty.
fn last_link<M: Look>(space: &mut M, order: u32) -> u64
    requires long { QUEUE_LEN < length (M.shown.image space.old) }
    requires small { slice_index (M.shown.image space.old) QUEUE_TAIL < 2 ^ 63 }
    ensures is { (blocks values : List ℕ) → IsQueue order (M.shown.image space.old) blocks values
        → result ≡ link_after order QUEUE_HEAD QUEUE_LINK blocks }
    ensures looks { Looks M.shown 1 space.old space.new }
{
    let tail = space.load(QUEUE_TAIL);
    if tail == 0 {
        return QUEUE_HEAD;
    }
    tail + QUEUE_LINK
}

/// Links the node that begins there to the end of the queue.
fn link_last<M: Space>(space: &mut M, link: u64, at: u64)
    requires within { link < length (M.shown.image space.old) }
    requires long { QUEUE_LEN < length (M.shown.image space.old) }
    requires apart { link ≢ QUEUE_TAIL }
    requires apart_too { link ≢ QUEUE_LEN }
    requires len { slice_index (M.shown.image space.old) QUEUE_LEN < 2 ^ 63 }
    requires room { HasRoom M.shown 3 space.old }
    ensures linked { IsTailLinked link at (M.shown.image space.old) (M.shown.image space.new) }
    ensures costs { Costs M.shown 1 3 space.old space.new }
    ensures sparing { slice_index (M.shown.image space.old) link ≢ at
        → slice_index (M.shown.image space.old) QUEUE_TAIL ≢ at
        → IsSparing M.shown space.old space.new }
{
    space.store(link, at);
    space.store(QUEUE_TAIL, at);
    let len = space.load(QUEUE_LEN);
    space.store(QUEUE_LEN, len + 1);
}

/// Puts a value into the block that begins there, and the block at the end of the queue.
pub fn append<M: Space>(space: &mut M, order: u32, at: u64, value: u64)
    requires most { order ≤ 16 }
    requires sized { length (M.shown.image space.old) ≡ region_len order }
    requires queue { MayTake order at (M.shown.image space.old) }
    requires room { HasRoom M.shown 7 space.old }
    ensures appended { (q : MayTake order at (M.shown.image space.old))
        → IsAppended q value (M.shown.image space.new) }
    ensures costs { Costs M.shown 6 7 space.old space.new }
    ensures sparing { IsSparing M.shown space.old space.new }
{
    let last = last_link(space, order);
    fill_node(space, at, [value, 0, 0, 0]);
    link_last(space, last, at);
}

/// Makes the node that begins there the queue's head; 0 is none, and then there is no tail.
fn set_head<M: Space>(space: &mut M, at: u64)
    requires long { QUEUE_LEN < length (M.shown.image space.old) }
    requires room { HasRoom M.shown 2 space.old }
    ensures head { HasHead at (M.shown.image space.old) (M.shown.image space.new) }
    ensures costs { Costs M.shown 0 2 space.old space.new }
    ensures sparing { slice_index (M.shown.image space.old) QUEUE_HEAD ≢ at
        → slice_index (M.shown.image space.old) QUEUE_TAIL ≢ 0
        → IsSparing M.shown space.old space.new }
{
    space.store(QUEUE_HEAD, at);
    if at == 0 {
        space.store(QUEUE_TAIL, 0);
    }
}

/// Takes the first node, which begins there, out of the queue. Its words stay.
pub fn unlink_first<M: Space>(space: &mut M, order: u32, at: u64)
    requires most { order ≤ 16 }
    requires sized { length (M.shown.image space.old) ≡ region_len order }
    requires queue { BeginsQueue order at (M.shown.image space.old) }
    requires room { HasRoom M.shown 3 space.old }
    ensures unlinked { (q : BeginsQueue order at (M.shown.image space.old))
        → IsHeadUnlinked q (M.shown.image space.new) }
    ensures others { ChangesOnly QUEUE_HEAD 3 (M.shown.image space.old) (M.shown.image space.new) }
    ensures costs { Costs M.shown 2 3 space.old space.new }
    ensures sparing { IsSparing M.shown space.old space.new }
{
    let next = space.load(at + QUEUE_LINK);
    set_head(space, next);
    let len = space.load(QUEUE_LEN);
    space.store(QUEUE_LEN, len - 1);
}
