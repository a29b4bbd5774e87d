//! Putting a node into a bucket's chain, and taking one out.
ghost use Rattle.std.specs.Prelude.{◌≡◌, ◌≢◌, ◌⊎◌, ◌+◌, ◌-◌, ◌^◌, ◌<◌, ◌≤◌, length, slice_index};
ghost use Rattle.rom_model.specs.Space.{Costs, HasRoom, IsSparing};
ghost use Rattle.rom_model.specs.Blocks.{IsOrder, block_of, region_len};
ghost use Rattle.rom_model.specs.Region.{bucket_of};
ghost use Rattle.rom_bucket.specs.Walk.{head_of};
ghost use Rattle.rom_bucket.specs.Link.{first_place, IsNodeLinked, IsNodeUnlinked};

use crate::node::{BUCKET_LINK, Node};
use crate::walk::{Place, head_of};
use rom_block::fill_node;
use rom_model::Space;

/// Makes the block that begins there a node, and links it into a chain at that place, before the node
/// that the place tells. The root's word at the offset `size` counts the keys.
pub fn link_at<M: Space>(space: &mut M, size: u64, place: Place, at: u64, node: Node)
    requires link { place.link < length (M.shown.image space.old) }
    requires outside { (place.link < at) ⊎ (at + 4 ≤ place.link) }
    requires apart { place.link ≢ size }
    requires root { size < at }
    requires within { at + 4 ≤ length (M.shown.image space.old) }
    requires small { at < 2 ^ 63 }
    requires len { slice_index (M.shown.image space.old) size < 2 ^ 63 }
    requires room { HasRoom M.shown 6 space.old }
    // The node stands at that place. Beside its words only the place's link and the count of keys differ.
    ensures linked { IsNodeLinked size place at node (M.shown.image space.old)
        (M.shown.image space.new) }
    ensures costs { Costs M.shown 5 6 space.old space.new }
    // If the link did not lead to that block before, no more stores are counted than words differ.
    ensures sparing { slice_index (M.shown.image space.old) place.link ≢ at
        → IsSparing M.shown space.old space.new }
{
    fill_node(space, at, [node.key, node.second, place.node, node.last]);
    space.store(place.link, at);
    let len = space.load(size);
    space.store(size, len + 1);
}

/// Makes the block that begins there a node, and links it in front of its key's bucket. The root's word
/// at the offset `size` counts the keys.
pub fn link_first<M: Space>(space: &mut M, order: u32, size: u64, at: u64, node: Node)
    requires order { IsOrder order }
    requires sized { length (M.shown.image space.old) ≡ region_len order }
    requires least { block_of order (2 ^ (order - 4)) ≤ at }
    requires most { at + 4 ≤ region_len order }
    requires root { size ≤ 16 }
    requires len { slice_index (M.shown.image space.old) size < 2 ^ 63 }
    requires room { HasRoom M.shown 6 space.old }
    // The node is the first of its key's bucket. Beside its words only the bucket's first link and the count
    // of keys differ.
    ensures linked { IsNodeLinked size (first_place order node.key (M.shown.image space.old)) at node
        (M.shown.image space.old) (M.shown.image space.new) }
    ensures costs { Costs M.shown 6 6 space.old space.new }
    // If the bucket did not begin at that block before, no more stores are counted than words differ.
    ensures sparing { slice_index (M.shown.image space.old)
        (head_of order (bucket_of order node.key)) ≢ at
        → IsSparing M.shown space.old space.new }
{
    let link = head_of(order, node.key);
    let first = space.load(link);
    link_at(space, size, Place { link, node: first }, at, node);
}

/// Takes the node at that place out of its chain. Its words stay. The root's word at the offset `size`
/// counts the keys.
pub fn unlink_node<M: Space>(space: &mut M, size: u64, place: Place)
    requires link { place.link < length (M.shown.image space.old) }
    requires node { place.node + 4 ≤ length (M.shown.image space.old) }
    requires small { place.node < 2 ^ 63 }
    requires apart { place.link ≢ size }
    requires long { size < length (M.shown.image space.old) }
    requires len { 0 < slice_index (M.shown.image space.old) size }
    requires room { HasRoom M.shown 2 space.old }
    // The place's link leads to the node behind. Only that link and the count of keys differ.
    ensures unlinked { IsNodeUnlinked size place (M.shown.image space.old) (M.shown.image space.new) }
    ensures costs { Costs M.shown 2 2 space.old space.new }
    // If the link did not lead to the node behind before, no more stores are counted than words differ.
    ensures sparing { slice_index (M.shown.image space.old) place.link
        ≢ slice_index (M.shown.image space.old) (place.node + BUCKET_LINK) →
        IsSparing M.shown space.old space.new }
{
    let next = space.load(place.node + BUCKET_LINK);
    space.store(place.link, next);
    let len = space.load(size);
    space.store(size, len - 1);
}
