//! The walk along a bucket's chain, whose keys stand in any order.
ghost use Rattle.std.specs.Prelude.{◌≡◌, length};
ghost use Rattle.rom_model.specs.Blocks.{IsOrder, region_len};
ghost use Rattle.rom_model.specs.Region.{bucket_of};
ghost use Rattle.rom_bucket.specs.Walk.{head_of, HoldsBucket, Finds};

use crate::node::BUCKET_LINK;
use rom_model::{Look, blocks_at, bucket};

/// The place of a key in the chain of its bucket. Whoever takes the node out needs its link. Whoever reads or
/// replaces what the key has needs the node. A place has both, and no word is stored to find it: so a call on
/// two keys can walk to both before it stores anything.
#[derive(Clone, Copy)]
pub struct Place {
    /// The offset of the word that links to the key's node, or of the chain's last link.
    pub link: u64,
    /// Where that node begins, or 0 where the key has none.
    pub node: u64,
}

/// The offset of the word that links to the first node of a key's bucket.
pub fn head_of(order: u32, key: u64) -> u64
    requires order { IsOrder order }
    ensures is { result ≡ head_of order (bucket_of order key) }
{
    blocks_at(order) + bucket(order, key)
}

/// Walks along the chain of the key's bucket to the key's node.
pub fn find<M: Look>(space: &mut M, order: u32, key: u64) -> Place
    requires order { IsOrder order }
    requires sized { length (M.shown.image space.old) ≡ region_len order }
    requires bucket { HoldsBucket order (bucket_of order key) (M.shown.image space.old) }
    // The place of the key in whatever blocks are its bucket, and how many loads are counted at most.
    ensures { Finds M.shown order key result space.old space.new }
{
    let mut link = head_of(order, key);
    let mut node = space.load(link);
    while node != 0 {
        let there = space.load(node);
        if there == key {
            return Place { link, node };
        }
        link = node + BUCKET_LINK;
        node = space.load(link);
    }
    Place { link, node }
}
