//! The nodes of a bucket's chain.
ghost use Rattle.std.specs.Prelude.{◌≡◌, ℕ, ◌<◌, List, length, OnOk};
ghost use Rattle.rom_model.specs.Blocks.{IsOrder, region_len};
ghost use Rattle.rom_model.specs.Chains.{Chain};
ghost use Rattle.rom_model.specs.Region.{buckets};
ghost use Rattle.rom_model.specs.VecSpace.{words_of_space};
ghost use Rattle.rom_heap.specs.Node.{head_of, nodes_of, IsOldBucket, BeginAtBlocks, ChangesLinks};

use rom_map::MAP_LINK;
use rom_model::{Space, VecSpace, blocks_at};
use std::alloc::AllocError;

/// A node of the map.
#[derive(Clone, Copy)]
pub struct Node {
    /// Its key.
    pub key: u64,
    /// Where it begins, in words from the region's start.
    pub at: u64,
}

/// Where the word of the bucket table stands that links to a bucket's first node.
fn head_of(order: u32, bucket: u64) -> u64
    requires order { IsOrder order }
    requires bucket { bucket < buckets order }
    ensures is { result ≡ head_of order bucket }
    ensures within { result < region_len order }
{
    blocks_at(order) + bucket
}

/// The nodes of a bucket, in the order of its chain, in place of those that stood there. After
/// `AllocError` some of them do.
pub fn collect(
    words: &[u64],
    order: u32,
    bucket: u64,
    nodes: &mut Vec<Node>,
) -> Result<(), AllocError>
    requires order { IsOrder order }
    requires sized { length words.now ≡ region_len order }
    requires bucket { (blocks : List ℕ) × IsOldBucket order bucket words.now blocks }
    ensures { OnOk result ((blocks : List ℕ) → IsOldBucket order bucket words.now blocks →
        nodes.new.items ≡ nodes_of order words.now blocks) }
{
    nodes.clear();
    let mut at = words[head_of(order, bucket) as usize];
    while at != 0 {
        let key = words[at as usize];
        nodes.push(Node { key, at })?;
        at = words[(at + MAP_LINK) as usize];
    }
    Ok(())
}

/// Links the nodes one after another as the chain of a bucket.
pub fn relink(space: &mut VecSpace, order: u32, bucket: u64, nodes: &[Node])
    requires order { IsOrder order }
    requires sized { length (words_of_space space.old) ≡ region_len order }
    requires bucket { bucket < buckets order }
    requires nodes { (blocks : List ℕ) × BeginAtBlocks order nodes.now blocks }
    ensures linked { (blocks : List ℕ) → BeginAtBlocks order nodes.now blocks →
        Chain order (words_of_space space.new) (head_of order bucket) 2 blocks }
    ensures others { (blocks : List ℕ) → BeginAtBlocks order nodes.now blocks →
        ChangesLinks order bucket blocks (words_of_space space.old) (words_of_space space.new) }
    ensures long { length (words_of_space space.new) ≡ length (words_of_space space.old) }
{
    let mut link = head_of(order, bucket);
    for node in nodes {
        space.store(link, node.at);
        link = node.at + MAP_LINK;
    }
    space.store(link, 0);
}
