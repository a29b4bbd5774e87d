//! One bucket's chain in the order of its keys.
ghost use Rattle.std.specs.Prelude.{◌≡◌, ℕ, List, length, OnOk, OnErr};
ghost use Rattle.rom_model.specs.Blocks.{IsOrder, region_len};
ghost use Rattle.rom_model.specs.VecSpace.{words_of_space};
ghost use Rattle.rom_heap.specs.Node.{IsOldBucket};
ghost use Rattle.rom_heap.specs.Renewed.{IsSortedBucket};

use crate::renew::node::{Node, collect, relink};
use rom_model::VecSpace;
use std::alloc::AllocError;

/// Links a bucket's nodes by rising key. What stood in `nodes`, a list that one bucket after another
/// uses, goes. After `AllocError` the words are as they were.
pub fn sort_bucket(
    space: &mut VecSpace,
    order: u32,
    bucket: u64,
    nodes: &mut Vec<Node>,
) -> Result<(), AllocError>
    requires order { IsOrder order }
    requires sized { length (words_of_space space.old) ≡ region_len order }
    requires bucket { (blocks : List ℕ) × IsOldBucket order bucket (words_of_space space.old) blocks }
    ensures sorted { OnOk result ((blocks : List ℕ) →
        IsOldBucket order bucket (words_of_space space.old) blocks →
        IsSortedBucket order bucket blocks (words_of_space space.old) (words_of_space space.new)) }
    ensures refused { OnErr result (words_of_space space.new ≡ words_of_space space.old) }
    ensures long { length (words_of_space space.new) ≡ length (words_of_space space.old) }
{
    collect(space.words(), order, bucket, nodes)?;
    nodes.sort_unstable_by_key(|node| node.key);
    relink(space, order, bucket, nodes);
    Ok(())
}
