//! The renewal of a whole region.
ghost use Rattle.std.specs.Prelude.{◌≡◌, ℕ, length, OnOk};
ghost use Rattle.rom_model.specs.Blocks.{IsOrder};
ghost use Rattle.rom_model.specs.State.{State};
ghost use Rattle.rom_model.specs.Region.{Chains, IsOldRegion, OldContents, Contents};
ghost use Rattle.rom_model.specs.VecSpace.{words_of_space};
ghost use Rattle.rom_heap.specs.Renewed.{KeepsElements};

use crate::renew::bucket::sort_bucket;
use rom_model::{Space, VERSION, VecSpace, power_of_two};
use std::alloc::{AllocError, Global};

/// The version that a region becomes.
const RENEWED: u64 = 2;

/// Makes a region of version 1 one of version 2: each bucket's chain is linked by rising key, and each
/// element keeps its block. It takes memory for the nodes of the longest chain, two words a node. After
/// `AllocError` the words may be any.
pub fn renew_region(alloc: Global, space: &mut VecSpace, order: u32) -> Result<(), AllocError>
    requires order { IsOrder order }
    // In version 1 the words stand for some state and count.
    requires region { (s : State) × (k : ℕ) × OldContents order (words_of_space space.old) s k }
    // After `Ok` they stand for the same state and count in version 2, for each state and count that they
    // stood for.
    ensures renewed { OnOk result ((s : State) (k : ℕ) → OldContents order (words_of_space space.old) s k
        → Contents order (words_of_space space.new) s k) }
    // After `Ok` no word differs but the version, the words of the bucket table, and the links of the map's
    // nodes.
    ensures kept { OnOk result ((p : Chains) (s : State) (k : ℕ) →
        IsOldRegion order (words_of_space space.old) p s k →
        KeepsElements order p (words_of_space space.old) (words_of_space space.new)) }
    ensures long { length (words_of_space space.new) ≡ length (words_of_space space.old) }
{
    let mut nodes = Vec::new(alloc);
    for bucket in 0..power_of_two(order - 2) {
        sort_bucket(space, order, bucket, &mut nodes)?;
    }
    space.store(VERSION, RENEWED);
    Ok(())
}
