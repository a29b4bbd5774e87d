//! Walks along the chains of buckets: which nodes they reach, and where they break.
ghost use Rattle.std.specs.Prelude.{◌≡◌, ◌≢◌, ℕ, ◌<◌, ◌∷◌, List, length, MatchResult, Err, slice_index};
ghost use Rattle.rom_model.specs.Blocks.{IsOrder, region_len};
ghost use Rattle.rom_model.specs.Region.{buckets};
ghost use Rattle.rom_blob_region.specs.Walks.{held, Node, WalksBlobs, AreBlobMarks, AreSomeBlobMarks, IsOnBlobWalk, HasWalkedBlobs};

use crate::inspect::follow::follow_block;
use crate::inspect::node::{inspect_body, inspect_key};
use crate::node::LINK;
use rom_model::{Break, blocks_at};

/// How far a walk along a chain came.
#[derive(Clone, Copy, Debug, PartialEq, Eq)]
pub struct Reached {
    /// Where the next link stands, in words from the region's start.
    pub link: u64,
    /// How many nodes were reached.
    pub count: u64,
}

/// Goes on to the next node of the bucket with that number, tests it and its bytes, and marks both.
fn step(
    region: &[u64],
    order: u32,
    number: u64,
    reached: Reached,
    marks: &mut [bool],
) -> Result<Reached, Break>
    requires order { IsOrder order }
    requires sized { length region.now ≡ region_len order }
    requires number { number < buckets order }
    requires so_far { (seen : List ℕ) × (before : List ℕ)
        × IsOnBlobWalk order region.now number seen before reached marks.old }
    ensures { (seen before : List ℕ)
        → IsOnBlobWalk order region.now number seen before reached marks.old → MatchResult result
        (λ next. (b : ℕ) × IsOnBlobWalk order region.now number seen (b ∷ before) next marks.new)
        (λ e. Node order region.now number seen before (Err e)) }
{
    follow_block(region, order, reached.link, 0, marks)?;
    let node = region[reached.link as usize];
    inspect_key(region, order, number, reached.count, node)?;
    inspect_body(region, order, node, marks)?;
    Ok(Reached {
        link: node + LINK,
        count: reached.count + 1,
    })
}

/// Walks to the end of the chain of the bucket with that number, marks its nodes with their bytes, and
/// tells how many nodes there are.
pub fn walk_bucket(
    region: &[u64],
    order: u32,
    number: u64,
    marks: &mut [bool],
) -> Result<u64, Break>
    requires order { IsOrder order }
    requires sized { length region.now ≡ region_len order }
    requires number { number < buckets order }
    requires marks { (seen : List ℕ) × AreBlobMarks order (held order region.now seen) marks.old }
    ensures { (seen : List ℕ) → AreBlobMarks order (held order region.now seen) marks.old
        → MatchResult result
        (λ count. HasWalkedBlobs order region.now number seen count marks.new)
        (λ e. WalksBlobs order region.now number seen (Err e)) }
{
    let mut reached = Reached {
        link: blocks_at(order) + number,
        count: 0,
    };
    while region[reached.link as usize] != 0 {
        reached = step(region, order, number, reached, marks)?;
    }
    Ok(reached.count)
}
