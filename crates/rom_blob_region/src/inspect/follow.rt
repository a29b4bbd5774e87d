//! Links to blocks. The nodes of the tree are marked whose blocks were reached.
ghost use Rattle.std.specs.Prelude.{◌≡◌, ◌≢◌, ℕ, ◌+◌, ◌-◌, ◌*◌, ◌^◌, ◌<◌, ◌≤◌, ◌∷◌, Bool, false, List, length, Err, MatchBool, MatchResult, MatchOption};
ghost use Rattle.rom_model.specs.Blocks.{IsOrder, IsNode, block_at, any_in};
ghost use Rattle.rom_block.specs.Levels.{IsMarked};
ghost use Rattle.rom_block.specs.Walk.{IsNodeOf, NoneAbove};
ghost use Rattle.rom_blob_region.specs.Walks.{LeadsToBlob, FollowsBlobLink, AreBlobMarks, AreSomeBlobMarks};

use rom_model::{Break, Rule, blocks_at, power_of_two};

/// The node of the block of an order that begins there. The offset is in words from the region's start.
fn node_at(order: u32, offset: u64, want: u32) -> Option<u64>
    requires order { IsOrder order }
    requires want { want ≤ 3 }
    ensures { MatchOption result ((x : ℕ) → IsNode (order - want) x → offset ≢ block_at order want x)
        (λ x. IsNode (order - want) x × (offset ≡ block_at order want x)) }
{
    let first = blocks_at(order);
    if offset < first || offset - first >= 4 * power_of_two(order) {
        return None;
    }
    let size = 4 * power_of_two(want);
    if (offset - first) % size != 0 {
        return None;
    }
    Some(power_of_two(order - want) + (offset - first) / size)
}

/// Whether a node above is marked.
fn is_marked_above(marks: &[bool], node: u64) -> bool
    requires node { node < length marks.now }
    ensures { (taken : ℕ → Bool) → IsMarked taken marks.now → taken 0 ≡ false
        → MatchBool result (NoneAbove taken node → ⊥) (NoneAbove taken node) }
{
    let mut above = node;
    while above > 1 {
        above /= 2;
        if marks[above as usize] {
            return true;
        }
    }
    false
}

/// Whether a node, whose block has that order, or one below it is marked.
fn is_marked_in(order: u32, marks: &[bool], node: u64, want: u32) -> bool
    requires most { order ≤ 16 }
    requires node { IsNodeOf order want node }
    requires sized { length marks.now ≡ 2 * 2 ^ order }
    ensures { (taken : ℕ → Bool) → IsMarked taken marks.now → result ≡ any_in taken want node }
{
    if marks[node as usize] {
        return true;
    }
    want > 0
        && (is_marked_in(order, marks, 2 * node, want - 1)
            || is_marked_in(order, marks, 2 * node + 1, want - 1))
}

/// The node of the block of an order that the link at that offset leads to, which meets no block that was
/// reached before. It is marked. After an `Err` the marks are as they were.
pub fn follow_block(
    region: &[u64],
    order: u32,
    link: u64,
    want: u32,
    marks: &mut [bool],
) -> Result<u64, Break>
    requires order { IsOrder order }
    requires want { want ≤ 3 }
    requires link { link < length region.now }
    requires marks { AreSomeBlobMarks order marks.old }
    ensures { (held : List ℕ) → AreBlobMarks order held marks.old → MatchResult result
        (λ x. LeadsToBlob order region.now held link want x × AreBlobMarks order (x ∷ held) marks.new)
        (λ e. FollowsBlobLink order region.now held link want (Err e)) }
{
    let broken = Break {
        offset: link,
        rule: Rule::Link,
    };
    let Some(node) = node_at(order, region[link as usize], want) else {
        return Err(broken);
    };
    if is_marked_above(marks, node) || is_marked_in(order, marks, node, want) {
        return Err(broken);
    }
    marks[node as usize] = true;
    Ok(node)
}
