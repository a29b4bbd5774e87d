//! Links from node to node. The nodes of the tree are marked whose blocks were reached.
ghost use Rattle.std.specs.Prelude.{◌≡◌, ◌≢◌, ℕ, ◌-◌, ◌^◌, ◌<◌, ◌≤◌, List, length, MatchResult, MatchOption};
ghost use Rattle.rom_model.specs.Blocks.{IsOrder, block_of};
ghost use Rattle.rom_model.specs.declared.unfit.Rule.TheVariants.{Link};
ghost use Rattle.rom_heap.specs.Walks.{LeadsTo, FollowsLink, AreMarks, AreSomeMarks};

use rom_model::{Break, Rule, blocks_at, power_of_two};

/// The number of the unit that begins there and is none of the bucket table. The offset is in words
/// from the region's start.
fn unit_at(order: u32, offset: u64) -> Option<u64>
    requires order { IsOrder order }
    ensures { MatchOption result
        ((b : ℕ) → 2 ^ (order - 4) ≤ b → b < 2 ^ order → offset ≢ block_of order b)
        (λ b. (offset ≡ block_of order b) × (2 ^ (order - 4) ≤ b) × (b < 2 ^ order)) }
{
    let first = blocks_at(order);
    if offset < first || (offset - first) % 4 != 0 {
        return None;
    }
    let unit = (offset - first) / 4;
    if unit < power_of_two(order - 4) || unit >= power_of_two(order) {
        return None;
    }
    Some(unit)
}

/// Where the node begins that the link at that offset leads to, whose block was not reached before.
/// It is marked. After an `Err` the marks are as they were.
pub fn follow(region: &[u64], order: u32, link: u64, marks: &mut [bool]) -> Result<u64, Break>
    requires order { IsOrder order }
    requires link { link < length region.now }
    requires marks { AreSomeMarks order marks.old }
    ensures { (seen : List ℕ) → AreMarks order seen marks.old → MatchResult result
        (λ node. FollowsLink order region.now seen link node marks.new)
        (λ e. ((b : ℕ) → LeadsTo order region.now seen link b → ⊥)
        × (e ≡ record { offset = link; rule = Link })) }
{
    let node = region[link as usize];
    let broken = Break {
        offset: link,
        rule: Rule::Link,
    };
    let Some(unit) = unit_at(order, node) else {
        return Err(broken);
    };
    let leaf = (power_of_two(order) + unit) as usize;
    if marks[leaf] {
        return Err(broken);
    }
    marks[leaf] = true;
    Ok(node)
}
