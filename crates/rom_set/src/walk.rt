//! The walk along the set's chain, whose numbers rise.
ghost use Rattle.std.specs.Prelude.{◌≡◌, ℕ, ◌+◌, ◌*◌, ◌^◌, ◌≤◌, List, length};
ghost use Rattle.std.specs.Ordering.{nat_cmp};
ghost use Rattle.std.specs.FinSet as set;
ghost use Rattle.rom_model.specs.Space.{Looks};
ghost use Rattle.rom_model.specs.Walks.{keys_below};
ghost use Rattle.rom_model.specs.Blocks.{region_len};
ghost use Rattle.rom_model.specs.Region.{IsSet};
ghost use Rattle.rom_set.specs.Nodes.{HoldsSet};
ghost use Rattle.rom_set.specs.Walk.{IsPlaceInSet};

use crate::node::SET_LINK;
use rom_model::{Look, SET_HEAD};

/// The place of a number in the chain.
#[derive(Clone, Copy)]
pub struct Place {
    /// The offset of the word that links to the first node whose number is not below it.
    pub link: u64,
    /// Where that node begins, or 0 where there is none.
    pub node: u64,
    /// Whether that node has the number.
    pub found: bool,
}

/// Walks along the chain to the first node whose number is not below the key.
pub fn find<M: Look>(space: &mut M, order: u32, key: u64) -> Place
    requires most { order ≤ 16 }
    requires sized { length (M.shown.image space.old) ≡ region_len order }
    requires set { HoldsSet order (M.shown.image space.old) }
    ensures is { (blocks : List ℕ) (members : set.FinSet nat_cmp)
        → IsSet order (M.shown.image space.old) blocks members
        → IsPlaceInSet order (M.shown.image space.old) blocks key result }
    ensures looks { (blocks : List ℕ) (members : set.FinSet nat_cmp)
        → IsSet order (M.shown.image space.old) blocks members
        → Looks M.shown (2 + 2 * keys_below members key) space.old space.new }
    ensures ends { Looks M.shown (2 + 2 * 2 ^ order) space.old space.new }
{
    let mut link = SET_HEAD;
    let mut node = space.load(link);
    while node != 0 {
        let there = space.load(node);
        if there >= key {
            return Place {
                link,
                node,
                found: there == key,
            };
        }
        link = node + SET_LINK;
        node = space.load(link);
    }
    Place {
        link,
        node,
        found: false,
    }
}
