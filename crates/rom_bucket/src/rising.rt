//! The walk along a bucket's chain whose keys rise, which ends where the key stands or would stand.
ghost use Rattle.std.specs.Prelude.{◌≡◌, length};
ghost use Rattle.rom_model.specs.Blocks.{IsOrder, region_len};
ghost use Rattle.rom_model.specs.Region.{bucket_of};
ghost use Rattle.rom_bucket.specs.Walk.{HoldsBucket};
ghost use Rattle.rom_bucket.specs.Rising.{Seeks};

use crate::node::BUCKET_LINK;
use crate::walk::{Place, head_of};
use rom_model::Look;

/// Where a key stands in a chain whose keys rise, or where it would stand.
#[derive(Clone, Copy)]
pub struct Sought {
    /// The place of the first node whose key is not below it, or of the chain's end.
    pub place: Place,
    /// Whether that node has the key.
    pub found: bool,
}

/// Walks along the chain of the key's bucket to the first node whose key is not below it.
pub fn find_rising<M: Look>(space: &mut M, order: u32, key: u64) -> Sought
    requires order { IsOrder order }
    requires sized { length (M.shown.image space.old) ≡ region_len order }
    requires bucket { HoldsBucket order (bucket_of order key) (M.shown.image space.old) }
    // The place of the key in whatever blocks are its bucket, and how many loads are counted at most.
    ensures { Seeks M.shown order key result space.old space.new }
{
    let mut link = head_of(order, key);
    let mut node = space.load(link);
    while node != 0 {
        let there = space.load(node);
        if there >= key {
            return Sought {
                place: Place { link, node },
                found: there == key,
            };
        }
        link = node + BUCKET_LINK;
        node = space.load(link);
    }
    Sought {
        place: Place { link, node },
        found: false,
    }
}
