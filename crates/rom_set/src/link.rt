//! Putting a node into the set's chain, and taking one out.
ghost use Rattle.std.specs.Prelude.{◌≡◌, ◌≤◌, length};
ghost use Rattle.rom_model.specs.Space.{Costs, HasRoom, IsSparing};
ghost use Rattle.rom_model.specs.Blocks.{region_len};
ghost use Rattle.rom_set.specs.Link.{MayLink, IsBlockLinked, MayUnlink, IsBlockUnlinked};

use crate::node::SET_LINK;
use crate::walk::Place;
use rom_block::fill_node;
use rom_model::{SET_LEN, Space};

/// Puts a number into the block that begins there, and the block into the chain at the number's place.
pub fn link_node<M: Space>(space: &mut M, order: u32, place: Place, at: u64, key: u64)
    requires most { order ≤ 16 }
    requires sized { length (M.shown.image space.old) ≡ region_len order }
    requires may { MayLink order key at place (M.shown.image space.old) }
    requires room { HasRoom M.shown 6 space.old }
    ensures linked { (m : MayLink order key at place (M.shown.image space.old))
        → IsBlockLinked m (M.shown.image space.new) }
    ensures costs { Costs M.shown 5 6 space.old space.new }
    ensures sparing { IsSparing M.shown space.old space.new }
{
    fill_node(space, at, [key, place.node, 0, 0]);
    space.store(place.link, at);
    let len = space.load(SET_LEN);
    space.store(SET_LEN, len + 1);
}

/// Takes the node at that place out of the chain. Its words stay.
pub fn unlink_node<M: Space>(space: &mut M, order: u32, place: Place)
    requires most { order ≤ 16 }
    requires sized { length (M.shown.image space.old) ≡ region_len order }
    requires may { MayUnlink order place (M.shown.image space.old) }
    requires room { HasRoom M.shown 2 space.old }
    ensures unlinked { (m : MayUnlink order place (M.shown.image space.old))
        → IsBlockUnlinked m (M.shown.image space.new) }
    ensures costs { Costs M.shown 2 2 space.old space.new }
    ensures sparing { IsSparing M.shown space.old space.new }
{
    let next = space.load(place.node + SET_LINK);
    space.store(place.link, next);
    let len = space.load(SET_LEN);
    space.store(SET_LEN, len - 1);
}
