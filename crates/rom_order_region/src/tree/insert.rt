//! A node more.
ghost use Rattle.std.specs.Prelude.{◌≡◌, ℕ, ◌+◌, ◌*◌, ◌<◌, ◌≤◌, ◌∷◌, length};
ghost use Rattle.rom_model.specs.Space.{Stores, HasRoom};
ghost use Rattle.rom_model.specs.Blocks.{IsOrder, region_len};
ghost use Rattle.rom_order_region.specs.Tree.{Tree, blocks, attached};
ghost use Rattle.rom_order_region.specs.Nodes.{BuildsTreeAt, level_at};
ghost use Rattle.rom_order_region.specs.Attach.{MayAttach, IsAttach};

use crate::tree::node::read_branch;
use crate::tree::turn::balance;
use rom_model::Space;

/// Puts a single node with a new key into the tree whose top node begins there, and tells where the
/// top node begins then.
pub fn attach<M: Space>(space: &mut M, order: u32, top: u64, node: u64, key: u64) -> u64
    requires order { IsOrder order }
    requires sized { length (M.shown.image space.old) ≡ region_len order }
    requires may { MayAttach order (M.shown.image space.old) top node key }
    requires room { HasRoom M.shown (9 * level_at (M.shown.image space.old) top) space.old }
    // The tree has the node then, and its top begins where the answer says. No word differs but those of its
    // nodes.
    ensures attached { (b v : ℕ) (t : Tree)
        → IsAttach order (M.shown.image space.old) top node b key v t
        → BuildsTreeAt order (b ∷ blocks t) (M.shown.image space.old) (M.shown.image space.new)
        (attached b key v t) result }
    ensures as_long { length (M.shown.image space.new) ≡ length (M.shown.image space.old) }
    // At most 9 stores for each level of the tree are counted.
    ensures stores { Stores M.shown (9 * level_at (M.shown.image space.old) top) space.old space.new }
{
    if top == 0 {
        return node;
    }
    let there = read_branch(space, order, top);
    if key < there.key {
        let left = attach(space, order, there.left, node, key);
        balance(space, order, top, left, there.right)
    } else {
        let right = attach(space, order, there.right, node, key);
        balance(space, order, top, there.left, right)
    }
}
