//! A node by itself.
ghost use Rattle.std.specs.Prelude.{◌≡◌, ℕ, ◌-◌, ◌^◌, ◌<◌, ◌∷◌, [], length};
ghost use Rattle.rom_model.specs.Space.{Costs, HasRoom};
ghost use Rattle.rom_model.specs.Blocks.{IsOrder, region_len};
ghost use Rattle.rom_order_region.specs.Tree.{Node, Leaf};
ghost use Rattle.rom_order_region.specs.Nodes.{BuildsTree, node_at};

use crate::tree::node::HEIGHT;
use rom_block::fill_node;
use rom_model::Space;

/// Makes a node with no subtrees of the block that begins there.
pub fn fill_single<M: Space>(space: &mut M, order: u32, at: u64, key: u64, value: u64)
    requires order { IsOrder order }
    requires sized { length (M.shown.image space.old) ≡ region_len order }
    requires block { (b : ℕ) × (at ≡ node_at order b) × (b < 2 ^ (order - 1)) }
    requires room { HasRoom M.shown 8 space.old }
    // The node stands there, with no subtrees, and no word differs but those of its block.
    ensures filled { (b : ℕ) → at ≡ node_at order b → b < 2 ^ (order - 1)
        → BuildsTree order (b ∷ []) (M.shown.image space.old) (M.shown.image space.new) (Node b key value Leaf Leaf) }
    ensures as_long { length (M.shown.image space.new) ≡ length (M.shown.image space.old) }
    ensures costs { Costs M.shown 8 8 space.old space.new }
{
    fill_node(space, at, [key, value, 0, 0]);
    fill_node(space, at + HEIGHT, [1, 0, 0, 0]);
}
