//! A node fewer.
ghost use Rattle.std.specs.Prelude.{◌≡◌, ◌≢◌, ℕ, ◌+◌, ◌*◌, ◌++◌, length};
ghost use Rattle.rom_model.specs.Space.{Stores, HasRoom};
ghost use Rattle.rom_model.specs.Blocks.{IsOrder, region_len};
ghost use Rattle.rom_order_region.specs.Tree.{Tree, Node, blocks, merged, detached};
ghost use Rattle.rom_order_region.specs.Nodes.{IsTree, HasTree, BuildsTreeAt, level_at};
ghost use Rattle.rom_order_region.specs.Detach.{IsLeftmost, IsPair, HasPair};

use crate::tree::node::read_branch;
use crate::tree::turn::balance;
use rom_model::Space;

/// A tree's leftmost node, and the tree without it.
#[derive(Clone, Copy)]
pub struct First {
    pub node: u64,
    /// Where the top node of the rest begins, or 0.
    pub rest: u64,
}

/// Takes the leftmost node out of a tree. Its key and its value stay in it.
fn take_first<M: Space>(space: &mut M, order: u32, top: u64) -> First
    requires order { IsOrder order }
    requires sized { length (M.shown.image space.old) ≡ region_len order }
    requires tree { HasTree order (M.shown.image space.old) top }
    requires some { top ≢ 0 }
    requires room { HasRoom M.shown (9 * level_at (M.shown.image space.old) top) space.old }
    ensures first { (b k v : ℕ) (l r : Tree)
        → IsTree order (M.shown.image space.old) top (Node b k v l r)
        → IsLeftmost order (M.shown.image space.old) (M.shown.image space.new) b k v l r result }
    ensures as_long { length (M.shown.image space.new) ≡ length (M.shown.image space.old) }
    ensures stores { Stores M.shown (9 * level_at (M.shown.image space.old) top) space.old space.new }
{
    let there = read_branch(space, order, top);
    if there.left == 0 {
        return First {
            node: top,
            rest: there.right,
        };
    }
    let first = take_first(space, order, there.left);
    let rest = balance(space, order, top, first.rest, there.right);
    First {
        node: first.node,
        rest,
    }
}

/// Makes one tree of the two subtrees of a node that goes. The leftmost node of the right subtree, if it has
/// one, takes the place of the node that goes by links alone. Nothing is copied from node to node.
fn merge<M: Space>(space: &mut M, order: u32, left: u64, right: u64) -> u64
    requires order { IsOrder order }
    requires sized { length (M.shown.image space.old) ≡ region_len order }
    requires pair { HasPair order (M.shown.image space.old) left right }
    requires room { HasRoom M.shown (9 * level_at (M.shown.image space.old) right + 9) space.old }
    ensures merged { (l r : Tree) → IsPair order (M.shown.image space.old) left right l r
        → BuildsTreeAt order (blocks l ++ blocks r) (M.shown.image space.old)
        (M.shown.image space.new) (merged l r) result }
    ensures as_long { length (M.shown.image space.new) ≡ length (M.shown.image space.old) }
    ensures stores { Stores M.shown (9 * level_at (M.shown.image space.old) right + 9) space.old space.new }
{
    if right == 0 {
        return left;
    }
    let first = take_first(space, order, right);
    balance(space, order, first.node, left, first.rest)
}

/// Takes the node of a key out of the tree whose top node begins there, and tells where the top node
/// begins then.
pub fn detach<M: Space>(space: &mut M, order: u32, top: u64, key: u64) -> u64
    requires order { IsOrder order }
    requires sized { length (M.shown.image space.old) ≡ region_len order }
    requires tree { HasTree order (M.shown.image space.old) top }
    requires room { HasRoom M.shown (9 * level_at (M.shown.image space.old) top) space.old }
    // The tree does not have the key then, and its top begins where the answer says. No word differs but
    // those of the nodes that it had.
    ensures detached { (t : Tree) → IsTree order (M.shown.image space.old) top t
        → BuildsTreeAt order (blocks t) (M.shown.image space.old) (M.shown.image space.new)
        (detached key t) result }
    ensures as_long { length (M.shown.image space.new) ≡ length (M.shown.image space.old) }
    // At most 9 stores for each level of the tree are counted.
    ensures stores { Stores M.shown (9 * level_at (M.shown.image space.old) top) space.old space.new }
{
    if top == 0 {
        return 0;
    }
    let there = read_branch(space, order, top);
    if key < there.key {
        let left = detach(space, order, there.left, key);
        return balance(space, order, top, left, there.right);
    }
    if there.key < key {
        let right = detach(space, order, there.right, key);
        return balance(space, order, top, there.left, right);
    }
    merge(space, order, there.left, there.right)
}
