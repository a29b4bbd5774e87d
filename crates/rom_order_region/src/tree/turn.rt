//! Balancing: a node over two trees whose heights differ by two is turned. What is done on one side is
//! done on the other with left and right exchanged, so a turn is written for a side.
ghost use Rattle.std.specs.Prelude.{◌≡◌, ◌≢◌, ℕ, ◌+◌, ◌≤◌, ◌∷◌, [], length};
ghost use Rattle.rom_model.specs.Space.{Costs, HasRoom, Looks, Stores};
ghost use Rattle.rom_model.specs.Blocks.{IsOrder, region_len};
ghost use Rattle.rom_order_region.specs.Tree.{Tree, Node, blocks, balanced};
ghost use Rattle.rom_order_region.specs.Nodes.{IsTree, HasTree, IsFork, HasFork, BuildsTree, BuildsTreeAt};
ghost use Rattle.rom_order_region.specs.Sides.{over, turned, IsForkOn, HasForkOn};

use crate::tree::node::{height, join, read_branch};
use rom_model::{Look, Space};

/// A side of a node.
#[derive(Clone, Copy)]
pub enum Side {
    Left,
    Right,
}

/// Where the two subtrees of a node begin, each 0 where it is empty.
#[derive(Clone, Copy)]
pub struct Subtrees {
    /// On the side that was asked for.
    pub near: u64,
    /// On the other side.
    pub far: u64,
}

/// The subtrees of the node that begins there.
fn subtrees_on<M: Look>(space: &mut M, order: u32, side: Side, at: u64) -> Subtrees
    requires order { IsOrder order }
    requires sized { length (M.shown.image space.old) ≡ region_len order }
    requires tree { HasTree order (M.shown.image space.old) at }
    requires some { at ≢ 0 }
    ensures trees { (b k v : ℕ) (x y : Tree)
        → IsTree order (M.shown.image space.old) at (over side b k v x y)
        → IsTree order (M.shown.image space.old) result.near x
        × IsTree order (M.shown.image space.old) result.far y }
    ensures looks { Looks M.shown 3 space.old space.new }
{
    let there = read_branch(space, order, at);
    match side {
        Side::Left => Subtrees {
            near: there.left,
            far: there.right,
        },
        Side::Right => Subtrees {
            near: there.right,
            far: there.left,
        },
    }
}

/// Puts a node over two trees, of which the first comes to that side.
fn join_on<M: Space>(space: &mut M, order: u32, side: Side, top: u64, near: u64, far: u64)
    requires order { IsOrder order }
    requires sized { length (M.shown.image space.old) ≡ region_len order }
    requires fork { HasForkOn order (M.shown.image space.old) side top near far }
    requires room { HasRoom M.shown 3 space.old }
    ensures joined { (b k v : ℕ) (x y : Tree)
        → IsForkOn order (M.shown.image space.old) side top near far b k v x y
        → BuildsTree order (b ∷ []) (M.shown.image space.old) (M.shown.image space.new)
        (over side b k v x y) }
    ensures as_long { length (M.shown.image space.new) ≡ length (M.shown.image space.old) }
    ensures costs { Costs M.shown 5 3 space.old space.new }
{
    match side {
        Side::Left => join(space, order, top, near, far),
        Side::Right => join(space, order, top, far, near),
    }
}

/// Turns a node whose subtree on that side is too high. That subtree comes to the top, or its own
/// subtree on the other side does where that one is the higher of its two. It tells where the top node
/// begins then.
fn turn<M: Space>(space: &mut M, order: u32, side: Side, top: u64, near: u64, far: u64) -> u64
    requires order { IsOrder order }
    requires sized { length (M.shown.image space.old) ≡ region_len order }
    requires fork { HasForkOn order (M.shown.image space.old) side top near far }
    requires some { near ≢ 0 }
    requires room { HasRoom M.shown 9 space.old }
    ensures turned { (b k v : ℕ) (x y : Tree)
        → IsForkOn order (M.shown.image space.old) side top near far b k v x y
        → BuildsTreeAt order (blocks (over side b k v x y)) (M.shown.image space.old)
        (M.shown.image space.new) (turned side b k v x y) result }
    ensures as_long { length (M.shown.image space.new) ≡ length (M.shown.image space.old) }
    ensures stores { Stores M.shown 9 space.old space.new }
{
    let below = subtrees_on(space, order, side, near);
    let on_outer = height(space, order, below.near);
    let on_inner = height(space, order, below.far);
    if on_inner <= on_outer {
        join_on(space, order, side, top, below.far, far);
        join_on(space, order, side, near, below.near, top);
        return near;
    }
    let middle = subtrees_on(space, order, side, below.far);
    join_on(space, order, side, near, below.near, middle.near);
    join_on(space, order, side, top, middle.far, far);
    join_on(space, order, side, below.far, near, top);
    below.far
}

/// Puts a node over two trees, and turns it where one is higher than the other by more than one. It
/// tells where the top node begins then.
///
/// It serves after a node was put in and after one was taken out, and stores no word that is as it should be.
/// The way back up a tree does not stop early where a height stayed: that would save loads alone.
pub fn balance<M: Space>(space: &mut M, order: u32, top: u64, left: u64, right: u64) -> u64
    requires order { IsOrder order }
    requires sized { length (M.shown.image space.old) ≡ region_len order }
    requires fork { HasFork order (M.shown.image space.old) top left right }
    requires room { HasRoom M.shown 9 space.old }
    ensures turned { (b k v : ℕ) (l r : Tree)
        → IsFork order (M.shown.image space.old) top left right b k v l r
        → BuildsTreeAt order (blocks (Node b k v l r)) (M.shown.image space.old)
        (M.shown.image space.new) (balanced b k v l r) result }
    ensures as_long { length (M.shown.image space.new) ≡ length (M.shown.image space.old) }
    ensures stores { Stores M.shown 9 space.old space.new }
{
    let on_left = height(space, order, left);
    let on_right = height(space, order, right);
    if on_left > on_right + 1 {
        return turn(space, order, Side::Left, top, left, right);
    }
    if on_right > on_left + 1 {
        return turn(space, order, Side::Right, top, right, left);
    }
    join(space, order, top, left, right);
    top
}
