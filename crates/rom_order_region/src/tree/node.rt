//! A node of the tree: a block of eight words, which are its key, its value, where its left and its
//! right subtree begin, its height, and three zeros.
//!
//! Five words are needed and a unit has four, so a node takes two units. It keeps a height and no difference
//! of heights: a height follows from those of the two subtrees by one rule, whatever was done below. The
//! price is that a change may store the height of each node on its way.
ghost use Rattle.std.specs.Prelude.{◌≡◌, ◌≢◌, ℕ, ◌+◌, ◌≤◌, ◌∷◌, [], length, slice_index};
ghost use Rattle.rom_model.specs.Space.{Costs, Looks, HasRoom};
ghost use Rattle.rom_model.specs.Blocks.{IsOrder, region_len};
ghost use Rattle.rom_order_region.specs.Tree.{Tree, Node, height};
ghost use Rattle.rom_order_region.specs.Nodes.{IsTree, HasTree, IsFork, HasFork, BuildsTree};

use rom_model::{Look, Space, store_changed};

/// Where in a node the value stands.
pub const VALUE: u64 = 1;

/// Where in a node its left subtree stands, by its first word's offset, or 0.
pub const LEFT: u64 = 2;

/// Where in a node its right subtree stands.
pub const RIGHT: u64 = 3;

/// Where in a node its height stands.
pub const HEIGHT: u64 = 4;

/// Where in a node its three zeros begin.
pub const ZEROS: u64 = 5;

/// A node as a walk sees it.
#[derive(Clone, Copy)]
pub struct Branch {
    pub key: u64,
    /// Where the left subtree begins, or 0.
    pub left: u64,
    pub right: u64,
}

/// The node that begins there.
pub fn read_branch<M: Look>(space: &mut M, order: u32, top: u64) -> Branch
    requires order { IsOrder order }
    requires sized { length (M.shown.image space.old) ≡ region_len order }
    requires tree { HasTree order (M.shown.image space.old) top }
    requires some { top ≢ 0 }
    ensures key { result.key ≡ slice_index (M.shown.image space.old) top }
    ensures left { result.left ≡ slice_index (M.shown.image space.old) (top + 2) }
    ensures right { result.right ≡ slice_index (M.shown.image space.old) (top + 3) }
    ensures looks { Looks M.shown 3 space.old space.new }
{
    let key = space.load(top);
    let left = space.load(top + LEFT);
    let right = space.load(top + RIGHT);
    Branch { key, left, right }
}

/// The height of the tree whose top node begins there.
pub fn height<M: Look>(space: &mut M, order: u32, top: u64) -> u64
    requires order { IsOrder order }
    requires sized { length (M.shown.image space.old) ≡ region_len order }
    requires tree { HasTree order (M.shown.image space.old) top }
    ensures is { (t : Tree) → IsTree order (M.shown.image space.old) top t → result ≡ height t }
    ensures small { result ≤ 32768 }
    ensures looks { Looks M.shown 1 space.old space.new }
{
    if top == 0 {
        return 0;
    }
    space.load(top + HEIGHT)
}

/// Puts a node over two trees.
pub fn join<M: Space>(space: &mut M, order: u32, top: u64, left: u64, right: u64)
    requires order { IsOrder order }
    requires sized { length (M.shown.image space.old) ≡ region_len order }
    requires fork { HasFork order (M.shown.image space.old) top left right }
    requires room { HasRoom M.shown 3 space.old }
    ensures joined { (b k v : ℕ) (l r : Tree) → IsFork order (M.shown.image space.old) top left right b k v l r
        → BuildsTree order (b ∷ []) (M.shown.image space.old) (M.shown.image space.new) (Node b k v l r) }
    ensures as_long { length (M.shown.image space.new) ≡ length (M.shown.image space.old) }
    ensures costs { Costs M.shown 5 3 space.old space.new }
{
    let on_left = height(space, order, left);
    let on_right = height(space, order, right);
    store_changed(space, top + LEFT, left);
    store_changed(space, top + RIGHT, right);
    store_changed(space, top + HEIGHT, on_left.max(on_right) + 1);
}
