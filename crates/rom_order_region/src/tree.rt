//! Balanced search trees in the words of a region: keys with values, in the order of the keys.
//!
//! A node is a block of two units, and a tree is named by where its top node begins, or by 0 where it
//! is empty. The heights of the two subtrees of each node differ by at most one: `attach` and `detach`
//! turn the nodes on their way where they would differ by more, so a walk down the tree is short. The
//! contracts promise of every tree that stands in the words which tree stands there after each call,
//! that no word changes but those of its nodes, how many stores a change makes at most and how many
//! loads a walk does, by the tree's height; and lemmas bound that height by the number of the nodes.
//!
//! Walks recurse, no deeper than the tree is high: at most 21 levels at order 16.

mod find;
mod insert;
mod node;
mod remove;
mod single;
mod turn;

pub use find::{Near, Sum, find_from, find_node, sum_between};
pub use insert::attach;
pub use node::{HEIGHT, LEFT, RIGHT, VALUE, ZEROS};
pub use remove::detach;
pub use single::fill_single;
