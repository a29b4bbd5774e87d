//! An ordered index in the words of a region: keys with values in a balanced search tree.
//!
//! It knows what the words of such a region mean, and how its replies are printed; it knows no device, no
//! caller and no line of a script.
//!
//! Each key stands with its value in a node of the tree, a block of two units; the root words name the top
//! node. The contracts promise of every well-formed region what map it stands for after each call, that a
//! new key is refused exactly where there is no room for it, and how many loads a query and how many stores
//! an update makes at most; and that the inspection accepts exactly the well-formed regions, and else names
//! the first test that does not hold. They hold over any space of words. How replies and answers are
//! printed stands here too.
#![tactic(auto)]

mod apply;
mod call;
mod fresh;
mod inspection;
mod ordered;
mod root;
mod told;
mod tree;

pub use apply::{answer_order, apply_order};
pub use call::{OrderAnswer, OrderCall, OrderQuery, OrderReply};
pub use fresh::format_order;
pub use inspection::inspect_order;
pub use ordered::{order_del, order_from, order_get, order_put, order_range};
