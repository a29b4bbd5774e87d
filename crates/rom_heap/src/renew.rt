//! A region of version 1 made one of version 2.
//!
//! The regions of both versions hold the same elements in the same blocks. In version 1 a bucket's keys
//! stood in any order along its chain, and in version 2 they rise; the last word of a map's node, which
//! was 0, is the stamp of a key that was written before there were stamps. So each chain of the bucket
//! table is linked anew, and the version is told. The contract promises that the region stands for the
//! same state and the same count, and that no word changes but the version, the bucket table's words and
//! the links of the map's nodes.

mod bucket;
mod node;
mod region;

pub use region::renew_region;
