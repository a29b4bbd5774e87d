//! Where the root words of a region stand, in words from the region's start. A root word that has no
//! name here is 0 always; from the offset 17 on the allocator's tree follows.

/// The kind of object, which is 1.
pub const KIND: u64 = 0;

/// The version of the region's words, which is 2. It was 1 before keys of the map had stamps.
pub const VERSION: u64 = 1;

/// How many updates were counted.
pub const COUNT: u64 = 2;

/// The greatest count: an update that finds it is not done.
pub const LAST_COUNT: u64 = 1 << 62;

/// Where the queue's first node begins, or 0.
pub const QUEUE_HEAD: u64 = 3;

/// Where the queue's last node begins, or 0.
pub const QUEUE_TAIL: u64 = 4;

/// How many values the queue has.
pub const QUEUE_LEN: u64 = 5;

/// Where the node of the set's least number begins, or 0.
pub const SET_HEAD: u64 = 6;

/// How many numbers the set has.
pub const SET_LEN: u64 = 7;

/// Where the map's bucket table begins.
pub const TABLE: u64 = 8;

/// How many keys the map has.
pub const MAP_LEN: u64 = 9;
