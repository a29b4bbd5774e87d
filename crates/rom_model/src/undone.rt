//! What an answer has in the place of an update that was not done. The place of one that was done is
//! below the count's limit, and these words are not.
use crate::roots::LAST_COUNT;

/// The update found the count at its limit.
pub const SPENT: u64 = LAST_COUNT;

/// The pass failed, and none of its updates was done.
pub const FAILED: u64 = LAST_COUNT + 1;

/// The pass failed at the commit, and a stop may leave the update done.
pub const DOUBT: u64 = LAST_COUNT + 2;
