//! How large a heap is, and how many callers share it. The definitions have the same numbers: an order is
//! within `IsOrder`.

/// The order of the smallest heap.
pub const MIN_ORDER: u32 = 4;

/// The order of the largest heap.
pub const MAX_ORDER: u32 = 16;

/// The most callers of one heap, and so the most scripts of one run.
pub const MAX_CALLERS: u32 = 16;
