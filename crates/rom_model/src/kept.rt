//! What a caller keeps of its session. It stands in contracts alone. With it, the proof that results are
//! lawful has two parts. What a caller was told is what it keeps (`HasHeard`), and what it keeps is what the
//! session has of it (`IsKept`). Each part is proved where it happens.

use crate::call::Updated;
use crate::entry::Entry;
use crate::record::Found;
use crate::words::Back;
use std::collections::LinkedList;

/// What contracts see of a caller's pass.
pub struct Kept {
    /// Its number; callers are numbered from 1.
    pub number: u32,
    /// The history, as far as it has seen it.
    pub seen: LinkedList<Entry>,
    /// The moments at which its entries were committed, one for each.
    pub moments: LinkedList<u64>,
    /// The fronts that its reads had.
    pub fronts: LinkedList<u64>,
    /// The updates that it posted, as passes find them, with what each was told.
    pub told: LinkedList<(Found, Updated<Back>)>,
}
