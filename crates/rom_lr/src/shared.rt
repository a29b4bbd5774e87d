//! The shared words.
//!
//! The crates above make steps of their own on the table. The prover refuses a step that breaks the table's
//! rule. But what a step tells its seat is chosen by the step's kind, which a reader has to believe. So all
//! kinds stand in one file, `crates/rom_rule/src/kinds.rt`, as `.ci/steps` sees to. A private table would
//! need a contract here for each kind.
ghost use Rattle.std.specs.Prelude.{◌≡◌, ◌^◌, ◌<◌};
ghost use Rattle.rom_rule.specs.Places.{back_word_at, main_word_at, table_len};

use atomic_table::Table;
use crossbeam_utils::CachePadded;
use rom_model::Object;
use rom_rule::{Key, Law, Layout, View};
use std::alloc::Global;
use std::sync::atomic::{AtomicU64, Ordering};

/// The words that callers and the writer share, and where each stands. Their regions are those of an
/// object. It is lent to every call; all that a call does to it are single steps on single words.
#[derive(Drop)]
pub struct Shared<O: Object> {
    pub table: Table<u8, View, Key, Law<O>, Global>,
    pub layout: Layout,
    // Where the words of main and those of back begin, so that no load or store counts it out anew.
    pub(crate) main: u64,
    pub(crate) back: u64,
    // Each step of each caller loads the fields above, so this set, which is written, has no cache line in
    // common with them. It is no word of the table.
    pub(crate) asleep: CachePadded<AtomicU64>,
    ghost sized: { table.shared.table_id.words ≡ table_len layout.order layout.callers },
    ghost laid: { layout ≡ table.shared.key.layout },
    ghost placed: { (main ≡ main_word_at layout.order layout.callers 0)
        × (back ≡ back_word_at layout.order layout.callers 0) },
    ghost near: { (main < 2 ^ 32) × (back < 2 ^ 32) },
}

// Which callers sleep. No clause says what the set holds.
impl<O: Object> Shared<O> {
    /// Adds a caller that is about to sleep.
    pub fn add_sleeper(&self, caller: u32) {
        self.asleep.fetch_or(bit_of(caller), Ordering::SeqCst);
    }

    /// Takes out a caller that was added and sleeps no more.
    pub fn remove_sleeper(&self, caller: u32) {
        self.asleep.fetch_and(!bit_of(caller), Ordering::SeqCst);
    }

    /// Whether this caller sleeps, or is about to. Who would wake it asks this first: a wake calls the
    /// system. So a pass wakes nobody that is awake, and its own caller least of all.
    pub fn is_asleep(&self, caller: u32) -> bool {
        self.asleep.load(Ordering::SeqCst) & bit_of(caller) > 0
    }

    /// Whether any caller sleeps, or is about to.
    pub fn is_any_asleep(&self) -> bool {
        self.asleep.load(Ordering::SeqCst) > 0
    }
}

// The caller's bit in a set of callers.
fn bit_of(caller: u32) -> u64 {
    1 << (caller % 64)
}
