//! Written words that wait until they are handed over.
ghost use Rattle.std.specs.Prelude.{◌≡◌, ◌≢◌, ◌+◌, ◌-◌, ◌<◌, ◌≤◌, ℕ, length, slice_index, slice_set, Some, None, IfSome, IsTrue, IsFalse};
ghost use Rattle.std.specs.Bool.{OnTrue, OnFalse};
ghost use Rattle.rom_model.specs.Faults.{counted};
ghost use Rattle.rom_device.specs.Medium.{Blames};
ghost use Rattle.rom_device.specs.Run.{word_of_run, with_run, IsNextPlace};
ghost use Rattle.rom_device.specs.Windows.{word_in, PutsMany};

use crate::cached::Cached;
use crate::medium::Medium;

impl<M: Medium> Cached<M> {
    ghost use Rattle.rom_device.specs.Device.{AreRenewed, Does, IsRenewed, OnlyReads, WritesMany, WritesUpTo, WritesWord};
    ghost use Rattle.rom_device.specs.Cached.{has_failed_sync, shown_by_cached};

    // Hands over what waits, unless the word at that place is the next. `false` says that it still
    // waits.
    //
    // Once a 5 waits, a stop may leave the 5, and no image that might have been left is to be forgotten. If
    // a 6 took its place here, nothing would have the 5 any more. On a file the cost is one `pwrite64` of 8
    // bytes for each batch of updates. The heap's state IDLE is handed over before MUTATING takes its
    // place. A further call of `Medium` that tells of replaced values would save that, and be one more to
    // trust.
    fn make_room(&mut self, at: u64) -> bool
        ensures follows { OnTrue result (IsNextPlace self.new.pending at) }
        ensures others { (b : ℕ) → word_of_run self.old.pending b ≡ None →
            word_of_run self.new.pending b ≡ None }
        ensures kept { OnFalse result (self.new.pending ≡ self.old.pending) }
        ensures windows { self.new.windows ≡ self.old.windows }
        ensures faults { Blames result (M.shown.faults self.old.medium) (M.shown.faults self.new.medium) }
        ensures only { OnlyReads (shown_by_cached M.shown) self.old self.new }
        ensures missing { M.missing self.new.medium ≡ M.missing self.old.medium }
        ensures failed { has_failed_sync self.new ≡ has_failed_sync self.old }
    {
        if self.pending.is_next(at) {
            return true;
        }
        self.flush()
    }

    // Notes whether words wait and no window has any of the 512 from the first of them on.
    fn note_apart(&mut self)
        ensures pending { self.new.pending ≡ self.old.pending }
        ensures windows { self.new.windows ≡ self.old.windows }
        ensures medium { self.new.medium ≡ self.old.medium }
        ensures len { self.new.len ≡ self.old.len }
        ensures failed { has_failed_sync self.new ≡ has_failed_sync self.old }
    {
        self.apart = !self.medium.is_missing()
            && !self.pending.is_empty()
            && !self.windows.meet(self.pending.first());
    }

    // Puts a word behind those that wait, which it follows.
    fn append(&mut self, at: u64, value: u64)
        requires inside { at < self.old.len }
        requires follows { IsNextPlace self.old.pending at }
        ensures waits { word_of_run self.new.pending at ≡ Some value }
        ensures window { IfSome (word_in self.new.windows at) (λ word. word ≡ value) }
        ensures others { (b : ℕ) → b ≢ at →
            word_in self.new.windows b ≡ word_in self.old.windows b }
        ensures written { IsTrue M.shown.tells_words →
            with_run self.new.pending (M.shown.words self.new.medium)
            ≡ slice_set (with_run self.old.pending (M.shown.words self.old.medium)) at value }
        ensures does { Does (shown_by_cached M.shown) (WritesWord at value) self.old self.new }
        ensures faults { M.shown.faults self.new.medium ≡ M.shown.faults self.old.medium }
        ensures missing { M.missing self.new.medium ≡ M.missing self.old.medium }
        ensures failed { has_failed_sync self.new ≡ has_failed_sync self.old }
    {
        self.pending.append(at, value);
        self.windows.set(at, value);
        self.note_apart();
    }

    // Keeps a word wherever it stands: as the next of those that wait, or once these were handed over.
    #[cold]
    #[inline(never)]
    fn keep_anywhere(&mut self, at: u64, value: u64) -> bool
        requires { at < self.old.len }
        ensures waits { OnTrue result (word_of_run self.new.pending at ≡ Some value) }
        ensures window { OnTrue result (IfSome (word_in self.new.windows at)
            (λ word. word ≡ value)) }
        ensures others { (b : ℕ) → b ≢ at →
            word_in self.new.windows b ≡ word_in self.old.windows b }
        ensures written { IsTrue M.shown.tells_words → OnTrue result
            (with_run self.new.pending (M.shown.words self.new.medium)
            ≡ slice_set (with_run self.old.pending (M.shown.words self.old.medium)) at value) }
        ensures does { Does (shown_by_cached M.shown) (WritesWord at value) self.old self.new }
        ensures kept { OnFalse result (self.new.pending ≡ self.old.pending) }
        ensures stays { OnFalse result (self.new.windows ≡ self.old.windows) }
        ensures none { IsTrue (M.missing self.old.medium) → IsFalse result }
        ensures faults { IsFalse (M.missing self.old.medium) → Blames result
            (M.shown.faults self.old.medium) (M.shown.faults self.new.medium) }
        ensures missing { M.missing self.new.medium ≡ M.missing self.old.medium }
        ensures failed { has_failed_sync self.new ≡ has_failed_sync self.old }
    {
        if self.medium.is_missing() || !self.make_room(at) {
            return false;
        }
        self.append(at, value);
        true
    }

    // Puts a word behind those that wait, where no window has its place.
    #[inline(always)]
    fn push(&mut self, at: u64, value: u64)
        requires inside { at < self.old.len }
        requires apart { IsTrue self.old.apart }
        requires room { self.old.pending.count < 512 }
        requires place { self.old.pending.first + self.old.pending.count ≡ at }
        ensures waits { word_of_run self.new.pending at ≡ Some value }
        ensures window { word_in self.new.windows at ≡ None }
        ensures windows { self.new.windows ≡ self.old.windows }
        ensures written { IsTrue M.shown.tells_words →
            with_run self.new.pending (M.shown.words self.new.medium)
            ≡ slice_set (with_run self.old.pending (M.shown.words self.old.medium)) at value }
        ensures does { Does (shown_by_cached M.shown) (WritesWord at value) self.old self.new }
        ensures faults { M.shown.faults self.new.medium ≡ M.shown.faults self.old.medium }
        ensures missing { M.missing self.new.medium ≡ M.missing self.old.medium }
        ensures failed { has_failed_sync self.new ≡ has_failed_sync self.old }
    {
        self.pending.push(at, value);
    }

    /// Keeps a written word until it is handed over. `false` says that there is no medium, or that what
    /// waits could not be handed over; then the word stays as it was.
    #[inline(always)]
    pub fn keep(&mut self, at: u64, value: u64) -> bool
        requires { at < self.old.len }
        ensures waits { OnTrue result (word_of_run self.new.pending at ≡ Some value) }
        ensures window { OnTrue result (IfSome (word_in self.new.windows at)
            (λ word. word ≡ value)) }
        ensures others { (b : ℕ) → b ≢ at →
            word_in self.new.windows b ≡ word_in self.old.windows b }
        ensures written { IsTrue M.shown.tells_words → OnTrue result
            (with_run self.new.pending (M.shown.words self.new.medium)
            ≡ slice_set (with_run self.old.pending (M.shown.words self.old.medium)) at value) }
        ensures does { Does (shown_by_cached M.shown) (WritesWord at value) self.old self.new }
        ensures renews { OnTrue result (IsRenewed (shown_by_cached M.shown) at self.new) }
        ensures kept { OnFalse result (self.new.pending ≡ self.old.pending) }
        ensures stays { OnFalse result (self.new.windows ≡ self.old.windows) }
        ensures none { IsTrue (M.missing self.old.medium) → IsFalse result }
        ensures faults { IsFalse (M.missing self.old.medium) → Blames result
            (M.shown.faults self.old.medium) (M.shown.faults self.new.medium) }
        ensures missing { M.missing self.new.medium ≡ M.missing self.old.medium }
        ensures failed { has_failed_sync self.new ≡ has_failed_sync self.old }
    {
        if self.apart && self.pending.goes_on(at) {
            self.push(at, value);
            return true;
        }
        self.keep_anywhere(at, value)
    }

    /// Keeps written words, from that place on, up to the first that cannot be kept, and says how many
    /// these are.
    pub fn keep_words(&mut self, at: u64, values: &[u64]) -> usize
        requires { at + length values.now ≤ self.old.len }
        ensures most { result ≤ length values.now }
        ensures windows { PutsMany at result values.now self.old.windows self.new.windows }
        ensures waits { 0 < result
            → word_of_run self.new.pending (at + (result - 1))
            ≡ Some (slice_index values.now (result - 1)) }
        ensures written { IsTrue M.shown.tells_words → (k : ℕ) → k < result → slice_index
            (with_run self.new.pending (M.shown.words self.new.medium))
            (at + k) ≡ slice_index values.now k }
        ensures failed_at { IsTrue M.shown.tells_words →
            result < length values.now → WritesUpTo at result
            values.now (with_run self.old.pending (M.shown.words self.old.medium))
            (with_run self.new.pending (M.shown.words self.new.medium)) }
        ensures does { Does (shown_by_cached M.shown) (WritesMany at values.now) self.old self.new }
        ensures renews { AreRenewed (shown_by_cached M.shown) at result self.new }
        ensures none { IsTrue (M.missing self.old.medium) → result ≡ 0 }
        ensures all { IsFalse (M.missing self.old.medium) → result ≡ length values.now →
            M.shown.faults self.new.medium ≡ M.shown.faults self.old.medium }
        ensures fewer { IsFalse (M.missing self.old.medium) → result < length values.now →
            M.shown.faults self.new.medium ≡ counted (M.shown.faults self.old.medium) }
        ensures missing { M.missing self.new.medium ≡ M.missing self.old.medium }
        ensures failed { has_failed_sync self.new ≡ has_failed_sync self.old }
    {
        for index in 0..values.len() {
            if !self.keep(at + index as u64, values[index]) {
                return index;
            }
        }
        values.len()
    }
}
