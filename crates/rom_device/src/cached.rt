//! A medium whose words are read ahead, and gathered before they are handed over.
ghost use Rattle.std.specs.Prelude.{◌≡◌, ◌≢◌, ◌⊎◌, ◌+◌, ◌-◌, ◌*◌, ◌<◌, ◌≤◌, ◌^◌, ℕ, Bool, length, not, slice_index, Some, None, IfSome, is_some, IsTrue, IsFalse};
ghost use Rattle.std.specs.Bool.{OnTrue, OnFalse};
ghost use Rattle.rom_model.specs.Faults.{counted};
ghost use Rattle.rom_device.specs.Medium.{Blames, HandsOver};
ghost use Rattle.rom_device.specs.Run.{nth_of, word_of_run, with_run};
ghost use Rattle.rom_device.specs.Windows.{word_in, Agrees, IsApart, IsMissed, IsRead, Knows};

use crate::medium::Medium;
use crate::page::PAGE_WORDS;
use crate::run::Run;
use crate::windows::Windows;

/// The words of a medium. Up to 512 of them are read ahead at each of two places, and up to 512
/// adjacent ones that are written one after another are handed over in one call. What could not be
/// handed over still reads as written, and is tried again.
///
/// Whatever word waits and was also read ahead is the same at both places, so a read looks in the
/// windows first. `apart` says that no window has any of the 512 words from the first that waits
/// on: then the next word is only put behind the others.
///
/// A word that waits is handed over before another value takes its place, so that the medium is given
/// each value that was written.
pub struct Cached<M: Medium> {
    pub(crate) medium: M,
    pub(crate) len: u64,
    pub(crate) windows: Windows,
    pub(crate) pending: Run,
    pub(crate) apart: bool,
    pub(crate) sync_failed: bool,
    ghost small: { len * 8 < 2 ^ 64 },
    ghost sure: { IsFalse sync_failed → IsFalse (M.doubtful medium) },
    ghost inside: { pending.first + pending.count ≤ len },
    ghost agree: { Agrees pending windows },
    ghost alone: { IsTrue apart → IsFalse (M.missing medium) × (0 < pending.count)
        × IsApart pending windows },
    ghost none_read: { IsTrue (M.missing medium) → (b : ℕ) → word_in windows b ≡ None },
    ghost long: { IsTrue M.shown.tells_words → length (M.shown.words medium) ≡ len },
    ghost told: { IsTrue M.shown.tells_words →
        Knows windows (with_run pending (M.shown.words medium)) },
}

impl<M: Medium> Cached<M> {
    ghost use Rattle.rom_device.specs.Device.{AreSettled, Does, OnlyReads, Stays};
    ghost use Rattle.rom_device.specs.Cached.{has_failed_sync, shown_by_cached, AsWaiting, Gives, HandedOver};

    /// So many words of a medium, none of them read ahead.
    pub fn new(medium: M, len: u64) -> Cached<M>
        requires small { len * 8 < 2 ^ 64 }
        requires long { IsTrue M.shown.tells_words → length (M.shown.words medium) ≡ len }
        requires sure { IsFalse (M.doubtful medium) }
        ensures len { result.len ≡ len }
        ensures medium { result.medium ≡ medium }
        ensures none { result.pending.count ≡ 0 }
        ensures synced { IsFalse (has_failed_sync result) }
    {
        Cached {
            medium,
            len,
            windows: Windows::empty(),
            pending: Run::empty(),
            apart: false,
            sync_failed: false,
        }
    }

    /// The medium, without the words that wait: as a stop would leave it.
    pub fn into_medium(self) -> M
        ensures medium { result ≡ self.medium }
        ensures sure { IsFalse (has_failed_sync self) → IsFalse (M.doubtful result) }
    {
        let Cached {
            medium,
            len: _,
            windows: _,
            pending: _,
            apart: _,
            sync_failed: _,
        } = self;
        medium
    }

    /// The medium, to which what waits was handed over, or was tried to be: where that fails, each of these
    /// words is as it was or as it waited. All that a drop does is done here.
    fn hand_over(self) -> M
        ensures hands { (done : Bool)
            × HandsOver M.shown self.pending.first (nth_of self.pending) self.pending.count
            self.medium result done
            × Blames done (M.shown.faults self.medium) (M.shown.faults result) }
    {
        let Cached {
            mut medium,
            len: _,
            windows: _,
            pending,
            apart: _,
            sync_failed: _,
        } = self;
        let _ = pending.write(&mut medium);
        medium
    }

    /// How many words these are.
    pub fn len(&self) -> u64
        ensures { result ≡ self.now.len }
    {
        self.len
    }

    /// Hands over what waits. `false` says that it still waits.
    #[inline(never)]
    pub fn flush(&mut self) -> bool
        ensures handed { OnTrue result (self.new.pending.count ≡ 0) }
        ensures none { OnTrue result ((b : ℕ) → word_of_run self.new.pending b ≡ None) }
        ensures kept { OnFalse result (self.new.pending ≡ self.old.pending) }
        ensures waits { OnFalse result (0 < self.new.pending.count) }
        ensures windows { self.new.windows ≡ self.old.windows }
        ensures only { OnlyReads (shown_by_cached M.shown) self.old self.new }
        ensures faults { Blames result (M.shown.faults self.old.medium) (M.shown.faults self.new.medium) }
        ensures missing { M.missing self.new.medium ≡ M.missing self.old.medium }
        ensures failed { has_failed_sync self.new ≡ has_failed_sync self.old }
    {
        if self.pending.is_empty() {
            return true;
        }
        if !self.pending.write(&mut self.medium) {
            return false;
        }
        self.pending.clear();
        self.apart = false;
        true
    }

    // Reads ahead from a place that no window has.
    fn read_ahead(&mut self, at: u64) -> Option<u64>
        requires inside { at < self.old.len }
        requires there { IsFalse (M.missing self.old.medium) }
        requires missed { IsMissed self.old.windows at }
        requires clear { (b : ℕ) → at ≤ b → b < at + 512 → word_of_run self.old.pending b ≡ None }
        ensures read { IfSome result (λ word. word_in self.new.windows at ≡ Some word) }
        ensures word { IsTrue M.shown.tells_words → IfSome result (λ word.
            word ≡ slice_index (with_run self.old.pending (M.shown.words self.old.medium)) at) }
        ensures pending { self.new.pending ≡ self.old.pending }
        ensures only { OnlyReads (shown_by_cached M.shown) self.old self.new }
        ensures faults { Blames (is_some result) (M.shown.faults self.old.medium)
            (M.shown.faults self.new.medium) }
        ensures missing { M.missing self.new.medium ≡ M.missing self.old.medium }
        ensures failed { has_failed_sync self.new ≡ has_failed_sync self.old }
    {
        let count = (self.len - at).min(PAGE_WORDS as u64) as usize;
        let read = self.windows.read(&mut self.medium, at, count);
        self.apart = self.apart && !self.windows.meet(self.pending.first());
        if !read {
            return None;
        }
        self.windows.get(at)
    }

    // Hands over what waits, if any of it has one of the 512 places from that one on. Words that wait
    // elsewhere may go on waiting, and so fill their page. `false` says that they still wait.
    fn make_way(&mut self, at: u64) -> bool
        ensures clear { OnTrue result ((b : ℕ) → at ≤ b → b < at + 512 →
            word_of_run self.new.pending b ≡ None) }
        ensures pending { HandedOver self.old.pending self.new.pending }
        ensures windows { self.new.windows ≡ self.old.windows }
        ensures only { OnlyReads (shown_by_cached M.shown) self.old self.new }
        ensures faults { Blames result (M.shown.faults self.old.medium) (M.shown.faults self.new.medium) }
        ensures missing { M.missing self.new.medium ≡ M.missing self.old.medium }
        ensures failed { has_failed_sync self.new ≡ has_failed_sync self.old }
    {
        if self.pending.meets(at) {
            return self.flush();
        }
        true
    }

    // The word at a place that no window has: as it waits, or else as the medium has it.
    #[cold]
    #[inline(never)]
    fn fetch(&mut self, at: u64) -> Option<u64>
        requires inside { at < self.old.len }
        requires missed { IsMissed self.old.windows at }
        ensures waits { IsFalse (M.missing self.old.medium) →
            Gives (word_of_run self.old.pending at) result }
        ensures word { IsTrue M.shown.tells_words → IfSome result (λ word.
            word ≡ slice_index (with_run self.old.pending (M.shown.words self.old.medium)) at) }
        ensures pending { HandedOver self.old.pending self.new.pending }
        ensures none { IsTrue (M.missing self.old.medium) → result ≡ None }
        ensures only { OnlyReads (shown_by_cached M.shown) self.old self.new }
        ensures faults { IsFalse (M.missing self.old.medium) → Blames (is_some result)
            (M.shown.faults self.old.medium) (M.shown.faults self.new.medium) }
        ensures missing { M.missing self.new.medium ≡ M.missing self.old.medium }
        ensures failed { has_failed_sync self.new ≡ has_failed_sync self.old }
    {
        if self.medium.is_missing() {
            return None;
        }
        let waits = self.pending.get(at);
        if waits.is_some() {
            return waits;
        }
        if !self.make_way(at) {
            return None;
        }
        self.read_ahead(at)
    }

    /// The word at that place: as it was read ahead, as it waits, or else as the medium has it. `None`
    /// says that there is no medium or that it failed; what was written still reads so.
    #[inline(always)]
    pub fn find(&mut self, at: u64) -> Option<u64>
        requires { at < self.old.len }
        ensures waits { IsFalse (M.missing self.old.medium) →
            Gives (word_of_run self.old.pending at) result }
        ensures word { IsTrue M.shown.tells_words → IfSome result (λ word.
            word ≡ slice_index (with_run self.old.pending (M.shown.words self.old.medium)) at) }
        ensures window { Gives (word_in self.old.windows at) result }
        ensures pending { HandedOver self.old.pending self.new.pending }
        ensures none { IsTrue (M.missing self.old.medium) → result ≡ None }
        ensures only { OnlyReads (shown_by_cached M.shown) self.old self.new }
        ensures faults { IsFalse (M.missing self.old.medium) → Blames (is_some result)
            (M.shown.faults self.old.medium) (M.shown.faults self.new.medium) }
        ensures missing { M.missing self.new.medium ≡ M.missing self.old.medium }
        ensures failed { has_failed_sync self.new ≡ has_failed_sync self.old }
    {
        if let Some(word) = self.windows.get(at) {
            return Some(word);
        }
        self.fetch(at)
    }

    // Puts the words from that place on into these places, as many as one window has of them, and
    // says how many these are.
    fn copy(&self, at: u64, into: &mut [u64]) -> usize
        ensures most { result ≤ length into.old }
        ensures len { length into.new ≡ length into.old }
        ensures words { (k : ℕ) → k < result →
            IsRead self.now.windows (at + k) (slice_index into.new k) }
        ensures waits { AsWaiting self.now.pending at result into.new }
        ensures none { IsTrue (M.missing self.now.medium) → result ≡ 0 }
        ensures told { IsTrue M.shown.tells_words → (k : ℕ) → k < result → slice_index into.new k
            ≡ slice_index (with_run self.now.pending (M.shown.words self.now.medium)) (at + k) }
    {
        self.windows.copy(at, into)
    }

    /// Puts the words from that place on into these places, up to the first that is not found, and says
    /// how many these are. Those that still wait are as they wait.
    pub fn find_words(&mut self, at: u64, into: &mut [u64]) -> usize
        requires { at + length into.old ≤ self.old.len }
        ensures most { result ≤ length into.old }
        ensures len { length into.new ≡ length into.old }
        ensures waits { AsWaiting self.new.pending at result into.new }
        ensures told { IsTrue M.shown.tells_words → (k : ℕ) → k < result → slice_index into.new k
            ≡ slice_index (with_run self.old.pending (M.shown.words self.old.medium)) (at + k) }
        ensures pending { HandedOver self.old.pending self.new.pending }
        ensures none { IsTrue (M.missing self.old.medium) → result ≡ 0 }
        ensures only { OnlyReads (shown_by_cached M.shown) self.old self.new }
        ensures all { IsFalse (M.missing self.old.medium) → result ≡ length into.old →
            M.shown.faults self.new.medium ≡ M.shown.faults self.old.medium }
        ensures fewer { IsFalse (M.missing self.old.medium) → result < length into.old →
            M.shown.faults self.new.medium ≡ counted (M.shown.faults self.old.medium) }
        ensures missing { M.missing self.new.medium ≡ M.missing self.old.medium }
        ensures failed { has_failed_sync self.new ≡ has_failed_sync self.old }
    {
        let mut done = 0;
        while done < into.len() {
            // What was read ahead needs no look of its own.
            let ahead = self.copy(at + done as u64, &mut into[done..]);
            done += ahead;
            if ahead == 0 {
                let Some(word) = self.find(at + done as u64) else {
                    return done;
                };
                into[done] = word;
                done += 1;
            }
        }
        done
    }

    // Has the medium make certain what was handed over, where nothing waits and no sync failed.
    fn make_certain(&mut self) -> bool
        requires handed { self.old.pending.count ≡ 0 }
        requires sure { IsFalse (has_failed_sync self.old) }
        ensures certain { IsTrue M.shown.tells_images →
            OnTrue result (AreSettled (shown_by_cached M.shown) self.new) }
        ensures does { Does (shown_by_cached M.shown) Stays self.old self.new }
        ensures pending { self.new.pending ≡ self.old.pending }
        ensures faults { Blames result (M.shown.faults self.old.medium) (M.shown.faults self.new.medium) }
        ensures missing { M.missing self.new.medium ≡ M.missing self.old.medium }
        ensures none { IsTrue (M.missing self.old.medium) → IsFalse result }
        ensures failed { has_failed_sync self.new ≡ not result }
    {
        let synced = self.medium.sync();
        self.sync_failed = !synced;
        synced
    }

    /// Makes all words certain. `false` says that they are not; what could not be handed over still
    /// waits. After a sync of the medium that failed the system may have dropped what it could not
    /// write, and answer the next one with success. So none is asked for then.
    pub fn sync(&mut self) -> bool
        ensures certain { IsTrue M.shown.tells_images →
            OnTrue result (AreSettled (shown_by_cached M.shown) self.new) }
        ensures does { Does (shown_by_cached M.shown) Stays self.old self.new }
        ensures faults { IsFalse (has_failed_sync self.old) → Blames result
            (M.shown.faults self.old.medium) (M.shown.faults self.new.medium) }
        ensures handed { OnTrue result (self.new.pending.count ≡ 0) }
        ensures missing { M.missing self.new.medium ≡ M.missing self.old.medium }
        ensures none { IsTrue (M.missing self.old.medium) → IsFalse result }
        ensures failed { IsTrue (has_failed_sync self.old) → IsFalse result }
        ensures stays_failed { IsTrue (has_failed_sync self.old) →
            IsTrue (has_failed_sync self.new) }
        ensures synced { OnTrue result (IsFalse (has_failed_sync self.new)) }
        ensures noted { OnFalse result ((0 < self.new.pending.count)
            ⊎ IsTrue (has_failed_sync self.new)) }
    {
        if self.sync_failed || !self.flush() {
            return false;
        }
        self.make_certain()
    }
}

/// Hands over what waits, as far as the medium takes it. No sync has promised it.
impl<M: Medium> Drop for Cached<M> {
    fn drop(self) {
        let _medium = self.hand_over();
    }
}
