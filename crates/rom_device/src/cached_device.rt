//! A device over a medium.
ghost use Rattle.std.specs.Prelude.{◌≡◌, ◌*◌, ◌<◌, ◌^◌, IsTrue, IsFalse, length};

use crate::cached::Cached;
use crate::device::{Device, Failed};
use crate::medium::Medium;

/// The words of a medium, read ahead and gathered. It tells its words where its medium tells them, and
/// so what a stop may leave.
///
/// Words are read ahead, and written words are gathered before they are handed over. So a write
/// promises no more than that the word reads so from now on, and a sync alone makes it certain.
/// Once a sync of the medium has failed, each later sync of the device fails. No other call fails, and
/// no sync before, but where a call of the medium failed in it or there is no medium (clauses `cause`,
/// `all`, `fewer`). A word that an earlier program left in doubt is so until it was written: each written
/// word is handed over, also one that reads so already. Where the device is let go, what waits is handed over, and no sync has promised it.
#[derive(Drop)]
pub struct CachedDevice<M: Medium> {
    words: Cached<M>,
    reads: u64,
    writes: u64,
    syncs: u64,
    failed: u64,
    failing: bool,
    ghost reads_fit: { reads < 2 ^ 64 },
    ghost writes_fit: { writes < 2 ^ 64 },
    ghost syncs_fit: { syncs < 2 ^ 64 },
    ghost faults_fit: { failed < 2 ^ 64 },
}

impl<M: Medium> CachedDevice<M> {
    ghost use Rattle.rom_model.specs.Faults.{FailedLast};
    ghost use Rattle.rom_device.specs.CachedDevice.{length_of, fault_count_of, is_failing, medium_of, device_has_failed_sync, IsUnused};

    /// So many words of a medium, from its first on.
    pub fn over(medium: M, len: u64) -> CachedDevice<M>
        requires small { len * 8 < 2 ^ 64 }
        requires long { IsTrue M.shown.tells_words → length (M.shown.words medium) ≡ len }
        requires sure { IsFalse (M.doubtful medium) }
        ensures len { length_of result ≡ len }
        ensures unused { IsUnused result }
        ensures medium { medium_of result ≡ medium }
        ensures synced { IsFalse (device_has_failed_sync result) }
    {
        CachedDevice {
            words: Cached::new(medium, len),
            reads: 0,
            writes: 0,
            syncs: 0,
            failed: 0,
            failing: false,
        }
    }

    /// The medium, without the words that wait: as a stop would leave it. These are lost. Where no sync
    /// of it has failed, a device over it can be made anew.
    pub fn into_medium(self) -> M
        ensures medium { result ≡ medium_of self }
        // Where no sync of it has failed, it is not `doubtful`, as `Medium` defines that.
        ensures sure { IsFalse (device_has_failed_sync self) → IsFalse (M.doubtful result) }
    {
        let CachedDevice {
            words,
            reads: _,
            writes: _,
            syncs: _,
            failed: _,
            failing: _,
        } = self;
        words.into_medium()
    }

    // Notes that the call which is being made fails.
    #[cold]
    #[inline(never)]
    fn fault(&mut self) -> Failed
        ensures last { FailedLast (fault_count_of self.old) (fault_count_of self.new)
            (is_failing self.new) }
        ensures words { self.new.words ≡ self.old.words }
        ensures reads { self.new.reads ≡ self.old.reads }
        ensures writes { self.new.writes ≡ self.old.writes }
        ensures syncs { self.new.syncs ≡ self.old.syncs }
    {
        self.failed = self.failed.saturating_add(1);
        self.failing = true;
        Failed
    }
}

impl<M: Medium> Device for CachedDevice<M> {
    ghost use Rattle.std.specs.Prelude.{◌⊎◌, ◌+◌, ◌≤◌, ℕ, nat_lt, slice_index, slice_set, IfOk, IsErr, OnOk, OnErr, is_err, is_ok};
    ghost use Rattle.rom_device.specs.Device.{AreRenewed, AreSettled, CountsCalls, Does, IsRenewed, IsSynced, Makes, OnlyReads, ReadsUpTo, Stays, WritesMany, WritesWord, WritingFailed};
    ghost use Rattle.rom_model.specs.Faults.{counted};
    ghost use Rattle.rom_device.specs.Medium.{Blames};
    ghost use Rattle.rom_device.specs.CachedDevice.{length_of, is_failing, medium_faults, medium_of, device_has_failed_sync, shown_by_device, IsUncertain, Keeps};
    ghost use Rattle.std.proofs.Common.{arith, refl};

    ghost shown = { shown_by_device M.lasting M.shown };

    fn len(&self) -> u64 {
        self.words.len()
    }

    fn fault_count(&self) -> u64 {
        self.failed
    }

    #[inline(always)]
    fn read(&mut self, at: u64) -> Result<u64, Failed>
        requires { at < length_of self.old }
        ensures word { IsTrue M.shown.tells_words → IfOk result (λ word.
            word ≡ slice_index ((shown_by_device M.lasting M.shown).words self.old) at) }
        ensures only { OnlyReads (shown_by_device M.lasting M.shown) self.old self.new }
        ensures counts { CountsCalls (shown_by_device M.lasting M.shown) 1 0 0 self.old self.new result }
        // Without a medium it fails. The size stays, and so does whether there is a medium and whether a
        // sync of it has failed.
        ensures keeps { Keeps M.missing (IsErr result) self.old self.new }
        // With a medium: where it fails the medium's count of faults rises by one, and else that count
        // stays.
        ensures cause { IsFalse (M.missing (medium_of self.old)) → Blames (is_ok result)
            (medium_faults M.shown self.old) (medium_faults M.shown self.new) }
    {
        self.reads = self.reads.saturating_add(1);
        let Some(word) = self.words.find(at) else {
            return Err(self.fault());
        };
        self.failing = false;
        Ok(word)
    }

    /// No words are no call.
    fn read_words(&mut self, at: u64, into: &mut [u64]) -> usize
        requires { at + length into.old ≤ length_of self.old }
        ensures len { length into.new ≡ length into.old }
        ensures read { IsTrue M.shown.tells_words → (k : ℕ) → k < result → slice_index into.new k
            ≡ slice_index ((shown_by_device M.lasting M.shown).words self.old) (at + k) }
        ensures only { OnlyReads (shown_by_device M.lasting M.shown) self.old self.new }
        ensures counts { ReadsUpTo (shown_by_device M.lasting M.shown) result
            (length into.old) self.old self.new }
        ensures failing { 0 < length into.old →
            is_failing self.new ≡ nat_lt result (length into.old) }
        ensures none { length into.old ≡ 0 → self.new ≡ self.old }
        // Without a medium no word is read. The size stays, and so does whether there is a medium and
        // whether a sync of it has failed.
        ensures keeps { Keeps M.missing (result ≡ 0) self.old self.new }
        // With a medium: where all words are read, the medium's count of faults stays.
        ensures all { IsFalse (M.missing (medium_of self.old)) → result ≡ length into.old →
            medium_faults M.shown self.new ≡ medium_faults M.shown self.old }
        // With a medium: where fewer are read, the medium's count of faults rises by one.
        ensures fewer { IsFalse (M.missing (medium_of self.old)) → result < length into.old →
            medium_faults M.shown self.new ≡ counted (medium_faults M.shown self.old) }
    {
        if into.is_empty() {
            return 0;
        }
        let found = self.words.find_words(at, into);
        if found < into.len() {
            self.reads = self.reads.saturating_add(found as u64 + 1);
            self.fault();
            return found;
        }
        self.reads = self.reads.saturating_add(found as u64);
        self.failing = false;
        found
    }

    #[inline(always)]
    fn write(&mut self, at: u64, value: u64) -> Result<(), Failed>
        requires { at < length_of self.old }
        ensures written { IsTrue M.shown.tells_words →
            OnOk result ((shown_by_device M.lasting M.shown).words self.new
            ≡ slice_set ((shown_by_device M.lasting M.shown).words self.old) at value) }
        ensures does { Does (shown_by_device M.lasting M.shown) (WritesWord at value) self.old self.new }
        ensures renews { OnOk result (IsRenewed (shown_by_device M.lasting M.shown) at self.new) }
        ensures counts { CountsCalls (shown_by_device M.lasting M.shown) 0 1 0 self.old self.new result }
        // Without a medium it fails. The size stays, and so does whether there is a medium and whether a
        // sync of it has failed.
        ensures keeps { Keeps M.missing (IsErr result) self.old self.new }
        // With a medium: where it fails the medium's count of faults rises by one, and else that count
        // stays.
        ensures cause { IsFalse (M.missing (medium_of self.old)) → Blames (is_ok result)
            (medium_faults M.shown self.old) (medium_faults M.shown self.new) }
    {
        self.writes = self.writes.saturating_add(1);
        if !self.words.keep(at, value) {
            return Err(self.fault());
        }
        self.failing = false;
        Ok(())
    }

    /// No words are no call.
    fn write_words(&mut self, at: u64, values: &[u64]) -> Result<(), Failed>
        requires { at + length values.now ≤ length_of self.old }
        ensures written { IsTrue M.shown.tells_words → OnOk result ((k : ℕ) → k < length values.now
            → slice_index ((shown_by_device M.lasting M.shown).words self.new) (at + k)
            ≡ slice_index values.now k) }
        ensures failed { OnErr result (WritingFailed (shown_by_device M.lasting M.shown) at
            values.now self.old self.new) }
        ensures does { Does (shown_by_device M.lasting M.shown) (WritesMany at values.now) self.old self.new }
        ensures renews { OnOk result (AreRenewed (shown_by_device M.lasting M.shown) at
            (length values.now) self.new) }
        ensures makes { Makes (shown_by_device M.lasting M.shown) 0 (length values.now) 0
            self.old self.new result }
        ensures failing { 0 < length values.now → is_failing self.new ≡ is_err result }
        ensures none { length values.now ≡ 0 → self.new ≡ self.old }
        // Without a medium it fails, unless it is given no words. The size stays, and so does whether there
        // is a medium and whether a sync of it has failed.
        ensures keeps { Keeps M.missing (0 < length values.now → IsErr result) self.old self.new }
        // With a medium: where it fails the medium's count of faults rises by one, and else that count
        // stays.
        ensures cause { IsFalse (M.missing (medium_of self.old)) → Blames (is_ok result)
            (medium_faults M.shown self.old) (medium_faults M.shown self.new) }
    {
        if values.is_empty() {
            return Ok(());
        }
        let kept = self.words.keep_words(at, values);
        if kept < values.len() {
            self.writes = self.writes.saturating_add(kept as u64 + 1);
            return Err(self.fault());
        }
        self.writes = self.writes.saturating_add(kept as u64);
        self.failing = false;
        Ok(())
    }

    fn sync(&mut self) -> Result<(), Failed>
        ensures certain { OnOk result (IsSynced (shown_by_device M.lasting M.shown) self.new) }
        ensures settles { IsTrue M.shown.tells_images → OnOk result
            (AreSettled (shown_by_device M.lasting M.shown) self.new) }
        ensures does { Does (shown_by_device M.lasting M.shown) Stays self.old self.new }
        ensures counts { CountsCalls (shown_by_device M.lasting M.shown) 0 0 1 self.old self.new result }
        ensures medium { M.missing (medium_of self.new) ≡ M.missing (medium_of self.old) }
        ensures missing { IsTrue (M.missing (medium_of self.old)) → IsErr result }
        // Where a sync of the medium failed before, this one fails.
        ensures failed_sync { IsTrue (device_has_failed_sync self.old) → IsErr result }
        ensures stays_failed { IsTrue (device_has_failed_sync self.old) →
            IsTrue (device_has_failed_sync self.new) }
        ensures synced { OnOk result (IsFalse (device_has_failed_sync self.new)) }
        // After a failure a word still waits, or a sync of the medium has failed.
        ensures noted { OnErr result (IsUncertain self.new) }
        // Where no sync of the medium failed before: if this sync fails the medium's count of faults rises
        // by one, and else that count stays.
        ensures cause { IsFalse (device_has_failed_sync self.old) → Blames (is_ok result)
            (medium_faults M.shown self.old) (medium_faults M.shown self.new) }
    {
        self.syncs = self.syncs.saturating_add(1);
        if !self.words.sync() {
            return Err(self.fault());
        }
        self.failing = false;
        Ok(())
    }

    ghost use Rattle.rom_device.specs.Doubt.{and_last};
    ghost use Rattle.rom_device.specs.Over.{reads_as_image, images_as_long, is_since, is_now, length_over};

    ghost tells_both = { λ told. M.tells_both (and_last M.lasting M.shown.tells_images told) };

    ghost reads_image = { λ d told. reads_as_image M.shown d.words.pending d.words.medium
        (Prim.omega (arith, d.words.inside, d.words.long (M.tells_both (and_last M.lasting M.shown.tells_images told))))
        (M.reads_image d.words.medium (and_last M.lasting M.shown.tells_images told)) };

    ghost words_fit = { λ d told. length_over d.words.pending (M.shown.words d.words.medium)
        (d.words.long told) };

    ghost images_fit = { λ d i told left. images_as_long M.shown d.words.pending d.words.medium i
        (λ j has. Prim.omega (
          arith,
          M.images_fit d.words.medium j (and_last M.lasting M.shown.tells_images told) has,
          d.words.long (M.tells_both (and_last M.lasting M.shown.tells_images told)),
        )) left };

    ghost counts_now = { λ d t i _ _ left. is_since M.shown d.words.pending
        d.words.medium t i left };

    ghost only_now = { λ d i told since. is_now M.shown d.words.pending d.words.medium i
        (λ past. M.only_now d.words.medium i (and_last M.lasting M.shown.tells_images told) past) since };

    ghost doubts_told = { λ told. record {
      words = M.tells_both told;
      reads_image = λ d. reads_as_image M.shown d.words.pending d.words.medium
          (Prim.omega (arith, d.words.inside, d.words.long (M.tells_both told)))
          (M.reads_image d.words.medium told);
      images_fit = λ d i left. images_as_long M.shown d.words.pending d.words.medium i
          (λ j has. Prim.omega (
            arith,
            M.images_fit d.words.medium j told has,
            length_over d.words.pending (M.shown.words d.words.medium) refl,
          )) left;
      counts_now = λ d t i _ left. is_since M.shown d.words.pending d.words.medium t i left;
      only_now = λ d i since. is_now M.shown d.words.pending d.words.medium i
          (λ past. M.only_now d.words.medium i told past) since;
    } };

    ghost size_fits = { λ d. Prim.omega (arith, d.words.small) };

    ghost counts_fit = { λ d. (d.reads_fit, d.writes_fit, d.syncs_fit, d.faults_fit) };
}
