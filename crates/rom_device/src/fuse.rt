//! A device that passes some calls on and then fails each, as one that was unplugged.
ghost use Rattle.std.specs.Prelude.{◌≡◌, ◌-◌, ◌<◌, ◌^◌, IsTrue, if◌then◌else◌, ◌↔◌};
ghost use Rattle.std.specs.Bool.{OnFalse};
ghost use Rattle.rom_model.specs.Faults.{counted};

use crate::device::{Device, Failed};

/// A device that passes so many reads, writes and syncs on, and then fails each without passing
/// it on. Each word of `read_words` and `write_words` is a call. Every other answer is that of the
/// device within, whose faults count too.
#[derive(Drop)]
pub struct Fuse<D> {
    inner: D,
    left: u64,
    failed: u64,
    reads: u64,
    writes: u64,
    syncs: u64,
    failing: bool,
    ghost counts_fit: { (reads < 2 ^ 64) × (writes < 2 ^ 64) × (syncs < 2 ^ 64) },
}

impl<D: Device> Fuse<D> {
    ghost use Rattle.rom_device.specs.Fuse.{inner_of, calls_left, own_faults_of, shown_by_fuse, FuseCountsNothing};

    /// A device that passes `calls` calls on to this one.
    pub fn new(inner: D, calls: u64) -> Fuse<D>
        ensures inner { inner_of result ≡ inner }
        ensures left { calls_left result ≡ calls }
        ensures faults { (shown_by_fuse D.shown).faults result ≡ D.shown.faults inner }
        ensures counts { FuseCountsNothing result }
    {
        Fuse {
            inner,
            left: calls,
            failed: 0,
            reads: 0,
            writes: 0,
            syncs: 0,
            failing: false,
        }
    }

    /// The device within, as the calls that were passed on left it.
    pub fn inner(self) -> D
        ensures { result ≡ inner_of self }
    {
        let Fuse {
            inner,
            left: _,
            failed: _,
            reads: _,
            writes: _,
            syncs: _,
            failing: _,
        } = self;
        inner
    }

    // Whether this call is passed on.
    fn passes(&mut self) -> bool
        ensures passes { IsTrue result ↔ (0 < self.old.left) }
        ensures left { self.new.left ≡ self.old.left - 1 }
        ensures inner { self.new.inner ≡ self.old.inner }
        ensures reads { self.new.reads ≡ self.old.reads }
        ensures writes { self.new.writes ≡ self.old.writes }
        ensures syncs { self.new.syncs ≡ self.old.syncs }
        ensures failed { self.new.failed ≡ (if result then self.old.failed else
            counted self.old.failed) }
        ensures failing { OnFalse result (IsTrue self.new.failing) }
    {
        if self.left > 0 {
            self.left -= 1;
            return true;
        }
        self.failed = self.failed.saturating_add(1);
        self.failing = true;
        false
    }
}

impl<D: Device> Device for Fuse<D> {
    ghost use Rattle.std.specs.Prelude.{◌+◌, ◌≤◌, ℕ, IfOk, OnOk, OnErr, length, slice_index, slice_set};
    ghost use Rattle.std.proofs.Common.{arith};
    ghost use Rattle.rom_device.specs.Device.{AreRenewed, AreSettled, CountsCalls, Does, IsRenewed, IsSynced, Makes, OnlyReads, ReadsUpTo, Stays, WritesMany, WritesWord, WritingFailed};
    ghost use Rattle.rom_device.specs.Fuse.{inner_of, shown_by_fuse, MadeReads, Passes, PassesUpTo, PassesWrites};
    ghost use Rattle.rom_device.specs.Doubt.{fuse_doubts};

    ghost shown = { shown_by_fuse D.shown };

    fn len(&self) -> u64 {
        self.inner.len()
    }

    fn fault_count(&self) -> u64 {
        self.inner.fault_count().saturating_add(self.failed)
    }

    fn read(&mut self, at: u64) -> Result<u64, Failed>
        requires { at < D.shown.size (inner_of self.old) }
        ensures word { IsTrue D.shown.tells_words
            → IfOk result (λ word. word ≡ slice_index (D.shown.words (inner_of self.old)) at) }
        ensures only { OnlyReads (shown_by_fuse D.shown) self.old self.new }
        ensures counts { CountsCalls (shown_by_fuse D.shown) 1 0 0 self.old self.new result }
        // While the fuse has a call left, the read is passed on. Once it has none, the read fails and is
        // not passed on.
        ensures passes { Passes D.shown 1 0 0 self.old self.new result }
    {
        self.reads = self.reads.saturating_add(1);
        if !self.passes() {
            return Err(Failed);
        }
        let result = self.inner.read(at);
        self.failing = result.is_err();
        result
    }

    fn read_words(&mut self, at: u64, into: &mut [u64]) -> usize
        requires { at + length into.old ≤ D.shown.size (inner_of self.old) }
        ensures len { length into.new ≡ length into.old }
        ensures read { IsTrue D.shown.tells_words → (k : ℕ) → k < result
            → slice_index into.new k ≡ slice_index (D.shown.words (inner_of self.old)) (at + k) }
        ensures only { OnlyReads (shown_by_fuse D.shown) self.old self.new }
        ensures counts { ReadsUpTo (shown_by_fuse D.shown) result
            (length into.old) self.old self.new }
        // Each word is one call. Calls are passed on while the fuse has some left, up to the first that
        // fails.
        ensures passes { PassesUpTo (MadeReads D.shown) result (length into.old) self.old self.new }
    {
        for index in 0..into.len() {
            let Ok(word) = self.read(at + index as u64) else {
                return index;
            };
            into[index] = word;
        }
        into.len()
    }

    fn write(&mut self, at: u64, value: u64) -> Result<(), Failed>
        requires { at < D.shown.size (inner_of self.old) }
        ensures written { IsTrue D.shown.tells_words
            → OnOk result (D.shown.words (inner_of self.new)
            ≡ slice_set (D.shown.words (inner_of self.old)) at value) }
        ensures does { Does (shown_by_fuse D.shown) (WritesWord at value) self.old self.new }
        ensures renews { OnOk result (IsRenewed (shown_by_fuse D.shown) at self.new) }
        ensures counts { CountsCalls (shown_by_fuse D.shown) 0 1 0 self.old self.new result }
        ensures passes { Passes D.shown 0 1 0 self.old self.new result }
    {
        self.writes = self.writes.saturating_add(1);
        if !self.passes() {
            return Err(Failed);
        }
        let result = self.inner.write(at, value);
        self.failing = result.is_err();
        result
    }

    fn write_words(&mut self, at: u64, values: &[u64]) -> Result<(), Failed>
        requires { at + length values.now ≤ D.shown.size (inner_of self.old) }
        ensures written { IsTrue D.shown.tells_words → OnOk result ((k : ℕ) → k < length values.now
            → slice_index (D.shown.words (inner_of self.new)) (at + k) ≡ slice_index values.now k) }
        ensures failed { OnErr result
            (WritingFailed (shown_by_fuse D.shown) at values.now self.old self.new) }
        ensures does { Does (shown_by_fuse D.shown) (WritesMany at values.now) self.old self.new }
        ensures renews { OnOk result (AreRenewed (shown_by_fuse D.shown) at (length values.now) self.new) }
        ensures makes { Makes (shown_by_fuse D.shown) 0 (length values.now) 0
            self.old self.new result }
        ensures passes { PassesWrites D.shown at values.now self.old self.new result }
    {
        for index in 0..values.len() {
            self.write(at + index as u64, values[index])?;
        }
        Ok(())
    }

    fn sync(&mut self) -> Result<(), Failed>
        ensures certain { OnOk result (IsSynced (shown_by_fuse D.shown) self.new) }
        ensures settles { IsTrue D.shown.tells_doubts →
            OnOk result (AreSettled (shown_by_fuse D.shown) self.new) }
        ensures does { Does (shown_by_fuse D.shown) Stays self.old self.new }
        ensures counts { CountsCalls (shown_by_fuse D.shown) 0 0 1 self.old self.new result }
        ensures passes { Passes D.shown 0 0 1 self.old self.new result }
    {
        self.syncs = self.syncs.saturating_add(1);
        if !self.passes() {
            return Err(Failed);
        }
        let result = self.inner.sync();
        self.failing = result.is_err();
        result
    }

    ghost tells_both = { D.tells_both };

    ghost reads_image = { λ f told. D.reads_image f.inner told };

    ghost words_fit = { λ f told. D.words_fit f.inner told };

    ghost images_fit = { λ f i told left. D.images_fit f.inner i told left };

    ghost counts_now = { λ f t i told le left. D.counts_now f.inner t i told le left };

    ghost only_now = { λ f i told left. D.only_now f.inner i told left };

    ghost doubts_told = { λ told. fuse_doubts D.shown (D.doubts_told told) };

    ghost size_fits = { λ f. D.size_fits f.inner };

    ghost counts_fit = { λ f. (f.counts_fit.0, f.counts_fit.1, f.counts_fit.2, Prim.omega arith) };
}
