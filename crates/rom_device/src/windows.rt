//! Words read ahead of a medium.
ghost use Rattle.std.specs.Prelude.{◌≡◌, ◌≢◌, ◌+◌, ◌*◌, ◌<◌, ◌≤◌, ◌^◌, ℕ, length, slice_index, IfSome, IfNone, IsSome, IsTrue, None};
ghost use Rattle.std.specs.Bool.{OnFalse, OnTrue};
ghost use Rattle.rom_device.specs.Device.{OnlyReads};
ghost use Rattle.rom_device.specs.Medium.{Blames, HasPlaces};

use crate::medium::Medium;
use crate::run::Run;

/// Two runs of words of a medium, so that two parts of it may be walked side by side. Of the
/// two the one that was read ahead last stays, whichever was looked in since: each part then
/// replaces its own, and a look in a window stores nothing.
#[derive(Drop)]
pub struct Windows {
    left: Run,
    right: Run,
    left_is_newer: bool,
}

impl Windows {
    ghost use Rattle.rom_device.specs.Windows.{word_in, IsMissed, IsRead, Puts, ReadsWindow, ReadsOf};

    /// No words.
    pub fn empty() -> Windows
        ensures { (b : ℕ) → word_in result b ≡ None }
    {
        Windows {
            left: Run::empty(),
            right: Run::empty(),
            left_is_newer: false,
        }
    }

    /// The word at that place, where a window has it.
    #[inline(always)]
    pub fn get(&self, at: u64) -> Option<u64>
        ensures word { result ≡ word_in self.now at }
        ensures missed { IfNone result (IsMissed self.now at) }
    {
        if let Some(word) = self.left.get(at) {
            return Some(word);
        }
        self.right.get(at)
    }

    /// Puts the words from that place on into these places, as many as one window has of them, and
    /// says how many these are.
    pub fn copy(&self, at: u64, into: &mut [u64]) -> usize
        ensures most { result ≤ length into.old }
        ensures len { length into.new ≡ length into.old }
        ensures words { (k : ℕ) → k < result → IsRead self.now (at + k) (slice_index into.new k) }
    {
        let copied = self.left.copy(at, into);
        if copied > 0 {
            return copied;
        }
        self.right.copy(at, into)
    }

    /// Whether a window has any of the 512 words from that place on.
    pub fn meet(&self, at: u64) -> bool
        ensures { OnFalse result ((b : ℕ) → at ≤ b → b < at + 512 → IsMissed self.now b) }
    {
        self.left.meets(at) || self.right.meets(at)
    }

    /// The word at that place is this value from now on, as far as the windows have it.
    pub fn set(&mut self, at: u64, value: u64)
        ensures here { IfSome (word_in self.new at) (λ word. word ≡ value) }
        ensures others { (b : ℕ) → b ≢ at → word_in self.new b ≡ word_in self.old b }
        ensures missed { (b : ℕ) → IsMissed self.old b → IsMissed self.new b }
        ensures left { Puts at value self.old.left self.new.left }
        ensures right { Puts at value self.old.right self.new.right }
    {
        self.left.set(at, value);
        self.right.set(at, value);
    }

    /// Reads so many words of a medium ahead, from that place on, in place of those that were read
    /// ahead before the others. Where the medium fails, which `false` says, these are gone all the same.
    pub fn read<M: Medium>(&mut self, medium: &mut M, first: u64, count: usize) -> bool
        requires place { first * 8 < 2 ^ 64 }
        requires room { count ≤ 512 }
        requires low { first + count ≤ 2 ^ 64 }
        requires inside { HasPlaces M.shown first count medium.old }
        ensures left { ReadsWindow first self.old.left self.new.left }
        ensures right { ReadsWindow first self.old.right self.new.right }
        ensures left_told { IsTrue M.shown.tells_words
            → ReadsOf (M.shown.words medium.old) self.old.left self.new.left }
        ensures right_told { IsTrue M.shown.tells_words
            → ReadsOf (M.shown.words medium.old) self.old.right self.new.right }
        ensures only { OnlyReads M.shown medium.old medium.new }
        ensures here { OnTrue result (0 < count → IsSome (word_in self.new first)) }
        ensures faults { Blames result (M.shown.faults medium.old) (M.shown.faults medium.new) }
        ensures stays { M.missing medium.new ≡ M.missing medium.old }
        ensures sure { M.doubtful medium.new ≡ M.doubtful medium.old }
    {
        let read = if self.left_is_newer {
            self.right.read(medium, first, count)
        } else {
            self.left.read(medium, first, count)
        };
        // A window without words is never the newer one.
        self.left_is_newer = self.left_is_newer != read;
        read
    }
}
