//! Some adjacent words of a medium.
ghost use Rattle.std.specs.Prelude.{◌≡◌, ◌+◌, ◌-◌, ◌*◌, ◌<◌, ◌≤◌, ◌^◌, IsTrue, ◌↔◌, IsSome, Some, None, ℕ, ◌≢◌, length, slice_index};
ghost use Rattle.std.specs.Bool.{OnTrue, OnFalse};
ghost use Rattle.rom_device.specs.Device.{OnlyReads};
ghost use Rattle.rom_device.specs.Medium.{Blames, HandsOver, HasPlaces};

use crate::medium::Medium;
use crate::page::{PAGE_WORDS, Page};

/// At most 512 adjacent words of a medium, from the place `first` on: as many as a page has. They are
/// the first words of `page`.
#[derive(Drop)]
pub struct Run {
    first: u64,
    count: usize,
    page: Page,
    ghost within: { count ≤ 512 },
    ghost low: { first + count ≤ 2 ^ 64 },
}

impl Run {
    ghost use Rattle.rom_device.specs.Run.{index_in, nth_of, word_of_run, IsNextPlace};

    /// No words.
    pub fn empty() -> Run
        ensures first { result.first ≡ 0 }
        ensures count { result.count ≡ 0 }
        ensures words { (b : ℕ) → word_of_run result b ≡ None }
    {
        Run {
            first: 0,
            count: 0,
            page: Page::zeroed(),
        }
    }

    /// Whether it has no words.
    pub fn is_empty(&self) -> bool
        ensures empty { IsTrue result ↔ (self.now.count ≡ 0) }
        ensures words { OnTrue result ((b : ℕ) → word_of_run self.now b ≡ None) }
    {
        self.count == 0
    }

    // Where the word at that place stands among the words, if the run has it.
    #[inline(always)]
    fn index_of(&self, at: u64) -> Option<usize>
        ensures { result ≡ index_in self.now at }
    {
        // A place before the first gives a number past every count, so one comparison tells both.
        let index = at.wrapping_sub(self.first);
        if index < self.count as u64 {
            Some(index as usize)
        } else {
            None
        }
    }

    /// The word at that place, if the run has it.
    #[inline(always)]
    pub fn get(&self, at: u64) -> Option<u64>
        ensures { result ≡ word_of_run self.now at }
    {
        let index = self.index_of(at)?;
        Some(self.page.get(index))
    }

    /// Puts the words from that place on into these places, as many as it has of them, and says how
    /// many these are.
    pub fn copy(&self, at: u64, into: &mut [u64]) -> usize
        ensures most { result ≤ length into.old }
        ensures len { length into.new ≡ length into.old }
        ensures words { (k : ℕ) → k < result →
            word_of_run self.now (at + k) ≡ Some (slice_index into.new k) }
    {
        let Some(index) = self.index_of(at) else {
            return 0;
        };
        let count = (self.count - index).min(into.len());
        self.page.copy(index, &mut into[..count]);
        count
    }

    /// Whether it has any of the 512 words from that place on.
    pub fn meets(&self, at: u64) -> bool
        ensures { OnFalse result ((b : ℕ) → at ≤ b → b < at + 512 → word_of_run self.now b ≡ None) }
    {
        !self.is_empty()
            && at.saturating_sub(self.first) < self.count as u64
            && self.first.saturating_sub(at) < PAGE_WORDS as u64
    }

    /// Replaces the word at that place. `false` says that the run does not have it.
    #[inline(always)]
    pub fn set(&mut self, at: u64, value: u64) -> bool
        ensures had { IsTrue result ↔ IsSome (word_of_run self.old at) }
        ensures replaced { OnTrue result (word_of_run self.new at ≡ Some value) }
        ensures others { (b : ℕ) → b ≢ at → word_of_run self.new b ≡ word_of_run self.old b }
        ensures kept { OnFalse result (self.new ≡ self.old) }
        ensures first { self.new.first ≡ self.old.first }
        ensures count { self.new.count ≡ self.old.count }
    {
        let Some(index) = self.index_of(at) else {
            return false;
        };
        self.page.set(index, value);
        true
    }

    /// Whether the word at that place may be added. A run ends where a page of the file does, so
    /// that whole pages are handed over as such.
    #[inline(always)]
    pub fn is_next(&self, at: u64) -> bool
        ensures { IsTrue result ↔ IsNextPlace self.now at }
    {
        self.count == 0 || self.goes_on(at)
    }

    /// Whether that place comes right behind the words that the run has, on the same page. It is
    /// the quick part of `is_next`, which also takes the first word of a run.
    #[inline(always)]
    pub fn goes_on(&self, at: u64) -> bool
        ensures follows { OnTrue result (IsNextPlace self.now at) }
        ensures other { OnFalse result (IsNextPlace self.now at → self.now.count ≡ 0) }
        ensures room { OnTrue result (self.now.count < 512) }
        ensures place { OnTrue result (self.now.first + self.now.count ≡ at) }
    {
        self.count < PAGE_WORDS
            && at % PAGE_WORDS as u64 != 0
            && at.wrapping_sub(self.first) == self.count as u64
    }

    /// Adds the word right behind those that it has.
    #[inline(always)]
    pub fn push(&mut self, at: u64, value: u64)
        requires room { self.old.count < 512 }
        requires place { self.old.first + self.old.count ≡ at }
        ensures word { word_of_run self.new at ≡ Some value }
        ensures others { (b : ℕ) → b ≢ at → word_of_run self.new b ≡ word_of_run self.old b }
        ensures first { self.new.first ≡ self.old.first }
        ensures count { self.new.count ≡ self.old.count + 1 }
    {
        self.page.set(self.count, value);
        self.count += 1;
    }

    /// Adds the next word.
    pub fn append(&mut self, at: u64, value: u64)
        requires { IsNextPlace self.old at }
        ensures word { word_of_run self.new at ≡ Some value }
        ensures others { (b : ℕ) → b ≢ at → word_of_run self.new b ≡ word_of_run self.old b }
        ensures first { self.new.first + self.old.count ≡ at }
        ensures count { self.new.count ≡ self.old.count + 1 }
    {
        if self.count == 0 {
            self.first = at;
        }
        self.push(at, value);
    }

    /// Forgets the words.
    pub fn clear(&mut self)
        ensures first { self.new.first ≡ 0 }
        ensures words { (b : ℕ) → word_of_run self.new b ≡ None }
        ensures count { self.new.count ≡ 0 }
    {
        self.first = 0;
        self.count = 0;
    }

    /// Reads so many words of a medium, from that place on, in place of those that it had. `false` says
    /// that the medium failed, and then it has none.
    pub fn read<M: Medium>(&mut self, medium: &mut M, first: u64, count: usize) -> bool
        requires place { first * 8 < 2 ^ 64 }
        requires room { count ≤ 512 }
        requires low { first + count ≤ 2 ^ 64 }
        requires inside { HasPlaces M.shown first count medium.old }
        ensures there { OnTrue result ((self.new.first ≡ first) × (self.new.count ≡ count)) }
        ensures none { OnFalse result (self.new.count ≡ 0) }
        ensures before { (b : ℕ) → b < first → word_of_run self.new b ≡ None }
        ensures behind { (b : ℕ) → first + 512 ≤ b → word_of_run self.new b ≡ None }
        ensures told { IsTrue M.shown.tells_words → (b seen : ℕ) → word_of_run self.new b ≡ Some seen
            → seen ≡ slice_index (M.shown.words medium.old) b }
        ensures only { OnlyReads M.shown medium.old medium.new }
        ensures here { OnTrue result (0 < count → IsSome (word_of_run self.new first)) }
        ensures faults { Blames result (M.shown.faults medium.old) (M.shown.faults medium.new) }
        ensures stays { M.missing medium.new ≡ M.missing medium.old }
        ensures sure { M.doubtful medium.new ≡ M.doubtful medium.old }
    {
        self.clear();
        if !self.page.read(medium, first, count) {
            return false;
        }
        self.first = first;
        self.count = count;
        true
    }

    /// Hands the words over to a medium in one call. `false` says that the medium failed.
    pub fn write<M: Medium>(&self, medium: &mut M) -> bool
        requires place { self.now.first * 8 < 2 ^ 64 }
        requires inside { HasPlaces M.shown self.now.first self.now.count medium.old }
        ensures hands { HandsOver M.shown self.now.first (nth_of self.now) self.now.count medium.old
            medium.new result }
        ensures faults { Blames result (M.shown.faults medium.old) (M.shown.faults medium.new) }
        ensures stays { M.missing medium.new ≡ M.missing medium.old }
        ensures sure { M.doubtful medium.new ≡ M.doubtful medium.old }
    {
        medium.write_at(self.first, self.page.head(self.count))
    }

    /// The place of the first word, or 0 where there is none.
    pub fn first(&self) -> u64
        ensures { result ≡ self.now.first }
    {
        self.first
    }
}
