//! A page of a medium.
ghost use Rattle.std.specs.Prelude.{◌≡◌, ◌≢◌, ◌+◌, ◌*◌, ◌<◌, ◌≤◌, ◌^◌, ℕ, IsTrue, length, slice_index};
ghost use Rattle.std.specs.Bool.{OnTrue};
ghost use Rattle.rom_device.specs.Device.{OnlyReads};
ghost use Rattle.rom_device.specs.Laid.{word_among};
ghost use Rattle.rom_device.specs.Medium.{Blames, HasPlaces};

use crate::medium::Medium;
use byteorder::{ByteOrder, LittleEndian};

/// How many words a page has.
pub const PAGE_WORDS: usize = 512;

/// How many bytes these are.
const PAGE_BYTES: usize = 4096;

/// The bytes of 512 words as a medium has them, the lowest byte of a word first. So a page goes from
/// the medium and to it as it is.
#[derive(Drop)]
pub struct Page {
    bytes: [u8; PAGE_BYTES],
}

impl Page {
    ghost use Rattle.rom_device.specs.Page.{page_word, HasWordsAt};

    /// A page of words that are 0.
    pub fn zeroed() -> Page
        ensures { (k : ℕ) → page_word result k ≡ 0 }
    {
        Page {
            bytes: [0; PAGE_BYTES],
        }
    }

    /// The word of that number.
    #[tactic(auto, unfolding(crate::specs::Page::page_word))]
    #[inline(always)]
    pub fn get(&self, index: usize) -> u64
        requires { index < 512 }
        ensures { result ≡ page_word self.now index }
    {
        LittleEndian::read_u64(&self.bytes[8 * index..])
    }

    /// Puts the words from that number on into these places, as many as there are.
    #[tactic(auto, unfolding(crate::specs::Page::page_word))]
    pub fn copy(&self, index: usize, into: &mut [u64])
        requires { index + length into.old ≤ 512 }
        ensures len { length into.new ≡ length into.old }
        ensures words { HasWordsAt self.now index into.new }
    {
        LittleEndian::read_u64_into(&self.bytes[8 * index..8 * (index + into.len())], into);
    }

    /// Replaces the word of that number.
    #[inline(always)]
    pub fn set(&mut self, index: usize, word: u64)
        requires { index < 512 }
        ensures here { page_word self.new index ≡ word }
        ensures others { (k : ℕ) → k ≢ index → page_word self.new k ≡ page_word self.old k }
    {
        LittleEndian::write_u64(&mut self.bytes[8 * index..], word);
    }

    /// The bytes of its first words, so many.
    #[tactic(auto, unfolding(crate::specs::Page::page_word, crate::specs::Laid::word_among))]
    pub fn head(&self, count: usize) -> &[u8]
        requires { count ≤ 512 }
        ensures len { length result.now ≡ 8 * count }
        ensures words { (k : ℕ) → k < count → word_among result.now k ≡ page_word self.now k }
    {
        &self.bytes[..8 * count]
    }

    /// Reads so many words of a medium, from that place on, in place of its first. `false` says that the
    /// medium failed, and then these may be any.
    #[tactic(auto, unfolding(crate::specs::Page::page_word))]
    pub fn read<M: Medium>(&mut self, medium: &mut M, at: u64, count: usize) -> bool
        requires place { at * 8 < 2 ^ 64 }
        requires room { count ≤ 512 }
        requires inside { HasPlaces M.shown at count medium.old }
        ensures words { IsTrue M.shown.tells_words → OnTrue result ((k : ℕ) → k < count
            → page_word self.new k ≡ slice_index (M.shown.words medium.old) (at + k)) }
        ensures behind { (k : ℕ) → count ≤ k → page_word self.new k ≡ page_word self.old k }
        ensures only { OnlyReads M.shown medium.old medium.new }
        ensures faults { Blames result (M.shown.faults medium.old) (M.shown.faults medium.new) }
        ensures stays { M.missing medium.new ≡ M.missing medium.old }
        ensures sure { M.doubtful medium.new ≡ M.doubtful medium.old }
    {
        medium.read_at(at, &mut self.bytes[..8 * count])
    }
}
