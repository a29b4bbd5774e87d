//! Up to 256 bytes that take no memory, kept as the words in which they are stored.
ghost use Rattle.std.specs.Prelude.{◌≡◌, ℕ, ◌+◌, ◌-◌, ◌≤◌, ◌<◌, ◌^◌, [], ◌++◌, length, replicate, slice_index, nat_le, Some, None, if◌then◌else◌};
ghost use Rattle.std.specs.Bool.{OnTrue, OnFalse};
ghost use Rattle.rom_model.specs.Space.{Costs, Looks, HasRoom, ChangesOnly};
ghost use Rattle.rom_blob_region.specs.Bytes.{bytes_at, bytes_in, words_for, word_from_bytes, EndsInZeros};

use byteorder::{ByteOrder, LittleEndian};
use rom_model::{Look, Space, store_changed};
use std::marker::Model;

/// At most 256 bytes. A contract sees their list. It is `Copy`, as an object asks of calls and answers, and
/// takes no memory of its own. The price: each line and each result has room for 256 bytes, however few it
/// has.
#[derive(Clone, Copy, Debug)]
pub struct Chunk {
    words: [u64; 32],
    len: u64,
}

/// Whether the words, which are as many as so many bytes take, have zeros behind the last of them.
fn ends_in_zeros(words: &[u64], len: u64) -> bool
    requires whole { length words.now ≡ words_for len }
    ensures zeros { OnTrue result (EndsInZeros words.now 0 len) }
    ensures others { OnFalse result (EndsInZeros words.now 0 len → ⊥) }
{
    len % 8 == 0 || words[(len / 8) as usize] >> (8 * (len % 8)) == 0
}

impl Model for Chunk {
    ghost use Rattle.std.specs.Prelude.{◌≡◌, ℕ, List, length};
    ghost use Rattle.rom_blob_region.specs.Bytes.{IsChunk, bytes_at, words_from_bytes};
    ghost use Rattle.rom_blob_region.specs.Packed.{packed_again, long_at};

    ghost Value = { List ℕ };

    ghost view = { λ c. bytes_at c.words 0 c.len };

    // Bytes past the last are 0, so that equal lists are equal values.
    ghost invariant = { λ c. IsChunk c.len c.words };

    ghost inverse = { λ bytes. record { words = words_from_bytes bytes 32; len = length bytes } };

    ghost inverse_ok = { λ c p i. record {
      words = packed_again c.len c.words p i;
      len = long_at c.words 0 c.len i;
    } };
}

impl Chunk {
    /// No bytes.
    pub fn new() -> Chunk
        ensures { result ≡ [] }
    {
        Chunk {
            words: [0; 32],
            len: 0,
        }
    }

    /// These bytes. `None` exactly where they are more than 256.
    pub fn of(bytes: &[u8]) -> Option<Chunk>
        ensures { result ≡ if nat_le (length bytes.now) 256 then Some bytes.now else None }
    {
        if bytes.len() > 256 {
            return None;
        }
        let mut padded = [0; 256];
        padded[..bytes.len()].copy_from_slice(bytes);
        let mut words = [0; 32];
        LittleEndian::read_u64_into(&padded, &mut words);
        Some(Chunk {
            words,
            len: bytes.len() as u64,
        })
    }

    /// The bytes, so many, that have exactly these words. `None` where there are no such bytes: where they
    /// are more than 256, where they take more or fewer words, or where their last word has other bytes
    /// than zeros behind them.
    pub fn of_words(words: &[u64], len: u64) -> Option<Chunk>
        ensures { result ≡ bytes_in words.now len }
    {
        if len > 256 || words.len() as u64 != (len + 7) / 8 || !ends_in_zeros(words, len) {
            return None;
        }
        let mut cells = [0; 32];
        cells[..words.len()].copy_from_slice(words);
        Some(Chunk { words: cells, len })
    }

    /// How many bytes there are.
    pub fn len(&self) -> u64
        ensures many { result ≡ length self.now }
        ensures within { result ≤ 256 }
    {
        self.len
    }

    /// The bytes, with zeros behind them.
    pub fn padded(&self) -> [u8; 256]
        ensures { result ≡ self.now ++ replicate (256 - length self.now) 0 }
    {
        let mut bytes = [0; 256];
        LittleEndian::write_u64_into(&self.words, &mut bytes);
        bytes
    }

    /// The word that has the bytes from 8 * i on, the least first; bytes that are not there are 0.
    pub fn word(&self, i: u64) -> u64
        requires few { i < 32 }
        ensures word { result ≡ word_from_bytes self.now i }
        ensures bytes { (k : ℕ) → slice_index self.now k < 256 }
    {
        self.words[i as usize]
    }

    /// Stores the bytes in the words from that offset on, counted in words from the first.
    pub fn store<M: Space>(&self, space: &mut M, at: u64)
        requires within { at + words_for (length self.now) ≤ length (M.shown.image space.old) }
        requires small { at < 2 ^ 32 }
        requires room { HasRoom M.shown 32 space.old }
        ensures bytes { bytes_at (M.shown.image space.new) at (length self.now) ≡ self.now }
        // The word of the last byte has zeros behind it.
        ensures ends { EndsInZeros (M.shown.image space.new) at (length self.now) }
        // No other word changes.
        ensures others { ChangesOnly at (words_for (length self.now)) (M.shown.image space.old)
            (M.shown.image space.new) }
        ensures costs { Costs M.shown 32 32 space.old space.new }
    {
        for i in 0..(self.len + 7) / 8 {
            store_changed(space, at + i, self.words[i as usize]);
        }
    }

    /// The bytes in the words from that offset on, so many of them.
    pub fn load<M: Look>(space: &mut M, at: u64, len: u64) -> Chunk
        requires len { len ≤ 256 }
        requires within { at + words_for len ≤ length (M.shown.image space.old) }
        requires small { at < 2 ^ 32 }
        requires ends { EndsInZeros (M.shown.image space.old) at len }
        ensures bytes { result ≡ bytes_at (M.shown.image space.old) at len }
        // No word changes. Loads, where counted, are no more than the words that the bytes take.
        ensures looks { Looks M.shown (words_for len) space.old space.new }
    {
        let mut words = [0; 32];
        for i in 0..(len + 7) / 8 {
            words[i as usize] = space.load(at + i);
        }
        Chunk { words, len }
    }
}
