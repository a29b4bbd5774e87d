//! What a cached device stands on.
ghost use Rattle.std.specs.Prelude.{◌≡◌, ◌+◌, ◌*◌, ◌%◌, ◌<◌, ◌≤◌, ◌^◌, Bool, List, ℕ, length, IsTrue, IsFalse, slice_index};
ghost use Rattle.std.specs.Bool.{OnTrue};
ghost use Rattle.rom_device.specs.Device.{ShownDevice, AreSettled, Does, OnlyReads, Stays};
ghost use Rattle.rom_device.specs.Laid.{word_among, words_among};
ghost use Rattle.rom_device.specs.Medium.{Blames, HandsOver, HasPlaces};

/// Words of 8 bytes each, the lowest byte first, that are read and handed over in blocks, and made
/// certain by a sync. Places are counted in words. Each call says whether it was done, and where it
/// was not the count of faults rises.
///
/// Whether a medium tells its words, and whether it tells what a stop may leave, is a matter of its type.
/// What is handed over need not be certain before a sync. No call of it says how many words there are: the
/// device over a file keeps the length that it was told.
///
/// An earlier program may have left words in doubt, as of a device: they read as they were handed over
/// last, a stop may leave an older value there, and a sync makes them certain only once they were handed
/// over again. Whether that may be is a matter of the type too (`lasting`).
pub trait Medium: Drop {
    /// What it shows of itself, as a device does, so that the same definitions of steps and images serve
    /// both. Its calls need not be counted. Its faults are, so that a device over it can show that it
    /// fails only where its medium did.
    ghost shown: { ShownDevice Self };

    /// Whether there is none, so that no sync succeeds.
    ghost missing: { Self → Bool };

    /// Whether a sync may succeed and yet make nothing certain. Only a sync that fails may bring that
    /// about: the system may have dropped what it could not write.
    ghost doubtful: { Self → Bool };

    /// Whether no word is ever in doubt, whoever handed it over: then a sync makes all of them certain.
    ghost lasting: { Bool };

    /// Whether there is none, as `missing` says.
    fn is_missing(&self) -> bool
        ensures { result ≡ missing self.now };

    /// Reads words from that place on, as many as there is room for. After a failure `into` may hold
    /// anything.
    fn read_at(&mut self, at: u64, into: &mut [u8]) -> bool
        requires place { at * 8 < 2 ^ 64 }
        requires whole { length into.old % 8 ≡ 0 }
        requires inside { HasPlaces shown at (words_among into.old) self.old }
        ensures len { length into.new ≡ length into.old }
        // Where words are told: after a read that is done, the bytes are the words from that place on, the
        // lowest byte of each first.
        ensures words { IsTrue shown.tells_words → OnTrue result ((k : ℕ) → k < words_among into.old
            → word_among into.new k ≡ slice_index (shown.words self.old) (at + k)) }
        ensures only { OnlyReads shown self.old self.new }
        // The count of faults stays where the call was done, and else rises by one.
        ensures faults { Blames result (shown.faults self.old) (shown.faults self.new) }
        ensures stays { missing self.new ≡ missing self.old }
        // A read does not change whether it is `doubtful`.
        ensures sure { doubtful self.new ≡ doubtful self.old };

    /// Hands words over, from that place on. After a failure each of them is as it was or handed over.
    fn write_at(&mut self, at: u64, bytes: &[u8]) -> bool
        requires place { at * 8 < 2 ^ 64 }
        requires whole { length bytes.now % 8 ≡ 0 }
        requires inside { HasPlaces shown at (words_among bytes.now) self.old }
        // As far as it tells: each of these words becomes the new one or stays, as it reads and in what a
        // stop may leave. Where the call is done, all read as the new ones. No word is made certain.
        ensures hands { HandsOver shown at (word_among bytes.now) (words_among bytes.now)
            self.old self.new result }
        ensures faults { Blames result (shown.faults self.old) (shown.faults self.new) }
        ensures stays { missing self.new ≡ missing self.old }
        ensures sure { doubtful self.new ≡ doubtful self.old };

    /// Makes certain what was handed over: then a stop leaves the words as they read, but for those in
    /// doubt. After a failure it is promised of none, then or later.
    fn sync(&mut self) -> bool
        // Where images are told and it was not `doubtful`: after `true` a stop leaves each word as it
        // reads, but for those in doubt.
        ensures certain { IsTrue shown.tells_images → IsFalse (doubtful self.old) →
            OnTrue result (AreSettled shown self.new) }
        ensures does { Does shown Stays self.old self.new }
        ensures faults { Blames result (shown.faults self.old) (shown.faults self.new) }
        ensures stays { missing self.new ≡ missing self.old }
        // A sync that is done does not change whether it is `doubtful`.
        ensures sure { OnTrue result (doubtful self.new ≡ doubtful self.old) }
        // Where there is no medium, no sync is done.
        ensures none { IsTrue (missing self.old) → IsFalse result };

    ghost never_doubted: { IsTrue lasting → (m : Self) (at : ℕ) → shown.doubted m at → ⊥ };

    /// A medium that tells what a stop may leave tells its words.
    ghost tells_both: { IsTrue shown.tells_images → IsTrue shown.tells_words };

    /// A stop may leave the words as they read.
    ghost reads_image: { (m : Self) → IsTrue shown.tells_images → shown.leaves m (shown.words m) };

    /// What a stop may leave are as many words.
    ghost images_fit: { (m : Self) (i : List ℕ) → IsTrue shown.tells_images
        → shown.leaves m i → length i ≡ length (shown.words m) };

    /// This moment is one of those since an earlier one.
    ghost counts_now: { (m : Self) (t : ℕ) (i : List ℕ) → IsTrue shown.tells_images
        → t ≤ shown.clock m → shown.leaves m i → shown.left_since m t i };

    /// Since this moment there is no other.
    ghost only_now: { (m : Self) (i : List ℕ) → IsTrue shown.tells_images
        → shown.left_since m (shown.clock m) i → shown.leaves m i };
}
