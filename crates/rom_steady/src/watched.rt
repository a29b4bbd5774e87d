//! Words that others change while they are read.
ghost use Rattle.std.specs.Prelude.{◌≡◌, ◌+◌, ◌<◌, ◌≤◌, ◌^◌, ℕ, length, IsTrue, OnOk};
ghost use Rattle.rom_steady.specs.Watched.{HasRisen, IsLater, ShownWatched, StoodFrom};

use rom_device::Failed;

/// A fixed number of 64-bit words that are only read here, while others may change them.
///
/// The words are some words at each moment. A read tells of each word what it was at some moment within the call,
/// and no two words need be of one moment. Moments never go back. Whether it tells the words at each moment is a
/// matter of the type.
pub trait Watched {
    /// What it shows of itself: how many words it has, what they are at each moment, which moment it is, and how
    /// many calls failed.
    ghost shown: { ShownWatched Self };

    /// How many words it has.
    fn len(&self) -> u64
        ensures { result ≡ shown.size self.now };

    /// Reads adjacent words, from that place on, as many as there is room for. After `Failed` these may be any.
    fn read_words(&mut self, at: u64, into: &mut [u64]) -> Result<(), Failed>
        requires { at + length into.old ≤ shown.size self.old }
        ensures len { length into.new ≡ length into.old }
        // Where words are told, each stood in its place at some moment within the call.
        ensures read { IsTrue shown.tells →
            OnOk result (StoodFrom shown self.old self.new at into.new) }
        ensures later { IsLater shown self.old self.new }
        // The count of faults rises exactly where it fails.
        ensures faults { HasRisen result (shown.faults self.old) (shown.faults self.new) };

    /// At each moment the words are so many.
    ghost words_fit: { (w : Self) (t : ℕ) → IsTrue shown.tells → length (shown.words w t) ≡ shown.size w };

    ghost size_fits: { (w : Self) → shown.size w < 2 ^ 64 };
}
