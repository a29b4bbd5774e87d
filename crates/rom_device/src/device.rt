//! A device, and the rules of what a stop may leave of it.
ghost use Rattle.std.specs.Prelude.{◌≡◌, ◌+◌, ◌<◌, ◌≤◌, ◌^◌, List, ℕ, length, IfOk, OnOk, OnErr, IsTrue, slice_set, slice_index};
ghost use Rattle.rom_device.specs.Device.{ShownDevice, AreRenewed, AreSettled, CountsCalls, Does, IsRenewed, IsSynced, Makes, OnlyReads, ReadsUpTo, Stays, TellsDoubts, WritesWord, WritesMany, WritingFailed};

/// A call of a device did not succeed. The device's count of faults rose in that call.
#[derive(Clone, Copy, Debug, PartialEq, Eq)]
pub struct Failed;

/// A fixed number of 64-bit words, counted from 0, that are read and written, one or many at a
/// call, and made certain by a sync.
///
/// A stop may leave each word that was written since the last successful sync as it was, or as
/// any of those writes made it. Whether a device tells its words, and whether it tells what a
/// stop may leave, is a matter of its type.
///
/// A device may have words in doubt: an earlier program wrote them, and had them refused by a sync or made
/// none. They read as that program wrote them last, a stop may leave an older value there, and a sync of
/// this program makes a word certain only once this program has written it. Of a type that tells images
/// (`tells_images`) no word is ever in doubt; one that tells them with doubts says so by `tells_doubts`.
pub trait Device {
    /// What it shows of itself: how many words it has, which no call changes; the words, and the
    /// images that a stop may leave, where it tells them; which places are in doubt; and how many calls
    /// were made and failed.
    ghost shown: { ShownDevice Self };

    /// How many words it has.
    fn len(&self) -> u64
        ensures { result ≡ shown.size self.now };

    /// How often it has failed.
    fn fault_count(&self) -> u64
        ensures { result ≡ shown.faults self.now };

    /// The word at that place. A read changes no word, and a stop may leave what it might before.
    fn read(&mut self, at: u64) -> Result<u64, Failed>
        requires { at < shown.size self.old }
        // Where words are told, after `Ok` it is the word that stands there.
        ensures word { IsTrue shown.tells_words
            → IfOk result (λ word. word ≡ slice_index (shown.words self.old) at) }
        // Where words and images are told, no word changes, and a stop may leave the same images. No word
        // comes into doubt.
        ensures only { OnlyReads shown self.old self.new }
        // One read is counted, and a fault exactly where it fails.
        ensures counts { CountsCalls shown 1 0 0 self.old self.new result };

    /// Reads words one after another, from that place on, until it has as many as there is room for or a
    /// read fails. It says how many it read, so that these can be used. Where they are fewer, the device
    /// failed, and what stands behind them in `into` may be anything.
    ///
    /// A file device reads words ahead, and takes all of them that are asked for at once: that costs less
    /// than a search for each. A region of order 16 has 393,232 words.
    fn read_words(&mut self, at: u64, into: &mut [u64]) -> usize
        requires { at + length into.old ≤ shown.size self.old }
        ensures len { length into.new ≡ length into.old }
        // Where words are told, those that it says it read are the words that stand there.
        ensures read { IsTrue shown.tells_words → (k : ℕ) → k < result
            → slice_index into.new k ≡ slice_index (shown.words self.old) (at + k) }
        ensures only { OnlyReads shown self.old self.new }
        // Each word counts as a read. Where they are fewer than asked for, one read more was made, and
        // failed.
        ensures counts { ReadsUpTo shown result (length into.old) self.old self.new }
    {
        for index in 0..into.len() {
            let Ok(word) = self.read(at + index as u64) else {
                return index;
            };
            into[index] = word;
        }
        into.len()
    }

    /// Puts a value at that place. After `Failed` the word is the old or the new one. After `Ok` it is not
    /// in doubt: a sync that succeeds makes it certain.
    fn write(&mut self, at: u64, value: u64) -> Result<(), Failed>
        requires { at < shown.size self.old }
        // Where words are told, after `Ok` the word is the value, and no other has changed.
        ensures written { IsTrue shown.tells_words
            → OnOk result (shown.words self.new ≡ slice_set (shown.words self.old) at value) }
        // Whatever it answers: where words and images are told, they change by this write or not at all.
        ensures does { Does shown (WritesWord at value) self.old self.new }
        // After `Ok` the word is not in doubt.
        ensures renews { OnOk result (IsRenewed shown at self.new) }
        ensures counts { CountsCalls shown 0 1 0 self.old self.new result };

    /// Writes words one after another, from that place on, up to the first that fails. After `Failed` those
    /// before it are written, it is the old or the new one, and those behind it are as before. A file
    /// device counts the writes of one call all at once, which saves work for each word.
    fn write_words(&mut self, at: u64, values: &[u64]) -> Result<(), Failed>
        requires { at + length values.now ≤ shown.size self.old }
        // Where words are told, after `Ok` each of these words stands in its place.
        ensures written { IsTrue shown.tells_words → OnOk result ((k : ℕ) → k < length values.now
            → slice_index (shown.words self.new) (at + k) ≡ slice_index values.now k) }
        // After `Failed`, where words are told: those before some word are written, that word is as before
        // or written, and no other differs.
        ensures failed { OnErr result (WritingFailed shown at values.now self.old self.new) }
        // Whatever it answers, each of these words is as before or written, as it reads and in each image.
        // No other changes.
        ensures does { Does shown (WritesMany at values.now) self.old self.new }
        ensures renews { OnOk result (AreRenewed shown at (length values.now) self.new) }
        // Each word counts as a write: after `Ok` all were made, after `Failed` at most so many, of which
        // the last failed.
        ensures makes { Makes shown 0 (length values.now) 0 self.old self.new result }
    {
        for index in 0..values.len() {
            self.write(at + index as u64, values[index])?;
        }
        Ok(())
    }

    /// Makes the words certain: after `Ok` a stop leaves them as they read. After `Failed` it is
    /// promised of none, and a stop leaves nothing that it might not have left before. Words in doubt stay
    /// so.
    fn sync(&mut self) -> Result<(), Failed>
        // After `Ok` a stop leaves the words as they read, where images are told without doubts.
        ensures certain { OnOk result (IsSynced shown self.new) }
        // Where images are told with words in doubt, after `Ok` a stop leaves each word as it reads, but
        // for those in doubt.
        ensures settles { IsTrue shown.tells_doubts → OnOk result (AreSettled shown self.new) }
        ensures does { Does shown Stays self.old self.new }
        ensures counts { CountsCalls shown 0 0 1 self.old self.new result };

    /// A device that tells what a stop may leave tells its words. Without the laws from here on nothing
    /// would follow from "a stop since then might have left this".
    ghost tells_both: { IsTrue shown.tells_images → IsTrue shown.tells_words };

    /// A stop may leave the words as they read.
    ghost reads_image: { (d : Self) → IsTrue shown.tells_images → shown.leaves d (shown.words d) };

    /// The words are as many as the device has.
    ghost words_fit: { (d : Self) → IsTrue shown.tells_words →
        length (shown.words d) ≡ shown.size d };

    /// So are those that a stop may leave.
    ghost images_fit: { (d : Self) (i : List ℕ) → IsTrue shown.tells_images
        → shown.leaves d i → length i ≡ shown.size d };

    /// This moment is one of those since an earlier one.
    ghost counts_now: { (d : Self) (t : ℕ) (i : List ℕ) → IsTrue shown.tells_images
        → t ≤ shown.clock d → shown.leaves d i → shown.left_since d t i };

    /// Since this moment there is no other.
    ghost only_now: { (d : Self) (i : List ℕ) → IsTrue shown.tells_images
        → shown.left_since d (shown.clock d) i → shown.leaves d i };

    /// The same holds with words in doubt.
    ghost doubts_told: { IsTrue shown.tells_doubts → TellsDoubts shown };

    ghost size_fits: { (d : Self) → shown.size d < 2 ^ 64 };

    ghost counts_fit: { (d : Self) → (shown.reads d < 2 ^ 64) × (shown.writes d < 2 ^ 64)
        × (shown.syncs d < 2 ^ 64) × (shown.faults d < 2 ^ 64) };
}
