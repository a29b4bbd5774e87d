//! The head of a named stream: which heap's frames follow, and where they begin.
ghost use Rattle.std.specs.Prelude.{◌≡◌, ◌≢◌, take, Some, IfSome};
ghost use Rattle.rom_frame.specs.Frames.{IsOfWords, frame};
ghost use Rattle.rom_frame.specs.declared.frame.Frame.{Frame};
ghost use Rattle.rom_frame.specs.Heads.{AreWords, head, head_words};

use crate::frame::{MOST_BYTES, put};
use byteorder::{ByteOrder, LittleEndian};

/// How many words a head has.
const HEAD_WORDS: usize = 7;

/// How many bytes it has.
const HEAD_BYTES: usize = 56;

/// The third word of a head. A frame has the number of its call's words there, which are at most 40.
const HEAD_MARK: u64 = u64::MAX;

/// The name of a heap: two words that are drawn once. Where the first is 0 the heap has none.
#[derive(Clone, Copy, Debug, PartialEq, Eq)]
pub struct HeapName {
    pub high: u64,
    pub low: u64,
}

/// The head of a stream of frames: the place of the first one, the name of the heap whose frames they are,
/// its epoch, and the count of updates at which that epoch began.
#[derive(Clone, Copy, Debug, PartialEq, Eq)]
pub struct Head {
    pub first: u64,
    pub name: HeapName,
    pub epoch: u64,
    pub since: u64,
}

impl Head {
    /// Its words.
    fn words(&self) -> [u64; HEAD_WORDS]
        ensures { result ≡ head_words self.now }
    {
        [
            HEAD_WORDS as u64,
            self.first,
            HEAD_MARK,
            self.name.high,
            self.name.low,
            self.epoch,
            self.since,
        ]
    }

    /// Puts the bytes of the head at the start of these, and says how many they are.
    pub fn fill(&self, bytes: &mut [u8; MOST_BYTES]) -> usize
        ensures many { result ≡ 56 }
        ensures head { take result bytes.new ≡ head self.now }
        ensures words { AreWords self.now }
        // They are those of no frame.
        ensures no_frame { (f : Frame) → IsOfWords f → frame f ≢ head self.now }
    {
        put(&self.words(), bytes)
    }

    /// The head that has these words, if its first and third word are those of one.
    fn of_words(words: &[u64; HEAD_WORDS]) -> Head
        ensures { (h : Head) → words.now ≡ head_words h → result ≡ h }
    {
        Head {
            first: words[1],
            name: HeapName {
                high: words[3],
                low: words[4],
            },
            epoch: words[5],
            since: words[6],
        }
    }
}

/// The head whose bytes the message is, from its first to its last.
pub fn read_head(message: &[u8]) -> Option<Head>
    // A message is read only as the head whose bytes it has, all of them.
    ensures head { IfSome result (λ h. message.now ≡ head h) }
    // Each head that a program can have (`AreWords`) is read, as itself.
    ensures whole { (h : Head) → AreWords h → message.now ≡ head h → result ≡ Some h }
    ensures words { IfSome result AreWords }
    // What is read as a head is no frame.
    ensures no_frame { IfSome result (λ h. (f : Frame) → IsOfWords f → message.now ≢ frame f) }
{
    if message.len() != HEAD_BYTES {
        return None;
    }
    let mut words = [0; HEAD_WORDS];
    LittleEndian::read_u64_into(message, &mut words);
    let head = Head::of_words(&words);
    let mut bytes = [0; MOST_BYTES];
    let len = head.fill(&mut bytes);
    if message == &bytes[..len] {
        Some(head)
    } else {
        None
    }
}
