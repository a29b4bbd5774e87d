//! A frame: an entry of a history as bytes.
ghost use Rattle.std.specs.Prelude.{◌≡◌, ◌*◌, ◌^◌, ◌<◌, ◌≤◌, All, List, ℕ, [], ◌++◌, length, take, Some, IfSome, IsSome, OnOk, OnErr};
ghost use Rattle.byteorder.specs.Endian.{little_number};
ghost use Rattle.rom_model.specs.Codes as codes;
ghost use Rattle.rom_model.specs.declared.words.TheConstants.{CALL_WORDS, REPLY_WORDS};
ghost use Rattle.rom_frame.specs.Frames.{IsOfWords, bytes_of, frame, frame_words};
ghost use Rattle.rom_frame.specs.Frames as frames;

use byteorder::{ByteOrder, LittleEndian};
use rom_model::{Args, Back, Call, Reply, Words, call_words, reply_words, words_call, words_reply};
use std::alloc::AllocError;

/// The most words of a frame: four, those of a call and those of a reply.
const MOST_WORDS: usize = 64;

/// The most bytes of a frame, which are those of 64 words.
pub const MOST_BYTES: usize = 512;

/// An update that was done: its place in the history, its call and its reply.
#[derive(Clone, Copy, Debug, PartialEq, Eq)]
pub struct Frame {
    pub place: u64,
    pub call: Call,
    pub reply: Reply,
}

impl Frame {
    /// Puts the bytes of the frame at the start of these, and says how many they are.
    pub fn fill(&self, bytes: &mut [u8; MOST_BYTES]) -> usize
        ensures within { result ≤ 512 }
        ensures frame { take result bytes.new ≡ frame self.now }
        ensures of_words { IsOfWords self.now }
    {
        let args = call_words(&self.call);
        let reply = reply_words(&self.reply);
        fill_frame(self.place, args.as_slice(), reply.as_slice(), bytes)
    }

    /// The frame that has these words, where there is one.
    fn of_words(words: &[u64]) -> Option<Frame>
        ensures { (f : Frame) → IsOfWords f → words.now ≡ frames.words_of_frame f → result ≡ Some f }
    {
        if words.len() < 4 || words[2] > 40 {
            return None;
        }
        let middle = 3 + words[2] as usize;
        if words.len() <= middle || words.len() > middle + 21 {
            return None;
        }
        let call = words_call(&Args::of(&words[3..middle]))?;
        let reply = words_reply(&Back::of(&words[middle + 1..]))?;
        Some(Frame {
            place: words[1],
            call,
            reply,
        })
    }

    /// The frame that has these bytes, where there is one.
    fn of_bytes(bytes: &[u8]) -> Option<Frame>
        ensures { (f : Frame) → IsOfWords f → bytes.now ≡ frame f → result ≡ Some f }
    {
        if bytes.len() > MOST_BYTES || bytes.len() % 8 != 0 {
            return None;
        }
        let mut words = [0; MOST_WORDS];
        let len = bytes.len() / 8;
        LittleEndian::read_u64_into(bytes, &mut words[..len]);
        Frame::of_words(&words[..len])
    }
}

/// The words of the frame of an update that was done at a place, by those of its call and its reply.
fn words_of(place: u64, args: &[u64], reply: &[u64]) -> Words<MOST_WORDS>
    requires few { (length args.now ≤ CALL_WORDS) × (length reply.now ≤ REPLY_WORDS) }
    ensures { result ≡ frame_words place args.now reply.now }
{
    let len = 4 + args.len() + reply.len();
    let mut words = Words::of(&[len as u64, place, args.len() as u64]);
    words.extend(args);
    words.extend(&[reply.len() as u64]);
    words.extend(reply);
    words
}

/// Puts the bytes of the frame of an update that was done at a place at the start of these, and says how
/// many they are. It takes the words of the call, at most `CALL_WORDS`, and of the reply, at most
/// `REPLY_WORDS`, as they stand, and reads neither.
pub fn fill_frame(place: u64, args: &[u64], reply: &[u64], bytes: &mut [u8; MOST_BYTES]) -> usize
    requires few { (length args.now ≤ CALL_WORDS) × (length reply.now ≤ REPLY_WORDS) }
    ensures within { result ≤ 512 }
    // The bytes are those of the words, whatever these are read as.
    ensures bytes { take result bytes.new ≡ bytes_of (frame_words place args.now reply.now) }
    // They are those of the frame whose call and reply the words are read as, and it is one that a program can
    // have.
    ensures frame { (f : Frame) → f.place ≡ place → codes.words_call args.now ≡ Some f.call →
        codes.words_reply reply.now ≡ Some f.reply →
        (take result bytes.new ≡ frame f) × IsOfWords f }
{
    put(words_of(place, args, reply).as_slice(), bytes)
}

/// Puts the bytes of words at the start of these, and says how many they are.
pub(crate) fn put(words: &[u64], bytes: &mut [u8; MOST_BYTES]) -> usize
    requires few { length words.now ≤ 64 }
    ensures within { result ≤ 512 }
    ensures many { result ≡ 8 * length words.now }
    ensures bytes { take result bytes.new ≡ bytes_of words.now }
    ensures small { All (λ w. w < 2 ^ 64) words.now }
{
    let len = 8 * words.len();
    LittleEndian::write_u64_into(words, &mut bytes[..len]);
    len
}

/// Appends the frame of an update that was done at that place. After an error the vector is as before.
pub fn write_frame(
    place: u64,
    call: &Call,
    reply: &Reply,
    out: &mut Vec<u8>,
) -> Result<(), AllocError>
    // After `Ok` the frame stands behind the bytes that were there.
    ensures written { OnOk result (out.new.items ≡ out.old.items ++ frame record { place = place; call = call.now; reply = reply.now }) }
    ensures unchanged { OnErr result (out.new.items ≡ out.old.items) }
{
    let frame = Frame {
        place,
        call: *call,
        reply: *reply,
    };
    let mut bytes = [0; MOST_BYTES];
    let len = frame.fill(&mut bytes);
    out.extend_from_slice(&bytes[..len])
}

/// The update whose frame the message is, from its first byte to its last. The first word of a frame
/// says how many words it has.
pub fn read_frame(message: &[u8]) -> Option<Frame>
    // A message is read only as the frame whose bytes it has, all of them.
    ensures frame { IfSome result (λ f. message.now ≡ frame f) }
    // Each frame that a program can have (`IsOfWords`) is read, as itself.
    ensures whole { (f : Frame) → IsOfWords f → message.now ≡ frame f → result ≡ Some f }
    // The first bytes of such a frame, without its end, are read as none.
    ensures torn { (f : Frame) (rest : List ℕ) → IsOfWords f → message.now ++ rest ≡ frame f → IsSome result → rest ≡ [] }
    ensures of_words { IfSome result IsOfWords }
    // A message that is read has as many words as its first one says.
    ensures first { IfSome result (λ f. length message.now ≡ 8 * little_number 8 message.now) }
    ensures within { IfSome result (λ f. length message.now ≤ 512) }
{
    let frame = Frame::of_bytes(message)?;
    let mut bytes = [0; MOST_BYTES];
    let len = frame.fill(&mut bytes);
    if message == &bytes[..len] {
        Some(frame)
    } else {
        None
    }
}
