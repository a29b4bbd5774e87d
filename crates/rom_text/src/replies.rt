//! Replies, printed from the words that stand for them.
ghost use Rattle.std.specs.Prelude.{ℕ, ◌≤◌, List, length, IsSome, IfSome, OnOk};
ghost use Rattle.rom_model.specs.declared.words.TheConstants.{REPLY_WORDS};
ghost use Rattle.rom_text.specs.Streams.{Prints};
ghost use Rattle.rom_text.specs.Text.{ShownText};

use crate::printing::Print;
use crate::streams::{IoFailed, Sink};
use rom_model::{Back, Object};

/// How the replies of an object are printed, which results keep as words. `Whole` serves any object. One
/// whose runs are to be quick has its own, which makes no reply of full width.
pub trait PrintReplies<O: Object> {
    /// What a reply shows of itself: its text, and that its numbers are of their types.
    ghost shown: { ShownText O.Reply };

    /// Prints the reply that has these words, without a line's end. The words may go through `room`,
    /// whatever stood there. It takes no memory. After `IoFailed` the sink has taken some of the text, from
    /// its front.
    fn print_words<S: Sink>(out: &mut S, words: &[u64], room: &mut Back) -> Result<(), IoFailed>
        requires few { length words.now ≤ REPLY_WORDS }
        requires reply { IsSome (O.machine.words_reply words.now) }
        // After `Ok` the text of that reply is printed; after an error some of it, from the front.
        ensures prints { IfSome (O.machine.words_reply words.now) (λ reply.
            Prints S.shown out.old out.new result (shown.text reply)) }
        ensures fits { OnOk result (IfSome (O.machine.words_reply words.now) shown.Fits) };
}

/// Replies that are read from their words, and then print themselves.
pub struct Whole;

impl<O: Object> PrintReplies<O> for Whole
where
    O::Reply: Print,
{
    ghost shown = { O.Reply.shown };

    fn print_words<S: Sink>(out: &mut S, words: &[u64], room: &mut Back) -> Result<(), IoFailed> {
        room.clear();
        room.extend(words);
        let reply = O::words_reply(room).unwrap();
        reply.print(out)
    }
}
