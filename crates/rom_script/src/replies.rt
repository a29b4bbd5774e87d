//! How replies are printed from their words: those to one update without a `Reply`, which has room for those
//! to the members of a group.
ghost use Rattle.std.specs.Prelude.{◌≤◌, length, IsSome, IfSome, OnOk};
ghost use Rattle.rom_model.specs.declared.words.TheConstants.{REPLY_WORDS};
ghost use Rattle.rom_model.specs.Codes.{words_reply};
ghost use Rattle.rom_text.specs.Streams.{Prints};
ghost use Rattle.rom_text.specs.Trio.{shown_reply};

use crate::line::TrioLines;
use rom_heap::Trio;
use rom_model::{Back, single_reply};
use rom_text::{IoFailed, Print, PrintReplies, Sink, Whole};

/// Prints the reply that has these words, by a `Reply`.
#[cold]
#[inline(never)]
fn print_whole<S: Sink>(out: &mut S, words: &[u64], room: &mut Back) -> Result<(), IoFailed>
    requires few { length words.now ≤ REPLY_WORDS }
    requires reply { IsSome (words_reply words.now) }
    ensures prints { IfSome (words_reply words.now) (λ reply.
        Prints S.shown out.old out.new result (shown_reply.text reply)) }
    ensures fits { OnOk result (IfSome (words_reply words.now) shown_reply.Fits) }
{
    <Whole as PrintReplies<Trio>>::print_words(out, words, room)
}

impl PrintReplies<Trio> for TrioLines {
    ghost shown = { shown_reply };

    fn print_words<S: Sink>(out: &mut S, words: &[u64], room: &mut Back) -> Result<(), IoFailed> {
        match single_reply(words) {
            Some(reply) => reply.print(out),
            None => print_whole(out, words, room),
        }
    }
}
