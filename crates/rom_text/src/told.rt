//! What one line was told, printed as a report of one line.
ghost use Rattle.std.specs.Prelude.{◌≡◌, OnOk};
ghost use Rattle.rom_lines.specs.Replies.{SaysResult};
ghost use Rattle.rom_model.specs.declared.line.LineResult.{LineResult};
ghost use Rattle.rom_text.specs.Streams.{Prints};
ghost use Rattle.rom_text.specs.Text.{ResultFits, line_text, result_text, texts_of};
ghost use Rattle.rom_text.specs.Told.{IsTold, result_told};

use crate::print::print_text;
use crate::printing::{Print, Report};
use crate::replies::PrintReplies;
use crate::report::{print_read, print_reply, print_undone};
use crate::streams::{IoFailed, Sink};
use rom_lines::Told;
use rom_model::{Back, Object};
use std::marker::{Model, PhantomData};

/// What one line was told. A contract sees the result.
#[derive(Drop)]
pub struct ToldLine<'a, O: Object, P: PrintReplies<O>> {
    told: Told<'a, O::Answer>,
    replies: PhantomData<P>,
}

impl<'a, O: Object, P: PrintReplies<O>> Model for ToldLine<'a, O, P> {
    ghost use Rattle.rom_model.specs.declared.line.LineResult.{LineResult};
    ghost use Rattle.rom_text.specs.Told.{IsTold, result_told};

    ghost Value = { LineResult O.Reply O.Answer };

    ghost view = { λ l. result_told O.machine.words_reply l.told };

    ghost invariant = { λ l. IsTold O.machine.words_reply l.told };
}

impl<'a, O: Object, P: PrintReplies<O>> ToldLine<'a, O, P> {
    /// What this says.
    pub fn of(told: Told<'a, O::Answer>) -> Self
        requires { (it : LineResult O.Reply O.Answer) × SaysResult O.machine.words_reply it told }
        ensures { (it : LineResult O.Reply O.Answer) → SaysResult O.machine.words_reply it told.entry →
            result ≡ it }
    {
        ToldLine {
            told,
            replies: PhantomData,
        }
    }
}

/// Prints the line of what a line was told. The words of a reply may go through `room`, whatever stood there.
fn print_told<O: Object, P: PrintReplies<O>, S: Sink>(
    out: &mut S,
    told: &Told<'_, O::Answer>,
    room: &mut Back,
) -> Result<(), IoFailed>
where
    O::Answer: Print,
    requires { IsTold O.machine.words_reply told.now }
    ensures prints { Prints S.shown out.old out.new result
        (line_text (result_text (texts_of P.shown O.Answer.shown)
        (result_told O.machine.words_reply told.now))) }
    ensures of_type { OnOk result (ResultFits (texts_of P.shown O.Answer.shown)
        (result_told O.machine.words_reply told.now)) }
{
    match told {
        Told::Unread => print_text(out, "unread\n"),
        Told::Done(words, place) => print_reply::<O, P, S>(out, *words, *place, room),
        Told::Undone(why) => print_undone::<O, P, S>(out, *why),
        Told::Read(answer, front) => print_read(out, *answer, *front),
    }
}

impl<O: Object, P: PrintReplies<O>> Report for ToldLine<'_, O, P>
where
    O::Answer: Print,
{
    ghost shown = { record {
      text = λ it. line_text (result_text (texts_of P.shown O.Answer.shown) it);
      Fits = λ it. ResultFits (texts_of P.shown O.Answer.shown) it;
    } };

    fn print<S: Sink>(&self, out: &mut S) -> Result<(), IoFailed> {
        print_told::<O, P, S>(out, &self.told, &mut Back::new())
    }
}
