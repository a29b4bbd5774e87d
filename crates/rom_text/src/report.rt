//! The text of a run: what each line was told, and the count at closing. It has a part for each caller, in
//! the order of the scripts. So each script shows what it was told, even one without lines. The order of
//! the history is told by places and fronts.
ghost use Rattle.std.specs.Prelude.{◌≡◌, ◌<◌, ◌≤◌, ◌++◌, codes, decimal, length, map, slice_get, IsSome, IfSome, OnOk};
ghost use Rattle.std.specs.List.{AllByRecursion};
ghost use Rattle.rom_lines.specs.Replies.{undone_as};
ghost use Rattle.rom_model.specs.declared.words.TheConstants.{REPLY_WORDS};
ghost use Rattle.rom_model.specs.declared.call.Updated.TheVariants.{Done};
ghost use Rattle.rom_text.specs.Streams.{Prints};
ghost use Rattle.rom_text.specs.Text.{AreOfType, ResultFits, callers_text, line_text, read_text, result_text, results_text, text, texts_of, update_text};

use crate::gathered::print_gathered;
use crate::print::{print_between, print_pieces, print_text};
use crate::printing::{Print, Report};
use crate::replies::PrintReplies;
use crate::streams::{IoFailed, Sink};
use itoa::Buffer;
use rom_lines::{Results, Told, Undone};
use rom_model::{Back, Object};
use std::marker::PhantomData;

/// Prints a mark, a number and the line's end, behind what was told.
#[inline(always)]
fn print_place<S: Sink>(out: &mut S, mark: &str, number: u64) -> Result<(), IoFailed>
    requires short { length mark.now ≤ 8 }
    ensures prints { Prints S.shown out.old out.new result (line_text (mark.now ++ decimal number)) }
{
    print_between(out, mark, number, "\n")
}

/// Prints the line of an update that was done at a place, and told the reply whose words these are. They
/// may go through `room`, whatever stood there.
pub(crate) fn print_reply<O: Object, P: PrintReplies<O>, S: Sink>(
    out: &mut S,
    words: &[u64],
    place: u64,
    room: &mut Back,
) -> Result<(), IoFailed>
    requires few { length words.now ≤ REPLY_WORDS }
    requires reply { IsSome (O.machine.words_reply words.now) }
    ensures prints { IfSome (O.machine.words_reply words.now) (λ reply.
        Prints S.shown out.old out.new result
        (line_text (update_text P.shown.text (Done reply place)))) }
    ensures fits { OnOk result (IfSome (O.machine.words_reply words.now) P.shown.Fits) }
{
    P::print_words(out, words, room)?;
    print_place(out, " @", place)
}

/// Prints the line of an update that was not done.
pub(crate) fn print_undone<O: Object, P: PrintReplies<O>, S: Sink>(
    out: &mut S,
    why: Undone,
) -> Result<(), IoFailed>
    ensures prints { Prints S.shown out.old out.new result
        (line_text (update_text P.shown.text (undone_as why))) }
{
    match why {
        Undone::Spent => print_text(out, "spent\n"),
        Undone::Failed => print_text(out, "fault\n"),
        Undone::Doubt => print_text(out, "doubt\n"),
    }
}

/// Prints the line of an answer and its front.
pub(crate) fn print_read<A: Print, S: Sink>(
    out: &mut S,
    answer: &A,
    front: u64,
) -> Result<(), IoFailed>
    ensures prints { Prints S.shown out.old out.new result
        (line_text (read_text A.shown.text answer.now front)) }
    ensures fits { OnOk result (A.shown.Fits answer.now) }
{
    answer.print(out)?;
    print_place(out, " #", front)
}

/// Prints the line of what a line was told, by its index. The words of a reply
/// may go through `room`, whatever stood there.
fn print_line<O: Object, P: PrintReplies<O>, S: Sink>(
    out: &mut S,
    results: &Results<O>,
    i: usize,
    room: &mut Back,
) -> Result<(), IoFailed>
where
    O::Answer: Print,
    requires { i < length results.now.items }
    ensures prints { IfSome (slice_get results.now.items i) (λ told.
        Prints S.shown out.old out.new result
        (line_text (result_text (texts_of P.shown O.Answer.shown) told))) }
    ensures of_type { OnOk result (IfSome (slice_get results.now.items i)
        (ResultFits (texts_of P.shown O.Answer.shown))) }
{
    match results.at(i) {
        Told::Unread => print_text(out, "unread\n"),
        Told::Done(words, place) => print_reply::<O, P, S>(out, words, place, room),
        Told::Undone(why) => print_undone::<O, P, S>(out, why),
        Told::Read(answer, front) => print_read(out, answer, front),
    }
}

/// Prints the lines of one caller's results.
fn print_results<O: Object, P: PrintReplies<O>, S: Sink>(
    out: &mut S,
    results: &Results<O>,
) -> Result<(), IoFailed>
where
    O::Answer: Print,
    ensures prints { Prints S.shown out.old out.new result
        (results_text (texts_of P.shown O.Answer.shown) results.now.items) }
    ensures of_type { OnOk result
        (AllByRecursion (ResultFits (texts_of P.shown O.Answer.shown)) results.now.items) }
{
    // All replies go through the same words: a new list for each would be 168 bytes that are cleared.
    let mut room = Back::new();
    for i in 0..results.len() {
        print_line::<O, P, S>(out, results, i, &mut room)?;
    }
    Ok(())
}

/// Prints a caller's number, and the lines of its results.
fn print_caller<O: Object, P: PrintReplies<O>, S: Sink>(
    out: &mut S,
    caller: u64,
    results: &Results<O>,
) -> Result<(), IoFailed>
where
    O::Answer: Print,
    ensures prints { Prints S.shown out.old out.new result
        (line_text (codes "caller " ++ decimal caller)
        ++ results_text (texts_of P.shown O.Answer.shown) results.now.items) }
    ensures of_type { OnOk result
        (AllByRecursion (ResultFits (texts_of P.shown O.Answer.shown)) results.now.items) }
{
    print_pieces(out, &["caller ", Buffer::new().format(caller), "\n"])?;
    print_results::<O, P, S>(out, results)
}

/// Prints the results of all callers.
fn print_callers<O: Object, P: PrintReplies<O>, S: Sink>(
    out: &mut S,
    results: &[Results<O>],
) -> Result<(), IoFailed>
where
    O::Answer: Print,
    ensures prints { Prints S.shown out.old out.new result
        (callers_text (texts_of P.shown O.Answer.shown) 1 (map (λ v. v.items) results.now)) }
    ensures of_type { OnOk result (AreOfType (texts_of P.shown O.Answer.shown)
        (map (λ v. v.items) results.now)) }
{
    for (i, own) in results.iter().enumerate() {
        print_caller::<O, P, S>(out, i as u64 + 1, own)?;
    }
    Ok(())
}

/// Prints the whole text, piece by piece.
fn print_whole<O: Object, P: PrintReplies<O>, S: Sink>(
    out: &mut S,
    results: &[Results<O>],
    count: u64,
) -> Result<(), IoFailed>
where
    O::Answer: Print,
    ensures prints { Prints S.shown out.old out.new result
        (text (texts_of P.shown O.Answer.shown) (map (λ v. v.items) results.now) count) }
    ensures of_type { OnOk result (AreOfType (texts_of P.shown O.Answer.shown)
        (map (λ v. v.items) results.now)) }
{
    print_callers::<O, P, S>(out, results)?;
    print_pieces(out, &["count ", Buffer::new().format(count), "\n"])
}

/// The text of a run: the results of each caller in order, and the count at closing.
#[derive(Drop)]
struct RunText<'a, O: Object, P: PrintReplies<O>> {
    results: &'a [Results<O>],
    count: u64,
    replies: PhantomData<P>,
}

impl<O: Object, P: PrintReplies<O>> Report for RunText<'_, O, P>
where
    O::Answer: Print,
{
    ghost shown = { record {
      text = λ t. text (texts_of P.shown O.Answer.shown) (map (λ v. v.items) t.results.now) t.count;
      Fits = λ t. AreOfType (texts_of P.shown O.Answer.shown) (map (λ v. v.items) t.results.now);
    } };

    fn print<S: Sink>(&self, out: &mut S) -> Result<(), IoFailed> {
        print_whole::<O, P, S>(out, self.results, self.count)
    }
}

/// Prints the text of a run: the results of each caller in order, and the count at closing. It leaves
/// in blocks of 4,096 bytes, and nothing of it waits after the call. It takes no memory. After
/// `IoFailed` the sink has taken some of the text, from its front.
pub fn print_run<O: Object, P: PrintReplies<O>, S: Sink>(
    out: &mut S,
    results: &[Results<O>],
    count: u64,
) -> Result<(), IoFailed>
where
    O::Answer: Print,
    // After `Ok` the sink has taken the whole text, as far as it tells. After `IoFailed` it has taken a
    // first part, and its last write failed and no other.
    ensures prints { Prints S.shown out.old out.new result
        (text (texts_of P.shown O.Answer.shown) (map (λ v. v.items) results.now) count) }
    // After `Ok` all numbers of the results are of their types: without that the text would not determine
    // the results. A generic `play` knows nothing of replies, so the printing promises it.
    ensures of_type { OnOk result (AreOfType (texts_of P.shown O.Answer.shown)
        (map (λ v. v.items) results.now)) }
{
    print_gathered(
        out,
        &RunText::<O, P> {
            results,
            count,
            replies: PhantomData,
        },
    )
}
