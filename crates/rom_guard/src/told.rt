//! The texts of replies where there are guarded groups.
ghost use Rattle.std.specs.Prelude.{◌≡◌, ℕ, List, ◌∷◌, IsSome, IfSome, OnOk};
ghost use Rattle.std.specs.List.{AllByRecursion};
ghost use Rattle.rom_text.specs.Streams.{Prints};
ghost use Rattle.rom_guard.specs.Guarded.{words_reply};
ghost use Rattle.rom_guard.specs.Texts.{done_text, next_text, shown_guarded, undone_text};
ghost use Rattle.rom_guard.specs.Working.{IsToldAll, told_in};

use crate::group::told_at;
use crate::guarded::Guarded;
use crate::members::Members;
use itoa::Buffer;
use rom_model::{Back, Object};
use rom_text::{IoFailed, Print, PrintReplies, Sink, print_pieces, print_text};
use std::marker::PhantomData;

/// How replies are printed where there are guarded groups: those to the object's own calls as `L` prints them.
pub struct GuardedText<L> {
    own: PhantomData<L>,
}

/// Prints what a member was told, behind others.
fn print_next<T: Print, S: Sink>(out: &mut S, told: &T) -> Result<(), IoFailed>
    ensures prints { Prints S.shown out.old out.new result (next_text T.shown told.now) }
    ensures fits { OnOk result (T.shown.Fits told.now) }
{
    print_text(out, " ; ")?;
    told.print(out)
}

/// Prints what the members of a group were told that was done.
fn print_done<O: Object, P: Members<O, N>, S: Sink, const N: usize>(
    out: &mut S,
    words: &[u64],
) -> Result<(), IoFailed>
where
    P::Told: Print,
    requires { IsToldAll P.shown words.now }
    ensures prints { Prints S.shown out.old out.new result
        (done_text P.Told.shown (told_in P.shown words.now)) }
    ensures fits { OnOk result (AllByRecursion P.Told.shown.Fits (told_in P.shown words.now)) }
{
    print_text(out, "done ")?;
    told_at::<O, P, N>(words, 0).print(out)?;
    for i in 1..words[1] {
        print_next(out, &told_at::<O, P, N>(words, i))?;
    }
    Ok(())
}

/// Prints what the first member that did not succeed was told, counted from 1.
fn print_undone<T: Print, S: Sink>(out: &mut S, member: u64, why: &T) -> Result<(), IoFailed>
    ensures prints { Prints S.shown out.old out.new result (undone_text T.shown member why.now) }
    ensures fits { OnOk result (T.shown.Fits why.now) }
{
    print_pieces(out, &["undone ", Buffer::new().format(member), " "])?;
    why.print(out)
}

/// Prints the reply to a group, whose words begin with 0.
#[cold]
#[inline(never)]
fn print_group<O: Object, P: Members<O, N>, L: PrintReplies<O>, S: Sink, const N: usize>(
    out: &mut S,
    words: &[u64],
) -> Result<(), IoFailed>
where
    P::Told: Print,
    requires group { (rest : List ℕ) × (words.now ≡ 0 ∷ rest) }
    requires reply { IsSome (words_reply O.machine P.shown words.now) }
    ensures prints { IfSome (words_reply O.machine P.shown words.now) (λ reply.
        Prints S.shown out.old out.new result ((shown_guarded L.shown P.Told.shown).text reply)) }
    ensures fits { OnOk result (IfSome (words_reply O.machine P.shown words.now)
        (shown_guarded L.shown P.Told.shown).Fits) }
{
    match words {
        [_, 0, member, why @ ..] => print_undone(out, *member, &P::read_told(why).unwrap()),
        _ => print_done::<O, P, S, N>(out, words),
    }
}

impl<O: Object + Copy, P: Members<O, N> + Copy, L: PrintReplies<O>, const N: usize> PrintReplies<
    Guarded<O, P, N>,
> for GuardedText<L>
where
    P::Told: Print,
{
    ghost shown = { shown_guarded L.shown P.Told.shown };

    fn print_words<S: Sink>(out: &mut S, words: &[u64], room: &mut Back) -> Result<(), IoFailed> {
        match words {
            [0, ..] => print_group::<O, P, L, S, N>(out, words),
            _ => L::print_words(out, words, room),
        }
    }
}
