//! What is printed of the results of scripts: the text of a run, or what a program says it to be.
ghost use Rattle.std.specs.Prelude.{◌≡◌, ◌≤◌, length, map, OnOk};
ghost use Rattle.rom_model.specs.Faults.{HasCause};
ghost use Rattle.rom_model.specs.Lawful.{IsLawful};
ghost use Rattle.rom_model.specs.Story.{Story};
ghost use Rattle.rom_model.specs.Story as stories;
ghost use Rattle.rom_text.specs.Streams.{Prints};
ghost use Rattle.rom_text.specs.Text.{texts_of};
ghost use Rattle.rom_run.specs.Played.{ShownOutput, text_output};

use rom_lines::{Results, Script};
use rom_model::Object;
use rom_text::{IoFailed, Print, PrintReplies, Sink, print_run};
use std::marker::PhantomData;

/// What a program prints of scripts that were played on an object. The rest of the promise does not change
/// with it. Its bytes depend on the count at the opening, the history and the results, and not on the state:
/// a trait's member cannot name the states of another trait's object. So a drill, whose lines tell of the
/// state, is no `Output`.
pub trait Output<O: Object> {
    /// What it shows of itself: its bytes, and that its numbers are of their types.
    ghost shown: { ShownOutput O.Reply O.Answer };

    /// Prints it of these scripts and what each of their lines was told, where the heap has done so
    /// many updates. It takes no memory. After `IoFailed` the sink has taken some of it, from its
    /// front.
    fn print<K: Sink>(
        out: &mut K,
        scripts: &[Script<O>],
        results: &[Results<O>],
        count: u64,
    ) -> Result<(), IoFailed>
        requires { length scripts.now ≤ 16 }
        // For each story with this count in which the results are lawful, its bytes are printed; after an
        // error some of them, from the front. The body knows no story.
        ensures prints { (story : Story O.State) → count ≡ stories.count story →
            IsLawful O.machine story (map (λ v. v.items) scripts.now)
            (map (λ v. v.items) results.now) → Prints K.shown out.old out.new result
            (shown.text story.opening_count story.history (map (λ v. v.items) results.now)) }
        // After `Ok` the numbers in it are of their types, for each such story.
        ensures of_type { OnOk result ((story : Story O.State) → count ≡ stories.count story →
            IsLawful O.machine story (map (λ v. v.items) scripts.now)
            (map (λ v. v.items) results.now) →
            shown.Fits story.opening_count story.history (map (λ v. v.items) results.now)) }
        // After `Ok` no write of the sink failed; after an error the last one did, and no other.
        ensures cause { HasCause (K.shown.faults out.old) (K.shown.faults out.new)
            (K.shown.failing out.new) result }
        ensures rest { K.shown.rest out.new ≡ K.shown.rest out.old };
}

/// The text of a run: what each line was told, by its caller, and the count at closing. Replies are printed
/// in this way, by their words.
pub struct ResultText<P> {
    replies: PhantomData<P>,
}

impl<O: Object, P: PrintReplies<O>> Output<O> for ResultText<P>
where
    O::Answer: Print,
{
    ghost shown = { text_output (texts_of P.shown O.Answer.shown) };

    fn print<K: Sink>(
        out: &mut K,
        scripts: &[Script<O>],
        results: &[Results<O>],
        count: u64,
    ) -> Result<(), IoFailed> {
        print_run::<O, P, K>(out, results, count)
    }
}
