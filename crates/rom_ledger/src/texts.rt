//! The texts of replies.
ghost use Rattle.std.specs.Prelude.{◌++◌, codes, decimal};
ghost use Rattle.rom_text.specs.Streams.{Prints};
ghost use Rattle.rom_ledger.specs.Texts.{shown_ledger_reply, shown_told};

use crate::call::LedgerTold;
use crate::language::LedgerLines;
use crate::ledger::Ledger;
use itoa::Buffer;
use rom_heap::Trio;
use rom_model::Back;
use rom_script::TrioLines;
use rom_text::{IoFailed, Print, PrintReplies, Sink, print_pieces};

/// Prints the number that stands there in place of the one named.
fn print_other<S: Sink>(out: &mut S, value: u64) -> Result<(), IoFailed>
    ensures prints { Prints S.shown out.old out.new result (codes "other " ++ decimal value) }
{
    print_pieces(out, &["other ", Buffer::new().format(value)])
}

impl Print for LedgerTold {
    ghost shown = { shown_told };

    fn print<O: Sink>(&self, out: &mut O) -> Result<(), IoFailed> {
        match self {
            LedgerTold::Heap(own) => own.print(out),
            LedgerTold::Other(value) => print_other(out, *value),
        }
    }
}

impl PrintReplies<Ledger> for LedgerLines {
    ghost shown = { shown_ledger_reply };

    fn print_words<S: Sink>(out: &mut S, words: &[u64], room: &mut Back) -> Result<(), IoFailed> {
        match words {
            [15, value] => print_other(out, *value),
            _ => <TrioLines as PrintReplies<Trio>>::print_words(out, words, room),
        }
    }
}
