//! How what is asked of a counter is written, and what it tells is printed.
ghost use Rattle.counter.specs.Language.{AsksCounter, ReadsCounter, shown_sum};

use crate::counter::{Add, Counter, Query, Sum};
use itoa::Buffer;
use rom_model::Step;
use rom_text::{IoFailed, Lines, Print, Sink, print_pieces, read_phrase};

/// The lines `add N` and `get`.
pub struct CounterLines;

/// What a line with this first word and these numbers behind it asks for.
fn asked(name: &[u8], numbers: &[u64]) -> Step<Add, Query>
    ensures { AsksCounter name.now numbers.now result }
{
    match (name, numbers) {
        (b"add", [amount]) => Step::Update(Add { amount: *amount }),
        (b"get", []) => Step::Ask(Query::Get),
        _ => Step::Unread,
    }
}

impl Lines<Counter> for CounterLines {
    ghost Reads = { ReadsCounter };

    fn read_line(line: &[u8]) -> Step<Add, Query> {
        match read_phrase(line) {
            Some(phrase) => asked(phrase.name, &phrase.numbers),
            None => Step::Unread,
        }
    }
}

impl Print for Sum {
    ghost shown = { shown_sum };

    fn print<O: Sink>(&self, out: &mut O) -> Result<(), IoFailed> {
        print_pieces(out, &["sum ", Buffer::new().format(self.value)])
    }
}
