//! The words of the command `copy`, and what it tells.
ghost use Rattle.std.specs.Prelude.{◌≡◌};
ghost use Rattle.rom_dump.specs.Copying.{copy_command, made_line, made_word, names_read, put_line, put_status, untaken_line, untaken_status, unput_line, unput_status};
ghost use Rattle.rom_run.specs.Refusing as refusing;
ghost use Rattle.rom_run.specs.Statuses.{exit_number};
ghost use Rattle.rom_text.specs.Runs.{IsLineWrittenOrCutShort};
ghost use Rattle.std.specs.Prelude.{codes};

use crate::copy::Made;
use crate::refusing::refuse;
use itoa::Buffer;
use rom_copy::Untaken;
use rom_header::FormatRefused;
use rom_open::Why;
use rom_run::{Status, is_name, tell};
use rom_text::{Name, Names, Sink};

/// The lines of those refusals of a putting that are refusals of an opening, too, are the same for each kind.
const ANY_KIND: u64 = 1;

/// The files that `copy FILE NEW` names.
pub fn copy_files(words: &Names) -> Option<(&Name, &Name)>
    ensures { names_read result ≡ copy_command words.now }
{
    match words.as_slice() {
        [name, file, new] if name.as_str() == "copy" && is_name(file) && is_name(new) => {
            Some((file, new))
        }
        _ => None,
    }
}

/// Tells of a heap that is in use, and changed too fast to be read whole.
pub fn tell_busy<O: Sink>(out: &mut O) -> u8
    ensures status { result ≡ 3 }
    ensures told { IsLineWrittenOrCutShort O.shown out.old out.new (codes "refused: in use, and too busy") }
    ensures rest { O.shown.rest out.new ≡ O.shown.rest out.old }
{
    tell(out, &["refused: in use, and too busy"]);
    Status::HeapRefused.number()
}

/// Tells of a heap in which a batch is not finished.
fn tell_unfinished<O: Sink>(out: &mut O)
    ensures told { IsLineWrittenOrCutShort O.shown out.old out.new (codes "refused: a batch is not finished") }
    ensures rest { O.shown.rest out.new ≡ O.shown.rest out.old }
{
    tell(out, &["refused: a batch is not finished"]);
}

/// Tells why a heap is not taken, where one of this kind was looked for.
pub fn tell_untaken<O: Sink>(out: &mut O, kind: u64, why: Untaken) -> u8
    ensures status { result ≡ untaken_status why }
    ensures told { IsLineWrittenOrCutShort O.shown out.old out.new (untaken_line kind why) }
    ensures rest { O.shown.rest out.new ≡ O.shown.rest out.old }
{
    match why {
        Untaken::Refused(why) => tell_unread(out, kind, why),
        Untaken::Unfinished => {
            tell_unfinished(out);
            Status::HeapRefused.number()
        }
    }
}

/// Tells why a heap is refused.
fn tell_unread<O: Sink>(out: &mut O, kind: u64, why: Why) -> u8
    ensures status { result ≡ exit_number (refusing.refusal_status why) }
    ensures told { IsLineWrittenOrCutShort O.shown out.old out.new (refusing.refusal_line kind why) }
    ensures rest { O.shown.rest out.new ≡ O.shown.rest out.old }
{
    refuse(kind, why, out).number()
}

/// What was done.
fn word_of(made: Made) -> &'static str
    ensures { result.now ≡ made_word made }
{
    match made {
        Made::Copied => "copied",
        Made::Grown => "grown",
    }
}

/// Tells of a heap of this order and this count that was put.
fn tell_made<O: Sink>(out: &mut O, made: Made, order: u32, count: u64)
    ensures told { IsLineWrittenOrCutShort O.shown out.old out.new (made_line made order count) }
    ensures rest { O.shown.rest out.new ≡ O.shown.rest out.old }
{
    let mut of_order = Buffer::new();
    let mut of_count = Buffer::new();
    let (order, count) = (of_order.format(order), of_count.format(count));
    tell(out, &[word_of(made), " order ", order, " count ", count]);
}

/// Tells that a heap stands there already.
fn tell_there<O: Sink>(out: &mut O)
    ensures told { IsLineWrittenOrCutShort O.shown out.old out.new (codes "refused: already a heap") }
    ensures rest { O.shown.rest out.new ≡ O.shown.rest out.old }
{
    tell(out, &["refused: already a heap"]);
}

/// Tells why a heap was not put.
fn tell_unput<O: Sink>(out: &mut O, why: FormatRefused) -> u8
    ensures status { result ≡ unput_status why }
    ensures told { IsLineWrittenOrCutShort O.shown out.old out.new (unput_line why) }
    ensures rest { O.shown.rest out.new ≡ O.shown.rest out.old }
{
    match why {
        FormatRefused::AlreadyAHeap => {
            tell_there(out);
            Status::HeapRefused.number()
        }
        FormatRefused::TooSmall { need, have } => tell_unread(
            out,
            ANY_KIND,
            Why::TooSmall { need, have },
        ),
        FormatRefused::Device => tell_unread(out, ANY_KIND, Why::Device),
    }
}

/// Tells that a heap of this order and this count was put, or why none was.
pub fn tell_put<O: Sink>(
    out: &mut O,
    made: Made,
    order: u32,
    count: u64,
    put: Result<(), FormatRefused>,
) -> u8
    ensures status { result ≡ put_status put }
    ensures told { IsLineWrittenOrCutShort O.shown out.old out.new (put_line made order count put) }
    ensures rest { O.shown.rest out.new ≡ O.shown.rest out.old }
{
    match put {
        Ok(()) => {
            tell_made(out, made, order, count);
            Status::Done.number()
        }
        Err(why) => tell_unput(out, why),
    }
}
