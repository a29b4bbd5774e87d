//! What is told where a heap is not opened, not made or not upgraded.
ghost use Rattle.std.specs.Prelude.{◌≡◌, ◌++◌, decimal};
ghost use Rattle.rom_text.specs.Runs.{IsLineWrittenOrCutShort};
ghost use Rattle.rom_run.specs.Refusing.{refusal_line, refusal_status, too_small_line, twins_line, unmade_line, unmade_status};
ghost use Rattle.rom_run.specs.Refusing as refusing;
ghost use Rattle.rom_open.specs.declared.new_heap.NotFormatted.TheVariants.{Refused};

use crate::malformed::tell_malformed;
use crate::status::Status;
use crate::telling::tell;
use itoa::Buffer;
use rom_header::FormatRefused;
use rom_open::{NotFormatted, Why};
use rom_text::Sink;

/// A name, and the number behind it.
fn tell_number<O: Sink>(out: &mut O, name: &str, number: u64)
    ensures told { IsLineWrittenOrCutShort O.shown out.old out.new (name.now ++ decimal number) }
    ensures rest { O.shown.rest out.new ≡ O.shown.rest out.old }
{
    tell(out, &[name, Buffer::new().format(number)]);
}

fn tell_too_small<O: Sink>(out: &mut O, need: u64, have: u64)
    ensures told { IsLineWrittenOrCutShort O.shown out.old out.new (too_small_line need have) }
    ensures rest { O.shown.rest out.new ≡ O.shown.rest out.old }
{
    let mut of_need = Buffer::new();
    let mut of_have = Buffer::new();
    let need = of_need.format(need);
    let have = of_have.format(have);
    tell(out, &["refused: too small, need ", need, ", have ", have]);
}

fn tell_twins<O: Sink>(out: &mut O, offset: u64, main: u64, back: u64)
    ensures told { IsLineWrittenOrCutShort O.shown out.old out.new (twins_line offset main back) }
    ensures rest { O.shown.rest out.new ≡ O.shown.rest out.old }
{
    let mut of_offset = Buffer::new();
    let mut of_main = Buffer::new();
    let mut of_back = Buffer::new();
    let offset = of_offset.format(offset);
    let main = of_main.format(main);
    let back = of_back.format(back);
    tell(
        out,
        &[
            "refused: twins differ at ",
            offset,
            ", main ",
            main,
            ", back ",
            back,
        ],
    );
}

/// Says why a heap is not opened, or not upgraded, of an object of this kind.
pub fn tell_refusal<O: Sink>(out: &mut O, kind: u64, why: Why)
    ensures told { IsLineWrittenOrCutShort O.shown out.old out.new (refusal_line kind why) }
    ensures rest { O.shown.rest out.new ≡ O.shown.rest out.old }
{
    match why {
        Why::NotAHeap => tell(out, &["refused: not a heap"]),
        Why::BadVersion(version) => tell_number(out, "refused: version ", version),
        Why::BadOrder(order) => tell_number(out, "refused: order ", order),
        Why::BadState(state) => tell_number(out, "refused: state ", state),
        Why::TooSmall { need, have } => tell_too_small(out, need, have),
        Why::Twins { offset, main, back } => tell_twins(out, offset, main, back),
        Why::OldRegion => tell(out, &["refused: region version 1"]),
        Why::NewRegion => tell(out, &["refused: region version 2"]),
        Why::Malformed {
            offset,
            rule,
            found,
        } => tell_malformed(out, kind, offset, rule, found),
        Why::Device => tell(out, &["device failed"]),
        Why::OutOfMemory => tell(out, &["no memory"]),
    }
}

/// The status where a heap is not opened, or not upgraded.
pub fn refusal_status(why: Why) -> Status
    ensures { result ≡ refusing.refusal_status why }
{
    match why {
        Why::Device => Status::DeviceFailed,
        Why::OutOfMemory => Status::NoMemory,
        Why::NotAHeap
        | Why::BadVersion(_)
        | Why::BadOrder(_)
        | Why::BadState(_)
        | Why::TooSmall { .. }
        | Why::Twins { .. }
        | Why::OldRegion
        | Why::NewRegion
        | Why::Malformed { .. } => Status::HeapRefused,
    }
}

fn tell_format_refusal<O: Sink>(out: &mut O, refused: FormatRefused)
    ensures told { IsLineWrittenOrCutShort O.shown out.old out.new (unmade_line (Refused refused)) }
    ensures rest { O.shown.rest out.new ≡ O.shown.rest out.old }
{
    match refused {
        FormatRefused::AlreadyAHeap => tell(out, &["refused: already a heap"]),
        FormatRefused::TooSmall { need, have } => tell_too_small(out, need, have),
        FormatRefused::Device => tell(out, &["device failed"]),
    }
}

/// Says why no heap is made.
pub fn tell_unmade<O: Sink>(out: &mut O, why: NotFormatted)
    ensures told { IsLineWrittenOrCutShort O.shown out.old out.new (unmade_line why) }
    ensures rest { O.shown.rest out.new ≡ O.shown.rest out.old }
{
    match why {
        NotFormatted::Refused(refused) => tell_format_refusal(out, refused),
        NotFormatted::OutOfMemory => tell(out, &["no memory"]),
    }
}

/// The status where no heap is made.
pub fn unmade_status(why: NotFormatted) -> Status
    ensures { result ≡ refusing.unmade_status why }
{
    match why {
        NotFormatted::Refused(FormatRefused::Device) => Status::DeviceFailed,
        NotFormatted::Refused(FormatRefused::AlreadyAHeap | FormatRefused::TooSmall { .. }) => {
            Status::HeapRefused
        }
        NotFormatted::OutOfMemory => Status::NoMemory,
    }
}
