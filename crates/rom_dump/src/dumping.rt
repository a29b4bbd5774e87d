//! The top call: all that the program does with one heap.
ghost use Rattle.rom_dump.specs.Promise.{DumpPromise};
ghost use Rattle.rom_dump.specs.Words.{dump_command};

use crate::check::check_heap;
use crate::metrics::measure_heap;
use crate::script::show_script;
use crate::words::{Dump, read_dump};
use rom_carry::Carry;
use rom_device::Device;
use rom_model::Object;
use rom_run::{Status, tell};
use rom_text::{Names, Sink};
use std::alloc::Global;

/// Does all that the program does with a heap of one kind: shows what the words ask for of the heap on the device, and
/// prints to the sink. `main` hands in a device over the file that `dump_file` of the same words names, opened for
/// reading alone, and the object whose number [`kind_of`](crate::kind_of) finds there: a heap of another kind is
/// refused. It gives the number of a `Status`.
///
/// Words that are no command make no call of the device.
pub fn dump<D: Device, O: Object, C: Carry<O>, K: Sink>(
    alloc: Global,
    words: &Names,
    device: &mut D,
    out: &mut K,
) -> u8
    // All that is promised of the command that the words are; the record's fields say it one by one.
    ensures promise { DumpPromise D.shown K.shown O.Contents O.Rejects
        (record { kind = O.KIND; Carrying = C.Carrying; Sized = C.Sized; Measured = C.Measured; bounds = C.Elements.bounds })
        (dump_command words.now) device.old device.new out.old out.new result }
{
    let Some(asked) = read_dump(words) else {
        tell(out, &["not a command"]);
        return Status::NotACommand.number();
    };
    match asked {
        Dump::Script {
            file: _,
            from,
            part,
        } => show_script::<D, O, C, K>(alloc, device, from, part, out).number(),
        Dump::Check { file: _, from } => {
            check_heap::<D, O, C, K>(alloc, device, from, out).number()
        }
        Dump::Metrics { file: _ } => measure_heap::<D, O, C, K>(alloc, device, out).number(),
    }
}
