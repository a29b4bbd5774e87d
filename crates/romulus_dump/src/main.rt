//! Shows what the heap in a file holds, whichever kind it is of, and copies it, or makes one of a greater order: opens the
//! file that the words name, for reading alone, finds its kind, and calls `dump`; or `take_copy` or `take_grown`, and for
//! the new file `put_copy`. Of a heap that is checked or watched it tells the name, too. A heap that another program has
//! is taken into memory as it is committed, and that program does not wait.
//!
//! It knows a real file and streams, its usage, and three objects; what a command does is `rom_dump`'s to know.
#![tactic(auto)]

ghost use Rattle.std.specs.Prelude.{◌<◌, IfOk, length};
ghost use Rattle.rom_model.specs.Blocks.{IsOrder};

use rom_blob::Blobs;
use rom_blob_carry::CarryBlobs;
use rom_copy::{Untaken, snapshot};
use rom_device::{Device, FileDevice, Ram};
use rom_dump::{
    Made, Status, Taken, Ungrown, copy_files, dump, dump_file, growth_of, kind_of, put_copy,
    region_of, take_copy, take_grown, tell_busy, tell_ungrown, tell_untaken,
};
use rom_heap::Trio;
use rom_host::{Looked, NAPS, Program, look_at, new_file_of};
use rom_model::Object;
use rom_name::{is_named, print_epoch, print_identity, read_own};
use rom_open::Why;
use rom_order::Ordered;
use rom_order_carry::CarryOrdered;
use rom_rebuild::CarryTrio;
use rom_run::tell;
use rom_steady::Unsteady;
use rom_text::{Adapted, Name, Names, Sink};
use std::alloc::AllocError;
use std::io::Printer;
use std::process::ExitCode;

/// What standard error tells where the words are no command.
const USAGE: &str = "\
usage: romulus_dump script FILE             the script that makes the heap again
       romulus_dump check FILE              which region counts, the kind and the sizes
       romulus_dump metrics FILE            what a monitor watches, for Prometheus
       romulus_dump copy FILE NEW           the same heap in a new file
       romulus_dump grow OLD NEW --order N  the same in a new heap of a greater order
behind FILE of script and check, in this order:
       --from main, --from back             of this copy of a damaged heap alone
       --part N                             of a script, one of its parts";

/// How often a heap that is in use is read at once, before this program sleeps.
const TRIES: u32 = 40;

/// The kind of a heap of a queue, a set and a map.
const TRIO: u64 = Trio::KIND;

/// The kind of a heap of keys with bytes.
const BLOBS: u64 = Blobs::KIND;

/// The kind of an ordered index.
const ORDERED: u64 = Ordered::KIND;

/// A heap to be looked at.
#[derive(Drop)]
enum Source {
    /// That in a file that nobody writes.
    Still(FileDevice),
    /// One that is in use, as it was committed at one moment.
    Taken(Ram),
    /// None: it is in use, and was changed too fast.
    Busy,
}

/// The heap in a file. One that is in use is taken, unless one of its regions is asked for by itself; where that is in
/// vain, it is tried again as often as a lock is.
fn source_of(program: &Program<'_>, name: &str, alone: bool) -> Result<Source, AllocError> {
    let mut is_busy = false;
    for _ in 0..NAPS {
        let mut file = match look_at(program, name)? {
            Looked::Still(device) => return Ok(Source::Still(device)),
            Looked::InUse(file) => file,
        };
        if !alone {
            match snapshot(program.alloc(), &mut file, TRIES) {
                Ok(heap) => return Ok(Source::Taken(heap)),
                Err(Unsteady::OutOfMemory) => return Err(AllocError),
                Err(Unsteady::Device) => return Ok(Source::Still(FileDevice::missing())),
                Err(Unsteady::Busy) => is_busy = true,
                // The heap may be being made.
                Err(Unsteady::NoHeap) => {}
            }
        }
        program.nap();
    }
    if is_busy {
        return Ok(Source::Busy);
    }
    program.tell_locked(name);
    Ok(Source::Still(FileDevice::missing()))
}

/// Tells the name of a heap that has one. Whether it could be printed changes no status, as of the lines of `check`.
fn tell_name<D: Device, O: Sink>(device: &mut D, out: &mut O) {
    if let Ok(Some(own)) = read_own::<D, Trio>(device) {
        if is_named(own.identity.name) {
            let _ = print_identity(out, &own);
        }
    }
}

/// Tells the epoch of a heap that has a name, for a monitor, and the status: gauges that are cut short, or that lack
/// one, are no gauges.
fn tell_epoch<D: Device, O: Sink>(device: &mut D, out: &mut O) -> u8 {
    match read_own::<D, Trio>(device) {
        Ok(Some(own)) if is_named(own.identity.name) => match print_epoch(out, &own) {
            Ok(()) => Status::Done.number(),
            Err(_) => Status::SinkFailed.number(),
        },
        Ok(_) => Status::Done.number(),
        Err(_) => Status::DeviceFailed.number(),
    }
}

/// The kind of heap to look for on a device, or `None`, which is told, where the device failed. Words that are no
/// command make no call of it.
fn kind_in<D: Device, O: Sink>(device: &mut D, words: &Names, out: &mut O) -> Option<u64> {
    if dump_file(words).is_none() {
        return Some(TRIO);
    }
    match kind_of(device, region_of(words)) {
        Ok(kind) => Some(kind.unwrap_or(TRIO)),
        Err(_) => {
            tell(out, &["device failed"]);
            None
        }
    }
}

/// Shows what the words ask for, and of `check` and `metrics` the name. A device on which none of the kinds is found is
/// looked at as a heap of a queue, a set and a map, which refuses it.
fn show<D: Device, O: Sink>(
    program: &Program<'_>,
    words: &Names,
    device: &mut D,
    out: &mut O,
) -> u8 {
    let alloc = program.alloc();
    let status = match kind_in(device, words, out) {
        Some(BLOBS) => dump::<D, Blobs, CarryBlobs, O>(alloc, words, device, out),
        Some(ORDERED) => dump::<D, Ordered, CarryOrdered, O>(alloc, words, device, out),
        Some(_) => dump::<D, Trio, CarryTrio, O>(alloc, words, device, out),
        None => return Status::DeviceFailed.number(),
    };
    match words.at(0) {
        Some("check") if status == 0 => {
            tell_name(device, out);
            status
        }
        Some("metrics") if status == 0 => tell_epoch(device, out),
        _ => status,
    }
}

/// Takes the heap that a device holds, whichever kind it is of, and tells its kind.
fn take<D: Device>(program: &Program<'_>, device: &mut D) -> (u64, Result<Taken, Untaken>)
    ensures some { IfOk result.1 (λ taken. 0 < length taken.words.items) }
{
    let alloc = program.alloc();
    match kind_of(device, None) {
        Ok(Some(BLOBS)) => (BLOBS, take_copy::<D, Blobs>(alloc, device)),
        Ok(Some(ORDERED)) => (ORDERED, take_copy::<D, Ordered>(alloc, device)),
        Ok(_) => (TRIO, take_copy::<D, Trio>(alloc, device)),
        Err(_) => (TRIO, Err(Untaken::Refused(Why::Device))),
    }
}

/// The same as one of a greater order.
fn take_greater<D: Device>(
    program: &Program<'_>,
    device: &mut D,
    order: u32,
) -> (u64, Result<Taken, Ungrown>)
    requires { IsOrder order }
    ensures some { IfOk result.1 (λ taken. 0 < length taken.words.items) }
{
    let alloc = program.alloc();
    match kind_of(device, None) {
        Ok(Some(BLOBS)) => {
            let taken = take_grown::<D, Blobs, CarryBlobs>(alloc, device, order);
            (BLOBS, taken)
        }
        Ok(Some(ORDERED)) => {
            let taken = take_grown::<D, Ordered, CarryOrdered>(alloc, device, order);
            (ORDERED, taken)
        }
        Ok(_) => {
            let taken = take_grown::<D, Trio, CarryTrio>(alloc, device, order);
            (TRIO, taken)
        }
        Err(_) => (TRIO, Err(Ungrown::Untaken(Untaken::Refused(Why::Device)))),
    }
}

/// Puts a heap that was taken into a new file.
fn put(
    program: &Program<'_>,
    new: &str,
    made: Made,
    taken: &Taken,
    out: &mut Adapted<Printer<'_, HostRuntime>>,
) -> Result<u8, AllocError>
    requires { 0 < length taken.now.words.items }
{
    let mut device = new_file_of(program, new, taken.words.len() as u64)?;
    Ok(put_copy(&mut device, made, taken, out))
}

/// Does `copy`. The file of the heap is let go before the new one is made.
fn copied(
    program: &Program<'_>,
    file: &str,
    new: &str,
    out: &mut Adapted<Printer<'_, HostRuntime>>,
) -> Result<u8, AllocError> {
    let (kind, taken) = match source_of(program, file, false)? {
        Source::Still(mut device) => take(program, &mut device),
        Source::Taken(mut heap) => take(program, &mut heap),
        Source::Busy => return Ok(tell_busy(out)),
    };
    match taken {
        Ok(taken) => put(program, new, Made::Copied, &taken, out),
        Err(why) => Ok(tell_untaken(out, kind, why)),
    }
}

/// Does `grow`, likewise.
fn grown(
    program: &Program<'_>,
    file: &str,
    new: &str,
    order: u32,
    out: &mut Adapted<Printer<'_, HostRuntime>>,
) -> Result<u8, AllocError>
    requires { IsOrder order }
{
    let (kind, taken) = match source_of(program, file, false)? {
        Source::Still(mut device) => take_greater(program, &mut device, order),
        Source::Taken(mut heap) => take_greater(program, &mut heap, order),
        Source::Busy => return Ok(tell_busy(out)),
    };
    match taken {
        Ok(taken) => put(program, new, Made::Grown, &taken, out),
        Err(why) => Ok(tell_ungrown(out, kind, why)),
    }
}

/// Does `script`, `check` or `metrics`. Words that are no command make no call of a device.
fn shown(
    program: &Program<'_>,
    words: &Names,
    out: &mut Adapted<Printer<'_, HostRuntime>>,
) -> Result<u8, AllocError> {
    let source = match dump_file(words) {
        Some(file) => source_of(program, file.as_str(), region_of(words).is_some())?,
        None => Source::Still(FileDevice::missing()),
    };
    match source {
        Source::Still(mut device) => Ok(show(program, words, &mut device, out)),
        Source::Taken(mut heap) => Ok(show(program, words, &mut heap, out)),
        Source::Busy => Ok(tell_busy(out)),
    }
}

/// The heap that the words name, if they are a command.
fn heap_file(words: &Names) -> Option<&Name> {
    if let Some((file, _)) = copy_files(words) {
        return Some(file);
    }
    if let Some((file, _, _)) = growth_of(words) {
        return Some(file);
    }
    dump_file(words)
}

fn main(rt: HostRuntime) -> ExitCode {
    let mut program = Program::new(&rt, "romulus_dump");
    let called = program.begin().and_then(|words| {
        if let Some(file) = heap_file(&words) {
            program.spare(file.as_str());
        }
        let mut out = program.output();
        if let Some((file, new)) = copy_files(&words) {
            return copied(&program, file.as_str(), new.as_str(), &mut out);
        }
        if let Some((file, new, order)) = growth_of(&words) {
            return grown(&program, file.as_str(), new.as_str(), order, &mut out);
        }
        shown(&program, &words, &mut out)
    });
    program.end(USAGE, called)
}
