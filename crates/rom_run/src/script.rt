//! Scripts that are read before anything is done.
ghost use Rattle.std.specs.Prelude.{◌≡◌, ◌≢◌, ◌⊎◌, ◌≤◌, All, length, map, IfErr, IfOk, IfSome, OnOk, Err};
ghost use Rattle.rom_text.specs.declared.read.TheConstants.{MAX_LINES};
ghost use Rattle.rom_text.specs.Limits.{EndsReading, FitsScript};
ghost use Rattle.rom_model.specs.History.{LAST_COUNT};
ghost use Rattle.rom_text.specs.Runs.{AreAskedOnce, AreAtEnd, AreNotTooLong, IsLineWrittenOrCutShort};
ghost use Rattle.rom_text.specs.Lines.{AreScripts, AreStepsOf};
ghost use Rattle.rom_text.specs.Streams.{StopsWriting};
ghost use Rattle.rom_run.specs.Reading.{AreNotRun, AreUnread, unread_line, unread_status};

use crate::status::Status;
use crate::telling::tell;
use itoa::Buffer;
use rom_lines::Script;
use rom_model::Object;
use rom_text::{Lines, ReadRefused, Sink, Source, read_script};
use std::alloc::Global;

/// Why no script is run.
pub enum Unread {
    /// The script of this number, counted from 1, is the first that can't be read.
    Script(u64, ReadRefused),
    /// There was no memory for a list of them.
    OutOfMemory,
}

/// Reads the scripts in order, up to the first that can't be read.
fn read_all<O: Object, L: Lines<O>, S: Source>(
    alloc: Global,
    sources: &mut [S],
) -> Result<Vec<Script<O>>, Unread>
    ensures many { length sources.new ≡ length sources.old }
    ensures lines { IfOk result (λ read.
        AreScripts L.Reads S.shown sources.old (map (λ v. v.items) read.items)) }
    ensures few { IfOk result (λ read. All (λ v. length v.items ≤ LAST_COUNT) read.items) }
    ensures each { IfOk result (λ read. length read.items ≡ length sources.old) }
    ensures fits { OnOk result (AreNotTooLong S.shown sources.old) }
    ensures to_their_ends { OnOk result (AreAtEnd S.shown sources.new) }
    ensures unread { IfErr result (λ unread. AreUnread S.shown unread sources.old sources.new) }
    ensures unfailed { IfErr result (λ unread. unread_status unread ≢ Status.ScriptFailed →
        map S.shown.faults sources.new ≡ map S.shown.faults sources.old) }
    ensures unfailed_read { OnOk result
        (map S.shown.faults sources.new ≡ map S.shown.faults sources.old) }
    ensures asked_once { AreAskedOnce S.shown sources.old sources.new }
{
    let Ok(mut scripts) = Vec::with_capacity(alloc, sources.len()) else {
        return Err(Unread::OutOfMemory);
    };
    for i in 0..sources.len() {
        match read_script::<O, L, S>(alloc, &mut sources[i]) {
            Ok(lines) => scripts.push_reserved(lines),
            Err(why) => return Err(Unread::Script(i as u64 + 1, why)),
        }
    }
    Ok(scripts)
}

/// Prints why no script is run, and gives the status.
fn tell_unread<O: Sink>(out: &mut O, unread: Unread) -> Status
    ensures status { result ≡ unread_status unread }
    ensures told { IsLineWrittenOrCutShort O.shown out.old out.new (unread_line unread) }
    ensures rest { O.shown.rest out.new ≡ O.shown.rest out.old }
{
    match unread {
        Unread::Script(number, ReadRefused::Failed) => {
            tell(out, &["script ", Buffer::new().format(number), " failed"]);
            Status::ScriptFailed
        }
        Unread::Script(number, ReadRefused::TooLong) => {
            tell(out, &["script ", Buffer::new().format(number), " too long"]);
            Status::ScriptTooLong
        }
        Unread::Script(_, ReadRefused::OutOfMemory) | Unread::OutOfMemory => {
            tell(out, &["no memory"]);
            Status::NoMemory
        }
    }
}

/// Reads the scripts in order. An `Err` is the status where one can't be read; the line of the
/// first such is printed then.
pub fn read_scripts<O: Object, L: Lines<O>, S: Source, K: Sink>(
    alloc: Global,
    sources: &mut [S],
    out: &mut K,
) -> Result<Vec<Script<O>>, Status>
    ensures many { length sources.new ≡ length sources.old }
    ensures lines { IfOk result (λ read.
        AreScripts L.Reads S.shown sources.old (map (λ v. v.items) read.items)) }
    ensures few { IfOk result (λ read. All (λ v. length v.items ≤ LAST_COUNT) read.items) }
    ensures each { IfOk result (λ read. length read.items ≡ length sources.old) }
    ensures unprinted { OnOk result (out.new ≡ out.old) }
    ensures fits { OnOk result (AreNotTooLong S.shown sources.old) }
    ensures to_their_ends { OnOk result (AreAtEnd S.shown sources.new) }
    ensures statuses { IfErr result (λ status. (status ≡ Status.ScriptFailed)
        ⊎ (status ≡ Status.ScriptTooLong) ⊎ (status ≡ Status.NoMemory)) }
    ensures unread { IfErr result (λ status.
        AreNotRun S.shown K.shown status sources.old sources.new out.old out.new) }
    ensures unfailed { result ≢ Err Status.ScriptFailed →
        map S.shown.faults sources.new ≡ map S.shown.faults sources.old }
    ensures asked_once { AreAskedOnce S.shown sources.old sources.new }
    ensures writing { StopsWriting K.shown out.old out.new }
    ensures rest { K.shown.rest out.new ≡ K.shown.rest out.old }
{
    match read_all::<O, L, S>(alloc, sources) {
        Ok(scripts) => Ok(scripts),
        Err(unread) => Err(tell_unread(out, unread)),
    }
}
