//! A file that frames are shipped to.
use crate::cause::Cause;
use crate::peer::{open_to_append, or_none, write_once};
use crate::program::Program;
use rom_text::{Adapted, Name};
use std::fs::{File, Metadata, TryLockError};
use std::io::{ErrorKind, Write};
use std::os::unix::fs::MetadataExt;
use std::{fs, io};

/// The mode of a stream that is made: it has each update of a heap, whose file is its owner's alone too.
const OWNER_ALONE: u32 = 0o600;

/// A file to which all that is shipped goes at once. Standard error tells of a write that failed.
#[derive(Drop)]
pub struct HostSink<'a, 'n> {
    program: Program<'a>,
    name: &'n str,
    file: File,
}

impl Write for HostSink<'_, '_> {
    fn write(&mut self, piece: &[u8]) -> io::Result<usize> {
        let written = match write_once(&mut self.file, piece) {
            Ok(0) => Err(ErrorKind::WriteZero.into()),
            written => written,
        };
        if let Err(error) = written {
            self.program.tell(self.name, &Cause::of_rest(error));
        }
        written
    }

    fn flush(&mut self) -> io::Result<()> {
        Ok(())
    }
}

/// Whether this program or one of these callers talks through this file: the program says at its output why there is no
/// heap, and tells what fails at standard error. A device, as a terminal is, may be theirs too.
fn is_spoken_through(program: &Program<'_>, callers: &[Name], found: &Metadata) -> bool {
    let at = |name: &str| program.is_at(name, found);
    let own = at("/dev/stdout") || at("/dev/stderr");
    let talks = if callers.is_empty() {
        at("/dev/stdin")
    } else {
        callers.iter().any(|name| at(name.as_str()))
    };
    (own || talks) && found.rdev() == 0
}

/// That nobody talks through this file, and that no other stream stands in it.
fn apart(program: &Program<'_>, callers: &[Name], found: &Metadata) -> Result<(), Cause> {
    if is_spoken_through(program, callers, found) {
        return Err(Cause::spoken_through());
    }
    if found.is_file() && found.len() > 0 {
        return Err(Cause::begun());
    }
    Ok(())
}

/// Locks a file that is to be a stream, as long as it is open: of two programs that find it empty one gets it. A
/// pipe or a device is not locked.
fn lock_stream(file: &File) -> Result<(), Cause> {
    if !file.metadata()?.is_file() {
        return Ok(());
    }
    match file.try_lock() {
        Err(TryLockError::WouldBlock) => Err(Cause::begun()),
        locked => Ok(locked.map_err(io::Error::from)?),
    }
}

/// It is looked at before it is opened too: a named pipe is waited for until somebody reads there.
fn open_sink(program: &Program<'_>, name: &str, callers: &[Name]) -> Result<File, Cause> {
    if let Ok(found) = fs::metadata(program.rt, name) {
        apart(program, callers, &found)?;
    }
    let file = open_to_append(program, name, OWNER_ALONE)?;
    lock_stream(&file)?;
    apart(program, callers, &file.metadata()?)?;
    Ok(file)
}

/// The sink at this file, which is made for its owner alone if need be; or none, and then why on standard error:
/// where it cannot be opened, has bytes already, is another program's stream or the heap's own file, or where this
/// program or one of these callers talks through it. `spare` has looked at the heap's file before. A named pipe is
/// waited for until somebody reads there.
pub fn sink_of<'a, 'n>(
    program: &Program<'a>,
    name: &'n Name,
    callers: &[Name],
) -> Option<Adapted<HostSink<'a, 'n>>> {
    let name = name.as_str();
    let file = or_none(program, name, open_sink(program, name, callers))?;
    Some(Adapted::new(HostSink {
        program: *program,
        name,
        file,
    }))
}
