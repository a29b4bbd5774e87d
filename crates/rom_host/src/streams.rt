//! The standard streams, the words of the command line, and the scripts that they name.
ghost use Rattle.std.specs.Prelude.{◌≡◌, length, IfOk};

use crate::cause::Cause;
use crate::program::Program;
use rom_text::{Adapted, Names};
use std::alloc::AllocError;
use std::fs::File;
use std::io::{Cursor, ErrorKind, Read};
use std::os::fd::{AsRawFd, IntoRawFd};
use std::{env, io};

/// How many bytes of a script are read before the heap is opened: all, and one more, of one that can be run.
const AHEAD: u64 = (1 << 20) + 1;

/// Sees to it that the descriptors 0 to 2 are taken. One that was closed when the program began
/// would be given to the next file that is opened, and what is printed would go into that file. So
/// `/dev/null` gets it, to the program's end, and for reading alone: a write there still fails.
pub fn hold_streams(rt: &HostRuntime) -> io::Result<()> {
    for _ in 0..3 {
        let null = File::open(rt, "/dev/null")?;
        if null.as_raw_fd() > 2 {
            // The lowest free number is given, so the three are taken.
            return Ok(());
        }
        let _held = null.into_raw_fd();
    }
    Ok(())
}

/// The words after the program's name. Words that are not text are no words, and so no command: standard error
/// tells so.
pub fn words_of(program: &Program<'_>) -> Result<Names, AllocError> {
    let mut words = Names::new(program.rt.alloc());
    match env::args(program.rt) {
        Ok(args) => {
            for word in args.skip(1) {
                words.push(program.rt.alloc(), word.as_str())?;
            }
        }
        Err(error) if error.kind() == ErrorKind::OutOfMemory => return Err(AllocError),
        Err(_) => program.complain("a word of the command line is not UTF-8"),
    }
    Ok(words)
}

/// When a program reads what its words name.
#[derive(Clone, Copy)]
pub enum Reading {
    /// Before it opens the heap, so that one that waits for a script keeps nobody off.
    First,
    /// While it has the heap, as it comes.
    Beside,
}

/// The bytes of a file: those that were read first, and then those that the file has still.
#[derive(Drop)]
pub struct Script {
    first: Cursor<Vec<u8>>,
    rest: Option<File>,
}

impl Read for Script {
    fn read(&mut self, buf: &mut [u8]) -> io::Result<usize> {
        let count = self.first.read(buf)?;
        match &mut self.rest {
            Some(file) if count == 0 => file.read(buf),
            _ => Ok(count),
        }
    }
}

/// A file of which nothing, or all that a script may have, is read now.
fn open_script(program: &Program<'_>, name: &str, reading: Reading) -> io::Result<Script> {
    let file = File::open(program.rt, name)?;
    let metadata = file.metadata()?;
    if metadata.is_dir() {
        return Err(ErrorKind::IsADirectory.into());
    }
    let mut bytes = Vec::new(program.rt.alloc());
    if let Reading::First = reading {
        // The bytes of a file that tells how many it has do not move as they come. The one more is for the read
        // that finds the end.
        bytes.reserve_exact((metadata.len().min(AHEAD) + 1) as usize)?;
        (&file).take(AHEAD).read_to_end(&mut bytes)?;
        if (bytes.len() as u64) < AHEAD {
            return Ok(Script {
                first: Cursor::new(bytes),
                rest: None,
            });
        }
    }
    Ok(Script {
        first: Cursor::new(bytes),
        rest: Some(file),
    })
}

/// A script, or none where it cannot be opened or read, and then why on standard error.
fn script_of(
    program: &Program<'_>,
    name: &str,
    reading: Reading,
) -> Result<Option<Script>, AllocError> {
    match open_script(program, name, reading) {
        Ok(script) => Ok(Some(script)),
        Err(error) if error.kind() == ErrorKind::OutOfMemory => Err(AllocError),
        Err(error) => {
            program.tell(name, &Cause::from(error));
            Ok(None)
        }
    }
}

/// The scripts that are named, in their order. One that cannot be opened or read is a source whose every read
/// fails, and so are those behind it, which are not opened.
pub fn sources_of(
    program: &Program<'_>,
    names: &Names,
    reading: Reading,
) -> Result<Vec<Adapted<Script>>, AllocError>
    ensures { IfOk result (λ sources. length sources.items ≡ length names.now) }
{
    let mut sources = Vec::new(program.rt.alloc());
    let mut failed = false;
    for i in 0..names.len() {
        let script = match names.at(i) {
            Some(_) if failed => None,
            Some(name) => script_of(program, name, reading)?,
            None => unreachable!(),
        };
        failed = script.is_none();
        sources.push(adapted(script))?;
    }
    Ok(sources)
}

/// A source of these bytes, or one whose every read fails.
fn adapted(script: Option<Script>) -> Adapted<Script> {
    match script {
        Some(script) => Adapted::new(script),
        None => Adapted::missing(),
    }
}
