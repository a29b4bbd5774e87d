//! The program that opens files by name, and what it tells people on standard error.
use crate::cause::Cause;
use crate::streams::{hold_streams, words_of};
use rom_text::{Adapted, Names};
use std::alloc::{AllocError, Global};
use std::fs::Metadata;
use std::io::{ErrorKind, Printer};
use std::os::unix::fs::MetadataExt;
use std::process::ExitCode;
use std::time::Duration;
use std::{fs, io, thread};

/// How often a lock that another program has is tried again, 50 milliseconds apart: for five seconds.
pub const NAPS: u64 = 100;

/// The status of words that are no command, of each `romulus`.
const NOT_A_COMMAND: u8 = 2;

/// The status where there is no memory.
const NO_MEMORY: u8 = 6;

/// A program at its edge: the runtime, the name that stands before each cause, and how long it waits for a
/// lock. What it tells on standard error is for people; no contract speaks of it, and nothing rests on it.
#[derive(Clone, Copy)]
pub struct Program<'a> {
    pub(crate) rt: &'a HostRuntime,
    name: &'static str,
    pub(crate) naps: u64,
    // Whether standard output, and standard error, are the heap's own file.
    prints_there: bool,
    tells_there: bool,
    // Why the heap's file is not to be opened at all.
    refusal: Option<Cause>,
    // The device and the inode of the heap's own file.
    heap: Option<(u64, u64)>,
}

impl<'a> Program<'a> {
    /// The program of this name. It waits for a lock for five seconds.
    pub fn new(rt: &'a HostRuntime, name: &'static str) -> Program<'a> {
        Program {
            rt,
            name,
            naps: NAPS,
            prints_there: false,
            tells_there: false,
            refusal: None,
            heap: None,
        }
    }

    /// The same, but a lock that another program has is not waited for.
    pub fn hasty(self) -> Program<'a> {
        Program { naps: 0, ..self }
    }

    /// Says a line on standard error, unless that is the heap's own file. Where it cannot be written, it is
    /// lost.
    pub fn say(&self, line: &str) {
        if !self.tells_there {
            let _ = eprintln!(self.rt; "{line}");
        }
    }

    /// Sleeps for as long as it does between two tries for a lock.
    pub fn nap(&self) {
        thread::sleep(self.rt, Duration::from_millis(50));
    }

    /// Says on standard error that another program has locked this heap.
    pub fn tell_locked(&self, name: &str) {
        self.tell(name, &Cause::locked());
    }

    /// Says on standard error what helps a heap of this name that may not follow its primary's stream.
    pub fn tell_copy(&self, name: &str) {
        if !self.tells_there {
            let (program, shown) = (self.name, name.escape_debug());
            let _ = eprintln!(self.rt;
                "{program}: {shown}: make it a copy of the primary: romulus_dump copy PRIMARY NEW && mv NEW {shown}"
            );
        }
    }

    /// Where it takes memory.
    pub fn alloc(&self) -> Global {
        self.rt.alloc()
    }

    // Says on standard error what kind of heap a file holds, and which program reads it.
    pub(crate) fn tell_reader(&self, name: &str, kind: &str, reader: &str) {
        if !self.tells_there {
            let (program, shown) = (self.name, name.escape_debug());
            let _ = eprintln!(self.rt; "{program}: {shown}: a heap of {kind}, for {reader}");
        }
    }

    // Says on standard error what is wrong, behind the program's name.
    pub(crate) fn complain(&self, what: &str) {
        if !self.tells_there {
            let _ = eprintln!(self.rt; "{}: {what}", self.name);
        }
    }

    /// Says on standard error why this file cannot be had, as `romulus: heap: no such file`. It is one line
    /// whatever the name is.
    pub(crate) fn tell(&self, name: &str, cause: &Cause) {
        if !self.tells_there {
            let (program, shown) = (self.name, name.escape_debug());
            let _ = eprintln!(self.rt; "{program}: {shown}: {cause}");
        }
    }

    /// Looks whether standard output or standard error is this file, by which it is called a heap's. What is
    /// written there would stand in the heap: so nothing is written from then on, and the file is not opened.
    /// It is not opened either where the system cannot tell what stands at the name.
    pub fn spare(&mut self, name: &str) {
        match fs::metadata(self.rt, name) {
            Ok(heap) if heap.is_file() => {
                self.heap = Some((heap.dev(), heap.ino()));
                self.prints_there = self.is_at("/dev/stdout", &heap);
                self.tells_there = self.is_at("/dev/stderr", &heap);
                if self.prints_there || self.tells_there {
                    self.refusal = Some(Cause::own_output());
                }
            }
            Err(error) if error.kind() != ErrorKind::NotFound => {
                self.refusal = Some(Cause::from(error));
            }
            _ => {}
        }
    }

    // Whether the file of this name is that one.
    pub(crate) fn is_at(&self, name: &str, there: &Metadata) -> bool {
        match fs::metadata(self.rt, name) {
            Ok(found) => found.dev() == there.dev() && found.ino() == there.ino(),
            Err(_) => false,
        }
    }

    // Whether the heap's file may be opened, or else why not.
    pub(crate) fn may_open(&self) -> Result<(), Cause> {
        match self.refusal {
            Some(cause) => Err(cause),
            None => Ok(()),
        }
    }

    // Whether lines or replies may pass through this file: it is no folder, and not the heap's own file, which
    // replies would overwrite.
    pub(crate) fn may_pass(&self, found: &Metadata) -> Result<(), Cause> {
        if found.is_dir() {
            return Err(io::Error::from(ErrorKind::IsADirectory).into());
        }
        match self.heap {
            Some((dev, ino)) if dev == found.dev() && ino == found.ino() => Err(Cause::own_heap()),
            _ => Ok(()),
        }
    }

    /// Standard output, or a sink whose every write fails where that is the heap's own file.
    pub fn output(&self) -> Adapted<Printer<'a, HostRuntime>> {
        if self.prints_there {
            return Adapted::missing();
        }
        Adapted::new(io::writer(self.rt))
    }

    /// Begins: holds the standard streams, and gives the words of the command line.
    pub fn begin(&self) -> Result<Names, AllocError> {
        if hold_streams(self.rt).is_err() {
            self.complain("/dev/null cannot be opened");
            return Err(AllocError);
        }
        words_of(self)
    }

    /// Ends with the status that the program's one call gave, and tells the usage where that says that the words
    /// are no command. `AllocError` is want of memory before the call: nothing has been done, and nothing can be.
    pub fn end(&self, usage: &str, called: Result<u8, AllocError>) -> ExitCode {
        let Ok(status) = called else {
            if !self.prints_there {
                let _ = println!(self.rt; "no memory");
            }
            return ExitCode::from(NO_MEMORY);
        };
        if status == NOT_A_COMMAND {
            self.say(usage);
        }
        ExitCode::from(status)
    }
}
