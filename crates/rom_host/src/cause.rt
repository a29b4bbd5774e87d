//! Why a file cannot be had, in words.
use std::fmt::{Display, Formatter};
use std::io::ErrorKind;
use std::{fmt, io};

/// What the system answered where a file was to be opened, locked, lengthened, read or written, and of what it
/// speaks. It is printed in words of its own where people meet it often, and else in the system's.
#[derive(Clone, Copy)]
pub(crate) struct Cause {
    // Nothing where it speaks of the file itself, else what stands before the words.
    of: &'static str,
    pub(crate) error: io::Error,
}

impl Cause {
    /// This of the folder in which the file's name stands.
    pub(crate) fn of_folder(error: io::Error) -> Cause {
        Cause {
            of: "its folder: ",
            error,
        }
    }

    /// This of a write to a file that is given up.
    pub(crate) fn of_rest(error: io::Error) -> Cause {
        Cause {
            of: "nothing more is shipped: ",
            error,
        }
    }

    /// That the program would print into the file that it is to open.
    pub(crate) fn own_output() -> Cause {
        let words = "is this program's own standard output or standard error";
        Cause::from(io::Error::new(ErrorKind::InvalidInput, words))
    }

    /// That a caller would talk through the heap's own file.
    pub(crate) fn own_heap() -> Cause {
        Cause::from(io::Error::new(ErrorKind::InvalidInput, "is the heap's own file"))
    }

    /// That a caller would read its own replies as lines.
    pub(crate) fn own_input() -> Cause {
        Cause::from(io::Error::new(ErrorKind::InvalidInput, "is its own input"))
    }

    /// That frames would stand among lines, replies or causes.
    pub(crate) fn spoken_through() -> Cause {
        let words = "is an input or an output of this program";
        Cause::from(io::Error::new(ErrorKind::InvalidInput, words))
    }

    /// That frames would stand behind those of another stream, of which the last may be torn.
    pub(crate) fn begun() -> Cause {
        let words = "has bytes already, and a stream begins a file";
        Cause::from(io::Error::new(ErrorKind::InvalidInput, words))
    }

    /// That a file without a heap keeps its blocks of the disk, since it has bytes behind the new heap. It is no
    /// error.
    pub(crate) fn longer() -> Cause {
        let words = "longer than this heap, so not begun anew: remove it if a format of it failed";
        Cause::from(io::Error::new(ErrorKind::InvalidInput, words))
    }

    /// That another program has locked the file.
    pub(crate) fn locked() -> Cause {
        Cause::from(io::Error::new(ErrorKind::WouldBlock, "locked by another program"))
    }

    /// That another file has taken the place of the one that was opened.
    pub(crate) fn replaced() -> Cause {
        let words = "was replaced by another file while it was waited for";
        Cause::from(io::Error::new(ErrorKind::WouldBlock, words))
    }

    /// That what stands at the name is neither a file nor a folder.
    pub(crate) fn no_file() -> Cause {
        Cause::from(io::Error::new(ErrorKind::InvalidInput, "is no file"))
    }
}

impl From<io::Error> for Cause {
    fn from(error: io::Error) -> Cause {
        Cause { of: "", error }
    }
}

impl Display for Cause {
    fn fmt<W: fmt::Write>(&self, f: &mut Formatter<W>) -> fmt::Result {
        f.write_str(self.of)?;
        match self.error.kind() {
            ErrorKind::NotFound => f.write_str("no such file"),
            ErrorKind::PermissionDenied => f.write_str("permission denied"),
            ErrorKind::IsADirectory => f.write_str("is a folder"),
            _ => Display::fmt(&self.error, f),
        }
    }
}
