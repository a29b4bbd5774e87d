//! The device that a command works on.
use crate::cause::Cause;
use crate::program::Program;
use rom_device::{FileDevice, Ram};
use rom_header::MAGIC;
use rom_steady::WatchedFile;
use rom_text::DeviceWant;
use std::alloc::AllocError;
use std::fs::{File, OpenOptions, TryLockError};
use std::io::ErrorKind;
use std::os::unix::fs::{FileExt, OpenOptionsExt};
use std::{fs, io};

/// A device that the words of a command line name.
#[derive(Drop)]
pub enum HostDevice {
    /// A file, locked for this program alone. One that could not be opened or lengthened is a device
    /// whose every call fails.
    File(FileDevice),
    /// Words in memory.
    Memory(Ram),
}

/// The same on a device of either kind: `on_device!(device, |device| len_of(&device))`.
#[macro_export]
macro_rules! on_device {
    ($device:expr, |$name:ident| $done:expr) => {
        match $device {
            $crate::HostDevice::File($name) => $done,
            $crate::HostDevice::Memory($name) => $done,
        }
    };
}

/// Who else may have a file open.
#[derive(Clone, Copy)]
enum Beside {
    /// Nobody: two programs that write one heap would each undo what the other did.
    Nobody,
    /// Those who read it too.
    Readers,
}

/// What becomes of the bytes of a file that holds no heap, where no word behind the wanted ones is among them.
#[derive(Clone, Copy, PartialEq)]
enum NoHeap {
    /// They stay.
    Kept,
    /// They go, since a new heap is to take their place.
    Dropped,
}

fn try_lock(file: &File, beside: Beside) -> Result<(), TryLockError> {
    match beside {
        Beside::Nobody => file.try_lock(),
        Beside::Readers => file.try_lock_shared(),
    }
}

/// Locks a heap's file, and tries again for some seconds while another program has it. That the file takes no
/// lock is an error too. The lock goes with the file, so with the process at the latest, however that ends.
fn lock(program: &Program<'_>, file: &File, beside: Beside) -> Result<(), Cause> {
    for _ in 0..program.naps {
        match try_lock(file, beside) {
            Err(TryLockError::WouldBlock) => program.nap(),
            locked => return Ok(locked.map_err(io::Error::from)?),
        }
    }
    match try_lock(file, beside) {
        Err(TryLockError::WouldBlock) => Err(Cause::locked()),
        locked => Ok(locked.map_err(io::Error::from)?),
    }
}

/// Locks a heap's file for this program alone. While it was waited for, another one may have been put in its place: what
/// was written to the old one then nobody would find.
fn lock_alone(program: &Program<'_>, name: &str, file: &File) -> Result<(), Cause> {
    lock(program, file, Beside::Nobody)?;
    if program.is_at(name, &file.metadata()?) {
        Ok(())
    } else {
        Err(Cause::replaced())
    }
}

/// The words of a file that is there.
fn open_old(program: &Program<'_>, name: &str) -> Result<FileDevice, Cause> {
    program.may_open()?;
    let file = OpenOptions::new()
        .read(true)
        .write(true)
        .open(program.rt, name)?;
    lock_alone(program, name, &file)?;
    let bytes = file.metadata()?.len();
    Ok(FileDevice::new(file, bytes))
}

/// A file that is opened for reading alone, so that each write of it would fail. A folder can be opened so,
/// and has no words, whatever length the system tells of it; nor has anything else that is no file.
fn open_unlocked(program: &Program<'_>, name: &str) -> Result<File, Cause> {
    program.may_open()?;
    let file = File::open(program.rt, name)?;
    let metadata = file.metadata()?;
    if metadata.is_dir() {
        return Err(io::Error::from(ErrorKind::IsADirectory).into());
    }
    if !metadata.is_file() {
        return Err(Cause::no_file());
    }
    Ok(file)
}

/// A heap's file, looked at by who only reads it.
#[derive(Drop)]
pub enum Looked {
    /// Nobody writes it: it is locked against those who would, while others may read it too.
    Still(FileDevice),
    /// Another program has locked it to write. It is not locked here, and its words may change.
    InUse(WatchedFile),
}

/// Looks at a file, without waiting for a lock.
fn open_to_look(program: &Program<'_>, name: &str) -> Result<Looked, Cause> {
    let file = open_unlocked(program, name)?;
    let locked = try_lock(&file, Beside::Readers);
    // Asked for once it is locked: until then another program may have lengthened it.
    let bytes = file.metadata()?.len();
    match locked {
        Ok(()) => Ok(Looked::Still(FileDevice::new(file, bytes))),
        Err(TryLockError::WouldBlock) => Ok(Looked::InUse(WatchedFile::new(file, bytes))),
        Err(error) => Err(io::Error::from(error).into()),
    }
}

/// The folder in which a name stands.
fn folder_of(name: &str) -> &str {
    match name.rsplit_once('/') {
        None => ".",
        Some((folder, _)) => { if folder.is_empty() { "/" } else { folder } }
    }
}

/// Makes certain that a file is found by its name: a sync of the file promises what the file holds, and the name
/// stands in its folder. Of a name that is a link, that is the folder of the file to which it leads. A
/// folder that this user may not read, or whose system cannot sync it, is an error.
fn sync_folder(program: &Program<'_>, name: &str) -> io::Result<()> {
    if fs::symlink_metadata(program.rt, name)?.is_symlink() {
        let path = fs::canonicalize(program.rt, name)?;
        return File::open(program.rt, folder_of(path.as_str()))?.sync_all();
    }
    File::open(program.rt, folder_of(name))?.sync_all()
}

/// The first word of a file of so many bytes, with zeros behind those that it has.
fn first_word(file: &File, bytes: u64) -> io::Result<u64> {
    let mut word = [0; 8];
    let there = bytes.min(8) as usize;
    file.read_exact_at(&mut word[..there], 0)?;
    Ok(u64::from_le_bytes(word))
}

/// The words of a file that is made if need be, for its owner alone, and lengthened with zeros to so many. It
/// is never shortened, but where it holds no heap and its bytes are to go: then it is cut to none and begins
/// with new blocks of the disk, since a file system may forget what is written a second time to blocks whose
/// first writing failed. One that is longer keeps its blocks and all bytes behind the heap, and standard
/// error tells so. The name is certain before the file is cut or lengthened: so one that has its length
/// has its name.
fn open_made(
    program: &Program<'_>,
    name: &str,
    words: u64,
    no_heap: NoHeap,
) -> Result<FileDevice, Cause> {
    program.may_open()?;
    let file = OpenOptions::new()
        .read(true)
        .write(true)
        .create(true)
        .mode(0o600)
        .open(program.rt, name)?;
    lock_alone(program, name, &file)?;
    // Asked for once it is locked: until then another program may have lengthened it, or made a heap there.
    let bytes = file.metadata()?.len();
    let wanted = words.saturating_mul(8);
    let is_heap = first_word(&file, bytes)? == MAGIC;
    if bytes < wanted || !is_heap {
        sync_folder(program, name).map_err(Cause::of_folder)?;
    }
    let anew = no_heap == NoHeap::Dropped && !is_heap && 0 < bytes;
    if anew && wanted < bytes {
        program.tell(name, &Cause::longer());
    } else if anew {
        file.set_len(0)?;
        file.set_len(wanted)?;
    } else if bytes < wanted {
        file.set_len(wanted)?;
    }
    Ok(FileDevice::new(file, bytes.max(wanted)))
}

/// The words of a file that is made for its owner alone, with a name that was free. Where another program has put
/// bytes there meanwhile, it is an error.
fn open_new(program: &Program<'_>, name: &str, words: u64) -> Result<FileDevice, Cause> {
    let file = OpenOptions::new()
        .read(true)
        .write(true)
        .create_new(true)
        .mode(0o600)
        .open(program.rt, name)?;
    lock_alone(program, name, &file)?;
    // Until it was locked another program may have opened it, and made a heap there.
    if file.metadata()?.len() != 0 {
        return Err(io::Error::from(ErrorKind::AlreadyExists).into());
    }
    sync_folder(program, name).map_err(Cause::of_folder)?;
    let bytes = words.saturating_mul(8);
    file.set_len(bytes)?;
    Ok(FileDevice::new(file, bytes))
}

/// These words of a file, or a device that fails where there are none, and then why on standard error.
fn or_missing(
    program: &Program<'_>,
    name: &str,
    opened: Result<FileDevice, Cause>,
) -> Result<FileDevice, AllocError> {
    match opened {
        Ok(device) => Ok(device),
        Err(cause) if cause.error.kind() == ErrorKind::OutOfMemory => Err(AllocError),
        Err(cause) => {
            program.tell(name, &cause);
            Ok(FileDevice::missing())
        }
    }
}

/// A heap's file for who only reads it: locked beside other readers where nobody writes it, and else not locked.
/// Where there is no file it is a device that fails, and standard error tells why. `AllocError` is told where the
/// system has no memory to open it.
pub fn look_at(program: &Program<'_>, name: &str) -> Result<Looked, AllocError> {
    match open_to_look(program, name) {
        Ok(looked) => Ok(looked),
        Err(cause) => Ok(Looked::Still(or_missing(program, name, Err(cause))?)),
    }
}

/// A new file of so many words, each 0, for its owner alone, locked for this program alone; its name is on the
/// disk. It fails where the name is taken or the file cannot be made, and standard error tells why. A copy that was
/// stopped leaves such a file, which is to be removed.
pub fn new_file_of(
    program: &Program<'_>,
    name: &str,
    words: u64,
) -> Result<FileDevice, AllocError> {
    or_missing(program, name, open_new(program, name, words))
}

/// A device over a heap's file, locked for this program alone. It fails where there is no file or another program
/// has locked it, and standard error tells why. `AllocError` is told where the system has no memory to open it.
pub fn heap_of(program: &Program<'_>, name: &str) -> Result<FileDevice, AllocError> {
    or_missing(program, name, open_old(program, name))
}

/// The words of a file, locked for this program alone, which is made if need be, for its owner alone, and
/// lengthened with zeros to so many; then its name is on the disk too. No byte that stands there is lost. They
/// fail where it cannot be opened or lengthened, or its folder cannot be synced, or another program has locked it,
/// and standard error tells why. `AllocError` is told where the system has no memory to open it.
pub fn file_of(program: &Program<'_>, name: &str, words: u64) -> Result<FileDevice, AllocError> {
    or_missing(program, name, open_made(program, name, words, NoHeap::Kept))
}

/// So many words in memory, each 0.
fn memory_of(program: &Program<'_>, words: u64) -> Result<HostDevice, AllocError> {
    Ok(HostDevice::Memory(Ram::zeroed(program.rt.alloc(), words)?))
}

/// The device that is asked for. Words that are no command have none, and get an empty one. A file that is to be
/// made is that of `format`: so what stands in one without a heap goes, unless it is longer than the heap.
pub fn device_of(program: &Program<'_>, wanted: &DeviceWant) -> Result<HostDevice, AllocError> {
    let (name, opened) = match wanted {
        DeviceWant::Nothing => return memory_of(program, 0),
        DeviceWant::Fresh(words) => return memory_of(program, *words),
        DeviceWant::Old(name) => (name, open_old(program, name.as_str())),
        DeviceWant::Made(name, words) => {
            let made = open_made(program, name.as_str(), *words, NoHeap::Dropped);
            (name, made)
        }
    };
    Ok(HostDevice::File(or_missing(program, name.as_str(), opened)?))
}
