//! What `main` opens by name: a heap's file, for itself alone, and the scripts in their order.

use crate::devices::{Step, takes};
use crate::files::{path, zeroed};
use rom_device::{Device, FileDevice};
use rom_header::MAGIC;
use rom_host::{
    HostDevice, Looked, Program, Reading, Script, device_of, file_of, look_at, sink_of, sources_of,
};
use rom_text::{Adapted, DeviceWant, Name, Names, Sink, Source};
use std::fs;
use std::os::unix::fs::{MetadataExt, symlink};
use std::path::PathBuf;
use std::test::Fail;

/// Calls of a device over a file that could not be opened. It has 8 words.
const MISSING: [Step; 4] = [
    Step::Read(0, None),
    Step::Write(0, 1, false),
    Step::Sync(false),
    Step::Faults(3),
];

/// How a file is opened.
#[derive(Clone, Copy)]
enum How {
    /// As a command line wants one that is there.
    Old,
    /// As `format` wants one that is made, with so many words.
    Made(u64),
    /// To be made, with so many words, of which none that stands there is lost.
    Of(u64),
    /// For reading alone.
    Read,
}

/// A file that is opened, the words that its device has then, calls of it, and the file's bytes once it is
/// let go, where there is a file.
type Row = (How, u64, &'static [Step], Option<u64>);

/// A device over the file. A lock that somebody else has is not waited for.
fn opened(rt: &HostRuntime, path: &PathBuf, how: How) -> Result<FileDevice, Fail> {
    let program = Program::new(rt, "rom_units").hasty();
    let name = Name::of(rt.alloc(), path.as_str())?;
    let want = match how {
        How::Of(words) => return Ok(file_of(&program, path.as_str(), words)?),
        How::Read => {
            return match look_at(&program, path.as_str())? {
                Looked::Still(device) => Ok(device),
                Looked::InUse(_) => Ok(FileDevice::missing()),
            };
        }
        How::Old => DeviceWant::Old(name),
        How::Made(words) => DeviceWant::Made(name, words),
    };
    match device_of(&program, &want)? {
        HostDevice::File(device) => Ok(device),
        HostDevice::Memory(_) => Err("words in memory".into()),
    }
}

/// Opens the file in each of these ways, one after another. It is an error where that goes otherwise.
fn opens(rt: &HostRuntime, path: &PathBuf, rows: &[Row]) -> Result<(), Fail> {
    for (index, (how, len, steps, bytes)) in rows.iter().enumerate() {
        {
            let mut device = opened(rt, path, *how)?;
            if device.len() != *len {
                return Err(("another length at row", index).into());
            }
            takes(rt.alloc(), &mut device, steps)?;
        }
        let there = match fs::metadata(rt, path.as_path()) {
            Ok(metadata) => Some(metadata.len()),
            Err(_) => None,
        };
        if there != *bytes {
            return Err(("other bytes at row", index).into());
        }
    }
    Ok(())
}

/// What stands there stays. It is not shortened, and lengthened by words that are 0.
static KEPT: [Row; 4] = [
    (
        How::Made(10),
        10,
        &[
            Step::Read(9, Some(0)),
            Step::Write(9, 7, true),
            Step::Faults(0),
        ],
        Some(80),
    ),
    (How::Made(4), 10, &[Step::Read(9, Some(7))], Some(80)),
    (
        How::Of(12),
        12,
        &[Step::Read(9, Some(7)), Step::Read(11, Some(0))],
        Some(96),
    ),
    (How::Old, 12, &[Step::Read(9, Some(7))], Some(96)),
];

/// A file without a heap is begun anew by `format` alone, and only where all its words are among the wanted ones.
static ANEW: [Row; 6] = [
    (
        How::Of(10),
        10,
        &[
            Step::Write(0, 5, true),
            Step::Write(9, 7, true),
            Step::Sync(true),
        ],
        Some(80),
    ),
    (
        How::Of(10),
        10,
        &[Step::Read(0, Some(5)), Step::Read(9, Some(7))],
        Some(80),
    ),
    (
        How::Made(9),
        10,
        &[Step::Read(0, Some(5)), Step::Read(9, Some(7))],
        Some(80),
    ),
    (
        How::Made(10),
        10,
        &[
            Step::Read(0, Some(0)),
            Step::Read(9, Some(0)),
            Step::Write(9, 7, true),
        ],
        Some(80),
    ),
    (How::Of(10), 10, &[Step::Read(9, Some(7))], Some(80)),
    (
        How::Made(12),
        12,
        &[Step::Read(9, Some(0)), Step::Read(11, Some(0))],
        Some(96),
    ),
];

/// A heap is never begun anew.
static HEAP: [Row; 4] = [
    (
        How::Of(10),
        10,
        &[Step::Write(0, MAGIC, true), Step::Write(9, 7, true)],
        Some(80),
    ),
    (How::Made(10), 10, &[Step::Read(9, Some(7))], Some(80)),
    (
        How::Made(12),
        12,
        &[Step::Read(0, Some(MAGIC)), Step::Read(9, Some(7))],
        Some(96),
    ),
    (How::Made(4), 12, &[Step::Read(9, Some(7))], Some(96)),
];

/// Of a file of five bytes, `hello`.
static SHORT: [Row; 3] = [
    (How::Old, 0, &[], Some(5)),
    (
        How::Of(2),
        2,
        &[Step::Read(0, Some(0x6f_6c6c_6568)), Step::Read(1, Some(0))],
        Some(16),
    ),
    (
        How::Made(2),
        2,
        &[Step::Read(0, Some(0)), Step::Read(1, Some(0))],
        Some(16),
    ),
];

/// Beside one that has the file to write.
static LOCKED: [Row; 3] = [
    (How::Old, 8, &MISSING, Some(80)),
    (How::Made(20), 8, &MISSING, Some(80)),
    (How::Read, 8, &MISSING, Some(80)),
];

/// Beside one that reads it: two may read it at a time, and then nobody may write it.
static SHARED: [Row; 2] = [
    (How::Read, 10, &[Step::Read(3, Some(5))], Some(80)),
    (How::Old, 8, &MISSING, Some(80)),
];

#[test]
fn a_file_is_made_for_its_owner_kept_and_opened_by_one_alone(rt: HostRuntime) -> Result<(), Fail> {
    let made = path(&rt, "host_made")?;
    opens(&rt, &made, &KEPT)?;
    let mode = fs::metadata(&rt, made.as_path())?.mode();
    assert!(rt; mode & 0o777 == 0o600);
    fs::remove_file(&rt, made.as_path())?;

    let once = zeroed(&rt, "host_once", 80)?;
    {
        let mut first = opened(&rt, &once, How::Old)?;
        opens(&rt, &once, &LOCKED)?;
        takes(
            rt.alloc(),
            &mut first,
            &[Step::Write(3, 5, true), Step::Sync(true)],
        )?;
    }
    {
        let mut reader = opened(&rt, &once, How::Read)?;
        opens(&rt, &once, &SHARED)?;
        takes(
            rt.alloc(),
            &mut reader,
            &[Step::Read(3, Some(5)), Step::Sync(true)],
        )?;
    }
    fs::remove_file(&rt, once.as_path())?;

    // One that is not there is made only where that is wanted, and a folder is not.
    let none = path(&rt, "host_none")?;
    opens(
        &rt,
        &none,
        &[
            (How::Old, 8, &MISSING, None),
            (How::Read, 8, &MISSING, None),
        ],
    )?;
    let inside = none.join(rt.alloc(), "heap")?;
    opens(&rt, &inside, &[(How::Made(10), 8, &MISSING, None)])?;
    assert!(rt; fs::metadata(&rt, none.as_path()).is_err());
    Ok(())
}

/// Opens a file of this name, which is not there, in each of these ways.
fn opens_new(rt: &HostRuntime, name: &str, rows: &[Row]) -> Result<(), Fail> {
    let file = path(rt, name)?;
    opens(rt, &file, rows)?;
    fs::remove_file(rt, file.as_path())?;
    Ok(())
}

#[test]
fn only_a_file_without_a_heap_is_begun_anew(rt: HostRuntime) -> Result<(), Fail> {
    opens_new(&rt, "host_anew", &ANEW)?;
    opens_new(&rt, "host_heap", &HEAP)?;
    let short = path(&rt, "host_short")?;
    fs::write(&rt, short.as_path(), b"hello".as_slice())?;
    opens(&rt, &short, &SHORT)?;
    fs::remove_file(&rt, short.as_path())?;

    // A link leads to the file, which is made where it leads.
    let there = path(&rt, "host_there")?;
    let link = path(&rt, "host_link")?;
    symlink(&rt, there.as_path(), link.as_path())?;
    opens(&rt, &link, &[(How::Made(2), 2, &[], Some(16))])?;
    opens(&rt, &there, &[(How::Old, 2, &[], Some(16))])?;
    fs::remove_file(&rt, link.as_path())?;
    fs::remove_file(&rt, there.as_path())?;
    Ok(())
}

/// Whether this is what a source gives at one read of at most eight bytes, or it fails where nothing is.
fn gives<S: Source>(source: &mut S, text: Option<&[u8]>) -> bool {
    let mut buf = [0u8; 8];
    match (source.read(&mut buf), text) {
        (Ok(count), Some(text)) => match buf.get(..count as usize) {
            Some(read) => read == text,
            None => false,
        },
        (Err(_), None) => true,
        _ => false,
    }
}

/// The scripts of these names.
fn sources(
    rt: &HostRuntime,
    names: &Names,
    reading: Reading,
) -> Result<Vec<Adapted<Script>>, Fail> {
    let program = Program::new(rt, "rom_units");
    Ok(sources_of(&program, names, reading)?)
}

#[test]
fn scripts_come_in_their_order(rt: HostRuntime) -> Result<(), Fail> {
    let first = path(&rt, "host_first")?;
    let second = path(&rt, "host_second")?;
    fs::write(&rt, first.as_path(), b"len\n".as_slice())?;
    fs::write(&rt, second.as_path(), b"total\n".as_slice())?;
    // What cannot be read ends it: a name that is none, or a folder.
    for stop in ["/nowhere/script", "/"] {
        let mut names = Names::new(rt.alloc());
        names.push(rt.alloc(), second.as_str())?;
        names.push(rt.alloc(), first.as_str())?;
        names.push(rt.alloc(), stop)?;
        names.push(rt.alloc(), first.as_str())?;
        let mut sources = sources(&rt, &names, Reading::First)?;
        assert!(rt; sources.len() == 4);
        let texts = [Some(b"total\n".as_slice()), Some(b"len\n"), None, None];
        for (source, text) in sources.iter_mut().zip(texts) {
            assert!(rt; gives(source, text));
        }
    }
    // One that is read as it comes is not read before that.
    let mut names = Names::new(rt.alloc());
    names.push(rt.alloc(), first.as_str())?;
    let mut sources = sources(&rt, &names, Reading::Beside)?;
    fs::write(&rt, first.as_path(), b"peek\n".as_slice())?;
    for source in sources.iter_mut() {
        assert!(rt; gives(source, Some(b"peek\n")));
        assert!(rt; gives(source, Some(b"")));
    }
    fs::remove_file(&rt, first.as_path())?;
    fs::remove_file(&rt, second.as_path())?;
    Ok(())
}

#[test]
fn frames_go_to_a_new_file_and_to_no_file_of_a_talk(rt: HostRuntime) -> Result<(), Fail> {
    let heap = zeroed(&rt, "host_shipping", 80)?;
    let stream = path(&rt, "host_stream")?;
    let output = zeroed(&rt, "host_output", 0)?;
    let mut program = Program::new(&rt, "rom_units");
    program.spare(heap.as_str());
    let mut callers = Names::new(rt.alloc());
    callers.push(rt.alloc(), "/nowhere/input")?;
    callers.push(rt.alloc(), output.as_str())?;
    for (name, taken) in [
        (stream.as_str(), true),
        (stream.as_str(), false),
        ("/", false),
        ("/nowhere/stream", false),
        ("/dev/full", false),
        (heap.as_str(), false),
        (output.as_str(), false),
    ] {
        let name = Name::of(rt.alloc(), name)?;
        let ships = match sink_of(&program, &name, callers.as_slice()) {
            Some(mut sink) => sink.write(b"x") == Ok(1),
            None => false,
        };
        assert!(rt; ships == taken);
    }
    assert!(rt; fs::read(&rt, stream.as_path())?.as_slice() == b"x".as_slice());
    assert!(rt; fs::metadata(&rt, heap.as_path())?.len() == 80);
    assert!(rt; fs::metadata(&rt, output.as_path())?.len() == 0);
    fs::remove_file(&rt, heap.as_path())?;
    fs::remove_file(&rt, stream.as_path())?;
    fs::remove_file(&rt, output.as_path())?;
    Ok(())
}
