//! Devices over real files: what calls answer, and then the bytes.

use crate::devices::{Step, takes};
use crate::files::{device_over, zeroed};
use crate::right::right;
use rom_device::{Device, FileDevice};
use std::fs;
use std::fs::OpenOptions;
use std::test::Fail;

/// A file of so many bytes that are 0, opened for reading alone or for writing too, and told to be so
/// long. Then calls of its device, and in the end its length and some words of bytes.
#[derive(Clone, Copy)]
struct Row {
    bytes: usize,
    written: bool,
    told: u64,
    steps: &'static [Step],
    len: usize,
    left: &'static [(usize, [u8; 8])],
}

/// A rest of three bytes is no word.
const READ_BACK: Row = Row {
    bytes: 1859,
    written: true,
    told: 1859,
    steps: &[
        Step::Write(0, 0x0102_0304_0506_0708, true),
        Step::Write(1, 9, true),
        Step::Write(231, u64::MAX, true),
        Step::Sync(true),
        Step::Read(0, Some(0x0102_0304_0506_0708)),
        Step::Read(1, Some(9)),
        Step::Read(2, Some(0)),
        Step::Read(231, Some(u64::MAX)),
        Step::ReadMany(228, 4, &[0, 0, 0, u64::MAX]),
        Step::Faults(0),
    ],
    len: 1859,
    left: &[
        (0, [8, 7, 6, 5, 4, 3, 2, 1]),
        (8, [9, 0, 0, 0, 0, 0, 0, 0]),
        (1848, [255, 255, 255, 255, 255, 255, 255, 255]),
        (1851, [255, 255, 255, 255, 255, 0, 0, 0]),
    ],
};

/// Two parts are read side by side, and then written while they are read ahead. Words that wait are
/// read, and handed over.
const WAITING: Row = Row {
    bytes: 9600,
    written: true,
    told: 9600,
    steps: &[
        Step::Read(0, Some(0)),
        Step::Read(600, Some(0)),
        Step::Number(0, 1200),
        Step::Numbered(0, 600, 600),
        Step::NumberedAtOnce(0, 1200),
        Step::NumberedAtOnce(450, 750),
        Step::Write(5, 77, true),
        Step::Write(6, 78, true),
        Step::Write(5, 79, true),
        Step::Read(5, Some(79)),
        Step::WriteMany(1022, &[21, 22, 23], true),
        Step::ReadMany(1021, 5, &[1022, 21, 22, 23, 1026]),
        Step::Faults(0),
    ],
    len: 9600,
    left: &[
        (40, [79, 0, 0, 0, 0, 0, 0, 0]),
        (48, [78, 0, 0, 0, 0, 0, 0, 0]),
        (8168, [254, 3, 0, 0, 0, 0, 0, 0]),
        (8176, [21, 0, 0, 0, 0, 0, 0, 0]),
        (8184, [22, 0, 0, 0, 0, 0, 0, 0]),
        (8192, [23, 0, 0, 0, 0, 0, 0, 0]),
        (9592, [176, 4, 0, 0, 0, 0, 0, 0]),
    ],
};

/// The words read ahead begin behind those that wait, on the page that is being written; and then the
/// last of the words read ahead is the first that waits.
const BESIDE: Row = Row {
    bytes: 16000,
    written: true,
    told: 16000,
    steps: &[
        Step::Read(0, Some(0)),
        Step::Number(1024, 1030),
        Step::Read(1100, Some(0)),
        Step::Number(1030, 1536),
        Step::Read(1024, Some(1025)),
        Step::Read(1029, Some(1030)),
        Step::Read(1030, Some(1031)),
        Step::Read(1099, Some(1100)),
        Step::Read(1100, Some(1101)),
        Step::Read(1535, Some(1536)),
        Step::Number(1700, 1702),
        Step::Read(1189, Some(1190)),
        Step::Read(1700, Some(1701)),
        Step::Read(1701, Some(1702)),
        Step::Read(1702, Some(0)),
        Step::Faults(0),
    ],
    len: 16000,
    left: &[
        (8192, [1, 4, 0, 0, 0, 0, 0, 0]),
        (12280, [0, 6, 0, 0, 0, 0, 0, 0]),
        (13600, [165, 6, 0, 0, 0, 0, 0, 0]),
    ],
};

/// The file has half of the words that it is told to have: what could not be read is read later.
const SHORT: Row = Row {
    bytes: 80,
    written: true,
    told: 160,
    steps: &[
        Step::Read(0, None),
        Step::Write(19, 7, true),
        Step::Sync(true),
        Step::Read(0, Some(0)),
        Step::Read(19, Some(7)),
        Step::Faults(1),
    ],
    len: 160,
    left: &[(152, [7, 0, 0, 0, 0, 0, 0, 0])],
};

/// Words that cannot be handed over are not lost.
const READ_ONLY: Row = Row {
    bytes: 80,
    written: false,
    told: 80,
    steps: &[
        Step::Write(0, 5, true),
        Step::Write(7, 6, false),
        Step::Faults(1),
        Step::Read(0, Some(5)),
        Step::Sync(false),
        Step::Write(1, 8, true),
        Step::Read(1, Some(8)),
        Step::Faults(2),
    ],
    len: 80,
    left: &[(0, [0; 8])],
};

static ROWS: [(&str, Row); 5] = [
    ("read_back", READ_BACK),
    ("waiting", WAITING),
    ("beside", BESIDE),
    ("short", SHORT),
    ("read_only", READ_ONLY),
];

/// A file of this name has the row's length and bytes in the end.
fn keeps(rt: &HostRuntime, name: &str, row: &Row) -> Result<(), Fail> {
    let path = zeroed(rt, name, row.bytes)?;
    {
        let mut device = device_over(rt, &path, row.written, row.told)?;
        right(
            "words of a file of",
            row.bytes,
            device.len() == row.told / 8,
        )?;
        takes(rt.alloc(), &mut device, row.steps)?;
    }
    let bytes = fs::read(rt, path.as_path())?;
    right("bytes of a file of", row.bytes, bytes.len() == row.len)?;
    for (at, part) in row.left {
        let there = bytes.get(*at..at.saturating_add(8));
        right("bytes at", *at, there == Some(part.as_slice()))?;
    }
    fs::remove_file(rt, path.as_path())?;
    Ok(())
}

#[test]
fn files_keep_their_words(rt: HostRuntime) -> Result<(), Fail> {
    for (name, row) in &ROWS {
        keeps(&rt, name, row)?;
    }
    Ok(())
}

#[test]
fn a_missing_file_and_one_whose_sync_fails(rt: HostRuntime) -> Result<(), Fail> {
    let steps = [
        Step::Read(0, None),
        Step::Write(0, 1, false),
        Step::Sync(false),
        Step::Faults(3),
        Step::ReadMany(0, 8, &[]),
        Step::WriteMany(5, &[1, 2, 3], false),
        Step::Faults(5),
        // No words are no call.
        Step::ReadMany(8, 0, &[]),
        Step::Faults(5),
        Step::ReadMany(0, 2, &[]),
        Step::WriteMany(0, &[5, 6], false),
        Step::Faults(7),
    ];
    takes(rt.alloc(), &mut FileDevice::missing(), &steps)?;

    let file = OpenOptions::new()
        .read(true)
        .write(true)
        .open(&rt, "/dev/null")?;
    let mut device = FileDevice::new(file, 80);
    // A later sync fails too.
    let steps = [
        Step::Write(0, 5, true),
        Step::Sync(false),
        Step::Sync(false),
        Step::Faults(2),
    ];
    takes(rt.alloc(), &mut device, &steps)
}
