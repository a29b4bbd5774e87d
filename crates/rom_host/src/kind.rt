//! The kind of heap that a refused file holds, told to people.
use crate::program::Program;
use rom_header::{Geometry, MAGIC};
use rom_text::DeviceWant;
use std::fs::File;
use std::os::unix::fs::FileExt;
use std::{fs, io};

/// The status of a heap that is refused, of each `romulus`.
const REFUSED: u8 = 3;

/// The state in which back counts.
const MUTATING: u64 = 1;

/// Word `at` of a file.
fn word_at(file: &File, at: u64) -> io::Result<u64> {
    let mut word = [0; 8];
    file.read_exact_at(&mut word, at.saturating_mul(8))?;
    Ok(u64::from_le_bytes(word))
}

/// The first word of the region that counts in a file, or 0 where no heap is found.
fn kind_in(program: &Program<'_>, name: &str) -> io::Result<u64> {
    // To open a pipe would wait.
    if !fs::metadata(program.rt, name)?.is_file() {
        return Ok(0);
    }
    let file = File::open(program.rt, name)?;
    if word_at(&file, 0)? != MAGIC {
        return Ok(0);
    }
    let Some(geometry) = Geometry::of(word_at(&file, 2)?) else {
        return Ok(0);
    };
    let region = if word_at(&file, 3)? == MUTATING {
        geometry.back()
    } else {
        geometry.main()
    };
    word_at(&file, region)
}

impl Program<'_> {
    /// Says on standard error that a file holds a heap of another kind, where a command that wants a queue, a set and a
    /// map refused it: its line tells no more than a word that breaks a rule.
    pub fn tell_kind(&self, status: u8, name: &str) {
        if status != REFUSED {
            return;
        }
        match kind_in(self, name) {
            Ok(2) => self.tell_reader(name, "keys with bytes", "romulus_blob"),
            Ok(3) => self.tell_reader(name, "an ordered index", "romulus_order"),
            _ => {}
        }
    }

    /// The same of the file that words name, if they name one.
    pub fn tell_kind_of(&self, status: u8, device: &DeviceWant) {
        if let DeviceWant::Old(name) | DeviceWant::Made(name, _) = device {
            self.tell_kind(status, name.as_str());
        }
    }
}
