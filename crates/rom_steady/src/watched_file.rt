//! A file that another program may be writing.
ghost use Rattle.std.specs.Prelude.{◌≡◌, ◌/◌, ◌<◌, ◌≤◌, ◌+◌, ◌*◌, ◌^◌, length, false};

use crate::watched::Watched;
use byteorder::{ByteOrder, LittleEndian};
use rom_device::{Failed, FileMedium, Medium};
use std::fs::File;

/// How many words are read in one call of the file.
const PIECE: usize = 8192;

/// The same in bytes.
const PIECE_BYTES: usize = 65536;

/// The words of a file, 8 bytes each, the lowest first, that are read as they stand in the file: none is kept, so
/// that each read sees what was written before it. No contract can say what a file holds, so it tells nothing of
/// that. What is trusted of it is what the clauses of `Watched` would say.
#[derive(Drop)]
pub struct WatchedFile {
    medium: FileMedium,
    words: u64,
    ghost few: { words * 8 < 2 ^ 64 },
}

impl WatchedFile {
    ghost use Rattle.rom_device.specs.FileMedium.{faults_of};
    ghost use Rattle.rom_steady.specs.Watched.{HasRisen};

    /// The words of an open file of so many bytes. A rest of less than a word is no part of them.
    pub fn new(file: File, bytes: u64) -> WatchedFile {
        WatchedFile {
            medium: FileMedium::new(Some(file)),
            words: bytes / 8,
        }
    }

    /// Reads at most so many words as a piece has.
    fn read_piece(&mut self, at: u64, into: &mut [u64]) -> Result<(), Failed>
        requires inside { at + length into.old ≤ self.old.words }
        requires room { length into.old ≤ 8192 }
        ensures len { length into.new ≡ length into.old }
        ensures words { self.new.words ≡ self.old.words }
        ensures faults { HasRisen result (faults_of self.old.medium) (faults_of self.new.medium) }
    {
        let mut bytes = [0u8; PIECE_BYTES];
        let count = into.len();
        let read = self.medium.read_at(at, &mut bytes[..8 * count]);
        LittleEndian::read_u64_into(&bytes[..8 * count], into);
        if read { Ok(()) } else { Err(Failed) }
    }
}

impl Watched for WatchedFile {
    ghost use Rattle.rom_device.specs.FileMedium.{faults_of};
    ghost use Rattle.std.specs.Prelude.{List, [], false};
    ghost use Rattle.std.proofs.Common.{arith};

    ghost shown = { record {
      size = λ file. file.words;
      tells = false;
      words = λ _ _. [];
      now = λ _. 0;
      faults = λ file. faults_of file.medium;
    } };

    fn len(&self) -> u64 {
        self.words
    }

    fn read_words(&mut self, at: u64, into: &mut [u64]) -> Result<(), Failed> {
        let len = into.len();
        let mut done = 0;
        while done < len {
            let count = (len - done).min(PIECE);
            self.read_piece(at + done as u64, &mut into[done..done + count])?;
            done += count;
        }
        Ok(())
    }

    ghost words_fit = { λ _ _ no. Prim.cc };

    ghost size_fits = { λ file. Prim.omega (arith, file.few) };
}
