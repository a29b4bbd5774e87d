//! A file as a medium, and what of it is trusted.
ghost use Rattle.std.specs.Prelude.{◌≡◌, is_none, false};
ghost use Rattle.rom_device.specs.Medium.{tells_faults, Blames};

use crate::medium::Medium;
use std::fs::File;
use std::os::unix::fs::FileExt;

/// A file, or none where it could not be opened, and how many calls of it failed. Over a medium without a
/// file, a device fails a write at once. The write does not wait in the device's cache until the next sync.
///
/// No contract can say what a file holds, so it tells nothing of that, and of the clauses of `Medium`
/// those that speak of words and images say nothing of it. That they would hold if it told both is what is
/// trusted of a file:
///
/// - A read that is done gives the words as they stand in the file, and leaves them.
/// - What is handed over changes these words alone, and where it is done they read so. Each of them is
///   the old one or the new one, and no mixture: where the call fails, and after a stop at any moment.
/// - After a sync that succeeds, where none failed before, a stop leaves each word that was handed over
///   since the file was opened as it reads, and each word that was certain then.
/// - Nothing else changes the file, which has as many words as its device was told, or more.
///
/// All that stands between these three calls and a `Device` has clauses, for each medium.
#[derive(Drop)]
pub struct FileMedium {
    file: Option<File>,
    failed: u64,
}

impl FileMedium {
    ghost use Rattle.rom_device.specs.FileMedium.{faults_of, has_no_file};

    /// A file, or none, no call of which has failed.
    pub fn new(file: Option<File>) -> FileMedium
        ensures file { has_no_file result ≡ is_none file }
        ensures none { faults_of result ≡ 0 }
    {
        FileMedium { file, failed: 0 }
    }

    // Notes whether the call that was made was done.
    fn noted(&mut self, done: bool) -> bool
        ensures done { result ≡ done }
        ensures file { has_no_file self.new ≡ has_no_file self.old }
        ensures faults { Blames done (faults_of self.old) (faults_of self.new) }
    {
        if !done {
            self.failed = self.failed.saturating_add(1);
        }
        done
    }
}

impl Medium for FileMedium {
    ghost use Rattle.rom_device.specs.FileMedium.{faults_of, has_no_file};

    ghost shown = { tells_faults faults_of };

    ghost missing = { λ medium. has_no_file medium };

    // A file keeps no note of a sync that failed, and it tells nothing of which this could speak. Who
    // reads the clauses as if it told takes it as true from the first sync of its device that fails.
    ghost doubtful = { λ _. false };

    // It tells nothing that could be in doubt. Who reads the clauses as if it told takes each word that was
    // not handed over since the file was opened as one that may be.
    ghost lasting = { false };

    ghost never_doubted = { λ no. Prim.cc };

    #[inline]
    fn is_missing(&self) -> bool {
        self.file.is_none()
    }

    #[inline]
    fn read_at(&mut self, at: u64, into: &mut [u8]) -> bool {
        let done = match &self.file {
            Some(file) => file.read_exact_at(into, at * 8).is_ok(),
            None => false,
        };
        self.noted(done)
    }

    #[inline]
    fn write_at(&mut self, at: u64, bytes: &[u8]) -> bool {
        let done = match &self.file {
            Some(file) => file.write_all_at(bytes, at * 8).is_ok(),
            None => false,
        };
        self.noted(done)
    }

    #[inline]
    fn sync(&mut self) -> bool {
        let done = match &self.file {
            Some(file) => file.sync_data().is_ok(),
            None => false,
        };
        self.noted(done)
    }

    ghost tells_both = { λ no. no };

    ghost reads_image = { λ _ _. tt };

    ghost images_fit = { λ _ _ no _. Prim.cc };

    ghost counts_now = { λ _ _ _ _ _ _. tt };

    ghost only_now = { λ _ _ _ _. tt };
}
