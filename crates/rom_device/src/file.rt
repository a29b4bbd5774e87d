//! The device over a file.
ghost use Rattle.std.specs.Prelude.{◌≡◌, ◌/◌, IsFalse, IsTrue};
ghost use Rattle.rom_device.specs.CachedDevice.{length_of, medium_of, device_has_failed_sync, IsUnused};
ghost use Rattle.rom_device.specs.FileMedium.{faults_of, has_no_file};

use crate::cached_device::CachedDevice;
use crate::file_medium::FileMedium;
use std::fs::File;

/// The words of a file, 8 bytes each, the lowest first. It tells nothing of what the file holds.
pub type FileDevice = CachedDevice<FileMedium>;

impl CachedDevice<FileMedium> {
    /// The words of an open file of so many bytes. A rest of less than a word is no part of them.
    /// The device keeps that length, whatever becomes of the file's.
    pub fn new(file: File, bytes: u64) -> FileDevice
        ensures length { length_of result ≡ bytes / 8 }
        ensures unused { IsUnused result }
        ensures there { IsFalse (has_no_file (medium_of result)) }
        ensures synced { IsFalse (device_has_failed_sync result) }
        ensures unfailed { faults_of (medium_of result) ≡ 0 }
    {
        CachedDevice::over(FileMedium::new(Some(file)), bytes / 8)
    }

    /// A device of 8 words whose every call fails, for a file that could not be opened.
    pub fn missing() -> FileDevice
        ensures length { length_of result ≡ 8 }
        ensures unused { IsUnused result }
        ensures missing { IsTrue (has_no_file (medium_of result)) }
    {
        CachedDevice::over(FileMedium::new(None), 8)
    }
}
