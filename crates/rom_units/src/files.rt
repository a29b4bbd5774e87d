//! Files of a test process alone.

use rom_device::FileDevice;
use std::alloc::{AllocError, Global};
use std::fs::OpenOptions;
use std::path::PathBuf;
use std::test::Fail;
use std::{env, fs, process};

/// The name of a file of the process with this number.
fn file_name(alloc: Global, process: u32, name: &str) -> Result<String, AllocError> {
    let mut file = process.to_string(alloc)?;
    file.push_str("_rom_units_")?;
    file.push_str(name)?;
    Ok(file)
}

/// A path of this name that no other process uses.
pub(crate) fn path(rt: &HostRuntime, name: &str) -> Result<PathBuf, Fail> {
    let file = file_name(rt.alloc(), process::id(rt.process()), name)?;
    Ok(env::temp_dir(rt)?.join(rt.alloc(), file.as_str())?)
}

/// A file of so many bytes that are 0.
pub(crate) fn zeroed(rt: &HostRuntime, name: &str, bytes: usize) -> Result<PathBuf, Fail> {
    let path = path(rt, name)?;
    let zeros = vec![in rt.alloc(); 0u8; bytes]?;
    fs::write(rt, path.as_path(), zeros.as_slice())?;
    Ok(path)
}

/// A device over the file, which is opened for reading, and for writing too where that is wanted, and is
/// told to have so many bytes.
pub(crate) fn device_over(
    rt: &HostRuntime,
    path: &PathBuf,
    written: bool,
    bytes: u64,
) -> Result<FileDevice, Fail> {
    let file = OpenOptions::new()
        .read(true)
        .write(written)
        .open(rt, path.as_path())?;
    Ok(FileDevice::new(file, bytes))
}

/// The bytes of these words, the lowest first.
pub(crate) fn bytes_of(alloc: Global, words: &[u64]) -> Result<Vec<u8>, AllocError> {
    let mut bytes = Vec::new(alloc);
    for word in words {
        bytes.extend_from_slice(&word.to_le_bytes())?;
    }
    Ok(bytes)
}
