//! A heap in a file, through the device and the calls that the program is to use.
ghost use Rattle.std.specs.Prelude.{◌≡◌};

use rom_device::{Device, FileDevice};
use rom_header::{Geometry, State, read_header, write_new};
use rom_recover::recover;
use std::alloc::Global;
use std::fs::{OpenFile, OpenOptions};
use std::io;

/// The device of the file, opened for reading and writing.
pub fn device_at(rt: &HostRuntime, path: &str) -> io::Result<FileDevice> {
    let file = OpenOptions::new().read(true).write(true).open(rt, path)?;
    let bytes = file.metadata()?.len();
    Ok(FileDevice::new(file, bytes))
}

/// Makes a heap of this order whose regions have some words, since nobody reads them.
pub fn make<D: Device>(alloc: Global, device: &mut D, geometry: Geometry) -> io::Result<bool> {
    let image = vec![in alloc; 7u64; geometry.region() as usize]?;
    Ok(write_new(device, geometry.order(), image.as_slice()).is_ok())
}

/// Reads the header and recovers. It tells the state that was found, if all went well.
pub fn open<D: Device>(device: &mut D) -> Option<State> {
    let header = read_header(device).ok()?;
    let recovered = recover(device, header.geometry).ok()?;
    Some(recovered.found)
}

/// A state's name.
pub fn name_of(state: State) -> &'static str {
    match state {
        State::Idle => "idle",
        State::Mutating => "mutating",
        State::Copying => "copying",
    }
}
