//! All that a command line names, opened in the one order that serves.
ghost use Rattle.std.specs.Prelude.{◌≡◌, All, length, IfOk, IfSome};
ghost use Rattle.rom_host.specs.Peers.{IsUntried, peers_named};

use crate::device::{HostDevice, device_of, heap_of};
use crate::peer::{HostPeer, peers_of};
use crate::program::Program;
use crate::streams::{Reading, Script, sources_of};
use crate::threads::can_spawn;
use rom_device::FileDevice;
use rom_text::{Adapted, DeviceWant, Name, Wanted};
use std::alloc::AllocError;
use std::sync::Wait;
use std::thread::Threads;

/// The device and the scripts that words name.
#[derive(Drop)]
pub struct Opened {
    pub device: HostDevice,
    pub sources: Vec<Adapted<Script>>,
}

/// Opens what the words name. A heap that is the program's own output is refused before anything is opened;
/// then scripts are read, or only opened; and the heap's file is opened and locked last.
pub fn open_all(
    program: &mut Program<'_>,
    wanted: &Wanted,
    reading: Reading,
) -> Result<Opened, AllocError>
    ensures { IfOk result (λ opened. length opened.sources.items ≡ length wanted.now.scripts) }
{
    if let DeviceWant::Old(name) | DeviceWant::Made(name, _) = &wanted.device {
        program.spare(name.as_str());
    }
    let sources = sources_of(program, &wanted.scripts, reading)?;
    let device = device_of(program, &wanted.device)?;
    Ok(Opened { device, sources })
}

/// The heap's file, and the peers that talk to it.
#[derive(Drop)]
pub struct Talk<'a> {
    pub device: FileDevice,
    pub peers: Vec<HostPeer<'a>>,
}

/// Opens the heap that is talked to, and makes a peer at each pair of these names, as `peers_of` does; no peer is met.
/// `spare` has looked at the file before. Where so many threads cannot be had at once as peers are to be served, the
/// heap is not opened, standard error tells so, and there is `None`.
pub fn open_talk<'a, R: Threads + Wait + Sync>(
    rt: &R,
    program: &Program<'a>,
    file: &Name,
    names: &'a [Name],
) -> Result<Option<Talk<'a>>, AllocError>
    ensures count { IfOk result (λ opened. IfSome opened (λ talk.
        length talk.peers.items ≡ peers_named names.now)) }
    ensures untried { IfOk result (λ opened. IfSome opened (λ talk. All IsUntried talk.peers.items)) }
{
    let peers = peers_of(program, names)?;
    // One of them is served by the program's first thread.
    if !can_spawn(rt, peers.len().saturating_sub(1)) {
        program.complain("no thread can be had for each caller");
        return Ok(None);
    }
    let device = heap_of(program, file.as_str())?;
    Ok(Some(Talk { device, peers }))
}
