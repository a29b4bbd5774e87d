//! The words of a header that say whose updates a heap holds.
ghost use Rattle.std.specs.Prelude.{◌≡◌, ◌≤◌, ◌↔◌, IfOk, IsTrue};
ghost use Rattle.rom_device.specs.Device.{Makes, OnlyReads};
ghost use Rattle.rom_name.specs.Identities.{IsNamed, identity_of};

use rom_device::{Device, Failed};
use rom_frame::HeapName;

/// The place of the first word of the name. It is written last.
pub(crate) const NAME: u64 = 4;

/// The place of the second word of the name.
pub(crate) const LOW: u64 = 5;

/// The place of the epoch.
pub(crate) const EPOCH: u64 = 6;

/// The place of the count at which the epoch began.
pub(crate) const SINCE: u64 = 7;

/// Whose updates a heap holds: its name, the number of its epoch, and the count of updates at which that began.
/// It is of this epoch where its own count is that count or more.
#[derive(Clone, Copy, Debug, PartialEq, Eq)]
pub struct Identity {
    pub name: HeapName,
    pub epoch: u64,
    pub since: u64,
}

/// Whether these words are a name: the first is not 0.
pub fn is_named(name: HeapName) -> bool
    ensures { IsTrue result ↔ IsNamed name }
{
    name.high != 0
}

/// Reads the identity of a heap. Of words that are no heap it tells what stands there.
pub fn read_identity<D: Device>(device: &mut D) -> Result<Identity, Failed>
    requires { 8 ≤ D.shown.size device.old }
    // Where the device tells its words: after `Ok` it is what they say.
    ensures is { IsTrue D.shown.tells_words →
        IfOk result (λ identity. identity ≡ identity_of (D.shown.words device.old)) }
    ensures only { OnlyReads D.shown device.old device.new }
    ensures makes { Makes D.shown 4 0 0 device.old device.new result }
{
    let high = device.read(NAME)?;
    let low = device.read(LOW)?;
    let epoch = device.read(EPOCH)?;
    let since = device.read(SINCE)?;
    Ok(Identity {
        name: HeapName { high, low },
        epoch,
        since,
    })
}
