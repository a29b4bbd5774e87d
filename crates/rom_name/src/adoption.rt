//! The making of a primary out of a copy.
ghost use Rattle.std.specs.Prelude.{◌≡◌, ℕ, OnOk};
ghost use Rattle.rom_device.specs.Device.{IsSynced};
ghost use Rattle.rom_name.specs.Adopting.{IsAdopted};

use crate::count::read_own;
use crate::identity::is_named;
use crate::writing::write_epoch;
use rom_device::{Device, Failed};
use rom_frame::HeapName;
use rom_model::Object;

/// The epoch that a heap begins: its number, and the count of updates behind which it does.
#[derive(Clone, Copy, Debug, PartialEq, Eq)]
pub struct Adopted {
    pub name: HeapName,
    pub epoch: u64,
    pub count: u64,
}

/// Why a copy was made no primary.
#[derive(Clone, Copy, Debug, PartialEq, Eq)]
pub enum AdoptRefused {
    /// No heap stands on the device.
    NoHeap,
    /// The heap has no name.
    NoName,
    /// Its epoch is the last that there is.
    LastEpoch,
    /// The device failed. The epoch is as it was, or the next.
    Device,
}

impl From<Failed> for AdoptRefused {
    ghost use Rattle.rom_name.specs.declared.adoption.AdoptRefused.TheVariants.{Device};

    ghost from_gives = { λ _ e. e ≡ Device };

    fn from(_: Failed) -> Self {
        AdoptRefused::Device
    }
}

/// Makes a copy a primary: it begins the epoch behind the last of its heap, at its count of updates. A stream of
/// the old primary is refused from then on, and so is this one's by each copy that has more.
pub fn adopt<D: Device, O: Object>(device: &mut D) -> Result<Adopted, AdoptRefused>
    ensures adopted { IsAdopted D.shown device.old device.new result }
    ensures certain { OnOk result (IsSynced D.shown device.new) }
{
    let Some(own) = read_own::<D, O>(device)? else {
        return Err(AdoptRefused::NoHeap);
    };
    if !is_named(own.identity.name) {
        return Err(AdoptRefused::NoName);
    }
    let Some(epoch) = own.identity.epoch.checked_add(1) else {
        return Err(AdoptRefused::LastEpoch);
    };
    write_epoch(device, epoch, own.count)?;
    Ok(Adopted {
        name: own.identity.name,
        epoch,
        count: own.count,
    })
}
