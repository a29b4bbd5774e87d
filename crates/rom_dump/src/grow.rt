//! The command `grow`: a heap is taken as one of a greater order.
ghost use Rattle.std.specs.Prelude.{◌≡◌, ◌<◌, IfErr, IfOk, IsTrue, OnOk, length};
ghost use Rattle.rom_model.specs.Blocks.{IsOrder};
ghost use Rattle.rom_device.specs.Device.{Does, IsSynced, Stays};
ghost use Rattle.rom_copy.specs.declared.untaken.Untaken.TheVariants.{Refused};
ghost use Rattle.rom_open.specs.declared.reasons.Why.TheVariants.{OutOfMemory};
ghost use Rattle.rom_dump.specs.Grown.{HasGrowingFaults, IsGrownFrom, IsUngrown};
ghost use Rattle.rom_dump.specs.declared.grow.Ungrown.TheVariants as ungrown;

use crate::copy::Taken;
use rom_carry::Carry;
use rom_copy::{Untaken, view_whole, words_at_rest};
use rom_device::Device;
use rom_model::{COUNT, Object, VecSpace};
use rom_open::Why;
use rom_steady::Steady;
use std::alloc::{AllocError, Global};

/// Why a heap is not grown.
#[derive(Clone, Copy, Debug, PartialEq, Eq)]
pub enum Ungrown {
    /// It is not taken, as for a copy; or there was no memory.
    Untaken(Untaken),
    /// It has this order, and the one that is asked for is not greater.
    NotGreater { have: u32 },
}

impl From<Untaken> for Ungrown {
    ghost from_gives = { λ why e. e ≡ ungrown.Untaken why };

    fn from(why: Untaken) -> Self {
        Ungrown::Untaken(why)
    }
}

impl From<AllocError> for Ungrown {
    ghost from_gives = { λ _ e. e ≡ ungrown.Untaken (Refused OutOfMemory) };

    fn from(_: AllocError) -> Self {
        Ungrown::Untaken(Untaken::Refused(Why::OutOfMemory))
    }
}

/// Takes the heap that a device holds as one of this greater order, to be put elsewhere by `put_copy`. The device can
/// go then.
pub fn take_grown<D: Device, O: Object, C: Carry<O>>(
    alloc: Global,
    device: &mut D,
    greater: u32,
) -> Result<Taken, Ungrown>
    requires { IsOrder greater }
    // Where the device tells its words: these are the words of a whole heap at rest of the greater order. It stands for
    // what the region stands for that counts, and has its words of the name.
    ensures grown { IsTrue D.shown.tells_words →
        IfOk result (IsGrownFrom O.Contents C.Grown greater (D.shown.words device.old)) }
    ensures some { IfOk result (λ taken. 0 < length taken.words.items) }
    // Where the device tells its words, a refusal is one of a copy, or the heap has the order already, or a greater one.
    ensures refused { IsTrue D.shown.tells_words →
        IfErr result (IsUngrown O.Contents O.Rejects greater (D.shown.words device.old)) }
    // Where images are told, a stop after `Ok` leaves the words as they read.
    ensures certain { OnOk result (IsSynced D.shown device.new) }
    // No word is written.
    ensures does { Does D.shown Stays device.old device.new }
    ensures writes { D.shown.writes device.new ≡ D.shown.writes device.old }
    // After `Device` the last call of the device failed, after `Twins` it may have failed, and else none did.
    ensures faults { HasGrowingFaults result
        (D.shown.faults device.old) (D.shown.faults device.new) (D.shown.failing device.new) }
{
    let Steady {
        order,
        names,
        image,
    } = view_whole::<D, O>(alloc, device)?;
    if greater <= order {
        return Err(Ungrown::NotGreater { have: order });
    }
    let mut space = VecSpace::of(image);
    let grown = C::grow(alloc, &mut space, order, greater)?;
    let region = grown.words();
    Ok(Taken {
        order: greater,
        count: region[COUNT as usize],
        words: words_at_rest(alloc, greater, names, region)?,
    })
}
