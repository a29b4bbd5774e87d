//! The command `copy`: a heap is taken, and put on a device that has none.
ghost use Rattle.std.specs.Prelude.{◌≡◌, ◌<◌, IfErr, IfOk, IsTrue, OnOk, length};
ghost use Rattle.rom_device.specs.Device.{Does, IsSynced, Leaves, Stays};
ghost use Rattle.rom_header.specs.Writing.{Alters};
ghost use Rattle.rom_model.specs.Space.{ChangesOnly};
ghost use Rattle.rom_copy.specs.Putting.{NoneOrWhole};
ghost use Rattle.rom_copy.specs.Viewing.{HasTakingFaults, IsUntaken};
ghost use Rattle.rom_dump.specs.Copied.{IsPutTold, IsTakenFrom};

use crate::copying::tell_put;
use rom_copy::{Untaken, count_of, put_whole, view_whole, whole_words};
use rom_device::Device;
use rom_model::Object;
use rom_open::Why;
use rom_text::Sink;
use std::alloc::Global;

/// How a heap that is put was taken.
#[derive(Clone, Copy, Debug, PartialEq, Eq)]
pub enum Made {
    /// As it is.
    Copied,
    /// As one of a greater order.
    Grown,
}

/// A heap that was taken.
#[derive(Drop)]
pub struct Taken {
    /// Its order.
    pub order: u32,
    /// How many updates it has behind it.
    pub count: u64,
    /// Its words, as those of a heap at rest.
    pub words: Vec<u64>,
}

/// Takes the heap that a device holds, to be put elsewhere. The device can go then.
pub fn take_copy<D: Device, O: Object>(alloc: Global, device: &mut D) -> Result<Taken, Untaken>
    // Where the device tells its words: these are the words of a whole heap at rest, with its region that counts
    // and its words 4 to 7. Back holds that region, too.
    ensures taken { IsTrue D.shown.tells_words →
        IfOk result (IsTakenFrom (D.shown.words device.old)) }
    ensures some { IfOk result (λ taken. 0 < length taken.words.items) }
    // Where the device tells its words, a refusal is one that an opening tells of the same words; or the state is
    // COPYING, and back is not what main is.
    ensures refused { IsTrue D.shown.tells_words →
        IfErr result (IsUntaken O.Contents O.Rejects (D.shown.words device.old)) }
    // Where images are told, a stop after `Ok` leaves the words as they read.
    ensures certain { OnOk result (IsSynced D.shown device.new) }
    // No word is written.
    ensures does { Does D.shown Stays device.old device.new }
    ensures writes { D.shown.writes device.new ≡ D.shown.writes device.old }
    // After `Device` the last call of the device failed, after `Twins` it may have failed, and else none did.
    ensures faults { HasTakingFaults result
        (D.shown.faults device.old) (D.shown.faults device.new) (D.shown.failing device.new) }
{
    let whole = view_whole::<D, O>(alloc, device)?;
    let Ok(words) = whole_words(alloc, &whole) else {
        return Err(Untaken::Refused(Why::OutOfMemory));
    };
    Ok(Taken {
        order: whole.order,
        count: count_of(&whole),
        words,
    })
}

/// Puts a heap that was taken on a device, unless a heap stands there, and tells what came of it.
pub fn put_copy<D: Device, O: Sink>(device: &mut D, made: Made, taken: &Taken, out: &mut O) -> u8
    requires some { 0 < length taken.now.words.items }
    // One putting is told, by its line and its status. Where the device tells its words, a refusal comes where its
    // test fails, and `copied` or `grown` where the device begins with the words of the heap. No fault is told without one.
    ensures told { IsPutTold D.shown O.shown made taken.now device.old device.new out.old out.new result }
    ensures rest { O.shown.rest out.new ≡ O.shown.rest out.old }
    // The size stays. Where the device tells its words, none behind those of the heap differs.
    ensures alters { Alters D.shown (ChangesOnly 0 (length taken.now.words.items)) device.old device.new }
    // Where images are told, what a stop since the call began leaves could be left before, or has no heap, or
    // begins with all of these words.
    ensures images { IsTrue D.shown.tells_images →
        Leaves D.shown (NoneOrWhole taken.now.words.items) device.old device.new }
{
    let put = put_whole(device, taken.words.as_slice());
    tell_put(out, made, taken.order, taken.count, put)
}
