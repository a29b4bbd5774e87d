//! The head of the stream that a heap begins.
ghost use Rattle.std.specs.Prelude.{◌≡◌, ◌≤◌, ℕ, List, IfOk, IfSome, IsSomeAnd, OnOk, IsTrue};
ghost use Rattle.rom_model.specs.Faults.{HasCause};
ghost use Rattle.rom_model.specs.Space.{ChangesOnly};
ghost use Rattle.rom_device.specs.Device.{Does, IsSynced};
ghost use Rattle.rom_header.specs.Held.{Holds};
ghost use Rattle.rom_name.specs.Heading.{IsHeadOf, IsNameOf};
ghost use Rattle.rom_name.specs.Identities.{IsNamed, WritesName, identity_of};

use crate::count::read_own;
use crate::identity::is_named;
use crate::writing::write_name;
use rom_device::{Device, Failed};
use rom_frame::{Head, HeapName};
use rom_model::Object;

/// Gives a heap that has no name the one that was drawn, and says which it has, once that is certain. A name that
/// stands there may be one that a writer was stopped before it synced.
fn name_heap<D: Device>(device: &mut D, name: HeapName, drawn: HeapName) -> Result<HeapName, Failed>
    requires { 8 ≤ D.shown.size device.old }
    ensures name { IfOk result (IsNameOf name drawn) }
    ensures certain { OnOk result (IsSynced D.shown device.new) }
    ensures stands { IsTrue D.shown.tells_words →
        (identity_of (D.shown.words device.old)).name ≡ name →
        IfOk result (λ has. (identity_of (D.shown.words device.new)).name ≡ has) }
    ensures does { Does D.shown (WritesName drawn) device.old device.new }
    ensures cause { HasCause (D.shown.faults device.old) (D.shown.faults device.new)
        (D.shown.failing device.new) result }
{
    if is_named(name) {
        device.sync()?;
        return Ok(name);
    }
    write_name(device, drawn)?;
    Ok(drawn)
}

/// The head of a stream of the updates that a heap does from now on; `None` where no heap stands on the device. A
/// heap that has no name gets the one that was drawn. What the head says is certain before it says so.
pub fn head_of<D: Device, O: Object>(
    device: &mut D,
    drawn: HeapName,
) -> Result<Option<Head>, Failed>
    requires { IsNamed drawn }
    ensures head { IfOk result (IsHeadOf D.shown drawn device.old device.new) }
    // Of a heap that the device holds then there is a head, and the place that comes first is that heap's count.
    ensures first { IsTrue D.shown.tells_words → (order : ℕ) (s : O.State) (k : ℕ) →
        Holds O.Contents order (D.shown.words device.new) s k →
        IfOk result (λ head. IsSomeAnd head (λ h. h.first ≡ k)) }
    // A stop behind it leaves the words that the head speaks of.
    ensures certain { IfOk result (λ head. IfSome head (λ _. IsSynced D.shown device.new)) }
    // Whatever it answers, and where it is stopped: the name is as it was, or it is the one that was drawn, whole.
    ensures does { Does D.shown (WritesName drawn) device.old device.new }
    // So the heap holds what it held.
    ensures keeps { (order : ℕ) (i j : List ℕ) (s : O.State) (k : ℕ) → ChangesOnly 4 4 i j →
        Holds O.Contents order i s k → Holds O.Contents order j s k }
    // It fails only where the device did, at its last call.
    ensures cause { HasCause (D.shown.faults device.old) (D.shown.faults device.new)
        (D.shown.failing device.new) result }
{
    let Some(own) = read_own::<D, O>(device)? else {
        return Ok(None);
    };
    let name = name_heap(device, own.identity.name, drawn)?;
    Ok(Some(Head {
        first: own.count,
        name,
        epoch: own.identity.epoch,
        since: own.identity.since,
    }))
}
