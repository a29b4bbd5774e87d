//! The count of updates that a heap holds.
ghost use Rattle.std.specs.Prelude.{◌≡◌, ◌<◌, ◌≤◌, ℕ, IfOk, IfSome, IsTrue, Some};
ghost use Rattle.rom_device.specs.Device.{OnlyReads};
ghost use Rattle.rom_model.specs.Faults.{HasCause};
ghost use Rattle.rom_header.specs.Held.{Holds};
ghost use Rattle.rom_header.specs.Layout.{words_needed};
ghost use Rattle.rom_name.specs.Identities.{IsCountAnswer, IsHeapFound, IsOwnAnswer, count_at};
ghost use Rattle.rom_header.specs.Headers.{state_word};

use crate::identity::{Identity, read_identity};
use rom_device::{Device, Failed};
use rom_header::{Header, HeaderRefused, State, read_header};
use rom_model::Object;

/// The place of the count in a region.
const COUNT: u64 = 2;

/// Whose updates a heap holds, and how many.
#[derive(Clone, Copy, Debug, PartialEq, Eq)]
pub struct Own {
    pub identity: Identity,
    pub count: u64,
}

/// Where the count of a heap stands.
fn place_of_count(header: &Header) -> u64
    ensures is { result ≡ count_at header.now.geometry (state_word header.now.state) }
    ensures fits { result < words_needed header.now.geometry }
{
    match header.state {
        State::Mutating => header.geometry.back() + COUNT,
        State::Idle | State::Copying => header.geometry.main() + COUNT,
    }
}

/// Reads the header, or says that there is none.
fn find_heap<D: Device>(device: &mut D) -> Result<Option<Header>, Failed>
    ensures answer { IsTrue D.shown.tells_words →
        IfOk result (IsHeapFound (D.shown.words device.old)) }
    ensures fits { IfOk result (λ found. IfSome found (λ header.
        words_needed header.geometry ≤ D.shown.size device.old)) }
    ensures only { OnlyReads D.shown device.old device.new }
    ensures cause { HasCause (D.shown.faults device.old) (D.shown.faults device.new)
        (D.shown.failing device.new) result }
{
    match read_header(device) {
        Ok(header) => Ok(Some(header)),
        Err(HeaderRefused::Device) => Err(Failed),
        Err(_) => Ok(None),
    }
}

/// Reads how many updates the state has behind it that the heap holds; `None` where no heap stands there. What
/// an opening would refuse in the region itself is not looked at.
pub fn read_count<D: Device, O: Object>(device: &mut D) -> Result<Option<u64>, Failed>
    // Where the device tells its words: it is the count of the region that counts, or there is no heap.
    ensures answer { IsTrue D.shown.tells_words →
        IfOk result (IsCountAnswer (D.shown.words device.old)) }
    // So it is the count of the state that the heap holds, of whatever object that is.
    ensures holds { IsTrue D.shown.tells_words → (order : ℕ) (s : O.State) (k : ℕ) →
        Holds O.Contents order (D.shown.words device.old) s k →
        IfOk result (λ count. count ≡ Some k) }
    ensures long { IfOk result (λ count. IfSome count (λ _. 8 ≤ D.shown.size device.old)) }
    ensures only { OnlyReads D.shown device.old device.new }
    // It fails only where the device did, at its last call.
    ensures cause { HasCause (D.shown.faults device.old) (D.shown.faults device.new)
        (D.shown.failing device.new) result }
{
    let Some(header) = find_heap(device)? else {
        return Ok(None);
    };
    let count = device.read(place_of_count(&header))?;
    Ok(Some(count))
}

/// Reads whose updates a heap holds, and how many; `None` where no heap stands there.
pub fn read_own<D: Device, O: Object>(device: &mut D) -> Result<Option<Own>, Failed>
    ensures answer { IsTrue D.shown.tells_words →
        IfOk result (IsOwnAnswer (D.shown.words device.old)) }
    // The count is that of the state that the heap holds.
    ensures holds { IsTrue D.shown.tells_words → (order : ℕ) (s : O.State) (k : ℕ) →
        Holds O.Contents order (D.shown.words device.old) s k →
        IfOk result (λ own. IfSome own (λ o. o.count ≡ k)) }
    ensures long { IfOk result (λ own. IfSome own (λ _. 8 ≤ D.shown.size device.old)) }
    ensures only { OnlyReads D.shown device.old device.new }
    // It fails only where the device did, at its last call.
    ensures cause { HasCause (D.shown.faults device.old) (D.shown.faults device.new)
        (D.shown.failing device.new) result }
{
    let Some(count) = read_count::<D, O>(device)? else {
        return Ok(None);
    };
    let identity = read_identity(device)?;
    Ok(Some(Own { identity, count }))
}
