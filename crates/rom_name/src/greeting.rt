//! The meeting of a heap and a stream that is to be followed on it.
ghost use Rattle.std.specs.Prelude.{◌≤◌, ◌≢◌, ℕ, List};
ghost use Rattle.rom_model.specs.Space.{ChangesOnly};
ghost use Rattle.rom_device.specs.Device.{Does};
ghost use Rattle.rom_header.specs.Held.{Holds};
ghost use Rattle.rom_name.specs.Greetings.{IsCarriedOut, IsGreeted, IsMet};
ghost use Rattle.rom_name.specs.Peeked.{IsFirst, IsUnread};

use crate::count::{Own, read_own};
use crate::meeting::{Meeting, Refusal, meet};
use crate::peeked::{First, Peeked};
use crate::writing::{write_epoch, write_identity};
use rom_device::{Device, Failed};
use rom_model::Object;
use rom_text::Source;

/// What becomes of a stream.
#[derive(Clone, Copy, Debug, PartialEq, Eq)]
pub enum Greeting {
    /// Its frames may be taken. Its head, if it had one, is taken from it.
    Followed,
    Refused(Refusal),
    /// A read of the stream failed before it was known how it begins.
    StreamFailed,
    DeviceFailed,
}

/// What is done of a stream on the heap that was read so.
fn meet_first(own: &Own, first: First, anonymous: bool) -> Meeting
    requires { first ≢ First.Failed }
    ensures { IsMet anonymous own.now first result }
{
    match first {
        First::Headed(head) => meet(&own.identity, own.count, &head),
        First::Headless if !anonymous => Meeting::Refused(Refusal::Nameless),
        First::Headless | First::Empty | First::Failed => Meeting::Follow,
    }
}

/// Writes what the heap takes of a stream, where it does.
fn carry_out<D: Device>(device: &mut D, meeting: &Meeting) -> Greeting
    requires { 8 ≤ D.shown.size device.old }
    ensures { IsCarriedOut D.shown meeting.now device.old device.new result }
{
    let written = match meeting {
        Meeting::Follow => return Greeting::Followed,
        Meeting::Refused(why) => return Greeting::Refused(*why),
        Meeting::Take(identity) => write_identity(device, identity),
        Meeting::Raise { epoch, since } => write_epoch(device, *epoch, *since),
    };
    match written {
        Ok(()) => Greeting::Followed,
        Err(Failed) => Greeting::DeviceFailed,
    }
}

/// Reads whose updates the heap of a device holds, and how the stream begins, and says whether it may be
/// followed. Before it says so the heap has taken the identity or the epoch that it is to take. A stream
/// without a head is followed, as it is, where `anonymous` asks for it; one without a byte always. Where no heap
/// stands on the device the stream may be followed, for the opening says why not.
pub fn greet<D: Device, O: Object, S: Source>(
    device: &mut D,
    stream: &mut Peeked<S>,
    anonymous: bool,
) -> Greeting
    requires { IsUnread stream.old }
    // The answer is that of what the device and the stream hold, and is carried out.
    ensures greeted { IsGreeted D.shown (IsFirst S.shown) anonymous device.old device.new stream.old
        stream.new result }
    // Whatever it answers, and where it is stopped: no word differs but the four of the identity.
    ensures does { Does D.shown (ChangesOnly 4 4) device.old device.new }
    // So the heap holds what it held.
    ensures keeps { (order : ℕ) (i j : List ℕ) (s : O.State) (k : ℕ) → ChangesOnly 4 4 i j →
        Holds O.Contents order i s k → Holds O.Contents order j s k }
{
    let Ok(found) = read_own::<D, O>(device) else {
        return Greeting::DeviceFailed;
    };
    let Some(own) = found else {
        return Greeting::Followed;
    };
    match stream.take_first() {
        First::Failed => Greeting::StreamFailed,
        first => carry_out(device, &meet_first(&own, first, anonymous)),
    }
}
