//! The frames of a stream, taken one after another up to the first stop.
ghost use Rattle.std.specs.Prelude.{◌≡◌, ℕ, ◌≤◌, [], length, None};
ghost use Rattle.rom_model.specs.Region.{Contents};
ghost use Rattle.rom_model.specs.State.{State};
ghost use Rattle.rom_replica.specs.Tallied.{Turn, WasFollowed};

use crate::stop::Stop;
use crate::tally::Tally;
use rom_device::Device;
use rom_follow::Follower;
use rom_frame::{MOST_BYTES, MessageKind, next_message};
use rom_store::{Gate, Label};
use rom_text::Source;
use std::sync::Wait;

/// Reads the next message of a stream into the block, and has the follower take it. `None` where it is a
/// frame that is no stop.
fn take_one<D: Device, N: Label, S: Source, R: Wait, G: Gate>(
    rt: &R,
    follower: &mut Follower<D, N>,
    stream: &mut S,
    gate: &G,
    tally: &mut Tally,
    block: &mut [u8; MOST_BYTES],
) -> Option<Stop>
    requires agrees { follower.old.diverged ≡ None }
    requires tried { length follower.old.tried ≤ follower.old.count }
    requires formed { (s : State) × (k : ℕ) × Contents N.base.order N.base.image s k }
    ensures turn { Turn S.shown result stream.old stream.new follower.old follower.new tally.old
        tally.new }
{
    // The stop is the first thing in the stream that speaks against a frame. `TooLong` comes only with the
    // byte behind the greatest length, so an end, or a first word that no frame has, comes first within it.
    let heard = next_message(stream, tally.bytes, block);
    match heard.kind {
        MessageKind::End => Some(Stop::End),
        MessageKind::Broken => Some(Stop::Broken),
        MessageKind::Failed => Some(Stop::StreamFailed),
        MessageKind::TooLong => Some(Stop::TooLong),
        MessageKind::Whole => {
            let taken = follower.take(rt, &block[..heard.len], gate);
            tally.add(taken, heard.len)
        }
    }
}

/// Has a follower that has done nothing take the frames of a stream, up to the first stop. It takes no
/// memory.
pub(crate) fn take_frames<D: Device, N: Label, S: Source, R: Wait, G: Gate>(
    rt: &R,
    follower: &mut Follower<D, N>,
    stream: &mut S,
    gate: &G,
) -> (Tally, Stop)
    requires none { follower.old.history ≡ [] }
    requires untried { follower.old.tried ≡ [] }
    requires agrees { follower.old.diverged ≡ None }
    requires formed { (s : State) × (k : ℕ) × Contents N.base.order N.base.image s k }
    ensures followed { WasFollowed S.shown result.1 follower.old.count stream.old stream.new
        follower.new result.0 }
{
    let mut tally = Tally::none();
    let mut block = [0; MOST_BYTES];
    loop {
        if let Some(stop) = take_one(rt, follower, stream, gate, &mut tally, &mut block) {
            return (tally, stop);
        }
    }
}
