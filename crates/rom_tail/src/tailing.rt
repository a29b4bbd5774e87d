//! A stream without an end, followed in batches up to the first stop.
ghost use Rattle.std.specs.Prelude.{◌≡◌, ℕ, [], length};
ghost use Rattle.rom_model.specs.Region.{Contents};
ghost use Rattle.rom_model.specs.State.{State};
ghost use Rattle.rom_tail.specs.Tailed.{HasGoneOn, IsTailed, TurnsTo};
ghost use Rattle.rom_tail.specs.Waiting.{waits_in};

use crate::chaser::Chaser;
use crate::few::Few;
use crate::intake::Intake;
use crate::tally::Tally;
use rom_device::Device;
use rom_frame::Frame;
use rom_model::{Call, Reply};
use rom_replica::Stop;
use rom_store::{Gate, Label};
use rom_text::Source;
use std::sync::Wait;

/// A frame that fills a room and is told to nobody.
const BLANK: Frame = Frame {
    place: 0,
    call: Call::Deq,
    reply: Reply::Empty,
};

/// What came of the frames so far, and the bytes that wait.
#[derive(Drop)]
struct Tailing {
    intake: Intake,
    frames: Few<Frame>,
    tally: Tally,
}

/// Has the heap take the next frames of a stream. `None` where no stop is among them.
fn turn<D: Device, N: Label, S: Source, R: Wait, G: Gate>(
    rt: &R,
    chaser: &mut Chaser<D, N>,
    stream: &mut S,
    tailing: &mut Tailing,
    gate: &G,
) -> Option<Stop>
    // Of each number of updates at the opening, and each source as it was then:
    ensures { (n0 : ℕ) (was : S) → HasGoneOn S.shown n0 was (waits_in tailing.old.intake) stream.old
        chaser.old tailing.old.tally → TurnsTo S.shown n0 was result
        (waits_in tailing.new.intake) stream.new chaser.new tailing.new.tally }
{
    if let Some(stop) = tailing.intake.next_frames(stream, &mut tailing.frames) {
        return Some(stop);
    }
    let count = chaser.count();
    let took = chaser.take_frames(rt, tailing.frames.as_slice(), gate);
    tailing
        .tally
        .add(count, &tailing.frames.as_slice()[..took.counted]);
    took.stop
}

/// Has a heap on which nothing was done take the frames of a stream, up to the first stop. It takes no memory.
pub fn take_stream<D: Device, N: Label, S: Source, R: Wait, G: Gate>(
    rt: &R,
    chaser: &mut Chaser<D, N>,
    stream: &mut S,
    gate: &G,
) -> (Tally, Stop)
    requires none { (chaser.old.history ≡ []) × (chaser.old.records ≡ []) }
    ensures tailed { IsTailed S.shown chaser.old.count stream.old stream.new chaser.new.history
        chaser.new.records result.0 result.1 }
{
    let mut tailing = Tailing {
        intake: Intake::new(),
        frames: Few::new(BLANK),
        tally: Tally::none(),
    };
    for _ in rt.forever() {
        if let Some(stop) = turn(rt, chaser, stream, &mut tailing, gate) {
            return (tailing.tally, stop);
        }
    }
    unreachable!()
}
