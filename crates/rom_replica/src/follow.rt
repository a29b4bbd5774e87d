//! The command `follow`: the heap is opened, takes the frames of a stream, and is closed.
ghost use Rattle.std.specs.Prelude.{◌≡◌, ◌⊎◌, ℕ, List, length, IfErr, IfOk, IfSome, IsNone, IsSome, IsTrue, OnErr, OnOk, Some};
ghost use Rattle.std.specs.List.{AllByRecursion};
ghost use Rattle.rom_model.specs.Leaving.{IsClosed};
ghost use Rattle.rom_model.specs.Machine.{on_words};
ghost use Rattle.rom_model.specs.Region.{Contents};
ghost use Rattle.rom_model.specs.State.{State};
ghost use Rattle.rom_model.specs.Story.{count};
ghost use Rattle.rom_model.specs.Trio.{trio};
ghost use Rattle.rom_heap.specs.Answers.{Rejects, earlier};
ghost use Rattle.rom_rule.specs.Views.{base_of};
ghost use Rattle.rom_store.specs.Callers.{IsNewCaller};
ghost use Rattle.rom_store.specs.Closing.{IsClosedFrom};
ghost use Rattle.rom_store.specs.Indexed.{Indexed};
ghost use Rattle.rom_store.specs.Moments.{LastsFor};
ghost use Rattle.rom_store.specs.Sessions.{EachStory};
ghost use Rattle.rom_store.specs.Start.{device_start};
ghost use Rattle.rom_run.specs.Working.{HasNoHeap, HasNone, HasSession, IsDeviceKept};
ghost use Rattle.rom_run.specs.declared.heap.Heap.TheVariants.{Standing};
ghost use Rattle.rom_text.specs.Runs.{AreAskedOnce};
ghost use Rattle.rom_text.specs.Streams.{IsAskedOnce, StopsWriting, WriteFailed};
ghost use Rattle.rom_replica.specs.Following.{IsToldOfStream, HasClosed, IsFollowText, IsStreamFollowed};
ghost use Rattle.rom_replica.specs.Promise.{IsFollowedStatus, IsUnfollowedStatus, OfOne};

use crate::stop::Stop;
use crate::stream::take_frames;
use crate::tally::Tally;
use crate::text::print_followed;
use rom_device::Device;
use rom_follow::Follower;
use rom_heap::Trio;
use rom_run::{Ended, Status, Worked, end_refused};
use rom_store::{Closed, Gate, Label, Opening, open_store};
use rom_text::{Sink, Source};
use std::alloc::Global;
use std::marker::Brand;
use std::sync::Wait;

/// What came of a stream, and the store that was closed.
#[derive(Drop)]
struct Outcome<D: Device> {
    tally: Tally,
    stop: Stop,
    closed: Closed<D, Trio>,
}

// All that follows the opening, with a label.
fn follow_as<D: Device + Send, N: Label, S: Source, R: Wait, G: Gate>(
    rt: &R,
    opening: Opening<D, Trio>,
    stream: &mut S,
    gate: &G,
) -> Outcome<D>
    requires table { N.table ≡ opening.table_id }
    requires base { N.base ≡ base_of opening.key }
    requires started { N.start ≡ device_start D.shown opening.device }
    requires since { IsTrue D.shown.tells_images → (t : ℕ) (i : List ℕ) →
        (N.since t i → D.shown.left_since opening.device t i)
        × (D.shown.left_since opening.device t i → N.since t i) }
    requires one { (length opening.passes ≡ 1) × (N.base.callers ≡ 1) }
    requires passes { Indexed (IsNewCaller Contents N.table N.base) opening.passes }
    requires formed { (s : State) × (k : ℕ) × Contents N.base.order N.base.image s k }
    ensures ended { IsClosedFrom D.shown trio Contents N.base N.start N.since result.closed }
    ensures left { HasClosed S.shown stream.old stream.new result.tally result.stop
        result.closed.session }
    ensures closed { EachStory trio Contents result.closed.session (λ story.
        IsClosed trio story 1) }
    ensures told_lasts { EachStory trio Contents result.closed.session (λ story. AllByRecursion
        (LastsFor D.shown Contents (on_words trio) story result.closed.device)
        result.closed.session.callers) }
    ensures asked_once { IsAskedOnce S.shown stream.old stream.new }
{
    let mut follower = Follower::<D, N>::start(opening);
    let (tally, stop) = take_frames(rt, &mut follower, stream, gate);
    Outcome {
        tally,
        stop,
        closed: follower.close(rt),
    }
}

// So on an opened heap. It picks the label that tells what the store was started on.
fn follow_on<D: Device + Send, S: Source, R: Wait, G: Gate>(
    rt: &R,
    opening: Opening<D, Trio>,
    stream: &mut S,
    gate: &G,
) -> Outcome<D>
    requires one { (length opening.passes ≡ 1) × ((base_of opening.key).callers ≡ 1) }
    requires passes { Indexed (IsNewCaller Contents opening.table_id (base_of opening.key))
        opening.passes }
    requires formed { let b = base_of opening.key in
        (s : State) × (k : ℕ) × Contents b.order b.image s k }
    ensures ended { IsClosedFrom D.shown trio Contents (base_of opening.key)
        (device_start D.shown opening.device) (D.shown.left_since opening.device) result.closed }
    ensures left { HasClosed S.shown stream.old stream.new result.tally result.stop
        result.closed.session }
    ensures closed { EachStory trio Contents result.closed.session (λ story.
        IsClosed trio story 1) }
    ensures told_lasts { EachStory trio Contents result.closed.session (λ story. AllByRecursion
        (LastsFor D.shown Contents (on_words trio) story result.closed.device)
        result.closed.session.callers) }
    ensures asked_once { IsAskedOnce S.shown stream.old stream.new }
{
    follow_as::<D, Brand, S, R, G>(rt, opening, stream, gate)
}

// Opens the heap and follows the stream, or prints why it is refused; then the stream is not read.
fn follow_heap<D: Device + Send, S: Source, O: Sink, R: Wait, G: Gate>(
    rt: &R,
    alloc: Global,
    device: D,
    stream: &mut S,
    out: &mut O,
    gate: &G,
) -> Result<Outcome<D>, Worked<D>>
    ensures session { IfOk result (λ f. HasSession trio Contents D.shown Standing device
        f.closed.device (IsStreamFollowed S.shown stream.old stream.new f.tally f.stop)
        f.closed.session) }
    ensures kept { IfOk result (λ f. IsDeviceKept D.shown Standing device f.closed.device) }
    ensures unprinted { OnOk result (out.new ≡ out.old) }
    ensures none { IfErr result (HasNoHeap trio Contents D.shown O.shown 1 Rejects earlier Standing
        device out.old out.new) }
    ensures unread { OnErr result (stream.new ≡ stream.old) }
    ensures asked_once { IsAskedOnce S.shown stream.old stream.new }
    ensures writing { StopsWriting O.shown out.old out.new }
    ensures rest { O.shown.rest out.new ≡ O.shown.rest out.old }
{
    match open_store::<D, Trio>(alloc, device, 1) {
        Ok(opening) => Ok(follow_on(rt, opening, stream, gate)),
        Err(refused) => Err(end_refused::<Trio, D, O>(refused, out)),
    }
}

// So on the one stream of these inputs.
#[inline(never)]
fn follow_only<D: Device + Send, S: Source, O: Sink, R: Wait, G: Gate>(
    rt: &R,
    alloc: Global,
    device: D,
    inputs: &mut [S],
    out: &mut O,
    gate: &G,
) -> Result<Outcome<D>, Worked<D>>
    requires one { length inputs.old ≡ 1 }
    ensures session { IfOk result (λ f. HasSession trio Contents D.shown Standing device
        f.closed.device (λ callers story. OfOne inputs.old inputs.new (λ was now.
        IsStreamFollowed S.shown was now f.tally f.stop callers story)) f.closed.session) }
    ensures kept { IfOk result (λ f. IsDeviceKept D.shown Standing device f.closed.device) }
    ensures unprinted { OnOk result (out.new ≡ out.old) }
    ensures none { IfErr result (HasNoHeap trio Contents D.shown O.shown 1 Rejects earlier Standing
        device out.old out.new) }
    ensures unread { OnErr result (inputs.new ≡ inputs.old) }
    ensures many { length inputs.new ≡ length inputs.old }
    ensures asked_once { AreAskedOnce S.shown inputs.old inputs.new }
    ensures writing { StopsWriting O.shown out.old out.new }
    ensures rest { O.shown.rest out.new ≡ O.shown.rest out.old }
{
    follow_heap(rt, alloc, device, &mut inputs[0], out, gate)
}

/// Prints what came of a stream, and gives the status.
fn tell_followed<O: Sink>(out: &mut O, tally: Tally, stop: Stop, count: u64) -> u8
    ensures printed { IsFollowText O.shown tally stop count out.old out.new result }
    ensures statuses { IsFollowedStatus result ⊎ (result ≡ 7) }
    ensures sink_failed { result ≡ 5 → WriteFailed O.shown out.old out.new }
    ensures writing { StopsWriting O.shown out.old out.new }
    ensures rest { O.shown.rest out.new ≡ O.shown.rest out.old }
{
    match print_followed(out, tally, count) {
        Ok(()) => stop.number(),
        Err(_) => Status::SinkFailed.number(),
    }
}

// Prints what came of a stream, and ends the session.
fn end_followed<D: Device, S, O: Sink>(
    followed: Outcome<D>,
    inputs: Vec<S>,
    out: &mut O,
) -> Ended<D, S>
    ensures device { result.device ≡ followed.closed.device }
    ensures session { result.session ≡ Some followed.closed.session }
    ensures inputs { result.scripts ≡ inputs }
    ensures printed { EachStory trio Contents followed.closed.session (λ story. IsFollowText O.shown
        followed.tally followed.stop (count story) out.old out.new result.status) }
    ensures statuses { IsFollowedStatus result.status ⊎ (result.status ≡ 7) }
    ensures sink_failed { result.status ≡ 5 → WriteFailed O.shown out.old out.new }
    ensures writing { StopsWriting O.shown out.old out.new }
    ensures rest { O.shown.rest out.new ≡ O.shown.rest out.old }
{
    let Outcome {
        tally,
        stop,
        closed,
    } = followed;
    let status = tell_followed(out, tally, stop, closed.count());
    let (device, session) = closed.parts();
    Ended {
        status,
        device,
        scripts: inputs,
        session: Some(session),
    }
}

/// Opens the heap on the device for one caller, has it take the frames of the one stream, and prints what
/// came of them; or prints why the heap is refused. The stream is not read before the heap is opened, since a
/// follower must know its count. All memory is taken by the opening.
pub(crate) fn follow<D: Device + Send, S: Source, O: Sink, R: Wait, G: Gate>(
    rt: &R,
    alloc: Global,
    device: D,
    mut inputs: Vec<S>,
    out: &mut O,
    gate: &G,
) -> Ended<D, S>
    requires one { length inputs.items ≡ 1 }
    ensures statuses { IsFollowedStatus result.status ⊎ IsUnfollowedStatus result.status ⊎ (result.status ≡ 7) }
    ensures taken { IsFollowedStatus result.status → IsSome result.session }
    ensures not_taken { IsUnfollowedStatus result.status → IsNone result.session }
    ensures story { IfSome result.session (HasSession trio Contents D.shown Standing device
        result.device (λ callers story. OfOne inputs.items result.scripts.items (λ was now.
        IsToldOfStream S.shown O.shown was now out.old out.new result.status callers story))) }
    ensures none { IsNone result.session → HasNone trio Contents D.shown O.shown 1 Rejects earlier
        Standing device result.device out.old out.new result.status }
    ensures unread { IsNone result.session → result.scripts.items ≡ inputs.items }
    ensures kept { IsDeviceKept D.shown Standing device result.device }
    ensures many { length result.scripts.items ≡ length inputs.items }
    ensures asked_once { AreAskedOnce S.shown inputs.items result.scripts.items }
    ensures sink_failed { result.status ≡ 5 → WriteFailed O.shown out.old out.new }
    ensures writing { StopsWriting O.shown out.old out.new }
    ensures rest { O.shown.rest out.new ≡ O.shown.rest out.old }
{
    match follow_only(rt, alloc, device, &mut inputs, out, gate) {
        Ok(followed) => end_followed(followed, inputs, out),
        Err(worked) => Ended::after(worked, inputs),
    }
}
