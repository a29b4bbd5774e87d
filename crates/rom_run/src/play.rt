//! Scripts on a heap, whichever it is.
ghost use Rattle.std.specs.Prelude.{◌≡◌, ◌⊎◌, ◌<◌, ◌≤◌, All, length, map, codes, IfErr, IfOk, IfSome, IsNone, IsSome, OnOk, None, Some};
ghost use Rattle.rom_model.specs.History.{LAST_COUNT};
ghost use Rattle.rom_text.specs.Runs.{IsLineWrittenOrCutShort};
ghost use Rattle.rom_text.specs.Streams.{StopsWriting, WriteFailed};
ghost use Rattle.rom_run.specs.Played.{AreAnswered, HavePlayed, IsOutput};
ghost use Rattle.rom_run.specs.Refusing.{refusal_line, unmade_line};
ghost use Rattle.rom_run.specs.Refusing as refusing;
ghost use Rattle.rom_run.specs.Statuses.{exit_number};
ghost use Rattle.rom_run.specs.Use.{HasRun, IsPlayable, Plays, Read};
ghost use Rattle.rom_run.specs.Working.{HasNoHeap, HasNone, HasSession, IsDeviceKept, without_session};
ghost use Rattle.rom_run.specs.declared.heap.Heap.{Heap};
ghost use Rattle.rom_store.specs.Sessions.{EachStory};

use crate::heap::Heap;
use crate::output::Output;
use crate::refusals::{refusal_status, tell_refusal, tell_unmade, unmade_status};
use crate::results::tell_results;
use crate::status::Status;
use crate::telling::tell;
use crate::worked::Worked;
use rom_device::Device;
use rom_lines::Script;
use rom_model::Object;
use rom_open::Refused;
use rom_store::{Gate, Played, Unmade, Unplayed, play, play_new};
use rom_text::Sink;
use std::alloc::Global;
use std::sync::Wait;
use std::thread::Threads;

/// Prints that there is no memory, where the device was not called for it.
pub fn end_without_memory<O: Object, D: Device, K: Sink>(device: D, out: &mut K) -> Worked<D>
    ensures worked { result ≡ without_session device Status.NoMemory }
    // Whichever heap was asked for, there is none to work on.
    ensures none { (heap : Heap) → HasNoHeap O.machine O.Contents D.shown K.shown O.KIND O.Rejects
        O.earlier heap device out.old out.new result }
    ensures told { IsLineWrittenOrCutShort K.shown out.old out.new (codes "no memory") }
    ensures writing { StopsWriting K.shown out.old out.new }
    ensures rest { K.shown.rest out.new ≡ K.shown.rest out.old }
{
    tell(out, &["no memory"]);
    Worked {
        device,
        status: Status::NoMemory,
        session: None,
    }
}

/// Prints why no heap was made for scripts.
fn end_unmade<D: Device, K: Sink>(unmade: Unmade<D>, out: &mut K) -> Worked<D>
    ensures worked { result ≡ without_session unmade.device (refusing.unmade_status unmade.why) }
    ensures told { IsLineWrittenOrCutShort K.shown out.old out.new (unmade_line unmade.why) }
    ensures writing { StopsWriting K.shown out.old out.new }
    ensures rest { K.shown.rest out.new ≡ K.shown.rest out.old }
{
    let Unmade { device, why } = unmade;
    tell_unmade(out, why);
    Worked {
        device,
        status: unmade_status(why),
        session: None,
    }
}

/// Prints why no heap of an object of this kind was opened or upgraded.
pub(crate) fn end_unopened<D: Device, K: Sink>(
    kind: u64,
    refused: Refused<D>,
    out: &mut K,
) -> Worked<D>
    ensures worked { result ≡ without_session refused.device (refusing.refusal_status refused.why) }
    ensures told { IsLineWrittenOrCutShort K.shown out.old out.new (refusal_line kind refused.why) }
    ensures writing { StopsWriting K.shown out.old out.new }
    ensures rest { K.shown.rest out.new ≡ K.shown.rest out.old }
{
    let Refused { device, why } = refused;
    tell_refusal(out, kind, why);
    Worked {
        device,
        status: refusal_status(why),
        session: None,
    }
}

/// Prints what an output is of these scripts and of what they were told, and ends the session.
pub fn end_of<O: Object, T: Output<O>, D: Device, K: Sink>(
    played: Played<D, O>,
    scripts: &[Script<O>],
    out: &mut K,
) -> Worked<D>
    requires { length scripts.now ≤ 16 }
    ensures device { result.device ≡ played.closed.device }
    ensures session { result.session ≡ Some played.closed.session }
    // Done (0), a line unread (1), the sink failed (5), or the device under an update (7).
    ensures statuses { (result.status ≡ Status.Done) ⊎ (result.status ≡ Status.Unread)
        ⊎ (result.status ≡ Status.SinkFailed) ⊎ (result.status ≡ Status.DeviceFailed) }
    // In each story in which the results are answers, the output of such answers to the scripts is printed,
    // with their status; or it is cut short, with 5.
    ensures played { let session = played.closed.session in EachStory O.machine O.Contents session
        (λ story. AreAnswered O.machine (map (λ v. v.items) scripts.now)
        (map (λ v. v.items) played.results.items) session.callers story →
        HavePlayed O.machine (IsOutput K.shown T.shown) (map (λ v. v.items) scripts.now)
        out.old out.new (exit_number result.status) session.callers story) }
    // With 5 the sink's last write failed, and no other.
    ensures sink_failed { result.status ≡ Status.SinkFailed → WriteFailed K.shown out.old out.new }
    ensures writing { StopsWriting K.shown out.old out.new }
    ensures rest { K.shown.rest out.new ≡ K.shown.rest out.old }
{
    let Played { results, closed } = played;
    let status = tell_results::<O, T, K>(out, scripts, &results, closed.count());
    let (device, session) = closed.parts();
    Worked {
        device,
        status,
        session: Some(session),
    }
}

/// Opens or makes the heap and runs the scripts on it, one caller each, or prints why there is
/// none. Memory for them is taken before the device is called; where a heap is made, all memory is.
#[inline(never)]
pub fn play_heap<
    O: Object + Send + Sync,
    D: Device + Send,
    K: Sink,
    R: Threads + Wait + Sync,
    G: Gate + Sync,
>(
    rt: &R,
    alloc: Global,
    heap: Heap,
    device: D,
    scripts: &[Script<O>],
    out: &mut K,
    gate: &G,
) -> Result<Played<D, O>, Worked<D>>
where
    O::Call: Send + Sync,
    O::Query: Send + Sync,
    O::Reply: Send + Sync,
    O::Answer: Send + Sync,
    requires order { IsPlayable heap }
    requires callers { (0 < length scripts.now) × (length scripts.now ≤ 16) }
    requires few { All (λ v. length v.items ≤ LAST_COUNT) scripts.now }
    // After `Ok` there is a session on this heap, and in each of its stories the results are answers.
    ensures session { IfOk result (λ played. HasSession O.machine O.Contents D.shown heap device
        played.closed.device (AreAnswered O.machine (map (λ v. v.items) scripts.now)
        (map (λ v. v.items) played.results.items)) played.closed.session) }
    // After `Ok` the device has kept its length and, where it tells its words, those outside of the heap.
    ensures kept { IfOk result (λ played.
        IsDeviceKept D.shown heap device played.closed.device) }
    // After `Ok` nothing is printed yet.
    ensures unprinted { OnOk result (out.new ≡ out.old) }
    // After an error there is no heap to work on: it is refused by name (3), memory was short (6), or the device
    // failed (7).
    ensures none { IfErr result (HasNoHeap O.machine O.Contents D.shown K.shown O.KIND O.Rejects O.earlier
        heap device out.old out.new) }
    ensures writing { StopsWriting K.shown out.old out.new }
    ensures rest { K.shown.rest out.new ≡ K.shown.rest out.old }
{
    match heap {
        Heap::New(order) => match play_new::<D, O, R, G>(rt, alloc, device, order, scripts, gate) {
            Ok(played) => Ok(played),
            Err(unmade) => Err(end_unmade(unmade, out)),
        },
        Heap::Standing => match play::<D, O, R, G>(rt, alloc, device, scripts, gate) {
            Ok(played) => Ok(played),
            Err(Unplayed::NoRoom(device)) => Err(end_without_memory::<O, D, K>(device, out)),
            Err(Unplayed::Unopened(refused)) => Err(end_unopened(O::KIND, refused, out)),
        },
        Heap::Upgraded => unreachable!(),
    }
}

/// Opens or makes the heap, runs the scripts on it, one caller each, and prints what an output is of
/// what they were told, or why there is no heap.
pub fn play_lines<
    O: Object + Send + Sync,
    T: Output<O>,
    D: Device + Send,
    K: Sink,
    R: Threads + Wait + Sync,
    G: Gate + Sync,
>(
    rt: &R,
    alloc: Global,
    heap: Heap,
    device: D,
    scripts: &[Script<O>],
    out: &mut K,
    gate: &G,
) -> Worked<D>
where
    O::Call: Send + Sync,
    O::Query: Send + Sync,
    O::Reply: Send + Sync,
    O::Answer: Send + Sync,
    requires order { IsPlayable heap }
    requires callers { (0 < length scripts.now) × (length scripts.now ≤ 16) }
    requires few { All (λ v. length v.items ≤ LAST_COUNT) scripts.now }
    // The statuses of words and of sources (2, 4, 8) do not come.
    ensures statuses { (exit_number result.status ≡ 0) ⊎ (exit_number result.status ≡ 1)
        ⊎ (exit_number result.status ≡ 3) ⊎ (exit_number result.status ≡ 5)
        ⊎ (exit_number result.status ≡ 6) ⊎ (exit_number result.status ≡ 7) }
    // With 0, 1 or 5 the scripts were played, and a session is left.
    ensures ran { HasRun (Some (Plays heap Read)) (exit_number result.status) →
        IsSome result.session }
    // With 3 or 6 they were not, and none is left. With 7 either may be.
    ensures not_run { (exit_number result.status ≡ 3) ⊎ (exit_number result.status ≡ 6) →
        IsNone result.session }
    // In each story of the session the output of lawful results of the scripts is printed, or with 5 cut
    // short.
    ensures session { IfSome result.session (HasSession O.machine O.Contents D.shown heap device
        result.device (HavePlayed O.machine (IsOutput K.shown T.shown)
        (map (λ v. v.items) scripts.now) out.old out.new (exit_number result.status))) }
    // Without a session: what a stop may leave, the most calls of the device, and the cause of 3, 6 or 7.
    ensures none { IsNone result.session → HasNone O.machine O.Contents D.shown K.shown O.KIND O.Rejects
        O.earlier heap device result.device out.old out.new (exit_number result.status) }
    // The device keeps its length and, where it tells its words, those outside of the heap.
    ensures kept { IsDeviceKept D.shown heap device result.device }
    // With 5 the sink's last write failed, and no other.
    ensures sink_failed { exit_number result.status ≡ 5 → WriteFailed K.shown out.old out.new }
    ensures writing { StopsWriting K.shown out.old out.new }
    ensures rest { K.shown.rest out.new ≡ K.shown.rest out.old }
{
    match play_heap::<O, D, K, R, G>(rt, alloc, heap, device, scripts, out, gate) {
        Ok(played) => end_of::<O, T, D, K>(played, scripts, out),
        Err(worked) => worked,
    }
}
