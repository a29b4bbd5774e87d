//! Generated scripts on a new heap, of which five lines are told. The sums among them are promised of the
//! history. The program keeps no list of the history: it sums up what each line was told. Where results are
//! lawful, these sums are the history's, which is proved (`proofs/Summing.antt`).
ghost use Rattle.std.specs.Prelude.{◌≡◌, ◌⊎◌, ◌≤◌, ◌^◌, All, length, map, IfSome, IsNone, IsSome, Some};
ghost use Rattle.rom_heap.specs.Answers.{Rejects, earlier};
ghost use Rattle.rom_model.specs.Region.{Contents};
ghost use Rattle.rom_model.specs.Trio.{trio};
ghost use Rattle.rom_run.specs.Played.{AreAnswered};
ghost use Rattle.rom_run.specs.Statuses.{exit_number};
ghost use Rattle.rom_run.specs.Working.{HasNone, HasSession, IsDeviceKept};
ghost use Rattle.rom_run.specs.declared.heap.Heap.TheVariants.{New};
ghost use Rattle.rom_script.specs.Drill as drilled;
ghost use Rattle.rom_script.specs.Drill.{drill_lines};
ghost use Rattle.rom_text.specs.Streams.{StopsWriting, WriteFailed};
ghost use Rattle.rom_shell.specs.Drilled.{HaveDrilled, IsDrillText, drill_status};
ghost use Rattle.rom_store.specs.Sessions.{EachStory};

use rom_device::Device;
use rom_heap::Trio;
use rom_lines::{Results, Script};
use rom_model::Query;
use rom_run::{Heap, Status, Worked, any_faulted, end_without_memory, play_heap};
use rom_script::{Sink, Summary, drill_scripts, print_drill, sum_dequeued, sum_enqueued};
use rom_store::{Gate, Played};
use rom_words::DRILL_ORDER;
use std::alloc::Global;
use std::sync::Wait;
use std::thread::Threads;

/// The status of results that are all told of.
fn status_of(results: &[Results<Trio>]) -> Status
    ensures status { exit_number result ≡ drill_status (map (λ v. v.items) results.now) }
    ensures statuses { (result ≡ Status.Done) ⊎ (result ≡ Status.DeviceFailed) }
{
    if any_faulted(results) {
        Status::DeviceFailed
    } else {
        Status::Done
    }
}

/// Prints the five lines of these results.
fn tell_drill<O: Sink>(out: &mut O, told: &Summary, results: &[Results<Trio>]) -> Status
    ensures printed { IsDrillText O.shown (drill_lines told.now.start told.now.callers
        told.now.calls told.now.enqueued told.now.dequeued told.now.sizes
        told.now.total told.now.count)
        (map (λ v. v.items) results.now) out.old out.new (exit_number result) }
    ensures statuses { (result ≡ Status.Done) ⊎ (result ≡ Status.SinkFailed)
        ⊎ (result ≡ Status.DeviceFailed) }
    ensures sink_failed { result ≡ Status.SinkFailed → WriteFailed O.shown out.old out.new }
    ensures writing { StopsWriting O.shown out.old out.new }
    ensures rest { O.shown.rest out.new ≡ O.shown.rest out.old }
{
    match print_drill(out, told) {
        Err(_) => Status::SinkFailed,
        Ok(()) => status_of(results),
    }
}

/// Prints what the scripts of a drill were told, and ends the session.
fn end_of<D: Device, O: Sink>(
    played: Played<D, Trio>,
    start: u64,
    callers: u64,
    calls: u64,
    scripts: &[Script<Trio>],
    out: &mut O,
) -> Worked<D>
    requires scripts { map (λ v. v.items) scripts.now ≡ drilled.drill_scripts start callers calls }
    requires callers { length scripts.now ≤ 16 }
    requires few { All (λ v. length v.items ≤ 2 ^ 32) scripts.now }
    requires told_callers { length played.results.items ≤ 16 }
    requires told_few { All (λ v. length v.items ≤ 2 ^ 32) played.results.items }
    ensures device { result.device ≡ played.closed.device }
    ensures session { result.session ≡ Some played.closed.session }
    ensures statuses { (result.status ≡ Status.Done) ⊎ (result.status ≡ Status.SinkFailed)
        ⊎ (result.status ≡ Status.DeviceFailed) }
    ensures drilled { let session = played.closed.session in EachStory trio Contents session (λ story.
        AreAnswered trio (drilled.drill_scripts start callers calls)
        (map (λ v. v.items) played.results.items) session.callers story
        → HaveDrilled O.shown start callers calls out.old out.new (exit_number result.status)
        session.callers story) }
    ensures sink_failed { result.status ≡ Status.SinkFailed → WriteFailed O.shown out.old out.new }
    ensures writing { StopsWriting O.shown out.old out.new }
    ensures rest { O.shown.rest out.new ≡ O.shown.rest out.old }
{
    let Played {
        results,
        mut closed,
    } = played;
    let told = Summary {
        start,
        callers,
        calls,
        enqueued: sum_enqueued(scripts, &results),
        dequeued: sum_dequeued(&results),
        sizes: closed.ask(&Query::Len),
        total: closed.ask(&Query::Total),
        count: closed.count(),
    };
    let status = tell_drill(out, &told, &results);
    let (device, session) = closed.parts();
    Worked {
        device,
        status,
        session: Some(session),
    }
}

/// Makes a heap on the device, runs the scripts of a drill on it, one caller each, and prints their
/// five lines, or why there is no heap. All memory is taken before the device is called.
pub(crate) fn drill_heap<R: Threads + Wait + Sync, D: Device + Send, O: Sink, G: Gate + Sync>(
    rt: &R,
    alloc: Global,
    device: D,
    start: u64,
    callers: u64,
    calls: u64,
    out: &mut O,
    gate: &G,
) -> Worked<D>
    requires callers { (1 ≤ callers) × (callers ≤ 16) }
    requires calls { calls ≤ 10000 }
    ensures statuses { (exit_number result.status ≡ 0) ⊎ (exit_number result.status ≡ 3)
        ⊎ (exit_number result.status ≡ 5) ⊎ (exit_number result.status ≡ 6)
        ⊎ (exit_number result.status ≡ 7) }
    ensures ran { (exit_number result.status ≡ 0) ⊎ (exit_number result.status ≡ 5) →
        IsSome result.session }
    ensures not_run { (exit_number result.status ≡ 3) ⊎ (exit_number result.status ≡ 6) →
        IsNone result.session }
    ensures session { IfSome result.session (HasSession trio Contents D.shown (New 12) device
        result.device (HaveDrilled O.shown start callers calls out.old out.new
        (exit_number result.status))) }
    ensures none { IsNone result.session → HasNone trio Contents D.shown O.shown 1 Rejects earlier
        (New 12) device result.device out.old out.new (exit_number result.status) }
    ensures kept { IsDeviceKept D.shown (New 12) device result.device }
    ensures sink_failed { exit_number result.status ≡ 5 → WriteFailed O.shown out.old out.new }
    ensures writing { StopsWriting O.shown out.old out.new }
    ensures rest { O.shown.rest out.new ≡ O.shown.rest out.old }
{
    let Ok(scripts) = drill_scripts(alloc, start, callers, calls) else {
        return end_without_memory::<Trio, D, O>(device, out);
    };
    let heap = Heap::New(DRILL_ORDER);
    match play_heap::<Trio, D, O, R, G>(rt, alloc, heap, device, &scripts, out, gate) {
        Ok(played) => end_of(played, start, callers, calls, &scripts, out),
        Err(worked) => worked,
    }
}
