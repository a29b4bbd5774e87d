//! A run of callers on a device, from its opening to its closing.
ghost use Rattle.std.specs.Prelude.{◌≡◌, ◌≢◌, ◌⊎◌, ◌*◌, ◌<◌, ◌≤◌, ℕ, IfErr, IfOk, IfSome, IsErr, IsSome, IsTrue, Some, slice_index};
ghost use Rattle.rom_device.specs.Device.{OnlyReads};
ghost use Rattle.rom_header.specs.Held.{Holds};
ghost use Rattle.rom_header.specs.Layout.{MAGIC, words_needed};
ghost use Rattle.rom_model.specs.Blocks.{IsOrder};
ghost use Rattle.rom_model.specs.Faults.{Rose};
ghost use Rattle.rom_open.specs.declared.reasons.Why.TheVariants.{Device, NotAHeap, OutOfMemory};
ghost use Rattle.rom_rule.specs.Places.{AreCallers};
ghost use Rattle.rom_store.specs.Sessions.{EachStory};
ghost use Rattle.rom_caller.specs.Worked.{HasBegunWith, HasRun, IsReady, IsUnrun, order_asked};

use crate::making::{Mode, make_ready};
use crate::rooms::Rooms;
use crate::running::{Ran, run_on};
use crate::work::Work;
use rom_device::Device;
use rom_model::Object;
use rom_store::{Refused, Why, open_store};
use std::sync::Wait;
use std::thread::Threads;

/// Opens the heap on a device, has so many callers work on it, 1 to 16, each in a thread, and closes it. What
/// each gives back is in the order of their indices.
///
/// Not each caller may get a thread. Then they work one after another, those of higher index first: see
/// [`Work::work`].
///
/// After an error no caller has worked, and the device is handed back with the cause. After `Ok` the device may
/// have failed amid the work: then updates were told so. Room for the callers is taken before the device is
/// called, and all that the heap needs before the first of them works; a thread takes its own.
///
/// What the callers asked for and were told is one history. An update that was told a reply was done once, at its
/// place, and is in whatever a stop of the device leaves, from that reply up to the closing.
#[inline(never)]
pub fn with_callers<
    D: Device + Send,
    O: Object + Send + Sync,
    W: Work<O, R> + Sync,
    R: Threads + Wait + Sync + AllocGlobal,
>(
    rt: &R,
    mut device: D,
    mode: Mode,
    callers: u32,
    work: &W,
) -> Result<Ran<D, O, W::Out>, Refused<D>>
where
    O::Call: Send + Sync,
    O::Query: Send + Sync,
    O::Reply: Send + Sync,
    O::Answer: Send + Sync,
    W::Out: Send,
    requires callers { AreCallers callers }
    requires order { IfSome (order_asked mode) IsOrder }
    // There is one history of these callers, on the heap that stood there or that was made.
    ensures run { IfOk result (λ ran. (ready : D)
        × IsReady D.shown O.Contents O.machine.empty (order_asked mode) device ready
        × HasRun D.shown O.machine O.Contents (W.Did work.now) callers ran.results.items ready ran.closed) }
    // What the device held is what it goes on from.
    ensures stood { IsTrue D.shown.tells_words → (n : ℕ) (s : O.State) (k : ℕ) →
        Holds O.Contents n (D.shown.words device) s k → IfOk result (λ ran.
        EachStory O.machine O.Contents ran.closed.session (HasBegunWith n s k)) }
    // Where a heap may be made, there are words enough and the first is 0, it goes on from a new heap.
    ensures made { IsTrue D.shown.tells_words → (n : ℕ) → order_asked mode ≡ Some n →
        words_needed n ≤ D.shown.size device → slice_index (D.shown.words device) 0 ≡ 0 →
        IfErr result (λ refused. (refused.why ≡ Device) ⊎ (refused.why ≡ OutOfMemory))
        × IfOk result (λ ran.
        EachStory O.machine O.Contents ran.closed.session (HasBegunWith n O.machine.empty 0)) }
    // Words that hold a heap are refused for no other reason than these, and `Device` has its cause.
    ensures kept { IsTrue D.shown.tells_words → (n : ℕ) (s : O.State) (k : ℕ) →
        Holds O.Contents n (D.shown.words device) s k →
        IfErr result (λ refused. (refused.why ≡ Device) ⊎ (refused.why ≡ OutOfMemory)) }
    // `Device` comes only where the device's count of faults rose, or stands at its last value.
    ensures faults { IfErr result (λ refused. refused.why ≡ Device →
        Rose (D.shown.faults device) (D.shown.faults refused.device)) }
    // Where a heap may be made and the first word is neither 0 nor a heap's, nothing is written, and there is
    // no run.
    ensures other { IsTrue D.shown.tells_words → IsSome (order_asked mode) → 0 < D.shown.size device →
        slice_index (D.shown.words device) 0 ≢ 0 → slice_index (D.shown.words device) 0 ≢ MAGIC →
        IsErr result × IfErr result (λ refused.
        ((refused.why ≡ OutOfMemory) × (refused.device ≡ device)) ⊎ (OnlyReads D.shown device refused.device
        × ((refused.why ≡ NotAHeap) ⊎ (refused.why ≡ Device)))) }
    // Each refusal has its cause.
    ensures refused { IfErr result (λ refused. IsUnrun D.shown O.Contents O.Rejects O.machine.empty
        (order_asked mode) device refused.device refused.why) }
{
    let Ok(rooms) = Rooms::for_callers(rt.alloc(), callers as usize) else {
        let why = Why::OutOfMemory;
        return Err(Refused { device, why });
    };
    if let Err(why) = make_ready::<D, O>(rt.alloc(), &mut device, mode) {
        return Err(Refused { device, why });
    }
    let opening = open_store::<D, O>(rt.alloc(), device, callers)?;
    Ok(run_on(rt, opening, rooms, callers as usize, work))
}
