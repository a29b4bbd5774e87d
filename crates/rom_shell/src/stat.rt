//! The sizes of the heap on a device. There is no caller, so no words are shared: they are read off the image
//! in memory. The session is one in which nothing was done, so the clauses on sessions hold as they stand.
ghost use Rattle.std.specs.Prelude.{◌≡◌, ◌≢◌, ◌⊎◌, ℕ, IsSome, IsNone, IfSome};
ghost use Rattle.rom_heap.specs.Answers.{Rejects, earlier};
ghost use Rattle.rom_model.specs.Blocks.{IsOrder};
ghost use Rattle.rom_model.specs.Region.{Contents};
ghost use Rattle.rom_model.specs.State.{State};
ghost use Rattle.rom_model.specs.Trio.{trio};
ghost use Rattle.rom_model.specs.VecSpace.{words_of_space};
ghost use Rattle.rom_run.specs.Statuses.{exit_number};
ghost use Rattle.rom_run.specs.Working.{HasNone, HasSession, IsAsBefore, IsDeviceKept};
ghost use Rattle.rom_run.specs.declared.heap.Heap.TheVariants.{Standing};
ghost use Rattle.rom_text.specs.Streams.{StopsWriting};
ghost use Rattle.rom_shell.specs.Stat.{IsStatShown, IsWrittenOrCutShort, stat_text};
ghost use Rattle.rom_store.specs.Sessions.{EachStory};

use rom_device::Device;
use rom_heap::Trio;
use rom_model::VecSpace;
use rom_run::{OpenHeap, Status, Worked, open_heap};
use rom_script::{Sink, print_stat};
use std::alloc::Global;

/// Prints the sizes of the heap in a region.
fn print_sizes<O: Sink>(space: VecSpace, order: u32, out: &mut O)
    requires order { IsOrder order }
    requires region { (s : State) × (k : ℕ) × Contents order (words_of_space space) s k }
    ensures printed { (s : State) (k : ℕ) → Contents order (words_of_space space) s k →
        IsWrittenOrCutShort O.shown out.old out.new (stat_text order s k) }
    ensures writing { StopsWriting O.shown out.old out.new }
    ensures rest { O.shown.rest out.new ≡ O.shown.rest out.old }
{
    let mut space = space;
    let _ = print_stat(&mut space, order, out);
}

/// Opens the heap on the device, and prints its sizes or why it is refused.
pub(crate) fn show_heap<D: Device, O: Sink>(alloc: Global, device: D, out: &mut O) -> Worked<D>
    ensures statuses { (exit_number result.status ≡ 0) ⊎ (exit_number result.status ≡ 3)
        ⊎ (exit_number result.status ≡ 6) ⊎ (exit_number result.status ≡ 7) }
    ensures ran { exit_number result.status ≡ 0 → IsSome result.session }
    ensures not_run { exit_number result.status ≢ 0 → IsNone result.session }
    ensures session { IfSome result.session (HasSession trio Contents D.shown Standing device
        result.device (IsStatShown O.shown out.old out.new)) }
    ensures still { IfSome result.session (λ session. EachStory trio Contents session
        (IsAsBefore Contents D.shown device result.device)) }
    ensures none { IsNone result.session → HasNone trio Contents D.shown O.shown 1 Rejects earlier
        Standing device result.device out.old out.new (exit_number result.status) }
    ensures kept { IsDeviceKept D.shown Standing device result.device }
    ensures unfailed { exit_number result.status ≡ 0 →
        D.shown.faults result.device ≡ D.shown.faults device }
    ensures writing { StopsWriting O.shown out.old out.new }
    ensures rest { O.shown.rest out.new ≡ O.shown.rest out.old }
{
    match open_heap::<Trio, D, O>(alloc, device, out) {
        Ok(
            OpenHeap {
                device,
                order,
                space,
                session,
            },
        ) => {
            print_sizes(space, order, out);
            Worked {
                device,
                status: Status::Done,
                session: Some(session),
            }
        }
        Err(worked) => worked,
    }
}
