//! The device through a batch, whose images are the two sides of the shared words.
ghost use Rattle.std.specs.Prelude.{◌≡◌, ◌⊎◌, ◌+◌, ℕ, List, OnOk, OnErr, IsTrue, length};
ghost use Rattle.rom_model.specs.Blocks.{region_len};
ghost use Rattle.rom_model.specs.Faults.{FailedLast, Rose};
ghost use Rattle.rom_model.specs.Space.{Looks};
ghost use Rattle.rom_device.specs.Device.{Becomes, Makes, Runs};
ghost use Rattle.rom_lr.specs.Seats.{IsWriterOf, plan, writer_view};
ghost use Rattle.rom_lr.specs.Writing.{SetsPlan};
ghost use Rattle.rom_ranges.specs.Changes.{SameBut};
ghost use Rattle.rom_ranges.specs.Ranges.{AreWithin, held_count};
ghost use Rattle.rom_twin.specs.Seen.{KeepsHeap, NeedsRepair, Rests, committed, main_now};
ghost use Rattle.rom_combine.specs.Causes.{FailsAtCommit, FailsBeforeCommit};
ghost use Rattle.rom_combine.specs.Costs.{IsUnfailed, Spends, SpendsAtMost, WritesHeap, mending_syncs, mending_writes};
ghost use Rattle.rom_combine.specs.Images.{BeforeCommit, Counting, Committable};

use crate::looking::MainLook;
use rom_device::{Device, Failed};
use rom_lr::{Shared, WriterSeat};
use rom_model::{Look, Object};
use rom_ranges::Range;
use rom_twin::{Phase, Twin};

/// Repairs the device where it needs it. A fault at the last write of a repair, of IDLE, is no
/// error.
fn make_clean<D: Device, M: Look>(twin: &mut Twin<D>, image: &mut M) -> Result<(), Failed>
    requires rests { Rests twin.old.phase }
    requires image { length (M.shown.image image.old) ≡ region_len twin.old.order }
    requires committed { IsTrue D.shown.tells_images →
        committed D.shown twin.old ≡ M.shown.image image.old }
    ensures ok { OnOk result (twin.new.phase ≡ Phase.Clean) }
    ensures failed { OnErr result ((twin.new.phase ≡ twin.old.phase) × NeedsRepair twin.old.phase) }
    ensures kept { KeepsHeap D.shown (committed D.shown twin.old) twin.old twin.new }
    ensures before { IsTrue D.shown.tells_images →
        Runs D.shown (Becomes (BeforeCommit twin.old.phase twin.old.order
        (committed D.shown twin.old)))
        twin.old.device twin.new.device }
    ensures looks { Looks M.shown (region_len twin.old.order) image.old image.new }
    ensures spends { OnOk result (Spends D.shown (mending_writes twin.old.phase twin.old.order)
        (mending_syncs twin.old.phase) twin.old.device twin.new.device) }
    ensures most { SpendsAtMost D.shown (mending_writes twin.old.phase twin.old.order)
        (mending_syncs twin.old.phase) twin.old.device twin.new.device }
    ensures device { WritesHeap D.shown twin.old.order twin.old.device twin.new.device }
    ensures cause { OnErr result (Rose (D.shown.faults twin.old.device)
        (D.shown.faults twin.new.device)
        × IsTrue (D.shown.failing twin.new.device)) }
{
    if twin.phase() == Phase::Clean {
        return Ok(());
    }
    twin.repair(image)
}

/// Repairs the device where it needs it, and begins. Shared main is the committed image.
pub(crate) fn begin_on<D: Device, O: Object>(
    twin: &mut Twin<D>,
    shared: &Shared<O>,
    seat: &mut WriterSeat,
) -> Result<(), Failed>
    requires of { IsWriterOf shared.now seat.old }
    requires rests { Rests twin.old.phase }
    requires order { twin.old.order ≡ (writer_view seat.old).base.order }
    requires committed { IsTrue D.shown.tells_images →
        committed D.shown twin.old ≡ (plan seat.old).main }
    ensures same { SetsPlan seat.old seat.new (plan seat.old) }
    ensures ok { OnOk result (twin.new.phase ≡ Phase.Begun) }
    ensures failed { OnErr result ((twin.new.phase ≡ Phase.Undo)
        ⊎ ((twin.new.phase ≡ twin.old.phase) × NeedsRepair twin.old.phase)) }
    ensures kept { KeepsHeap D.shown (committed D.shown twin.old) twin.old twin.new }
    ensures main { IsTrue D.shown.tells_images →
        OnOk result (main_now D.shown twin.new ≡ committed D.shown twin.old) }
    ensures since { IsTrue D.shown.tells_images →
        Runs D.shown (Becomes (Counting twin.old.order (committed D.shown twin.old)))
        twin.old.device twin.new.device }
    ensures before { IsTrue D.shown.tells_images →
        Runs D.shown (Becomes (BeforeCommit twin.old.phase twin.old.order
        (committed D.shown twin.old)))
        twin.old.device twin.new.device }
    ensures spends { OnOk result (Spends D.shown (mending_writes twin.old.phase twin.old.order + 1)
        (mending_syncs twin.old.phase + 1) twin.old.device twin.new.device) }
    ensures most { SpendsAtMost D.shown (mending_writes twin.old.phase twin.old.order + 1)
        (mending_syncs twin.old.phase + 1) twin.old.device twin.new.device }
    ensures device { WritesHeap D.shown twin.old.order twin.old.device twin.new.device }
    ensures cause { OnErr result (FailsBeforeCommit D.shown twin.old.phase twin.old.order
        (committed D.shown twin.old)
        twin.old.device twin.new.device) }
{
    let mut look = MainLook { shared, seat };
    let mended = make_clean(twin, &mut look);
    let MainLook { shared: _, seat: _ } = look;
    mended?;
    twin.begin()
}

/// Writes shared main to main on the device, and commits. The ranges hold where they differ.
pub(crate) fn commit_on<D: Device, O: Object>(
    twin: &mut Twin<D>,
    shared: &Shared<O>,
    seat: &mut WriterSeat,
    ranges: &[Range],
) -> Result<(), Failed>
    requires of { IsWriterOf shared.now seat.old }
    requires phase { twin.old.phase ≡ Phase.Begun }
    requires order { twin.old.order ≡ (writer_view seat.old).base.order }
    requires within { AreWithin (region_len twin.old.order) ranges.now }
    requires but { IsTrue D.shown.tells_images →
        SameBut ranges.now (main_now D.shown twin.old) (plan seat.old).main }
    ensures same { SetsPlan seat.old seat.new (plan seat.old) }
    ensures ok { OnOk result (twin.new.phase ≡ Phase.Committed) }
    ensures failed { OnErr result ((twin.new.phase ≡ Phase.Undo)
        ⊎ (twin.new.phase ≡ Phase.Doubt)) }
    ensures kept { KeepsHeap D.shown (committed D.shown twin.old) twin.old twin.new }
    ensures main { IsTrue D.shown.tells_images →
        OnOk result (main_now D.shown twin.new ≡ (plan seat.old).main) }
    ensures now { IsTrue D.shown.tells_images → (i : List ℕ) → D.shown.leaves twin.new.device i →
        Committable twin.new.phase twin.old.order (committed D.shown twin.old)
        (plan seat.old).main i }
    ensures since { IsTrue D.shown.tells_images →
        Runs D.shown (Becomes (Committable twin.new.phase twin.old.order
        (committed D.shown twin.old) (plan seat.old).main))
        twin.old.device twin.new.device }
    ensures device { WritesHeap D.shown twin.old.order twin.old.device twin.new.device }
    ensures makes { Makes D.shown 0 (held_count ranges.now + 1) 2
        twin.old.device twin.new.device result }
    ensures undo { twin.new.phase ≡ Phase.Undo →
        SpendsAtMost D.shown (held_count ranges.now) 1 twin.old.device twin.new.device
        × FailsBeforeCommit D.shown Phase.Clean twin.old.order (committed D.shown twin.old)
        twin.old.device twin.new.device }
    ensures doubt { twin.new.phase ≡ Phase.Doubt →
        FailsAtCommit D.shown Phase.Clean twin.old.order (committed D.shown twin.old)
        twin.old.device twin.new.device }
{
    let mut look = MainLook { shared, seat };
    let written = twin.persist(ranges, &mut look);
    let MainLook { shared: _, seat: _ } = look;
    written?;
    twin.commit()
}

/// Writes shared main to back on the device, and ends the batch. The ranges hold where they differ. A
/// fault here changes no answer.
pub(crate) fn finish_on<D: Device, O: Object>(
    twin: &mut Twin<D>,
    shared: &Shared<O>,
    seat: &mut WriterSeat,
    ranges: &[Range],
)
    requires of { IsWriterOf shared.now seat.old }
    requires phase { twin.old.phase ≡ Phase.Committed }
    requires order { twin.old.order ≡ (writer_view seat.old).base.order }
    requires within { AreWithin (region_len twin.old.order) ranges.now }
    requires main { IsTrue D.shown.tells_images →
        main_now D.shown twin.old ≡ (plan seat.old).main }
    requires but { IsTrue D.shown.tells_images →
        SameBut ranges.now (committed D.shown twin.old) (plan seat.old).main }
    ensures same { SetsPlan seat.old seat.new (plan seat.old) }
    ensures phase { (twin.new.phase ≡ Phase.Clean) ⊎ (twin.new.phase ≡ Phase.Redo) }
    ensures kept { KeepsHeap D.shown (plan seat.old).main twin.old twin.new }
    ensures since { IsTrue D.shown.tells_images →
        Runs D.shown (Becomes (Counting twin.old.order (plan seat.old).main))
        twin.old.device twin.new.device }
    ensures spends { IsUnfailed D.shown twin.old.device twin.new.device →
        Spends D.shown (held_count ranges.now + 1) 1 twin.old.device twin.new.device }
    ensures most { SpendsAtMost D.shown (held_count ranges.now + 1) 1
        twin.old.device twin.new.device }
    ensures device { WritesHeap D.shown twin.old.order twin.old.device twin.new.device }
    ensures cause { twin.new.phase ≡ Phase.Redo → FailedLast (D.shown.faults twin.old.device)
        (D.shown.faults twin.new.device) (D.shown.failing twin.new.device) }
{
    let mut look = MainLook { shared, seat };
    let copied = twin.copy(ranges, &mut look);
    let MainLook { shared: _, seat: _ } = look;
    if copied.is_err() {
        return;
    }
    let _ = twin.finish();
}
