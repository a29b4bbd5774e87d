//! How a published batch comes to rest.
ghost use Rattle.std.specs.Prelude.{◌≡◌, ◌⊎◌, ℕ, ◌+◌, IsTrue};
ghost use Rattle.rom_model.specs.Faults.{FailedLast};
ghost use Rattle.rom_model.specs.Machine.{on_words};
ghost use Rattle.rom_device.specs.Device.{Becomes, Runs};
ghost use Rattle.rom_twin.specs.Seen.{KeepsHeap, committed, main_now};
ghost use Rattle.rom_combine.specs.AtRest.{IsClear};
ghost use Rattle.rom_combine.specs.Costs.{IsUnfailed, Spends, SpendsAtMost, WritesHeap};
ghost use Rattle.rom_combine.specs.Images.{Counting};
ghost use Rattle.rom_combine.specs.Resting.{HasRested};
ghost use Rattle.rom_lr.specs.Seats.{IsWriterOf, plan, writer_view};
ghost use Rattle.rom_ranges.specs.Changes.{IsLogOf};
ghost use Rattle.rom_ranges.specs.Ranges.{held_count};
ghost use Rattle.rom_rule.specs.Kinds.{MayRaise};
ghost use Rattle.rom_rule.specs.Readers.{Held, Settled};

use crate::sides::copy_to;
use crate::steps::finish_on;
use rom_device::Device;
use rom_lr::{Shared, Side, WriterSeat};
use rom_model::Object;
use rom_ranges::RangeLog;
use rom_twin::{Phase, Twin};
use std::sync::Wait;

/// Waits until nobody reads back, makes back what main is, in memory and on the device, sends readers
/// to back, and waits until nobody reads main. Only the words that the log holds are copied, and it is
/// cleared. A fault of the device here changes no answer. No word of a posted call is stored, so its
/// answer may be given before this or after it.
pub(crate) fn settle<D: Device, O: Object, R: Wait>(
    rt: &R,
    twin: &mut Twin<D>,
    shared: &Shared<O>,
    seat: &mut WriterSeat,
    log: &mut RangeLog,
    before: u64,
)
    requires of { IsWriterOf shared.now seat.old }
    requires side { (plan seat.old).side ≡ 0 }
    requires phase { twin.old.phase ≡ Phase.Committed }
    requires order { twin.old.order ≡ (writer_view seat.old).base.order }
    requires main { IsTrue D.shown.tells_images →
        main_now D.shown twin.old ≡ (plan seat.old).main }
    requires back { IsTrue D.shown.tells_images →
        committed D.shown twin.old ≡ (plan seat.old).back }
    requires logged { let p = plan seat.old in IsLogOf p.back p.main log.old }
    requires raises { MayRaise before (D.shown.faults twin.old.device)
        (plan seat.old).mine }
    requires held { let b = (writer_view seat.old).base in let p = plan seat.old in
        (s : O.State) × (n : ℕ) × O.Contents b.order b.image s n
        × Held O.Contents (on_words O.machine) b s n p.main p.history }
    ensures rested { HasRested (D.shown.faults twin.new.device) seat.old seat.new }
    ensures settled { Settled (writer_view seat.new).base (plan seat.new) }
    ensures cleared { IsClear log.new }
    ensures room { log.new.room ≡ log.old.room }
    ensures phase { (twin.new.phase ≡ Phase.Clean) ⊎ (twin.new.phase ≡ Phase.Redo) }
    ensures kept { KeepsHeap D.shown (plan seat.old).main twin.old twin.new }
    ensures since { IsTrue D.shown.tells_images →
        Runs D.shown (Becomes (Counting twin.old.order (plan seat.old).main))
        twin.old.device twin.new.device }
    ensures spends { IsUnfailed D.shown twin.old.device twin.new.device →
        Spends D.shown (held_count log.old.ranges + 1) 1 twin.old.device twin.new.device }
    ensures most { SpendsAtMost D.shown (held_count log.old.ranges + 1) 1
        twin.old.device twin.new.device }
    ensures device { WritesHeap D.shown twin.old.order twin.old.device twin.new.device }
    ensures cause { twin.new.phase ≡ Phase.Redo → FailedLast (D.shown.faults twin.old.device)
        (D.shown.faults twin.new.device) (D.shown.failing twin.new.device) }
{
    shared.settle(rt, seat);
    copy_to(shared, seat, Side::Back, log.list());
    finish_on(twin, shared, seat, log.list());
    log.clear();
    let now = twin.fault_count();
    shared.switch(seat, Side::Back, before, now);
    shared.settle(rt, seat);
}
