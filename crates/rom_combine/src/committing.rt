//! A batch from the found calls to the store of `side` that publishes it.
ghost use Rattle.std.specs.Prelude.{◌≡◌, ◌≢◌, ℕ, ◌+◌, ◌*◌, ◌<◌, ◌≤◌, map, length};
ghost use Rattle.rom_model.specs.Blocks.{region_len};
ghost use Rattle.rom_model.specs.Machine.{on_words, weight_on_words};
ghost use Rattle.rom_model.specs.Passes.{batch_told};
ghost use Rattle.rom_model.specs.declared.limits.TheConstants.{MAX_CALLERS};
ghost use Rattle.rom_combine.specs.Answering.{HasGiven, SameCalls};
ghost use Rattle.rom_combine.specs.Applying.{laid_of, laid_told};
ghost use Rattle.rom_combine.specs.Costs.{SpendsAtMost, WritesHeap, syncs_before_commit, weights_found, writes_before_commit};
ghost use Rattle.rom_combine.specs.Ends.{EndsFailed, EndsInDoubt, EndsPublished, EndsUnpublished, LeavesBatch};
ghost use Rattle.rom_combine.specs.Histories.{batch_found};
ghost use Rattle.rom_combine.specs.Publishing.{IsReadyToPublish};
ghost use Rattle.rom_combine.specs.Scanning.{posted_of};
ghost use Rattle.rom_combine.specs.Told.{fate_of};
ghost use Rattle.rom_lr.specs.Seats.{IsWriterOf, plan, writer_view};
ghost use Rattle.rom_lr.specs.Switch.{HasSwitched};
ghost use Rattle.rom_lr.specs.Writing.{SetsPlan};
ghost use Rattle.rom_lr.specs.declared.side.Side.TheVariants.{Main};
ghost use Rattle.rom_rule.specs.Calls.{found_of};
ghost use Rattle.rom_rule.specs.Kinds.{CanSwitchToMain};

use crate::answering::{CallAnswer, refuse};
use crate::applying::apply_all;
use crate::passed::Outcome;
use crate::per_caller::PerCaller;
use crate::scanning::Posted;
use crate::sides::copy_to;
use crate::steps::{begin_on, commit_on};
use rom_device::Device;
use rom_lr::{Shared, Side, WriterSeat};
use rom_model::{DOUBT, FAILED, Object};
use rom_ranges::RangeLog;
use rom_rule::PassEnd;
use rom_twin::{Phase, Twin};
use std::marker::Brand;

/// Makes the device ready, does the found calls on shared main, commits them, and sends readers to
/// main. Only words that the calls stored to are written, and the log holds these then. Where the
/// device fails, shared main is put back from shared back, and each found call is to be told the code
/// of that. `before` is the device's count of faults at the pass's start, `place` the count of updates.
/// It answers nobody, and takes no memory.
pub(crate) fn publish<D: Device, O: Object>(
    twin: &mut Twin<D>,
    shared: &Shared<O>,
    seat: &mut WriterSeat,
    log: &mut RangeLog,
    before: u64,
    place: u64,
    found: &[Posted],
    answers: &mut PerCaller<CallAnswer>,
) -> Outcome
    requires of { IsWriterOf shared.now seat.old }
    requires ready { IsReadyToPublish D.shown O.Contents (on_words O.machine)
        twin.old seat.old log.old before place }
    requires found { found.now ≡ map posted_of (plan seat.old).requests }
    requires few { length found.now ≤ MAX_CALLERS }
    requires some { 0 < length found.now }
    requires room { O.STORES * O.WEIGHT * length found.now ≤ log.old.room }

    // However it ends.
    ensures some { result ≢ Outcome.Nothing }
    ensures same { SetsPlan seat.old seat.new (plan seat.new) }
    ensures calls { SameCalls (plan seat.old) (plan seat.new) }
    ensures order { twin.new.order ≡ twin.old.order }
    ensures room { log.new.room ≡ log.old.room }
    // What each found call is to be told stands in the answers.
    ensures left { HasGiven O.Contents (on_words O.machine) (writer_view seat.old).base
        (fate_of result) before (D.shown.faults twin.new.device) (plan seat.new) 0
        answers.new.items }
    // Each image that a stop leaves holds the history from before, or that followed by the batch.
    ensures stops { LeavesBatch D.shown O.Contents O.machine (writer_view seat.old).base
        (plan seat.old) result twin.old twin.new }

    // By how it ends. Published: the batch is committed on the device, and readers are sent to main.
    ensures published { result ≡ Outcome.Published → EndsPublished D.shown O.Contents O.machine
        (writer_view seat.old).base (plan seat.old) (plan seat.new) O.STORES before
        twin.old twin.new log.new }
    // Then the answers are what a published pass tells of the found calls, in their order.
    ensures told { result ≡ Outcome.Published → (s : O.State) (n : ℕ) →
        let b = (writer_view seat.old).base in let p = plan seat.old in
        O.Contents b.order b.image s n → map laid_of answers.new.items
        ≡ map laid_told (batch_told (n + length p.history) (map found_of p.requests)
        (batch_found O.Contents (on_words O.machine) b s n p)) }
    // Else the history, the records, the found calls and both sides are as they were.
    ensures unpublished { result ≢ Outcome.Published →
        EndsUnpublished D.shown (plan seat.old) (plan seat.new) twin.old twin.new log.new }
    // Failed: the device failed before COPYING was to be written.
    ensures failed { result ≡ Outcome.Failed → EndsFailed D.shown
        (O.STORES * weights_found (weight_on_words O.machine) (plan seat.old))
        (plan seat.old).main twin.old twin.new }
    // In doubt: the write of COPYING or the sync after it failed.
    ensures doubt { result ≡ Outcome.Doubt →
        EndsInDoubt D.shown (plan seat.old).main twin.old twin.new }

    // How many writes and syncs were made, and where.
    ensures device { WritesHeap D.shown twin.old.order twin.old.device twin.new.device }
    // At most those up to the sync of COPYING, of a batch of as many words as the found calls may store.
    ensures most { SpendsAtMost D.shown (writes_before_commit twin.old.phase twin.old.order
        (O.STORES * weights_found (weight_on_words O.machine) (plan seat.old)) + 1)
        (syncs_before_commit twin.old.phase + 1) twin.old.device twin.new.device }
    // Nor ever more than a batch that stores to each word of the region.
    ensures whole { SpendsAtMost D.shown (writes_before_commit twin.old.phase twin.old.order
        (region_len twin.old.order) + 1)
        (syncs_before_commit twin.old.phase + 1) twin.old.device twin.new.device }
{
    if begin_on(twin, shared, seat).is_err() {
        refuse(found, FAILED, answers);
        return Outcome::Failed;
    }
    apply_all(shared, seat, log, place, found, answers);
    if commit_on(twin, shared, seat, log.list()).is_ok() {
        let now = twin.fault_count();
        send_to_main::<D, O, Brand>(twin, shared, seat, before, now);
        return Outcome::Published;
    }
    copy_to(shared, seat, Side::Main, log.list());
    log.clear();
    // The phase tells whether COPYING was to be written. `failed` and `doubt` say of each outcome how
    // the device failed (`cause`), so a body that always ends with `Failed` is refused.
    if twin.phase() == Phase::Doubt {
        refuse(found, DOUBT, answers);
        return Outcome::Doubt;
    }
    refuse(found, FAILED, answers);
    Outcome::Failed
}

// Sends readers to main. The pass's record then has the device's moment of now: the batch is committed, and
// nobody is answered yet.
fn send_to_main<D: Device, O: Object, N: PassEnd>(
    twin: &Twin<D>,
    shared: &Shared<O>,
    seat: &mut WriterSeat,
    before: u64,
    after: u64,
)
    requires picked { (N.before ≡ before) × (N.after ≡ after)
        × (N.moment ≡ D.shown.clock twin.now.device) }
    requires of { IsWriterOf shared.now seat.old }
    requires can { CanSwitchToMain O.Contents (on_words O.machine) (writer_view seat.old).base
        (plan seat.old) before after }
    ensures switched { HasSwitched O.Contents (on_words O.machine) seat.old seat.new Main before
        after (D.shown.clock twin.now.device) }
{
    shared.switch_as::<N>(seat, Side::Main, before, after);
}
