//! What the lock holds: the device with its heap, and the writer's seat.
ghost use Rattle.std.specs.Prelude.{Some, ◌≡◌, ℕ, ◌+◌, ◌*◌, ◌<◌, ◌≤◌, IfSome, IsTrue, drop, length, map};
ghost use Rattle.rom_model.specs.Blocks.{IsOrder, region_len};
ghost use Rattle.rom_model.specs.History.{LAST_COUNT};
ghost use Rattle.rom_model.specs.Machine.{on_words, weight_on_words};
ghost use Rattle.rom_model.specs.Passes.{HasFault};
ghost use Rattle.rom_lr.specs.Seats.{writer_view};
ghost use Rattle.rom_twin.specs.Seen.{NeedsRepair, committed};
ghost use Rattle.rom_combine.specs.AtRest.{IsAtRest, IsCoreOf, IsReady};
ghost use Rattle.rom_combine.specs.Causes.{BeginsIn};
ghost use Rattle.rom_combine.specs.Costs.{SpendsAtMost, WritesHeap, batch_syncs, batch_writes, weights_found};
ghost use Rattle.rom_combine.specs.Ends.{EndsFailed, EndsInDoubt};
ghost use Rattle.rom_combine.specs.Passing.{HasDoneBatch, HasPassed};
ghost use Rattle.rom_combine.specs.Shipping.{Ships, reply_in, text_from, update_of};
ghost use Rattle.rom_combine.specs.Told.{fate_of};
ghost use Rattle.rom_combine.specs.Wanted.{calls_found, posted_from};
ghost use Rattle.rom_rule.specs.Views.{opening_plan, plan_of};

use crate::answering::{CallAnswer, answer_all, refuse};
use crate::committing::publish;
use crate::finding::find;
use crate::gate::Gate;
use crate::passed::{Outcome, Passed};
use crate::per_caller::PerCaller;
use crate::resting::settle;
use crate::scanning::Posted;
use crate::shipper::{Shipper, hand_on};
use rom_device::Device;
use rom_lr::{Shared, WriterSeat};
use rom_model::{Args, COUNT, LAST_COUNT, Object, SPENT};
use rom_ranges::RangeLog;
use rom_twin::{Phase, Twin};
use std::marker::{Model, PhantomData};
use std::sync::Wait;

/// A heap on a device, and the writer's seat at the table whose sides are its images. It stands behind
/// the one lock, and runs the passes. Whenever no pass is under way, both sides are the published
/// image, which is also the committed one of a device that tells its images; readers are sent to back,
/// nobody reads main, and each call that was found is answered. The log is clear, and has room for the
/// stores of a call of the greatest weight of each caller.
#[derive(Drop)]
pub struct Core<D: Device, O: Object> {
    twin: Twin<D>,
    seat: WriterSeat,
    // Where shared main differs from shared back, while a pass is under way.
    log: RangeLog,
    // What a pass finds and answers. They stand here, so that no pass fills them anew.
    found: PerCaller<Posted>,
    answers: PerCaller<CallAnswer>,
    of: PhantomData<O>,
}

impl<D: Device, O: Object> Model for Core<D, O> {
    ghost use Rattle.std.specs.Prelude.{◌*◌};
    ghost use Rattle.rom_model.specs.Machine.{on_words};
    ghost use Rattle.rom_combine.specs.AtRest.{IsAtRest, IsReady, Locked};
    ghost use Rattle.rom_lr.specs.Seats.{writer_view};

    ghost Value = { Locked D };

    ghost view = { λ c. record {
      twin = c.twin;
      table_id = c.seat.token.table_id;
      id = c.seat.token.id;
      view = writer_view c.seat;
    } };

    ghost invariant = { λ c.
        IsAtRest D.shown O.Contents (on_words O.machine) c.twin (writer_view c.seat)
        × IsReady (O.STORES * O.WEIGHT) (writer_view c.seat).base.callers c.log };
}

impl<D: Device, O: Object> Core<D, O> {
    /// The core of a table that was just opened on the committed image of this device. The log is
    /// empty and has room for the stores of a call of the greatest weight of each caller, so that no
    /// pass takes memory.
    pub fn new(twin: Twin<D>, log: RangeLog, seat: WriterSeat) -> Core<D, O>
        requires phase { twin.phase ≡ Phase.Clean }
        requires order { twin.order ≡ (writer_view seat).base.order }
        requires order_fits { IsOrder twin.order }
        // The table was just opened: nothing is published, and no pass was begun.
        requires opening { let v = writer_view seat in
            plan_of v ≡ record (opening_plan v.base) { dealt = (plan_of v).dealt } }
        // The image that the table was opened with stands for some state and count of the object.
        requires formed { let b = (writer_view seat).base in
            (s : O.State) × (k : ℕ) × O.Contents b.order b.image s k }
        // That image is the committed one of the device.
        requires committed { IsTrue D.shown.tells_images →
            committed D.shown twin ≡ (writer_view seat).base.image }
        requires faults { (writer_view seat).base.faults ≤ D.shown.faults twin.device }
        // The log is clear, and has room for the stores of one call of the greatest weight for each caller.
        requires ready { IsReady (O.STORES * O.WEIGHT) (writer_view seat).base.callers log }
        ensures twin { result.twin ≡ twin }
        // The core has the seat that was handed in, with its table, its number and what the writer knows.
        ensures seat { (result.table_id ≡ seat.token.table_id) × (result.id ≡ seat.token.id)
            × (result.view ≡ writer_view seat) }
    {
        // Its contract tells what images a stop may leave now.
        let _ = twin.phase();
        Core {
            twin,
            seat,
            log,
            found: PerCaller::new(Posted::default()),
            answers: PerCaller::new(CallAnswer::default()),
            of: PhantomData,
        }
    }

    /// The twin and the writer's seat as they stand.
    pub fn into_parts(self) -> (Twin<D>, WriterSeat)
        ensures twin { result.0 ≡ self.twin }
        // The seat comes back with its table, its number and what the writer knows.
        ensures seat { (result.1.token.table_id ≡ self.table_id) × (result.1.token.id ≡ self.id)
            × (writer_view result.1 ≡ self.view) }
        // No pass is under way: readers are sent to back, nobody reads main, and each call that was found is
        // answered.
        ensures rest { IsAtRest D.shown O.Contents (on_words O.machine) result.0
            (writer_view result.1) }
    {
        let Core {
            twin,
            seat,
            log: _,
            found: _,
            answers: _,
            of: _,
        } = self;
        (twin, seat)
    }

    /// The count of updates in the heap. It makes one step.
    pub fn count(&mut self, shared: &Shared<O>) -> u64
        requires of { IsCoreOf shared.now self.old }
        // It is that of the opening, and one more for each entry of the published history.
        ensures count { let b = self.old.view.base in (s : O.State) (k : ℕ) →
            O.Contents b.order b.image s k →
            result ≡ k + length (plan_of self.old.view).history }
        ensures within { result ≤ LAST_COUNT }
        // Of what the writer knows only the number of its steps changes.
        ensures still { self.new ≡ record self.old {
          view = record self.old.view {
            plan = Some (plan_of self.old.view);
            steps = self.new.view.steps;
          };
        } }
    {
        shared.load_main(&mut self.seat, COUNT)
    }

    /// Finds the posted calls, does them as one batch, and answers each. The device is repaired first
    /// where it needs it. Where it fails up to the commit, no call is done; later faults are told to
    /// none, and the twin's phase says what they left to do, if anything. It takes no memory. It waits
    /// for readers alone, once each call is answered; up to then only the gate and the shipper may hold it
    /// up, which are told once `publish` has returned, when what they are told is certain. Who has posted just
    /// some calls, of the first callers in their order, may want these: then it does these, and does not return
    /// where it found others.
    pub fn pass<R: Wait, G: Gate, W: Shipper>(
        &mut self,
        rt: &R,
        shared: &Shared<O>,
        gate: &G,
        shipper: &mut W,
        wanted: &[Args],
    ) -> Passed
        requires of { IsCoreOf shared.now self.old }
        // The core keeps its table and seat, what the table was opened with, and the heap's order.
        ensures same { (self.new.table_id ≡ self.old.table_id) × (self.new.id ≡ self.old.id)
            × (self.new.view.base ≡ self.old.view.base)
            × (self.new.twin.order ≡ self.old.twin.order) }
        // Of what the writer knows only its plan and the number of its steps change.
        ensures kept { self.new.view ≡ record self.old.view {
          plan = Some (plan_of self.new.view);
          steps = self.new.view.steps;
        } }

        // However it ends: what it did and answered, and what a stop leaves of it.
        ensures passed { HasPassed D.shown O.Contents O.machine self.old self.new
            shared.now.layout.callers result }
        // The shipper was handed the updates by which the published history has grown, and no others.
        ensures shipped { IsTrue W.shown.tells → (s : O.State) (n : ℕ) →
            O.Contents self.old.view.base.order self.old.view.base.image s n →
            let had = length (plan_of self.old.view).history in
            Ships (W.shown.state shipper.old) (W.shown.state shipper.new) (text_from W.shown.text
            (n + had) (map update_of (drop had (plan_of self.new.view).history))) }
        // Where it did a call, and the shipper keeps the replies of its last batch, these are those of this pass.
        ensures last { 0 < result.done → IfSome (W.shown.last shipper.new) (λ replies.
            replies ≡ map reply_in (map update_of (drop (length (plan_of self.old.view).history)
            (plan_of self.new.view).history))) }
        // Where some calls are wanted, those that the pass found are just these, in the order of their callers.
        ensures wanted { 0 < length wanted.now →
            calls_found (plan_of self.new.view) ≡ posted_from 1 wanted.now }
        // Nothing is read, only the state and the two regions may differ, and no fault is taken back.
        ensures device { WritesHeap D.shown self.old.twin.order
            self.old.twin.device self.new.twin.device }
        // The pass began in `Clean`, and whatever a stop left had the words of shared main in both regions.
        // Or it began in `Undo`, `Doubt` or `Redo`, and the device's last call had failed.
        ensures began { BeginsIn D.shown self.old.twin.phase self.old.twin.order
            (plan_of self.old.view).main self.old.twin.device }
        // The device needed a repair only where its last call had failed.
        ensures needed { NeedsRepair self.old.twin.phase →
            IsTrue (D.shown.failing self.old.twin.device) }

        // By how it ends. Where it did a call, the batch lasts from the commit on, and the phase is at rest.
        ensures done { 0 < result.done →
            HasDoneBatch D.shown O.Contents O.machine self.old self.new O.STORES }
        // A published pass that did no call, as where the count stands at its limit, leaves the device alone.
        ensures spent { result.outcome ≡ Outcome.Published → result.done ≡ 0 →
            self.new.twin ≡ self.old.twin }
        // A pass that found no call leaves the device alone.
        ensures untouched { result.outcome ≡ Outcome.Nothing → self.new.twin ≡ self.old.twin }
        // A pass that did no call waits for no reader: a wait adds the indicators that it found to be 0.
        ensures unwaited { result.done ≡ 0 →
            (plan_of self.new.view).clear ≡ (plan_of self.old.view).clear }
        // A pass fails or is in doubt only where the device's count of faults rises.
        ensures cause { HasFault (fate_of result.outcome) (D.shown.faults self.old.twin.device)
            (D.shown.faults self.new.twin.device) }
        // The outcome is `Failed` only where the device failed before COPYING was to be written.
        ensures failed { result.outcome ≡ Outcome.Failed → EndsFailed D.shown
            (O.STORES * weights_found (weight_on_words O.machine) (plan_of self.new.view))
            (plan_of self.old.view).main self.old.twin self.new.twin }
        // The outcome is `Doubt` only where the write of COPYING or the sync after it failed.
        ensures doubt { result.outcome ≡ Outcome.Doubt →
            EndsInDoubt D.shown (plan_of self.old.view).main self.old.twin self.new.twin }

        // However a pass ends, it makes no more writes and syncs than `spends` of `HasDoneBatch` says, where k is
        // the sum of the weights of all calls that it found.
        ensures most { SpendsAtMost D.shown (batch_writes self.old.twin.phase self.old.twin.order
            (O.STORES * weights_found (weight_on_words O.machine) (plan_of self.new.view)))
            (batch_syncs self.old.twin.phase) self.old.twin.device self.new.twin.device }
        // No pass makes more writes and syncs than a batch that stores to each word of the region, and the
        // repair where one was needed.
        ensures whole { SpendsAtMost D.shown (batch_writes self.old.twin.phase self.old.twin.order
            (region_len self.old.twin.order))
            (batch_syncs self.old.twin.phase) self.old.twin.device self.new.twin.device }
    {
        // Its contract tells what images a stop may leave now.
        let _ = self.twin.phase();
        let before = self.twin.fault_count();
        let seat = &mut self.seat;
        // The functions of a pass take the core's parts, and none is a method of the core: between two of
        // these calls the core is not at rest, and its invariant does not hold.
        find(rt, shared, seat, &mut self.found, wanted);
        if self.found.is_empty() {
            return Passed::of(0, 0, Outcome::Nothing);
        }
        let many = self.found.len() as u32;
        let place = shared.load_main(seat, COUNT);
        // Here neither the device nor the batch is needed, and the first answer makes the pass's record.
        if place == LAST_COUNT {
            refuse(self.found.as_slice(), SPENT, &mut self.answers);
            let answers = self.answers.as_slice();
            answer_all(shared, seat, answers, before, before);
            return Passed::of(many, 0, Outcome::Published);
        }
        let outcome = publish(
            &mut self.twin,
            shared,
            seat,
            &mut self.log,
            before,
            place,
            self.found.as_slice(),
            &mut self.answers,
        );
        let now = self.twin.fault_count();
        if outcome != Outcome::Published {
            answer_all(shared, seat, self.answers.as_slice(), before, now);
            return Passed::of(many, 0, outcome);
        }
        let done = (shared.load_main(seat, COUNT) - place) as u32;
        // The gate is told here and not in `publish`, since a gate may wait, and `publish` may not.
        gate.published(rt, done);
        hand_on(
            shipper,
            seat,
            place,
            done as usize,
            self.found.as_slice(),
            self.answers.as_slice(),
        );
        answer_all(shared, seat, self.answers.as_slice(), before, now);
        settle(rt, &mut self.twin, shared, seat, &mut self.log, before);
        Passed::of(many, done, outcome)
    }
}
