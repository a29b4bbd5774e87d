//! Shared main as a space, to which an update can be applied.
//!
//! It stands here and not with the pass in `rom_combine`, since what it keeps are facts on the writer's seat.
//! An update comes to shared words by [`apply_words_main`] alone; only tests call `apply_main`.
ghost use Rattle.std.specs.Prelude.{◌≡◌, ℕ, ◌+◌, ◌*◌, ◌<◌, ◌≤◌, Some, IsSome};
ghost use Rattle.rom_model.specs.History.{LAST_COUNT};
ghost use Rattle.rom_model.specs.Machine.{on_words, weight_on_words};
ghost use Rattle.rom_lr.specs.Seats.{IsWriterOf, plan, writer_view};
ghost use Rattle.rom_lr.specs.Writing.{NobodyReads, SetsPlan, but_main};
ghost use Rattle.rom_lr.specs.declared.side.Side.TheVariants.{Main};
ghost use Rattle.rom_ranges.specs.Changes.{IsLogOf, IsLogOf-prop};
ghost use Rattle.rom_rule.specs.Views.{plan_of};
ghost use Rattle.rom_rule.specs.declared.views.View.{View};

use crate::seats::WriterSeat;
use crate::shared::Shared;
use rom_model::{Args, Back, Look, Object, Space};
use rom_ranges::RangeLog;

/// Shared main while nobody reads it, as a space. Its words are those of main in the writer's plan,
/// and the log holds where they differ from back: each offset that is stored to is added to it. So
/// its stores are counted from when the log was cleared, and as many of them as the log has room for
/// are the limit. Loads are not counted: each load and store is one of the writer's steps.
struct MainSpace<'a, O: Object> {
    shared: &'a Shared<O>,
    seat: &'a mut WriterSeat,
    log: &'a mut RangeLog,
    ghost of: { IsWriterOf shared.now seat.now },
    ghost unread: { NobodyReads seat.now Main },
    ghost logged: { IsLogOf (plan seat.now).back (plan seat.now).main log.now } by { IsLogOf-prop (plan seat.now).back (plan seat.now).main log.now },
}

impl<'a, O: Object> Look for MainSpace<'a, O> {
    ghost use Rattle.std.specs.Prelude.{ℕ, false, true};
    ghost use Rattle.atomic_table.specs.Seated.{TableId};
    ghost use Rattle.rom_lr.specs.Seats.{plan, writer_view};
    ghost use Rattle.rom_lr.specs.Writing.{but_main};
    ghost use Rattle.rom_rule.specs.declared.views.View.{View};

    ghost shown = { record {
      image = λ s. (plan s.seat.now).main;
      tells_loads = false;
      loads = λ _. 0;
      tells_stores = true;
      stores = λ s. s.log.now.added;
      has_limit = true;
      limit = λ s. s.log.now.room;
      Rest = ℕ × ℕ × TableId × ℕ × View;
      rest = λ s. (
        s.log.ghost_name,
        s.seat.ghost_name,
        s.seat.now.token.table_id,
        s.seat.now.token.id,
        but_main (writer_view s.seat.now),
      );
    } };

    fn load(&mut self, at: u64) -> u64 {
        self.shared.load_main(self.seat, at)
    }

    ghost limit_counts = { λ is. is };
}

impl<'a, O: Object> Space for MainSpace<'a, O> {
    fn store(&mut self, at: u64, value: u64) {
        self.log.add(at);
        self.shared.store_main(self.seat, at, value);
    }
}

/// Does an update on shared main, and counts it. Nothing but main changes, and the number of the
/// writer's steps. The log, which holds where main differs from back, holds that afterwards too, and
/// has room for as many stores as an update of its weight may make. It takes no memory.
pub fn apply_main<O: Object>(
    shared: &Shared<O>,
    seat: &mut WriterSeat,
    log: &mut RangeLog,
    call: &O::Call,
) -> O::Reply
    requires of { IsWriterOf shared.now seat.old }
    requires unread { NobodyReads seat.old Main }
    // Shared main stands for some state and count of the object, and the count is below its limit.
    requires region { let v = writer_view seat.old in
        (s : O.State) × (k : ℕ) × O.Contents v.base.order (plan_of v).main s k × (k < LAST_COUNT) }
    // The log holds each place where main differs from back.
    requires logged { let p = plan seat.old in IsLogOf p.back p.main log.old }
    requires room { log.old.added + O.STORES * O.machine.weight call.now ≤ log.old.room }
    // The reply is the object's, and main then stands for the state after the call, and the count one higher.
    ensures done { let v = writer_view seat.old in
        (s : O.State) (k : ℕ) → O.Contents v.base.order (plan_of v).main s k →
        let after = O.machine.step v.base.order s k call.now in
        (result ≡ after.1) × O.Contents v.base.order (plan seat.new).main after.0 (k + 1) }
    // Of what the writer knows only main and the number of its steps change.
    ensures still { let p = plan seat.old in
        SetsPlan seat.old seat.new (record p { main = (plan seat.new).main }) }
    ensures logged { IsLogOf (plan seat.old).back (plan seat.new).main log.new }
    // The log grows by no more than the stores that a call of this weight may make.
    ensures added { log.new.added ≤ log.old.added + O.STORES * O.machine.weight call.now }
    ensures room { log.new.room ≡ log.old.room }
{
    let order = shared.layout.order();
    let mut space = MainSpace { shared, seat, log };
    let reply = O::apply(&mut space, order, call);
    let MainSpace {
        shared: _,
        seat: _,
        log: _,
    } = space;
    reply
}

/// Does the update whose words these are on shared main, as [`apply_main`] does, and makes `told` the
/// words of its reply.
pub fn apply_words_main<O: Object>(
    shared: &Shared<O>,
    seat: &mut WriterSeat,
    log: &mut RangeLog,
    words: &Args,
    told: &mut Back,
)
    requires of { IsWriterOf shared.now seat.old }
    requires unread { NobodyReads seat.old Main }
    requires call { IsSome (O.machine.words_call words.now) }
    // Shared main stands for some state and count of the object, and the count is below its limit.
    requires region { let v = writer_view seat.old in
        (s : O.State) × (k : ℕ) × O.Contents v.base.order (plan_of v).main s k × (k < LAST_COUNT) }
    // The log holds each place where main differs from back.
    requires logged { let p = plan seat.old in IsLogOf p.back p.main log.old }
    // The log has room for the stores of a call of the greatest weight.
    requires room { log.old.added + O.STORES * O.WEIGHT ≤ log.old.room }
    // `told` has the words of the object's reply. Main then stands for the state after the call, and the
    // count one higher.
    ensures done { let v = writer_view seat.old in
        (s : O.State) (k : ℕ) → O.Contents v.base.order (plan_of v).main s k →
        (after : O.State)
        × (on_words O.machine v.base.order s k words.now ≡ Some (after, told.new))
        × O.Contents v.base.order (plan seat.new).main after (k + 1) }
    // Of what the writer knows only main and the number of its steps change.
    ensures still { let p = plan seat.old in
        SetsPlan seat.old seat.new (record p { main = (plan seat.new).main }) }
    ensures logged { IsLogOf (plan seat.old).back (plan seat.new).main log.new }
    // The log grows by no more than the stores that a call of this weight may make.
    ensures added { log.new.added
        ≤ log.old.added + O.STORES * weight_on_words O.machine words.now }
    ensures weight { weight_on_words O.machine words.now ≤ O.WEIGHT }
    ensures room { log.new.room ≡ log.old.room }
{
    let order = shared.layout.order();
    let mut space = MainSpace { shared, seat, log };
    O::apply_words(&mut space, order, words, told);
    let MainSpace {
        shared: _,
        seat: _,
        log: _,
    } = space;
}
