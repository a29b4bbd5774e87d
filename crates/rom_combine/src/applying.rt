//! The found calls, done on shared main.
ghost use Rattle.std.specs.Prelude.{◌≡◌, ℕ, ◌+◌, ◌-◌, ◌*◌, ◌^◌, ◌<◌, ◌≤◌, List, [], ◌∷◌, ◌++◌, map, take, length};
ghost use Rattle.rom_model.specs.History.{LAST_COUNT};
ghost use Rattle.rom_model.specs.Machine.{on_words, weight_on_words};
ghost use Rattle.rom_model.specs.declared.limits.TheConstants.{MAX_CALLERS};
ghost use Rattle.rom_combine.specs.Applying.{IsApplied, IsDoneOne, count_in};
ghost use Rattle.rom_combine.specs.declared.answering.CallAnswer.{CallAnswer};
ghost use Rattle.rom_combine.specs.Costs.{weights};
ghost use Rattle.rom_combine.specs.Scanning.{IsUnanswered, posted_of};
ghost use Rattle.rom_lr.specs.Seats.{IsWriterOf, plan, writer_view};
ghost use Rattle.rom_lr.specs.Writing.{NobodyReads, SetsPlan};
ghost use Rattle.rom_lr.specs.declared.side.Side.TheVariants.{Main};
ghost use Rattle.rom_ranges.specs.Changes.{IsLogOf};
ghost use Rattle.rom_rule.specs.Readers.{Held};
ghost use Rattle.rom_rule.specs.Records.{IsCall};
ghost use Rattle.rom_rule.specs.Views.{Each, plan_of};

use crate::answering::CallAnswer;
use crate::per_caller::PerCaller;
use crate::scanning::Posted;
use rom_lr::{Shared, WriterSeat, apply_words_main};
use rom_model::{LAST_COUNT, Object, SPENT};
use rom_ranges::RangeLog;

/// Does each found call on shared main in turn, and says what each is to be told; `place` is the
/// count before. Past the count's limit a call is not done. Nobody reads main meanwhile. The log
/// holds where main differs from back, and counts the stores.
pub(crate) fn apply_all<O: Object>(
    shared: &Shared<O>,
    seat: &mut WriterSeat,
    log: &mut RangeLog,
    place: u64,
    found: &[Posted],
    answers: &mut PerCaller<CallAnswer>,
)
    requires of { IsWriterOf shared.now seat.old }
    requires unread { NobodyReads seat.old Main }
    requires found { found.now ≡ map posted_of (plan seat.old).requests }
    requires few { length found.now ≤ MAX_CALLERS }
    requires fresh { let v = writer_view seat.old in
        Each (λ _. IsUnanswered (IsCall (on_words O.machine) v.base)) (plan_of v).requests }
    requires held { let b = (writer_view seat.old).base in let p = plan seat.old in
        (s : O.State) × (n : ℕ) × O.Contents b.order b.image s n
        × Held O.Contents (on_words O.machine) b s n p.main p.history
        × (place ≡ n + length p.history) }
    requires logged { let p = plan seat.old in IsLogOf p.back p.main log.old }
    requires clear { log.old.added ≡ 0 }
    requires room { O.STORES * O.WEIGHT * length found.now ≤ log.old.room }
    ensures kept { let p = plan seat.old in
        SetsPlan seat.old seat.new (record p { main = (plan seat.new).main }) }
    ensures applied { let b = (writer_view seat.old).base in let p = plan seat.old in
        (s : O.State) × (n : ℕ) × O.Contents b.order b.image s n
        × IsApplied O.Contents (on_words O.machine) b s n p (plan seat.new).main
        (length found.now) answers.new.items }
    ensures logged { IsLogOf (plan seat.old).back (plan seat.new).main
        log.new }
    ensures few { let calls = take (count_in (plan seat.new).main - place)
        (map (λ one. one.args) found.now) in
        log.new.added ≤ O.STORES * weights (weight_on_words O.machine) calls }
    ensures most { log.new.added
        ≤ O.STORES * weights (weight_on_words O.machine) (map (λ one. one.args) found.now) }
    ensures room { log.new.room ≡ log.old.room }
{
    answers.clear();
    for i in 0..found.len() {
        apply_next(shared, seat, log, place + i as u64, &found[i], answers);
    }
}

// One found call more, whose answer is made where it stays.
fn apply_next<O: Object>(
    shared: &Shared<O>,
    seat: &mut WriterSeat,
    log: &mut RangeLog,
    place: u64,
    one: &Posted,
    answers: &mut PerCaller<CallAnswer>,
)
    requires of { IsWriterOf shared.now seat.old }
    requires unread { NobodyReads seat.old Main }
    requires call { IsCall (on_words O.machine) (writer_view seat.old).base one.now.args }
    requires held { let v = writer_view seat.old in
        (s : O.State) × (place < LAST_COUNT → O.Contents v.base.order (plan_of v).main s place) }
    requires logged { let p = plan seat.old in IsLogOf p.back p.main log.old }
    requires room { log.old.added + O.STORES * O.WEIGHT ≤ log.old.room }
    requires next { length answers.old.items < MAX_CALLERS }
    ensures kept { let p = plan seat.old in
        SetsPlan seat.old seat.new (record p { main = (plan seat.new).main }) }
    ensures done { let v = writer_view seat.old in
        (told : CallAnswer) × IsDoneOne O.Contents (on_words O.machine) v.base one.now place
        (plan_of v).main (plan seat.new).main told
        × (answers.new.items ≡ answers.old.items ++ told ∷ []) }
    ensures logged { IsLogOf (plan seat.old).back (plan seat.new).main
        log.new }
    ensures few { log.new.added
        ≤ log.old.added + O.STORES * weight_on_words O.machine one.now.args }
    ensures most { log.new.added ≤ log.old.added + O.STORES * O.WEIGHT }
    ensures spent { LAST_COUNT ≤ place → log.new ≡ log.old }
    ensures room { log.new.room ≡ log.old.room }
{
    let told = &mut answers.cells[answers.count];
    apply_one(shared, seat, log, place, one, told);
    answers.count += 1;
}

// One found call. What it is to be told is made where it stays, whatever was told there before.
fn apply_one<O: Object>(
    shared: &Shared<O>,
    seat: &mut WriterSeat,
    log: &mut RangeLog,
    place: u64,
    one: &Posted,
    told: &mut CallAnswer,
)
    requires of { IsWriterOf shared.now seat.old }
    requires unread { NobodyReads seat.old Main }
    requires call { IsCall (on_words O.machine) (writer_view seat.old).base one.now.args }
    requires held { let v = writer_view seat.old in
        (s : O.State) × (place < LAST_COUNT → O.Contents v.base.order (plan_of v).main s place) }
    requires logged { let p = plan seat.old in IsLogOf p.back p.main log.old }
    requires room { log.old.added + O.STORES * O.WEIGHT ≤ log.old.room }
    ensures kept { let p = plan seat.old in
        SetsPlan seat.old seat.new (record p { main = (plan seat.new).main }) }
    ensures done { let v = writer_view seat.old in
        IsDoneOne O.Contents (on_words O.machine) v.base one.now place (plan_of v).main
        (plan seat.new).main told.new }
    ensures logged { IsLogOf (plan seat.old).back (plan seat.new).main
        log.new }
    ensures few { log.new.added
        ≤ log.old.added + O.STORES * weight_on_words O.machine one.now.args }
    ensures most { log.new.added ≤ log.old.added + O.STORES * O.WEIGHT }
    ensures spent { LAST_COUNT ≤ place → log.new ≡ log.old }
    ensures room { log.new.room ≡ log.old.room }
{
    told.caller = one.caller;
    if place < LAST_COUNT {
        told.place = place;
        apply_words_main(shared, seat, log, &one.args, &mut told.reply);
        return;
    }
    told.place = SPENT;
    told.reply.clear();
}
