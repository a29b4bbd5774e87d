//! How the writer answers a found call.
ghost use Rattle.std.specs.Prelude.{◌≡◌, ℕ, ◌+◌, ◌<◌, ◌≤◌, List, [], ◌∷◌, length, false};
ghost use Rattle.rom_model.specs.Machine.{on_words};
ghost use Rattle.rom_model.specs.declared.call.Updated.{Updated};
ghost use Rattle.rom_model.specs.declared.words.TheConstants.{REPLY_WORDS};
ghost use Rattle.rom_announce.specs.Answering.{AltersRecorded, CanAnswer, answered_with, fate_of_place, with_reply};
ghost use Rattle.rom_lr.specs.Seats.{IsWriterOf, plan, steps_of, writer_view};
ghost use Rattle.rom_lr.specs.Writing.{SetsPlan};
ghost use Rattle.rom_rule.specs.CallKinds.{CanFinish, CanMakeRecord, IsPending, altered, answering, laying, placing};
ghost use Rattle.rom_rule.specs.Calls.{packed};
ghost use Rattle.rom_rule.specs.Views.{is_made, plan_of};
ghost use Rattle.rom_rule.specs.declared.views.Plan.{Plan};
ghost use Rattle.rom_rule.specs.declared.views.Request.{Request};

use crate::waiting::wake;
use rom_lr::{Shared, WriterSeat};
use rom_model::{Back, Object};
use rom_rule::{Answers, BeginsAnswer, PLACE, PassEnd, REPLY, StoresPlace, StoresReply, TURN};
use std::marker::Brand;

/// Answers a found call: it stores the number of the reply's words and the words, then the place or a
/// code, and last the turn, even, from which on the caller may take them; and it wakes the caller
/// where that one sleeps. It does not wait. Where the pass has no record yet, this call makes it: the
/// code gives its outcome, and `before` and `after` are the device's counts of faults at the pass's
/// start and now.
pub fn answer<O: Object>(
    shared: &Shared<O>,
    seat: &mut WriterSeat,
    caller: u32,
    place: u64,
    reply: &Back,
    before: u64,
    after: u64,
)
    requires of { IsWriterOf shared.now seat.old }
    requires within { (1 ≤ caller) × (caller ≤ shared.now.layout.callers) }
    // The call was found and is not answered. Place and reply are what the records told it. In a pass without
    // a record the place is a code, with no reply, and it is true. At `FAILED` and `DOUBT` the count of
    // faults rose, or stands at 2^64 - 1; at `SPENT` the count of updates is at its limit.
    requires found { let v = writer_view seat.old in
        (f : Request) × IsPending (plan_of v) caller f
        × CanAnswer O.Contents (on_words O.machine) v.base (plan_of v) f
        place reply.now before after }
    // The pass then has its record, and the call is answered with this place and reply.
    ensures answered { AltersRecorded O.Contents (on_words O.machine) seat.old seat.new caller
        (answered_with place (packed reply.now)) (fate_of_place place) before after }
    ensures steps { steps_of seat.new ≡ steps_of seat.old + length reply.now + 3 }
{
    begin::<O, Brand>(shared, seat, caller, reply.len(), place, before, after);
    store_reply(shared, seat, caller, reply);
    store_place(shared, seat, caller, place);
    finish(shared, seat, caller);
    wake(shared, caller);
}

// The number of the reply's words, which makes the record where there is none.
fn begin<O: Object, N: PassEnd>(
    shared: &Shared<O>,
    seat: &mut WriterSeat,
    caller: u32,
    count: u64,
    place: u64,
    before: u64,
    after: u64,
)
    requires picked { (N.before ≡ before) × (N.after ≡ after) × (N.fate ≡ fate_of_place place) }
    requires of { IsWriterOf shared.now seat.old }
    requires within { (1 ≤ caller) × (caller ≤ shared.now.layout.callers) }
    requires found { (f : Request) × IsPending (plan seat.old) caller f }
    requires can { let v = writer_view seat.old in is_made (plan_of v).mine ≡ false →
        CanMakeRecord O.Contents (on_words O.machine) v.base (plan_of v)
        (fate_of_place place) before after }
    ensures begun { AltersRecorded O.Contents (on_words O.machine) seat.old seat.new caller
        (laying 0 count) (fate_of_place place) before after }
    ensures step { steps_of seat.new ≡ steps_of seat.old + 1 }
{
    let at = shared.layout.slot(caller, REPLY) as usize;
    shared
        .table
        .shared
        .store::<BeginsAnswer<O, N>>(&mut seat.token, at, count);
}

fn store_reply<O: Object>(shared: &Shared<O>, seat: &mut WriterSeat, caller: u32, reply: &Back)
    requires of { IsWriterOf shared.now seat.old }
    requires within { (1 ≤ caller) × (caller ≤ shared.now.layout.callers)
        × (length reply.now ≤ REPLY_WORDS) }
    requires found { (p : Plan) × (f : Request) × IsPending p caller f
        × (plan seat.old ≡ altered caller (with_reply (length reply.now ∷ [])) p) }
    ensures stored { SetsPlan seat.old seat.new (altered caller (with_reply (packed reply.now))
        (plan seat.old)) }
    ensures steps { steps_of seat.new ≡ steps_of seat.old + length reply.now }
{
    for i in 0..reply.len() {
        store_word(shared, seat, caller, 1 + i, reply.at(i).unwrap());
    }
}

// Word j of a reply, where word 0 is the number of the others.
fn store_word<O: Object>(shared: &Shared<O>, seat: &mut WriterSeat, caller: u32, j: u64, word: u64)
    requires of { IsWriterOf shared.now seat.old }
    requires within { (1 ≤ caller) × (caller ≤ shared.now.layout.callers) × (j < REPLY_WORDS + 1) }
    requires found { (f : Request) × IsPending (plan seat.old) caller f × (j ≤ length f.laid) }
    ensures stored { SetsPlan seat.old seat.new (altered caller (laying j word) (plan seat.old)) }
    ensures step { steps_of seat.new ≡ steps_of seat.old + 1 }
{
    let at = shared.layout.slot(caller, REPLY + j) as usize;
    shared
        .table
        .shared
        .store::<StoresReply>(&mut seat.token, at, word);
}

fn store_place<O: Object>(shared: &Shared<O>, seat: &mut WriterSeat, caller: u32, place: u64)
    requires of { IsWriterOf shared.now seat.old }
    requires within { (1 ≤ caller) × (caller ≤ shared.now.layout.callers) }
    requires found { (f : Request) × IsPending (plan seat.old) caller f }
    ensures stored { SetsPlan seat.old seat.new (altered caller (placing place) (plan seat.old)) }
    ensures step { steps_of seat.new ≡ steps_of seat.old + 1 }
{
    let at = shared.layout.slot(caller, PLACE) as usize;
    shared
        .table
        .shared
        .store::<StoresPlace>(&mut seat.token, at, place);
}

// The turn, even: one more than the odd one, which nobody else changes now.
fn finish<O: Object>(shared: &Shared<O>, seat: &mut WriterSeat, caller: u32)
    requires of { IsWriterOf shared.now seat.old }
    requires within { (1 ≤ caller) × (caller ≤ shared.now.layout.callers) }
    requires found { (f : Request) × (u : Updated (List ℕ)) × (place : ℕ) × (f.caller ≡ caller)
        × CanFinish (plan seat.old) f u place }
    ensures answered { SetsPlan seat.old seat.new (altered caller answering (plan seat.old)) }
    ensures step { steps_of seat.new ≡ steps_of seat.old + 1 }
{
    let at = shared.layout.slot(caller, TURN) as usize;
    shared
        .table
        .shared
        .fetch_add::<Answers>(&mut seat.token, at, 1);
}
