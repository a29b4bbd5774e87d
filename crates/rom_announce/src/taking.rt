//! How a caller learns what became of its call.
ghost use Rattle.std.specs.Prelude.{◌≡◌, ℕ, ◌+◌, ◌<◌, ◌≤◌, ◌∷◌, drop, length, slice_index};
ghost use Rattle.std.specs.Bool.{OnTrue, OnFalse};
ghost use Rattle.rom_model.specs.Machine.{on_words};
ghost use Rattle.rom_model.specs.declared.words.TheConstants.{REPLY_WORDS};
ghost use Rattle.rom_lr.specs.Seats.{IsAnswered, IsPosted, IsSameSeat, IsSeatOf, view};
ghost use Rattle.rom_rule.specs.CallKinds.{IsLast, Learnt};
ghost use Rattle.rom_rule.specs.Calls.{answer_words, packed};
ghost use Rattle.rom_rule.specs.Views.{Told};

use rom_lr::{Seat, Shared};
use rom_model::{Back, Object};
use rom_rule::{LoadsAnswer, LoadsTurn, PLACE, TURN};

/// Whether the posted call was answered, by one load of the caller's turn: true where it is even. Then
/// the caller knows what it was told, and its words can be taken.
pub fn answered<O: Object>(shared: &Shared<O>, seat: &mut Seat) -> bool
    requires of { IsSeatOf shared.now seat.old }
    requires posted { IsPosted seat.old }
    ensures same { IsSameSeat seat.old seat.new }
    // At `false` the caller has learnt nothing, and made one step.
    ensures not_yet { let v = view seat.old in
        OnFalse result (view seat.new ≡ record v { steps = v.steps + 1 }) }
    // At `true` the caller has learnt what one pass told its call, and has seen at least the history up to
    // that pass's end.
    ensures told { OnTrue result (Learnt O.Contents (on_words O.machine)
        seat.old.token.me seat.new.token.me) }
{
    let at = shared.layout.slot(seat.number, TURN) as usize;
    let turn = shared
        .table
        .shared
        .load::<LoadsTurn<O>>(&mut seat.token, at);
    turn % 2 == 0
}

/// The answer to the last call, which was answered: its place in the history or the code that tells
/// that it was not done, and the words of its reply.
pub fn take<O: Object>(shared: &Shared<O>, seat: &mut Seat) -> (u64, Back)
    requires of { IsSeatOf shared.now seat.old }
    requires answered { IsAnswered seat.old }
    requires last { (x : Told) × IsLast (view seat.old) x }
    ensures same { IsSameSeat seat.old seat.new }
    // Place and reply are those of the answer that the caller has learnt last.
    ensures answer { (x : Told) → IsLast (view seat.old) x →
        answer_words x.1 ≡ result.0 ∷ packed result.1 }
    ensures still { let v = view seat.old in
        view seat.new ≡ record v { steps = v.steps + length result.1 + 2 } }
{
    let mut reply = Back::new();
    let place = take_into(shared, seat, &mut reply);
    (place, reply)
}

/// As [`take`], but the reply's words are put where they stay.
pub fn take_into<O: Object>(shared: &Shared<O>, seat: &mut Seat, reply: &mut Back) -> u64
    requires of { IsSeatOf shared.now seat.old }
    requires answered { IsAnswered seat.old }
    requires last { (x : Told) × IsLast (view seat.old) x }
    ensures same { IsSameSeat seat.old seat.new }
    // Place and reply are those of the answer that the caller has learnt last.
    ensures answer { (x : Told) → IsLast (view seat.old) x →
        answer_words x.1 ≡ result ∷ packed reply.new }
    ensures still { let v = view seat.old in
        view seat.new ≡ record v { steps = v.steps + length reply.new + 2 } }
{
    let place = load_word(shared, seat, 0);
    let count = load_word(shared, seat, 1);
    load_reply(shared, seat, count, reply);
    place
}

// Word j of the answer: the place or code, the number of the reply's words, then they.
fn load_word<O: Object>(shared: &Shared<O>, seat: &mut Seat, j: u64) -> u64
    requires of { IsSeatOf shared.now seat.old }
    requires answered { IsAnswered seat.old }
    requires inside { j < REPLY_WORDS + 2 }
    ensures same { IsSameSeat seat.old seat.new }
    ensures word { (x : Told) → IsLast (view seat.old) x →
        (length (answer_words x.1) ≤ REPLY_WORDS + 2)
        × (j < length (answer_words x.1) → result ≡ slice_index (answer_words x.1) j) }
    ensures still { let v = view seat.old in view seat.new ≡ record v { steps = v.steps + 1 } }
{
    let at = shared.layout.slot(seat.number, PLACE + j) as usize;
    shared.table.shared.load::<LoadsAnswer>(&mut seat.token, at)
}

fn load_reply<O: Object>(shared: &Shared<O>, seat: &mut Seat, count: u64, reply: &mut Back)
    requires of { IsSeatOf shared.now seat.old }
    requires answered { IsAnswered seat.old }
    requires few { count ≤ REPLY_WORDS }
    ensures same { IsSameSeat seat.old seat.new }
    ensures many { length reply.new ≡ count }
    ensures reply { (x : Told) → IsLast (view seat.old) x → length (answer_words x.1) ≡ count + 2 →
        reply.new ≡ drop 2 (answer_words x.1) }
    ensures still { let v = view seat.old in view seat.new ≡ record v { steps = v.steps + count } }
{
    reply.clear();
    for i in 0..count {
        let word = load_word(shared, seat, 2 + i);
        reply.push(word);
    }
}
