//! Callers who post a call of the heap and take its answer.
ghost use Rattle.std.specs.Prelude.{◌≡◌, ℕ, ◌+◌, ◌<◌, IfNone, IfSome, length};
ghost use Rattle.rom_model.specs.History.{LAST_COUNT};
ghost use Rattle.rom_lr.specs.Seats.{IsAnswered, IsPosted, IsSeatOf, view};

use rom_announce::{answered, post, take};
use rom_heap::Trio;
use rom_lr::{Seat, Shared};
use rom_model::{Back, Call, DOUBT, FAILED, LAST_COUNT, Object, Reply, SPENT, Updated};

/// Posts a call.
pub fn post_call(shared: &Shared<Trio>, seat: &mut Seat, call: Call)
    requires of { IsSeatOf shared.now seat.old }
    requires none_posted { IsAnswered seat.old }
    requires few { length (view seat.old).calls < LAST_COUNT }
    ensures of { IsSeatOf shared.now seat.new }
    ensures position { (view seat.new).position ≡ (view seat.old).position }
    ensures calls { length (view seat.new).calls ≡ length (view seat.old).calls + 1 }
    ensures outcomes { length (view seat.new).outcomes ≡ length (view seat.old).outcomes }
{
    post(shared, seat, &Trio::call_words(&call));
}

/// The answer to the posted call, or `None` where there is none yet.
pub fn take_answer(shared: &Shared<Trio>, seat: &mut Seat) -> Option<(u64, Back)>
    requires of { IsSeatOf shared.now seat.old }
    requires posted { IsPosted seat.old }
    ensures of { IsSeatOf shared.now seat.new }
    ensures position { (view seat.new).position ≡ (view seat.old).position }
    ensures calls { length (view seat.new).calls ≡ length (view seat.old).calls }
    ensures not_yet { IfNone result (length (view seat.new).outcomes
        ≡ length (view seat.old).outcomes) }
    ensures answered { IfSome result (λ _. length (view seat.new).outcomes
        ≡ length (view seat.old).outcomes + 1) }
{
    if answered(shared, seat) {
        Some(take(shared, seat))
    } else {
        None
    }
}

/// What the words of an answer say, or `None` where they are those of no answer.
pub fn told(place: u64, words: &Back) -> Option<Updated<Reply>> {
    if place < LAST_COUNT {
        let reply = Trio::words_reply(words)?;
        return Some(Updated::Done(reply, place));
    }
    match (place, words.len()) {
        (SPENT, 0) => Some(Updated::Spent),
        (FAILED, 0) => Some(Updated::Failed),
        (DOUBT, 0) => Some(Updated::Doubt),
        _ => None,
    }
}
