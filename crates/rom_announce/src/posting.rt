//! How a caller posts a call.
ghost use Rattle.std.specs.Prelude.{◌≡◌, ℕ, ◌+◌, ◌<◌, ◌≤◌, List, [], ◌∷◌, ◌++◌, take, length};
ghost use Rattle.rom_model.specs.History.{LAST_COUNT};
ghost use Rattle.rom_model.specs.Machine.{on_words};
ghost use Rattle.rom_model.specs.declared.words.TheConstants.{CALL_WORDS};
ghost use Rattle.rom_announce.specs.Posting.{HasPosted};
ghost use Rattle.rom_lr.specs.Seats.{IsAnswered, IsSameSeat, IsSeatOf, view};
ghost use Rattle.rom_rule.specs.CallKinds.{posting};
ghost use Rattle.rom_rule.specs.Calls.{packed};
ghost use Rattle.rom_rule.specs.Records.{IsCall};

use rom_lr::{Seat, Shared};
use rom_model::{Args, Object};
use rom_rule::{CALL, Posts, StoresArgument, TURN};

/// Posts a call, so that the writer's next scan finds it. A caller has at most one call posted, and
/// posts at most `LAST_COUNT`.
pub fn post<O: Object>(shared: &Shared<O>, seat: &mut Seat, args: &Args)
    requires of { IsSeatOf shared.now seat.old }
    requires none_posted { IsAnswered seat.old }
    requires few { length (view seat.old).calls < LAST_COUNT }
    requires call { IsCall (on_words O.machine) (view seat.old).base args.now }
    ensures same { IsSameSeat seat.old seat.new }
    // The call is posted, behind those that the caller posted before, in two steps more than the call has
    // words.
    ensures posted { HasPosted seat.old seat.new args.now }
{
    post_words(shared, seat, args.as_slice());
}

/// As [`post`], for words that stand anywhere, such as in a list of calls. They are at most `CALL_WORDS`.
pub fn post_words<O: Object>(shared: &Shared<O>, seat: &mut Seat, words: &[u64])
    requires of { IsSeatOf shared.now seat.old }
    requires none_posted { IsAnswered seat.old }
    requires few { length (view seat.old).calls < LAST_COUNT }
    requires room { length words.now ≤ CALL_WORDS }
    requires call { IsCall (on_words O.machine) (view seat.old).base words.now }
    ensures same { IsSameSeat seat.old seat.new }
    // The call with these words is posted, as by `post`.
    ensures posted { HasPosted seat.old seat.new words.now }
{
    store_argument(shared, seat, 0, words.len() as u64);
    store_arguments(shared, seat, words);
    store_turn(shared, seat);
}

// Word j of the next call, where word 0 is the number of the others.
fn store_argument<O: Object>(shared: &Shared<O>, seat: &mut Seat, j: u64, word: u64)
    requires of { IsSeatOf shared.now seat.old }
    requires none_posted { IsAnswered seat.old }
    requires next { (j ≤ length (view seat.old).laid) × (j ≤ CALL_WORDS) }
    ensures same { IsSameSeat seat.old seat.new }
    ensures stored { let v = view seat.old in
        view seat.new ≡ record v { laid = take j v.laid ++ word ∷ []; steps = v.steps + 1 } }
{
    let at = shared.layout.slot(seat.number, CALL + j) as usize;
    shared
        .table
        .shared
        .store::<StoresArgument>(&mut seat.token, at, word);
}

fn store_arguments<O: Object>(shared: &Shared<O>, seat: &mut Seat, words: &[u64])
    requires of { IsSeatOf shared.now seat.old }
    requires none_posted { IsAnswered seat.old }
    requires few { length words.now ≤ CALL_WORDS }
    requires number { (view seat.old).laid ≡ length words.now ∷ [] }
    ensures same { IsSameSeat seat.old seat.new }
    ensures stored { let v = view seat.old in
        view seat.new ≡ record v { laid = packed words.now; steps = v.steps + length words.now } }
{
    for (i, word) in words.iter().enumerate() {
        store_argument(shared, seat, 1 + i as u64, *word);
    }
}

// The turn, odd: twice the number of calls that were posted before, and one.
fn store_turn<O: Object>(shared: &Shared<O>, seat: &mut Seat)
    requires of { IsSeatOf shared.now seat.old }
    requires none_posted { IsAnswered seat.old }
    requires few { length (view seat.old).calls < LAST_COUNT }
    requires call { (args : List ℕ) × ((view seat.old).laid ≡ packed args) × (length args ≤ CALL_WORDS)
        × IsCall (on_words O.machine) (view seat.old).base args }
    ensures same { IsSameSeat seat.old seat.new }
    ensures posted { view seat.new ≡ posting (view seat.old) }
{
    let at = shared.layout.slot(seat.number, TURN) as usize;
    shared
        .table
        .shared
        .store::<Posts>(&mut seat.token, at, 2 * seat.posted + 1);
    seat.posted += 1;
}
