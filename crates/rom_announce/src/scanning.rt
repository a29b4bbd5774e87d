//! How the writer finds posted calls.
ghost use Rattle.std.specs.Prelude.{◌≡◌, ℕ, ◌+◌, ◌%◌, ◌<◌, ◌≤◌, ◌==◌, List, [], ◌∷◌, ◌++◌, take, length, slice_index};
ghost use Rattle.rom_model.specs.Machine.{on_words};
ghost use Rattle.rom_model.specs.declared.words.TheConstants.{CALL_WORDS};
ghost use Rattle.rom_announce.specs.Scanning.{HasLoaded, MayScan, scanned_from, with_words};
ghost use Rattle.rom_lr.specs.Seats.{IsWriterOf, plan, steps_of, writer_view};
ghost use Rattle.rom_lr.specs.Writing.{SetsPlan};
ghost use Rattle.rom_rule.specs.CallKinds.{IsPending, altered, found_after, loading};
ghost use Rattle.rom_rule.specs.Calls.{packed};
ghost use Rattle.rom_rule.specs.Records.{IsCall};
ghost use Rattle.rom_rule.specs.declared.views.Plan.{Plan};
ghost use Rattle.rom_rule.specs.declared.views.Request.{Request};

use rom_lr::{Shared, WriterSeat};
use rom_model::{Args, Object};
use rom_rule::{BeginsPass, CALL, LoadsArgument, Scans, TURN};

/// Whether a caller has a call posted, by one load of its turn: true where it is odd, and then the call
/// is found. With caller 1 a new pass begins; the others follow in the order of their numbers, until
/// the pass has its record.
pub fn posted<O: Object>(shared: &Shared<O>, seat: &mut WriterSeat, caller: u32) -> bool
    requires of { IsWriterOf shared.now seat.old }
    requires within { (1 ≤ caller) × (caller ≤ shared.now.layout.callers) }
    // The caller is the first, and each call found before is answered; or the caller follows the one scanned
    // last, and the pass has no record yet.
    requires next { MayScan (plan seat.old) caller }
    // The result is whether the turn that was loaded is odd. Where it is, the call is found. Either way the
    // caller counts as scanned in this pass.
    ensures scanned { (turn : ℕ) × (result ≡ (turn % 2 == 1))
        × SetsPlan seat.old seat.new (found_after caller turn (scanned_from caller (plan seat.old))) }
    ensures step { steps_of seat.new ≡ steps_of seat.old + 1 }
{
    let table = &shared.table.shared;
    let at = shared.layout.slot(caller, TURN) as usize;
    let turn = if caller == 1 {
        table.load::<BeginsPass>(&mut seat.token, at)
    } else {
        table.load::<Scans>(&mut seat.token, at)
    };
    turn % 2 == 1
}

/// The words of a call that was found and is not yet answered. They are those of a call of the object.
pub fn arguments<O: Object>(shared: &Shared<O>, seat: &mut WriterSeat, caller: u32) -> Args
    requires of { IsWriterOf shared.now seat.old }
    requires within { (1 ≤ caller) × (caller ≤ shared.now.layout.callers) }
    requires found { (f : Request) × IsPending (plan seat.old) caller f }
    // The words are those of a call of the object.
    ensures call { IsCall (on_words O.machine) (writer_view seat.old).base result }
    ensures loaded { HasLoaded seat.old seat.new caller result }
    ensures steps { steps_of seat.new ≡ steps_of seat.old + length result + 1 }
{
    let mut args = Args::new();
    arguments_into(shared, seat, caller, &mut args);
    args
}

/// The same as [`arguments`], put into a list in the place of the words that it had.
pub fn arguments_into<O: Object>(
    shared: &Shared<O>,
    seat: &mut WriterSeat,
    caller: u32,
    args: &mut Args,
)
    requires of { IsWriterOf shared.now seat.old }
    requires within { (1 ≤ caller) × (caller ≤ shared.now.layout.callers) }
    requires found { (f : Request) × IsPending (plan seat.old) caller f }
    // The words are those of a call of the object.
    ensures call { IsCall (on_words O.machine) (writer_view seat.old).base args.new }
    ensures loaded { HasLoaded seat.old seat.new caller args.new }
    ensures steps { steps_of seat.new ≡ steps_of seat.old + length args.new + 1 }
{
    args.clear();
    let count = load_argument(shared, seat, caller, 0);
    load_arguments(shared, seat, caller, count, args);
}

// Word j of a found call, where word 0 is the number of the others.
fn load_argument<O: Object>(shared: &Shared<O>, seat: &mut WriterSeat, caller: u32, j: u64) -> u64
    requires of { IsWriterOf shared.now seat.old }
    requires within { (1 ≤ caller) × (caller ≤ shared.now.layout.callers) × (j < CALL_WORDS + 1) }
    requires found { (f : Request) × IsPending (plan seat.old) caller f × (j ≤ length f.words)
        × (0 < j → j ≤ slice_index f.words 0) }
    ensures few { j ≡ 0 → result ≤ CALL_WORDS }
    ensures call { (f : Request) (args : List ℕ) → IsPending (plan seat.old) caller f →
        take j f.words ++ result ∷ [] ≡ packed args →
        IsCall (on_words O.machine) (writer_view seat.old).base args }
    ensures loaded { SetsPlan seat.old seat.new (altered caller (loading j result) (plan seat.old)) }
    ensures step { steps_of seat.new ≡ steps_of seat.old + 1 }
{
    let at = shared.layout.slot(caller, CALL + j) as usize;
    shared
        .table
        .shared
        .load::<LoadsArgument<O>>(&mut seat.token, at)
}

fn load_arguments<O: Object>(
    shared: &Shared<O>,
    seat: &mut WriterSeat,
    caller: u32,
    count: u64,
    args: &mut Args,
)
    requires of { IsWriterOf shared.now seat.old }
    requires within { (1 ≤ caller) × (caller ≤ shared.now.layout.callers) × (count ≤ CALL_WORDS) }
    requires found { (p : Plan) × (f : Request) × IsPending p caller f
        × (plan seat.old ≡ altered caller (with_words (count ∷ [])) p) }
    requires empty { args.old ≡ [] }
    requires none { count ≡ 0 → IsCall (on_words O.machine) (writer_view seat.old).base [] }
    ensures many { length args.new ≡ count }
    ensures call { IsCall (on_words O.machine) (writer_view seat.old).base args.new }
    ensures loaded { HasLoaded seat.old seat.new caller args.new }
    ensures steps { steps_of seat.new ≡ steps_of seat.old + length args.new }
{
    for i in 0..count {
        let word = load_argument(shared, seat, caller, 1 + i);
        args.push(word);
    }
}
