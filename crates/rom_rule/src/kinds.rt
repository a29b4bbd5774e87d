//! The kinds of step, by what each tells its seat. `specs/Kinds.antt` and `specs/CallKinds.antt` are
//! their table. No other file has a kind (`.ci/steps` sees to it): of a step the table asks only that
//! it keeps the rule, and what it tells is said here.
//!
//! A load tells the same whichever word it is made of, unless its kind names the word. So each kind by
//! which a caller reads or takes its answer, or a pass begins, names the word. Otherwise a reader could
//! take `side` for `version`, and a pass one turn for another.
ghost use Rattle.std.specs.Prelude.{ℕ};
ghost use Rattle.rom_rule.specs.CallKinds.{answered, begun, begun_answer, loaded_answer, loaded_argument, loaded_turn, posted, scanned, stored_argument, stored_place, stored_reply};
ghost use Rattle.rom_rule.specs.Kinds.{arrived, caught_up, checked_indicator, dealing, departed, informed, loaded_image, loaded_region, loaded_side, loaded_version, newcomer, note_of, noting, reviewed, spent_as, stored_back, stored_main, stored_version, switched_to_back, switched_to_main};
ghost use Rattle.rom_rule.specs.declared.views.Base.{Base};

use crate::views::View;
use atomic_table::{Join, Play, Split};
use rom_model::Object;
use std::marker::{Brand, PhantomData};

/// A caller loads `version`.
pub struct LoadsVersion;

impl Play<u8, View> for LoadsVersion {
    ghost then = { loaded_version };
}

/// A caller arrives: it stores 1 in its indicator of the version that it has loaded.
pub struct Arrives;

impl Play<u8, View> for Arrives {
    ghost then = { arrived };
}

/// A caller loads `side`, and reads that side from then on.
pub struct LoadsSide<O> {
    object: PhantomData<O>,
}

impl<O: Object> Play<u8, View> for LoadsSide<O> {
    ghost use Rattle.rom_model.specs.Machine.{on_words};

    ghost then = { loaded_side O.Contents (on_words O.machine) };
}

/// A caller loads a word of the side that it reads.
pub struct LoadsImage;

impl Play<u8, View> for LoadsImage {
    ghost then = { loaded_image };
}

/// A caller departs: it stores 0 in the indicator at which it stands.
pub struct Departs;

impl Play<u8, View> for Departs {
    ghost then = { departed };
}

/// How a pass ends: the device's counts of faults at its start and now, its fate, and the device's moment at
/// which its batch was committed. A call that makes the pass's record, or raises its count, picks them.
pub trait PassEnd {
    ghost use Rattle.rom_model.specs.declared.record.Fate.{Fate};

    ghost before: { ℕ };

    ghost after: { ℕ };

    ghost fate: { Fate };

    ghost moment: { ℕ };
}

impl PassEnd for Brand {
    ghost use Rattle.rom_model.specs.declared.record.Fate.TheVariants.{Published};

    ghost before = { 0 };

    ghost after = { 0 };

    ghost fate = { Published };

    ghost moment = { 0 };
}

/// The writer stores `side` as main, which publishes the batch of the calls that it found.
pub struct SwitchesToMain<O, N> {
    object: PhantomData<O>,
    end: PhantomData<N>,
}

impl<O: Object, N: PassEnd> Play<u8, View> for SwitchesToMain<O, N> {
    ghost use Rattle.rom_model.specs.Machine.{on_words};

    ghost then = { switched_to_main O.Contents (on_words O.machine) N.before N.after N.moment };
}

/// The writer stores `side` as back.
pub struct SwitchesToBack<N> {
    end: PhantomData<N>,
}

impl<N: PassEnd> Play<u8, View> for SwitchesToBack<N> {
    ghost then = { switched_to_back N.after };
}

/// The writer loads an indicator of one caller. The step's condition demands one of the version that
/// `version` does not name. So no code can wait at an indicator at which readers arrive.
pub struct ChecksIndicator;

impl Play<u8, View> for ChecksIndicator {
    ghost then = { checked_indicator };
}

/// The writer stores `version`. Safety does not rest on it. A side may be changed once all indicators were
/// loaded as 0 since `side` was stored, in whatever order. That is enough because a reader loads `side`
/// only after it has arrived. `version` serves the wait alone, which readers that arrive one after another
/// must not keep from ending.
pub struct StoresVersion;

impl Play<u8, View> for StoresVersion {
    ghost then = { stored_version };
}

/// The writer loads a word of a side.
pub struct LoadsRegion;

impl Play<u8, View> for LoadsRegion {
    ghost then = { loaded_region };
}

/// The writer stores a word of main.
pub struct StoresMain;

impl Play<u8, View> for StoresMain {
    ghost then = { stored_main };
}

/// The writer stores a word of back.
pub struct StoresBack;

impl Play<u8, View> for StoresBack {
    ghost then = { stored_back };
}

/// The writer gives the next number to a new seat.
pub struct Deals;

impl Split<View> for Deals {
    ghost left = { dealing };

    ghost right = { newcomer };
}

/// A caller lets a note have what it has seen.
pub struct TakesNote;

impl Split<View> for TakesNote {
    ghost left = { noting };

    ghost right = { note_of };
}

/// What a table was opened with. A join picks it.
pub trait Origin {
    ghost use Rattle.rom_rule.specs.declared.views.Base.{Base};

    ghost base: { Base };
}

impl Origin for Brand {
    ghost use Rattle.std.specs.Prelude.{[]};

    ghost base = { record { order = 0; callers = 0; image = []; faults = 0 } };
}

/// A seat keeps what another knew, which is spent.
pub struct JoinsViews<N> {
    origin: PhantomData<N>,
}

impl<N: Origin> Join<View> for JoinsViews<N> {
    ghost both = { informed };

    ghost spent = { spent_as N.base };
}

/// A caller sees as much as the views had that it keeps.
pub struct CatchesUp<O> {
    object: PhantomData<O>,
}

impl<O: Object> Play<u8, View> for CatchesUp<O> {
    ghost use Rattle.rom_model.specs.Machine.{on_words};

    ghost then = { caught_up O.Contents (on_words O.machine) };
}

/// The writer sees that what it keeps agrees with the records.
pub struct Reviews<O> {
    object: PhantomData<O>,
}

impl<O: Object> Play<u8, View> for Reviews<O> {
    ghost use Rattle.rom_model.specs.Machine.{on_words};

    ghost then = { reviewed O.Contents (on_words O.machine) };
}

/// A caller stores a word of its next call, or their number.
pub struct StoresArgument;

impl Play<u8, View> for StoresArgument {
    ghost then = { stored_argument };
}

/// A caller posts the call: it stores its turn, odd.
pub struct Posts;

impl Play<u8, View> for Posts {
    ghost then = { posted };
}

/// The writer begins a pass: it loads the turn of the first caller.
pub struct BeginsPass;

impl Play<u8, View> for BeginsPass {
    ghost then = { begun };
}

/// The writer loads the turn of the next caller.
pub struct Scans;

impl Play<u8, View> for Scans {
    ghost then = { scanned };
}

/// The writer loads a word of a call that it found, or their number.
pub struct LoadsArgument<O> {
    object: PhantomData<O>,
}

impl<O: Object> Play<u8, View> for LoadsArgument<O> {
    ghost use Rattle.rom_model.specs.Machine.{on_words};

    ghost then = { loaded_argument O.Contents (on_words O.machine) };
}

/// The writer stores the first word of an answer; where the pass has no record yet, it gets it.
pub struct BeginsAnswer<O, N> {
    object: PhantomData<O>,
    end: PhantomData<N>,
}

impl<O: Object, N: PassEnd> Play<u8, View> for BeginsAnswer<O, N> {
    ghost use Rattle.rom_model.specs.Machine.{on_words};

    ghost then = { begun_answer O.Contents (on_words O.machine) N.fate N.before N.after };
}

/// The writer stores a word of a reply, or their number.
pub struct StoresReply;

impl Play<u8, View> for StoresReply {
    ghost then = { stored_reply };
}

/// The writer stores a place or a code.
pub struct StoresPlace;

impl Play<u8, View> for StoresPlace {
    ghost then = { stored_place };
}

/// The writer answers a call: it stores its caller's turn, even.
pub struct Answers;

impl Play<u8, View> for Answers {
    ghost then = { answered };
}

/// A caller loads its turn, and learns what it was told where the turn is even.
pub struct LoadsTurn<O> {
    object: PhantomData<O>,
}

impl<O: Object> Play<u8, View> for LoadsTurn<O> {
    ghost use Rattle.rom_model.specs.Machine.{on_words};

    ghost then = { loaded_turn O.Contents (on_words O.machine) };
}

/// A caller loads a word of its answer.
pub struct LoadsAnswer;

impl Play<u8, View> for LoadsAnswer {
    ghost then = { loaded_answer };
}
