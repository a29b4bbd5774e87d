//! A caller: a pass and its store.
ghost use Rattle.std.specs.Prelude.{◌≡◌, ◌*◌, ◌<◌, None, Some, false};
ghost use Rattle.rom_model.specs.Machine.{on_words};
ghost use Rattle.rom_lr.specs.Seats.{noted};
ghost use Rattle.rom_store.specs.Callers.{IsCallerOf, IsReaderOf};
ghost use Rattle.rom_caller.specs.Standing.{HasAsked, HasLearnt, HasLeft, HasNoted, IsWithin, Standing, outside, within};

use crate::calls::Calls;
use crate::who::Who;
use rom_device::Device;
use rom_lr::Steps;
use rom_model::{Object, Updated};
use rom_store::{Label, NoGate, Note, Pass, Reading, Store};
use std::marker::{Brand, Model, PhantomData};
use std::sync::Wait;
use std::sync::ledger::{Blank, Ledger};

/// A caller of a store: the right to call and the store to call. What each call of the store asks for is the
/// invariant of this type, so its own calls, those of [`Calls`], ask for nothing.
pub struct Caller<'a, D: Device, O: Object, N: Label, C: Who> {
    store: &'a Store<D, O, N>,
    // Outside of a state it has its pass, and within one what reads it. These are two fields and no enum, since
    // an update would take six instructions more to find its pass.
    pass: Option<Pass>,
    reading: Option<Reading>,
    who: PhantomData<C>,
}

impl<'a, D: Device, O: Object, N: Label, C: Who> Model for Caller<'a, D, O, N, C> {
    ghost use Rattle.std.specs.Prelude.{◌≡◌, ◌*◌};
    ghost use Rattle.rom_model.specs.Machine.{on_words};
    ghost use Rattle.rom_caller.specs.Standing.{IsOf, Standing, standing_in};

    ghost Value = { Standing };

    ghost view = { λ c. standing_in c.pass c.reading };

    ghost invariant = { λ c. IsOf O.Contents (on_words O.machine) N.table N.base c.pass c.reading
        × ((standing_in c.pass c.reading).caller.view.number ≡ C.number) };
}

/// What a caller of a store has seen, for another caller of that store.
#[derive(Drop)]
pub struct NoteOf<N: Label> {
    pub(crate) note: Note,
    of: PhantomData<N>,
    ghost named: { note.token.table_id ≡ N.table },
}

// Puts a reading where there is none. It cannot be let go, so the place must be seen to be empty.
fn put(place: &mut Option<Reading>, reading: Reading)
    requires empty { place.old ≡ None }
    ensures { place.new ≡ Some reading }
{
    match place.replace(reading) {
        None => {}
        Some(_) => unreachable!(),
    }
}

// Enters, and counts the steps where nobody reads them.
fn enter_counted<D: Device, O: Object, N: Label, L: Ledger>(
    blank: Blank,
    store: &Store<D, O, N>,
    pass: Pass,
) -> Reading
    requires name { blank.name ≡ L.name }
    requires parts { (blank.parts ≡ L.parts) × (0 < blank.parts) }
    requires of { IsCallerOf O.Contents N.table N.base pass }
    ensures { IsWithin O.Contents (on_words O.machine) N.table N.base pass result }
{
    store.enter(pass, &mut Steps::<L>::of(blank))
}

fn enter_state<D: Device, O: Object, N: Label>(store: &Store<D, O, N>, pass: Pass) -> Reading
    requires of { IsCallerOf O.Contents N.table N.base pass }
    ensures { IsWithin O.Contents (on_words O.machine) N.table N.base pass result }
{
    enter_counted::<D, O, N, Brand>(Blank::new(1), store, pass)
}

#[inline(always)]
fn ask_counted<D: Device, O: Object, N: Label, L: Ledger>(
    blank: Blank,
    store: &Store<D, O, N>,
    reading: &mut Reading,
    query: &O::Query,
) -> (O::Answer, u64)
    requires name { blank.name ≡ L.name }
    requires parts { (blank.parts ≡ L.parts) × (0 < blank.parts) }
    requires of { IsReaderOf O.Contents (on_words O.machine) N.table N.base reading.old }
    ensures { HasAsked O.machine O.Contents N.table N.base query.now reading.old reading.new result }
{
    store.ask(reading, query, &mut Steps::<L>::of(blank))
}

#[inline(always)]
fn ask_state<D: Device, O: Object, N: Label>(
    store: &Store<D, O, N>,
    reading: &mut Reading,
    query: &O::Query,
) -> (O::Answer, u64)
    requires of { IsReaderOf O.Contents (on_words O.machine) N.table N.base reading.old }
    ensures { HasAsked O.machine O.Contents N.table N.base query.now reading.old reading.new result }
{
    ask_counted::<D, O, N, Brand>(Blank::new(1), store, reading, query)
}

fn leave_counted<D: Device, O: Object, N: Label, L: Ledger>(
    blank: Blank,
    store: &Store<D, O, N>,
    reading: Reading,
) -> Pass
    requires name { blank.name ≡ L.name }
    requires parts { (blank.parts ≡ L.parts) × (0 < blank.parts) }
    requires of { IsReaderOf O.Contents (on_words O.machine) N.table N.base reading }
    ensures of { IsCallerOf O.Contents N.table N.base result }
    ensures left { HasLeft (within reading) (outside result) }
{
    store.leave(reading, &mut Steps::<L>::of(blank))
}

fn leave_state<D: Device, O: Object, N: Label>(store: &Store<D, O, N>, reading: Reading) -> Pass
    requires of { IsReaderOf O.Contents (on_words O.machine) N.table N.base reading }
    ensures of { IsCallerOf O.Contents N.table N.base result }
    ensures left { HasLeft (within reading) (outside result) }
{
    leave_counted::<D, O, N, Brand>(Blank::new(1), store, reading)
}

impl<'a, D: Device, O: Object, N: Label, C: Who> Caller<'a, D, O, N, C> {
    /// The caller of this pass, outside of a state.
    pub fn of(store: &'a Store<D, O, N>, pass: Pass) -> Self
        requires of { IsCallerOf O.Contents N.table N.base pass }
        requires number { pass.view.number ≡ C.number }
        ensures { result ≡ outside pass }
    {
        Caller {
            store,
            pass: Some(pass),
            reading: None,
            who: PhantomData,
        }
    }

    /// What this caller has seen, for another caller of the store to learn. A state that it is within ends.
    pub fn note(&mut self) -> NoteOf<N>
        ensures outside { self.new.within ≡ false }
        // The note has what the caller has seen, whose other knowledge stays.
        ensures noted { (left : Standing) × HasLeft self.old left
            × HasNoted left.caller (noted result.note) self.new.caller }
    {
        self.leave();
        NoteOf {
            note: self.store.note(self.pass.as_mut().unwrap()),
            of: PhantomData,
        }
    }

    /// From now on this caller has seen at least what the note's caller had as it made it. So what it reads
    /// later is no older than what that caller had read or done. A state that it is within ends.
    pub fn learn(&mut self, note: NoteOf<N>)
        ensures outside { self.new.within ≡ false }
        // The caller has then seen what it had, and what the note's caller had.
        ensures learnt { (left : Standing) × HasLeft self.old left × HasLearnt O.Contents
            (on_words O.machine) N.base left.caller (noted note.note) self.new.caller }
    {
        self.leave();
        let NoteOf { note, of: _ } = note;
        self.store.learn(self.pass.as_mut().unwrap(), note);
    }

    // Ends the state that the caller is within. Most calls find none, so it stands apart from them.
    #[inline(never)]
    fn end_state(&mut self)
        ensures { HasLeft self.old self.new }
    {
        if let Some(reading) = self.reading.take() {
            self.pass = Some(leave_state(self.store, reading));
        }
    }

    /// Its pass, to close the store with. A state that it is within ends.
    pub fn into_pass(self) -> Pass
        ensures of { IsCallerOf O.Contents N.table N.base result }
        ensures number { result.view.number ≡ C.number }
        ensures left { HasLeft self.entry (outside result) }
    {
        let Caller {
            store,
            pass,
            reading,
            who: _,
        } = self;
        match reading {
            Some(reading) => leave_state(store, reading),
            None => pass.unwrap(),
        }
    }
}

impl<'a, D: Device, O: Object, N: Label, C: Who> Calls<O> for Caller<'a, D, O, N, C> {
    ghost table = { N.table };

    ghost base = { N.base };

    ghost standing = { λ c. c };

    // Inlined, since the answer of a call that is not would be copied.
    #[inline(always)]
    fn update<R: Wait>(&mut self, rt: &R, call: &O::Call) -> Updated<O::Reply> {
        self.leave();
        self.store
            .update(rt, self.pass.as_mut().unwrap(), call, &NoGate)
    }

    #[inline(always)]
    fn query(&mut self, query: &O::Query) -> (O::Answer, u64) {
        match &mut self.pass {
            Some(pass) => self.store.query(pass, query),
            None => ask_state(self.store, self.reading.as_mut().unwrap(), query),
        }
    }

    fn enter(&mut self) -> bool {
        let Some(pass) = self.pass.take() else {
            return false;
        };
        put(&mut self.reading, enter_state(self.store, pass));
        true
    }

    #[inline(always)]
    fn leave(&mut self) {
        if self.pass.is_none() {
            self.end_state();
        }
    }
}
