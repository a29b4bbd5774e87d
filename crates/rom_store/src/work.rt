//! Callers in threads.
ghost use Rattle.std.specs.Prelude.{◌≡◌, ℕ, ◌<◌, ◌≤◌, length, map, slice_get, Some, All, vec_len};
ghost use Rattle.rom_model.specs.History.{LAST_COUNT};
ghost use Rattle.rom_model.specs.declared.line.Step.{Step};
ghost use Rattle.rom_lines.specs.Steps.{IsLine, need};
ghost use Rattle.rom_store.specs.Callers.{IsCallerOf};
ghost use Rattle.rom_store.specs.Closing.{kept_in};
ghost use Rattle.rom_store.specs.Indexed.{Indexed};
ghost use Rattle.rom_lines.specs.Replies.{SaysResult};
ghost use Rattle.rom_store.specs.Taking.{HasTakenOne, HasTakenWords, result_taken};
ghost use Rattle.rom_store.specs.Working.{HasDoneLines, HasNotBegun, HasTaken, HasWorked, IsNext, IsPast, MayTakeLines, script_of};

use crate::label::Label;
use crate::pass::Pass;
use crate::store::Store;
use rom_combine::{Gate, Shipper};
use rom_device::Device;
use rom_lines::{Became, Line, Results, Script, Told};
use rom_lr::Steps;
use rom_model::{Back, MAX_CALLERS, Object};
use std::marker::Brand;
use std::sync::Wait;
use std::sync::ledger::{Blank, Ledger};
use std::thread;
use std::thread::Threads;

/// The store, and what its callers are to do.
#[derive(Clone, Copy)]
pub(crate) struct Room<'a, D: Device, O: Object, N: Label, G: Gate> {
    pub store: &'a Store<D, O, N>,
    pub scripts: &'a [Script<O>],
    pub gate: &'a G,
}

/// A caller, with what its lines were told.
#[derive(Drop)]
pub(crate) struct Job<O: Object> {
    pub pass: Pass,
    pub results: Results<O>,
    // No two jobs, which threads change all the time, share a line of a processor's cache.
    pub apart: [u64; 8],
}

/// What one line was told. The words of a reply stand elsewhere.
#[derive(Clone, Copy, Debug)]
pub enum Taken<A> {
    /// The line is no command, and no call was made.
    Unread,
    Update(Became),
    /// An answer and its front.
    Read(A, u64),
}

/// What a line was told, with the words of its reply, which are these.
pub fn told_of<'a, O: Object>(taken: &'a Taken<O::Answer>, words: &'a Back) -> Told<'a, O::Answer>
    requires { HasTakenWords O.machine.words_reply taken.now words.now }
    ensures { SaysResult O.machine.words_reply (result_taken O.machine.words_reply taken.now words.now)
        result }
{
    match taken {
        Taken::Unread => Told::Unread,
        Taken::Update(became) => match became {
            Became::Done(place) => Told::Done(words.as_slice(), *place),
            Became::Undone(why) => Told::Undone(*why),
        },
        Taken::Read(answer, front) => Told::Read(answer, *front),
    }
}

/// Does what one line asks for. It takes no memory. It makes `told` the words of the reply, whatever they were,
/// where the line asks for an update.
pub fn take_one<D: Device, O: Object, N: Label, W: Shipper, R: Wait, G: Gate, L: Ledger>(
    rt: &R,
    store: &Store<D, O, N, W>,
    pass: &mut Pass,
    line: Line<'_, O::Query>,
    told: &mut Back,
    steps: &mut Steps<L>,
    gate: &G,
) -> Taken<O::Answer>
    requires of { IsCallerOf O.Contents N.table N.base pass.old }
    requires few { length (kept_in pass.old).told < LAST_COUNT }
    requires line { (asks : Step O.Call O.Query) × IsLine O.machine.words_call asks line }
    // Whatever the line asks for, this was told, and the caller keeps it behind what it was told before.
    ensures taken { (asks : Step O.Call O.Query) → IsLine O.machine.words_call asks line.entry →
        HasTakenOne O.machine O.Contents N.base N.table asks result told.new pass.old pass.new }
{
    match line {
        Line::Update(words) => Taken::Update(store.update_words(rt, pass, words, told, gate)),
        Line::Ask(query) => {
            let (answer, front) = store.read(pass, &query, steps);
            Taken::Read(answer, front)
        }
        Line::Unread => Taken::Unread,
    }
}

// One line. It takes no memory. What stands in `told` tells nothing.
fn take_line<D: Device, O: Object, N: Label, R: Wait, G: Gate, L: Ledger>(
    rt: &R,
    room: &Room<'_, D, O, N, G>,
    pass: &mut Pass,
    line: Line<'_, O::Query>,
    results: &mut Results<O>,
    told: &mut Back,
    steps: &mut Steps<L>,
)
    requires of { IsCallerOf O.Contents N.table N.base pass.old }
    requires few { length (kept_in pass.old).told < LAST_COUNT }
    requires line { (asks : Step O.Call O.Query) × IsLine O.machine.words_call asks line
        × (0 < results.old.lines) × (need O.machine.call_words asks ≤ results.old.words) }
    ensures of { IsCallerOf O.Contents N.table N.base pass.new }
    ensures number { pass.new.view.number ≡ pass.old.view.number }
    // Whatever the line asks for, its result comes behind those of the lines before, and takes no more room
    // than was reserved for it.
    ensures done { (asks : Step O.Call O.Query) → IsLine O.machine.words_call asks line.entry →
        HasTaken O.machine O.Contents N.base asks pass.old pass.new results.old results.new }
{
    match take_one(rt, room.store, pass, line, told, steps, room.gate) {
        Taken::Unread => results.push_unread(),
        Taken::Update(became) => results.push_update(became, told),
        Taken::Read(answer, front) => results.push_read(answer, front),
    }
}

// A caller's lines, in order. It takes no memory.
fn take_lines<D: Device, O: Object, N: Label, R: Wait, G: Gate, L: Ledger>(
    rt: &R,
    room: &Room<'_, D, O, N, G>,
    pass: &mut Pass,
    script: &Script<O>,
    results: &mut Results<O>,
    steps: &mut Steps<L>,
)
    requires { MayTakeLines O.Contents O.machine.call_words N.table N.base script.now.items
        pass.old results.old }
    ensures { HasWorked O.machine O.Contents N.base N.table script.now.items pass.old pass.new
        results.new.items }
{
    let mut told = Back::new();
    for i in 0..script.len() {
        room.gate.before(rt, pass.number(), i as u64 + 1);
        take_line(rt, room, pass, script.line(i), results, &mut told, steps);
    }
}

// A caller's lines, with a counter of its steps, which nobody reads here.
fn take_counted<D: Device, O: Object, N: Label, R: Wait, G: Gate, L: Ledger>(
    rt: &R,
    blank: Blank,
    room: &Room<'_, D, O, N, G>,
    pass: &mut Pass,
    script: &Script<O>,
    results: &mut Results<O>,
)
    requires name { blank.name ≡ L.name }
    requires parts { (blank.parts ≡ L.parts) × (0 < blank.parts) }
    requires ready { MayTakeLines O.Contents O.machine.call_words N.table N.base script.now.items
        pass.old results.old }
    ensures { HasWorked O.machine O.Contents N.base N.table script.now.items pass.old pass.new
        results.new.items }
{
    let mut steps = Steps::<L>::of(blank);
    take_lines(rt, room, pass, script, results, &mut steps);
}

// What a caller's thread does.
fn work<D: Device, O: Object, N: Label, R: Wait, G: Gate>(
    rt: &R,
    room: &Room<'_, D, O, N, G>,
    job: &mut Job<O>,
)
    requires opened { (s : O.State) × (k : ℕ) × O.Contents N.base.order N.base.image s k }
    requires few { All (λ v. length v.items ≤ LAST_COUNT) room.now.scripts.now }
    requires ready { HasNotBegun O.Contents O.machine.call_words N.table N.base
        (map (λ v. v.items) room.now.scripts.now) job.old.pass job.old.results }
    ensures { HasWorked O.machine O.Contents N.base N.table
        (script_of (map (λ v. v.items) room.now.scripts.now) job.old.pass.view.number)
        job.old.pass job.new.pass job.new.results.items }
{
    let script = &room.scripts[job.pass.number() as usize - 1];
    take_counted::<D, O, N, R, G, Brand>(
        rt,
        Blank::new(1),
        room,
        &mut job.pass,
        script,
        &mut job.results,
    );
}

// Each caller in a thread of its own, where one can be made.
fn work_all<
    'a,
    D: Device + Send,
    O: Object + Send + Sync,
    N: Label + Send + Sync,
    R: Threads + Wait + Sync,
    G: Gate + Sync,
>(rt: &R, room: &Room<'a, D, O, N, G>, jobs: &mut [Job<O>])
where
    O::Call: Send + Sync,
    O::Query: Send + Sync,
    O::Reply: Send + Sync,
    O::Answer: Send + Sync,
    requires opened { (s : O.State) × (k : ℕ) × O.Contents N.base.order N.base.image s k }
    requires few { All (λ v. length v.items ≤ LAST_COUNT) room.now.scripts.now }
    requires ready { All (λ j. HasNotBegun O.Contents O.machine.call_words N.table N.base
        (map (λ v. v.items) room.now.scripts.now) j.pass j.results) jobs.old }
    ensures of { (i : ℕ) (c : _) → slice_get jobs.new i ≡ Some c →
        IsCallerOf O.Contents N.table N.base c.pass }
    ensures number { (i : ℕ) (a : _) (c : _) → slice_get jobs.old i ≡ Some a →
        slice_get jobs.new i ≡ Some c → c.pass.view.number ≡ a.pass.view.number }
    ensures done { (i : ℕ) (a : _) (c : _) → slice_get jobs.old i ≡ Some a →
        slice_get jobs.new i ≡ Some c → HasDoneLines O.machine O.Contents N.base c.pass
        (script_of (map (λ v. v.items) room.now.scripts.now) a.pass.view.number) c.results.items }
{
    let most = MAX_CALLERS as usize;
    thread::for_each_mut(rt, jobs, most, &|_, job| work(rt, room, job));
}

/// Has each caller work on its script, in a thread of its own where one can be made.
pub(crate) fn work_jobs<
    'a,
    D: Device + Send,
    O: Object + Send + Sync,
    N: Label + Send + Sync,
    R: Threads + Wait + Sync,
    G: Gate + Sync,
>(rt: &R, room: &Room<'a, D, O, N, G>, jobs: &mut Vec<Job<O>>)
where
    O::Call: Send + Sync,
    O::Query: Send + Sync,
    O::Reply: Send + Sync,
    O::Answer: Send + Sync,
    requires opened { (s : O.State) × (k : ℕ) × O.Contents N.base.order N.base.image s k }
    requires few { All (λ v. length v.items ≤ LAST_COUNT) room.now.scripts.now }
    requires next { Indexed (λ j job. IsNext O.Contents O.machine.call_words N.table N.base
        (map (λ v. v.items) room.now.scripts.now) j job.pass job.results) jobs.old.items }
    ensures many { vec_len jobs.new ≡ vec_len jobs.old }
    ensures past { Indexed (λ j job. IsPast O.machine O.Contents N.base N.table
        (map (λ v. v.items) room.now.scripts.now) j job.pass job.results.items) jobs.new.items }
{
    work_all(rt, room, jobs.as_mut_slice());
}
