//! How one caller talks to its peer: it hears a line, does it, and says what it was told.
ghost use Rattle.std.specs.Prelude.{◌≡◌, ℕ, ◌<◌, List, length, false, OnOk};
ghost use Rattle.rom_lines.specs.Steps.{IsLine};
ghost use Rattle.rom_model.specs.History.{LAST_COUNT};
ghost use Rattle.rom_model.specs.declared.line.LineResult.{LineResult};
ghost use Rattle.rom_model.specs.declared.line.Step.{Step};
ghost use Rattle.rom_store.specs.Callers.{IsCallerOf};
ghost use Rattle.rom_store.specs.Closing.{kept_in};
ghost use Rattle.rom_talk.specs.Serving.{GoesOn, HasAnswered, IsReady, IsServed, IsTalking};
ghost use Rattle.rom_text.specs.Text.{ResultFits, line_text, result_text, texts_of};
ghost use Rattle.rom_hear.specs.Saying.{Tells};
ghost use Rattle.rom_store.specs.Taking.{HasTakenWords, result_taken};

use crate::ending::Ending;
use crate::talker::{Talker, is_faulted, is_unread};
use rom_device::Device;
use rom_hear::{Ear, Next, Peer, tell};
use rom_lines::Line;
use rom_lr::Steps;
use rom_model::{Args, Back, LAST_COUNT, Object};
use rom_store::{Gate, Label, Pass, Shipper, Store, Taken, take_one, told_of};
use rom_text::{IoFailed, Parsed, Print, PrintReplies, ShortLines, ToldLine};
use std::marker::{Brand, PhantomData};
use std::sync::Wait;
use std::sync::ledger::{Blank, Ledger};

/// What all callers share: the heap, the language of its lines and of its replies, and what is told of each line.
#[derive(Drop)]
pub(crate) struct Room<
    'a,
    D: Device,
    O: Object,
    N: Label,
    W: Shipper,
    L: ShortLines<O>,
    T: PrintReplies<O>,
    G: Gate,
> {
    pub store: &'a Store<D, O, N, W>,
    pub gate: &'a G,
    pub lines: PhantomData<L>,
    pub replies: PhantomData<T>,
}

/// What stands on a talking caller's stack: what was heard, and the words of a call and of a reply.
#[derive(Drop)]
pub(crate) struct Desk {
    pub ear: Ear,
    pub words: Args,
    pub told: Back,
}

/// The line that these bytes are, whose call's words stand in `words`, whatever stood there.
fn line_in<'a, O: Object, L: ShortLines<O>>(bytes: &[u8], words: &'a mut Args) -> Line<'a, O::Query>
    ensures { (asks : Step O.Call O.Query) × L.Reads bytes.now asks
        × IsLine O.machine.words_call asks result }
{
    match L::read_words(bytes, words) {
        Parsed::Update => Line::Update(words.as_slice()),
        Parsed::Ask(query) => Line::Ask(query),
        Parsed::Unread => Line::Unread,
    }
}

/// Says what a line was told, with these words of its reply.
fn say<O: Object, T: PrintReplies<O>, P: Peer<Pass>>(
    peer: &mut P,
    pass: &Pass,
    taken: &Taken<O::Answer>,
    told: &Back,
) -> Result<(), IoFailed>
where
    O::Answer: Print,
    requires { HasTakenWords O.machine.words_reply taken.now told.now }
    ensures tells { Tells P.shown peer.old peer.new pass.now result
        (line_text (result_text (texts_of T.shown O.Answer.shown)
        (result_taken O.machine.words_reply taken.now told.now))) }
    // The numbers of what was said whole are of their types.
    ensures of_type { OnOk result (ResultFits (texts_of T.shown O.Answer.shown)
        (result_taken O.machine.words_reply taken.now told.now)) }
{
    let reply = ToldLine::<O, T>::of(told_of::<O>(taken, told));
    tell(peer, pass, &reply)
}

/// Does a line, and says what it was told. It takes no memory.
fn answer<
    D: Device,
    O: Object,
    N: Label,
    W: Shipper,
    T: PrintReplies<O>,
    P: Peer<Pass>,
    R: Wait,
    G: Gate,
    C: Ledger,
>(
    rt: &R,
    store: &Store<D, O, N, W>,
    talker: &mut Talker<P>,
    line: Line<'_, O::Query>,
    told: &mut Back,
    steps: &mut Steps<C>,
    gate: &G,
) -> Option<Ending>
where
    O::Answer: Print,
    requires of { IsCallerOf O.Contents N.table N.base talker.old.pass }
    requires few { length (kept_in talker.old.pass).told < LAST_COUNT }
    requires line { (asks : Step O.Call O.Query) × IsLine O.machine.words_call asks line }
    // Whatever the line asks for was done, and what it was told was said, as far as the peer took it.
    ensures answered { (asks : Step O.Call O.Query) → IsLine O.machine.words_call asks line.entry →
        HasAnswered O.machine O.Contents N.table N.base P.shown (texts_of T.shown O.Answer.shown)
        asks talker.old.pass talker.new.pass talker.old.peer talker.new.peer talker.old.unread
        talker.old.faulted talker.new.unread talker.new.faulted result }
    ensures ending { talker.new.ending ≡ talker.old.ending }
    ensures apart { talker.new.apart ≡ talker.old.apart }
{
    let taken = take_one(rt, store, &mut talker.pass, line, told, steps, gate);
    talker.unread = talker.unread || is_unread::<O>(&taken);
    talker.faulted = talker.faulted || is_faulted::<O>(&taken);
    match say::<O, T, P>(&mut talker.peer, &talker.pass, &taken, told) {
        Ok(()) => None,
        Err(_) => Some(Ending::Unsaid),
    }
}

/// Hears the next line, does it, and says what it was told. `None` goes on. It takes no memory.
pub(crate) fn converse<
    D: Device,
    O: Object,
    N: Label,
    W: Shipper,
    L: ShortLines<O>,
    T: PrintReplies<O>,
    P: Peer<Pass>,
    R: Wait,
    G: Gate,
    C: Ledger,
>(
    rt: &R,
    store: &Store<D, O, N, W>,
    talker: &mut Talker<P>,
    desk: &mut Desk,
    steps: &mut Steps<C>,
    gate: &G,
) -> Option<Ending>
where
    O::Answer: Print,
    requires of { IsCallerOf O.Contents N.table N.base talker.old.pass }
    requires opened { (s : O.State) × (k : ℕ) × O.Contents N.base.order N.base.image s k }
    requires few { length (kept_in talker.old.pass).told < LAST_COUNT }
    ensures of { IsCallerOf O.Contents N.table N.base talker.new.pass }
    ensures number { talker.new.pass.view.number ≡ talker.old.pass.view.number }
    // Whatever lines were done and told, one more is; or the talk is over.
    ensures on { (lines : List (List ℕ)) (asked : List (Step O.Call O.Query))
        (results : List (LineResult O.Reply O.Answer)) →
        IsTalking O.machine O.Contents N.table N.base P.shown (texts_of T.shown O.Answer.shown) L.Reads
        talker.old.pass desk.old.ear talker.old.peer talker.old.unread talker.old.faulted
        lines asked results →
        GoesOn O.machine O.Contents N.table N.base P.shown (texts_of T.shown O.Answer.shown) L.Reads
        talker.new.pass desk.old.ear desk.new.ear talker.old.peer talker.new.peer result talker.new.unread
        talker.new.faulted lines asked results }
{
    match desk.ear.hear(&mut talker.peer) {
        Next::Line => {
            let line = line_in::<O, L>(desk.ear.line(), &mut desk.words);
            answer::<D, O, N, W, T, P, R, G, C>(
                rt,
                store,
                talker,
                line,
                &mut desk.told,
                steps,
                gate,
            )
        }
        Next::Long => answer::<D, O, N, W, T, P, R, G, C>(
            rt,
            store,
            talker,
            Line::Unread,
            &mut desk.told,
            steps,
            gate,
        ),
        Next::End => Some(Ending::Over),
        Next::Failed => Some(Ending::Unheard),
    }
}

/// All lines that a peer says, until it has no more or fails.
fn attend<
    D: Device,
    O: Object,
    N: Label,
    W: Shipper,
    L: ShortLines<O>,
    T: PrintReplies<O>,
    P: Peer<Pass>,
    R: Wait,
    G: Gate,
    C: Ledger,
>(rt: &R, blank: Blank, store: &Store<D, O, N, W>, talker: &mut Talker<P>, gate: &G) -> Ending
where
    O::Answer: Print,
    requires name { blank.name ≡ C.name }
    requires parts { (blank.parts ≡ C.parts) × (0 < blank.parts) }
    requires opened { (s : O.State) × (k : ℕ) × O.Contents N.base.order N.base.image s k }
    requires ready { IsReady O.machine O.Contents N.table N.base P.shown
        (texts_of T.shown O.Answer.shown) L.Reads talker.old.pass talker.old.peer }
    requires quiet { (talker.old.unread ≡ false) × (talker.old.faulted ≡ false) }
    ensures served { IsServed O.machine O.Contents N.table N.base P.shown
        (texts_of T.shown O.Answer.shown) L.Reads talker.old.pass talker.new.pass talker.old.peer
        talker.new.peer result talker.new.unread talker.new.faulted }
{
    let mut steps = Steps::<C>::of(blank);
    let mut desk = Desk {
        ear: Ear::new(),
        words: Args::new(),
        told: Back::new(),
    };
    // So many lines a caller may have done; nobody says as many.
    for _ in 0..LAST_COUNT {
        if let Some(ending) = converse::<D, O, N, W, L, T, P, R, G, C>(
            rt, store, talker, &mut desk, &mut steps, gate,
        ) {
            return ending;
        }
    }
    Ending::Over
}

/// What a caller's thread does: it meets its peer, hears it to its end, and parts from it.
pub(crate) fn serve<
    'a,
    D: Device,
    O: Object,
    N: Label,
    W: Shipper,
    L: ShortLines<O>,
    T: PrintReplies<O>,
    P: Peer<Pass>,
    R: Wait,
    G: Gate,
>(rt: &R, room: &Room<'a, D, O, N, W, L, T, G>, talker: &mut Talker<P>)
where
    O::Answer: Print,
    requires opened { (s : O.State) × (k : ℕ) × O.Contents N.base.order N.base.image s k }
    requires ready { IsReady O.machine O.Contents N.table N.base P.shown
        (texts_of T.shown O.Answer.shown) L.Reads talker.old.pass talker.old.peer }
    requires quiet { (talker.old.unread ≡ false) × (talker.old.faulted ≡ false) }
    ensures served { IsServed O.machine O.Contents N.table N.base P.shown
        (texts_of T.shown O.Answer.shown) L.Reads talker.old.pass talker.new.pass talker.old.peer
        talker.new.peer talker.new.ending talker.new.unread talker.new.faulted }
{
    talker.peer.meet();
    talker.ending = attend::<D, O, N, W, L, T, P, R, G, Brand>(
        rt,
        Blank::new(1),
        room.store,
        talker,
        room.gate,
    );
    talker.peer.part();
}
