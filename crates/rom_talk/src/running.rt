//! Talks on an opened heap, each in a thread of its own, and its closing.
ghost use Rattle.std.specs.Prelude.{◌≡◌, ◌≤◌, ℕ, List, [], All, length, map, reverse, slice_get, Some, IsTrue, false, vec_capacity};
ghost use Rattle.rom_rule.specs.Views.{base_of};
ghost use Rattle.rom_store.specs.Callers.{IsNewCaller};
ghost use Rattle.rom_store.specs.Closing.{IsClosedFrom};
ghost use Rattle.rom_store.specs.Held.{HasShipped};
ghost use Rattle.rom_store.specs.Indexed.{Indexed};
ghost use Rattle.rom_store.specs.Start.{device_start};
ghost use Rattle.rom_run.specs.Statuses.{exit_number};
ghost use Rattle.rom_talk.specs.Seated.{IsSeatedReady};
ghost use Rattle.rom_talk.specs.Serving.{IsFresh, IsServed};
ghost use Rattle.rom_talk.specs.Sessions.{AreTalks, IsTalkedOn};
ghost use Rattle.rom_talk.specs.declared.talker.Talker.{Talker};
ghost use Rattle.rom_text.specs.Text.{texts_of};

use crate::converse::{Room, serve};
use crate::seats::{part_all, seat_all, status_found};
use crate::talker::Talker;
use rom_device::Device;
use rom_hear::Peer;
use rom_model::{MAX_CALLERS, Object};
use rom_run::Status;
use rom_store::{Closed, Gate, Label, Opening, Pass, Shipper, Store};
use rom_text::{Print, PrintReplies, ShortLines};
use std::marker::{Brand, PhantomData};
use std::sync::Wait;
use std::thread;
use std::thread::Threads;

/// The peers after all that passed, the status that it leads to, the store that was closed, and what was handed
/// its updates.
#[derive(Drop)]
pub(crate) struct Talked<D: Device, O: Object, P, W> {
    pub peers: Vec<P>,
    pub status: Status,
    pub closed: Closed<D, O>,
    pub shipper: W,
}

/// What serves talkers, each by itself. It hides what it is made of from the threads.
trait Serve<P> {
    /// What is asked of a talker.
    ghost Ready: { Talker P → Type 0 };

    /// What becomes of one.
    ghost Served: { Talker P → Talker P → Type 0 };

    /// Serves a talker to the end of its talk.
    fn serve_one<R: Wait>(&self, rt: &R, talker: &mut Talker<P>)
        requires { Ready talker.old }
        ensures { Served talker.old talker.new };
}

impl<
    'a,
    D: Device,
    O: Object,
    N: Label,
    W: Shipper,
    L: ShortLines<O>,
    T: PrintReplies<O>,
    P: Peer<Pass>,
    G: Gate,
> Serve<P> for Room<'a, D, O, N, W, L, T, G>
where
    O::Answer: Print,
{
    ghost Ready = { λ t. IsSeatedReady O.machine O.Contents N.table N.base P.shown
        (texts_of T.shown O.Answer.shown) L.Reads t };

    ghost Served = { λ a c. IsServed O.machine O.Contents N.table N.base P.shown
        (texts_of T.shown O.Answer.shown) L.Reads a.pass c.pass a.peer c.peer c.ending c.unread c.faulted };

    fn serve_one<R: Wait>(&self, rt: &R, talker: &mut Talker<P>) {
        serve(rt, self, talker)
    }
}

// Each talker in a thread of its own, where one can be made.
fn serve_each<W: Serve<P> + Sync, P: Send, R: Threads + Wait + Sync>(
    rt: &R,
    work: &W,
    talkers: &mut [Talker<P>],
)
    requires { All W.Ready talkers.old }
    ensures { (i : ℕ) (a : _) (c : _) → slice_get talkers.old i ≡ Some a →
        slice_get talkers.new i ≡ Some c → W.Served a c }
{
    let most = MAX_CALLERS as usize;
    thread::for_each_mut(rt, talkers, most, &|_, talker| work.serve_one(rt, talker));
}

// All talks on a store.
fn serve_all<
    D: Device + Send,
    O: Object + Send + Sync,
    N: Label + Send + Sync,
    W: Shipper + Send,
    L: ShortLines<O> + Sync,
    T: PrintReplies<O> + Sync,
    P: Peer<Pass> + Send,
    R: Threads + Wait + Sync,
    G: Gate + Sync,
>(rt: &R, store: &Store<D, O, N, W>, gate: &G, talkers: &mut Vec<Talker<P>>)
where
    O::Call: Send + Sync,
    O::Query: Send + Sync,
    O::Reply: Send + Sync,
    O::Answer: Print + Send + Sync,
    requires ready { All (IsSeatedReady O.machine O.Contents N.table N.base P.shown
        (texts_of T.shown O.Answer.shown) L.Reads) talkers.old.items }
    ensures many { length talkers.new.items ≡ length talkers.old.items }
    ensures served { (i : ℕ) (a : _) (c : _) → slice_get talkers.old.items i ≡ Some a →
        slice_get talkers.new.items i ≡ Some c →
        IsServed O.machine O.Contents N.table N.base P.shown (texts_of T.shown O.Answer.shown) L.Reads
        a.pass c.pass a.peer c.peer c.ending c.unread c.faulted }
{
    let room = Room::<D, O, N, W, L, T, G> {
        store,
        gate,
        lines: PhantomData,
        replies: PhantomData,
    };
    serve_each(rt, &room, talkers.as_mut_slice());
}

// All that follows the seating. `passes` and `peers` have room for those that are parted again.
fn talk_seated<
    D: Device + Send,
    O: Object + Send + Sync,
    N: Label + Send + Sync,
    W: Shipper + Send,
    L: ShortLines<O> + Sync,
    T: PrintReplies<O> + Sync,
    P: Peer<Pass> + Send + Drop,
    R: Threads + Wait + Sync,
    G: Gate + Sync,
>(
    rt: &R,
    store: Store<D, O, N, W>,
    mut passes: Vec<Pass>,
    mut peers: Vec<P>,
    mut talkers: Vec<Talker<P>>,
    gate: &G,
) -> Talked<D, O, P, W>
where
    O::Call: Send + Sync,
    O::Query: Send + Sync,
    O::Reply: Send + Sync,
    O::Answer: Print + Send + Sync,
    requires ready { All (IsSeatedReady O.machine O.Contents N.table N.base P.shown
        (texts_of T.shown O.Answer.shown) L.Reads) talkers.items }
    requires callers { Indexed (IsNewCaller O.Contents N.table N.base)
        (map (λ t. t.pass) (reverse talkers.items)) }
    requires many { length talkers.items ≡ N.base.callers }
    requires passes { (passes.items ≡ []) × (length talkers.items ≤ vec_capacity passes) }
    requires peers { (peers.items ≡ []) × (length talkers.items ≤ vec_capacity peers) }
    ensures ended { IsClosedFrom D.shown O.machine O.Contents N.base N.start N.since result.closed }
    ensures talks { AreTalks O.machine O.Contents D.shown P.shown (texts_of T.shown O.Answer.shown)
        L.Reads (map (λ t. t.peer) (reverse talkers.items)) result.peers.items
        (exit_number result.status) result.closed }
    // The shipper was handed all of the session's history, and nothing else.
    ensures shipped { HasShipped O.Contents W.shown N.base N.ships result.shipper
        result.closed.session.history }
{
    serve_all::<D, O, N, W, L, T, P, R, G>(rt, &store, gate, &mut talkers);
    let status = status_found(&talkers);
    part_all(&mut talkers, &mut passes, &mut peers);
    let (closed, shipper) = store.close_shipping(rt, passes);
    Talked {
        peers,
        status,
        closed,
        shipper,
    }
}

// All that follows the start of the store.
fn talk_started<
    D: Device + Send,
    O: Object + Send + Sync,
    N: Label + Send + Sync,
    W: Shipper + Send,
    L: ShortLines<O> + Sync,
    T: PrintReplies<O> + Sync,
    P: Peer<Pass> + Send + Drop,
    R: Threads + Wait + Sync,
    G: Gate + Sync,
>(
    rt: &R,
    store: Store<D, O, N, W>,
    mut passes: Vec<Pass>,
    mut peers: Vec<P>,
    mut talkers: Vec<Talker<P>>,
    gate: &G,
) -> Talked<D, O, P, W>
where
    O::Call: Send + Sync,
    O::Query: Send + Sync,
    O::Reply: Send + Sync,
    O::Answer: Print + Send + Sync,
    requires opened { (s : O.State) × (k : ℕ) × O.Contents N.base.order N.base.image s k }
    requires callers { Indexed (IsNewCaller O.Contents N.table N.base) passes.items }
    requires many { (length passes.items ≡ length peers.items)
        × (length peers.items ≡ N.base.callers) }
    requires fresh { All (IsFresh P.shown) peers.items }
    requires room { (talkers.items ≡ []) × (length peers.items ≤ vec_capacity talkers) }
    ensures ended { IsClosedFrom D.shown O.machine O.Contents N.base N.start N.since result.closed }
    ensures talks { AreTalks O.machine O.Contents D.shown P.shown (texts_of T.shown O.Answer.shown)
        L.Reads peers.items result.peers.items (exit_number result.status) result.closed }
    ensures shipped { HasShipped O.Contents W.shown N.base N.ships result.shipper
        result.closed.session.history }
{
    seat_all(&mut passes, &mut peers, &mut talkers);
    talk_seated::<D, O, N, W, L, T, P, R, G>(rt, store, passes, peers, talkers, gate)
}

// All that follows the opening, with a label.
fn talk_as<
    D: Device + Send,
    O: Object + Send + Sync,
    N: Label + Send + Sync,
    W: Shipper + Send,
    L: ShortLines<O> + Sync,
    T: PrintReplies<O> + Sync,
    P: Peer<Pass> + Send + Drop,
    R: Threads + Wait + Sync,
    G: Gate + Sync,
>(
    rt: &R,
    opening: Opening<D, O>,
    peers: Vec<P>,
    talkers: Vec<Talker<P>>,
    gate: &G,
    shipper: W,
) -> Talked<D, O, P, W>
where
    O::Call: Send + Sync,
    O::Query: Send + Sync,
    O::Reply: Send + Sync,
    O::Answer: Print + Send + Sync,
    requires table { N.table ≡ opening.table_id }
    requires base { N.base ≡ base_of opening.key }
    requires started { N.start ≡ device_start D.shown opening.device }
    requires since { IsTrue D.shown.tells_images → (t : ℕ) (i : List ℕ) →
        (N.since t i → D.shown.left_since opening.device t i)
        × (D.shown.left_since opening.device t i → N.since t i) }
    requires ships { IsTrue W.shown.tells → (N.ships ≡ W.shown.state shipper) × (N.ships.failing ≡ false) }
    requires opened { (s : O.State) × (k : ℕ) × O.Contents N.base.order N.base.image s k }
    requires callers { Indexed (IsNewCaller O.Contents N.table N.base) opening.passes }
    requires many { (length opening.passes ≡ length peers.items)
        × (length peers.items ≡ N.base.callers) }
    requires fresh { All (IsFresh P.shown) peers.items }
    requires room { (talkers.items ≡ []) × (length peers.items ≤ vec_capacity talkers) }
    ensures ended { IsClosedFrom D.shown O.machine O.Contents N.base N.start N.since result.closed }
    // Whatever the story of the session, the peers were told the results of one history, and what was said lasts.
    ensures talks { AreTalks O.machine O.Contents D.shown P.shown (texts_of T.shown O.Answer.shown)
        L.Reads peers.items result.peers.items (exit_number result.status) result.closed }
    ensures shipped { HasShipped O.Contents W.shown N.base N.ships result.shipper
        result.closed.session.history }
{
    let (store, passes) = opening.start_shipping::<N, W>(shipper);
    talk_started::<D, O, N, W, L, T, P, R, G>(rt, store, passes, peers, talkers, gate)
}

/// The talks on an opened heap, which is closed then. It picks the label that tells what the store was started
/// on.
#[inline(never)]
pub(crate) fn talk_on<
    D: Device + Send,
    O: Object + Send + Sync,
    W: Shipper + Send,
    L: ShortLines<O> + Sync,
    T: PrintReplies<O> + Sync,
    P: Peer<Pass> + Send + Drop,
    R: Threads + Wait + Sync,
    G: Gate + Sync,
>(
    rt: &R,
    opening: Opening<D, O>,
    peers: Vec<P>,
    talkers: Vec<Talker<P>>,
    gate: &G,
    shipper: W,
) -> Talked<D, O, P, W>
where
    O::Call: Send + Sync,
    O::Query: Send + Sync,
    O::Reply: Send + Sync,
    O::Answer: Print + Send + Sync,
    requires opened { let b = base_of opening.key in
        (s : O.State) × (k : ℕ) × O.Contents b.order b.image s k }
    requires callers { Indexed (IsNewCaller O.Contents opening.table_id (base_of opening.key)) opening.passes }
    requires many { (length opening.passes ≡ length peers.items)
        × (length peers.items ≡ (base_of opening.key).callers) }
    requires fresh { All (IsFresh P.shown) peers.items }
    requires room { (talkers.items ≡ []) × (length peers.items ≤ vec_capacity talkers) }
    requires on { IsTrue W.shown.tells → (W.shown.state shipper).failing ≡ false }
    ensures talked { IsTalkedOn O.machine O.Contents D.shown P.shown (texts_of T.shown O.Answer.shown)
        L.Reads (base_of opening.key) opening.device peers.items result.peers.items
        (exit_number result.status) result.closed }
    ensures shipped { HasShipped O.Contents W.shown (base_of opening.key) (W.shown.state shipper)
        result.shipper result.closed.session.history }
{
    talk_as::<D, O, Brand, W, L, T, P, R, G>(rt, opening, peers, talkers, gate, shipper)
}
