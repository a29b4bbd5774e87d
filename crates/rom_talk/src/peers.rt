//! Peers that talk to the heap of a device.
ghost use Rattle.std.specs.Prelude.{◌≡◌, ◌<◌, ◌≤◌, All, IsTrue, false, length, None};
ghost use Rattle.rom_run.specs.Refusing.{refusal_line};
ghost use Rattle.rom_run.specs.Refusing as refusing;
ghost use Rattle.rom_run.specs.Statuses.{exit_number};
ghost use Rattle.rom_talk.specs.Promise.{ShippingPromise, TalkPromise, shipping_status};
ghost use Rattle.rom_talk.specs.Serving.{IsFresh};
ghost use Rattle.rom_text.specs.Runs.{IsLineWrittenOrCutShort};
ghost use Rattle.rom_text.specs.Streams.{StopsWriting};
ghost use Rattle.rom_text.specs.Text.{texts_of};

use crate::ended::Ended;
use crate::running::{Talked, talk_on};
use rom_device::Device;
use rom_hear::Peer;
use rom_model::Object;
use rom_open::{Refused, Why};
use rom_run::{Status, refusal_status, tell_refusal};
use rom_store::{Gate, NoShipper, Pass, Session, Shipper, open_store};
use rom_text::{Print, PrintReplies, ShortLines, Sink};
use std::alloc::Global;
use std::sync::Wait;
use std::thread::Threads;

/// The status of a talk that alone leads to this one, by whether handing on has failed.
fn with_shipping(status: Status, failed: bool) -> Status
    ensures { exit_number result ≡ shipping_status (exit_number status) failed }
{
    if failed && status != Status::DeviceFailed {
        Status::SinkFailed
    } else {
        status
    }
}

/// A talk that alone leads to this status is over, and gives the shipper back.
fn end_as<D, P, W: Shipper>(
    status: Status,
    device: D,
    peers: Vec<P>,
    session: Option<Session>,
    shipper: W,
) -> (Ended<D, P>, W)
    ensures ended { result.0 ≡ record {
      status = shipping_status (exit_number status) (W.shown.state shipper).failing;
      device = device;
      peers = peers;
      session = session;
    } }
    ensures shipper { result.1 ≡ shipper }
{
    let ended = Ended {
        status: with_shipping(status, shipper.has_failed()).number(),
        device,
        peers,
        session,
    };
    (ended, shipper)
}

/// Says why there is no heap of an object of this kind to talk to.
fn end_without<D: Device, P, K: Sink, W: Shipper>(
    kind: u64,
    device: D,
    peers: Vec<P>,
    why: Why,
    out: &mut K,
    shipper: W,
) -> (Ended<D, P>, W)
    ensures ended { result.0 ≡ record {
      status = shipping_status (exit_number (refusing.refusal_status why)) (W.shown.state shipper).failing;
      device = device;
      peers = peers;
      session = None;
    } }
    ensures shipper { result.1 ≡ shipper }
    ensures told { IsLineWrittenOrCutShort K.shown out.old out.new (refusal_line kind why) }
    ensures writing { StopsWriting K.shown out.old out.new }
    ensures rest { K.shown.rest out.new ≡ K.shown.rest out.old }
{
    tell_refusal(out, kind, why);
    end_as(refusal_status(why), device, peers, None, shipper)
}

/// Opens the heap on a device and has each peer talk to it, one caller each, in threads; there are 1 to 16. The
/// shipper is handed what is done, batch by batch, and is given back.
/// Where there is no heap it says why on `out`, and no peer is met. All memory but that of
/// threads is taken before a peer is met.
#[inline(never)]
pub fn talk_shipping<
    O: Object + Send + Sync,
    L: ShortLines<O> + Sync,
    T: PrintReplies<O> + Sync,
    D: Device + Send,
    P: Peer<Pass> + Send + Drop,
    K: Sink,
    R: Threads + Wait + Sync,
    G: Gate + Sync,
    W: Shipper + Send,
>(
    rt: &R,
    alloc: Global,
    device: D,
    peers: Vec<P>,
    out: &mut K,
    gate: &G,
    shipper: W,
) -> (Ended<D, P>, W)
where
    O::Call: Send + Sync,
    O::Query: Send + Sync,
    O::Reply: Send + Sync,
    O::Answer: Print + Send + Sync,
    requires callers { (0 < length peers.items) × (length peers.items ≤ 16) }
    // Nothing has passed with any peer that tells its log.
    requires fresh { All (IsFresh P.shown) peers.items }
    // Handing on has not failed yet.
    requires on { IsTrue W.shown.tells → (W.shown.state shipper).failing ≡ false }
    // All that is promised of a talk, and what is handed on of it.
    ensures promise { ShippingPromise O.machine O.Contents O.KIND O.Rejects O.earlier D.shown P.shown K.shown
        (texts_of T.shown O.Answer.shown) L.Reads W.shown device result.0.device peers.items
        result.0.peers.items out.old out.new result.0.status result.0.session shipper result.1 }
{
    let Ok(talkers) = Vec::with_capacity(alloc, peers.len()) else {
        let why = Why::OutOfMemory;
        return end_without::<D, P, K, W>(O::KIND, device, peers, why, out, shipper);
    };
    match open_store::<D, O>(alloc, device, peers.len() as u32) {
        Ok(opening) => {
            let Talked {
                peers,
                status,
                closed,
                shipper,
            } = talk_on::<D, O, W, L, T, P, R, G>(rt, opening, peers, talkers, gate, shipper);
            let (device, session) = closed.parts();
            end_as(status, device, peers, Some(session), shipper)
        }
        Err(refused) => {
            let Refused { device, why } = refused;
            end_without::<D, P, K, W>(O::KIND, device, peers, why, out, shipper)
        }
    }
}

/// As [`talk_shipping`], and nothing is handed on.
pub fn talk<
    O: Object + Send + Sync,
    L: ShortLines<O> + Sync,
    T: PrintReplies<O> + Sync,
    D: Device + Send,
    P: Peer<Pass> + Send + Drop,
    K: Sink,
    R: Threads + Wait + Sync,
    G: Gate + Sync,
>(rt: &R, alloc: Global, device: D, peers: Vec<P>, out: &mut K, gate: &G) -> Ended<D, P>
where
    O::Call: Send + Sync,
    O::Query: Send + Sync,
    O::Reply: Send + Sync,
    O::Answer: Print + Send + Sync,
    requires callers { (0 < length peers.items) × (length peers.items ≤ 16) }
    // Nothing has passed with any peer that tells its log.
    requires fresh { All (IsFresh P.shown) peers.items }
    // All that is promised of a talk; the record's fields say it one by one.
    ensures promise { TalkPromise O.machine O.Contents O.KIND O.Rejects O.earlier D.shown P.shown K.shown
        (texts_of T.shown O.Answer.shown) L.Reads device result.device peers.items
        result.peers.items out.old out.new result.status result.session }
{
    let (ended, NoShipper) = talk_shipping::<O, L, T, D, P, K, R, G, NoShipper>(
        rt, alloc, device, peers, out, gate, NoShipper,
    );
    ended
}
