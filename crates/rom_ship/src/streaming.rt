//! A talk whose updates go to a stream, behind the head of its heap.
ghost use Rattle.std.specs.Prelude.{◌≡◌, ◌<◌, ◌≤◌, All, IfNone, false, length, None};
ghost use Rattle.rom_combine.specs.Shipping.{Ships};
ghost use Rattle.rom_name.specs.Identities.{IsNamed};
ghost use Rattle.rom_run.specs.Statuses.{exit_number};
ghost use Rattle.rom_ship.specs.Streaming.{StreamingPromise, head_text};
ghost use Rattle.rom_ship.specs.Streams.{sunk};
ghost use Rattle.rom_talk.specs.Serving.{IsFresh};
ghost use Rattle.rom_text.specs.Runs.{IsLineWrittenOrCutShort};
ghost use Rattle.rom_text.specs.Text.{texts_of};

use crate::stream::FrameStream;
use rom_device::Device;
use rom_hear::Peer;
use rom_model::Object;
use rom_name::{Head, HeapName, head_of};
use rom_store::{Gate, Pass, Shipper};
use rom_talk::{Ended, Status, talk_shipping, tell};
use rom_text::{Print, PrintReplies, ShortLines, Sink};
use std::alloc::Global;
use std::sync::Wait;
use std::thread::Threads;

/// The stream behind the head of a heap, where there is one.
fn stream_behind<W: Sink>(sink: W, head: Option<Head>) -> FrameStream<W>
    ensures led { Ships (sunk W.shown sink false) (sunk W.shown result.sink result.failing) (head_text head) }
    ensures on { IfNone head (result.failing ≡ false) }
{
    match head {
        Some(head) => FrameStream::headed(sink, &head),
        None => FrameStream::to(sink),
    }
}

/// Tells why no peer is met.
fn end_unmet<D, P, K: Sink, W: Sink>(
    status: Status,
    line: &str,
    device: D,
    peers: Vec<P>,
    out: &mut K,
    stream: FrameStream<W>,
) -> (Ended<D, P>, FrameStream<W>)
    ensures ended { result.0 ≡ record {
      status = exit_number status;
      device = device;
      peers = peers;
      session = None;
    } }
    ensures stream { result.1 ≡ stream }
    ensures told { IsLineWrittenOrCutShort K.shown out.old out.new line.now }
    ensures rest { K.shown.rest out.new ≡ K.shown.rest out.old }
{
    tell(out, &[line]);
    let ended = Ended {
        status: status.number(),
        device,
        peers,
        session: None,
    };
    (ended, stream)
}

/// Opens the heap on a device and has each peer talk to it, as `talk_shipping`, and streams to the sink the heap's
/// head, and then the frame of each update before its reply is said. A heap that has no name gets the one that was
/// drawn. Where the head cannot be read, or the sink does not take it, that is said on `out`, and no peer is met.
pub fn talk_streaming<
    O: Object + Send + Sync,
    L: ShortLines<O> + Sync,
    T: PrintReplies<O> + Sync,
    D: Device + Send,
    P: Peer<Pass> + Send + Drop,
    K: Sink,
    R: Threads + Wait + Sync,
    G: Gate + Sync,
    W: Sink + Send,
>(
    rt: &R,
    alloc: Global,
    mut device: D,
    peers: Vec<P>,
    out: &mut K,
    gate: &G,
    sink: W,
    drawn: HeapName,
) -> (Ended<D, P>, FrameStream<W>)
where
    O::Call: Send + Sync,
    O::Query: Send + Sync,
    O::Reply: Send + Sync,
    O::Answer: Print + Send + Sync,
    requires callers { (0 < length peers.items) × (length peers.items ≤ 16) }
    // Nothing has passed with any peer that tells its log.
    requires fresh { All (IsFresh P.shown) peers.items }
    requires drawn { IsNamed drawn }
    // All that is promised; the record's fields say it one by one.
    ensures promise { StreamingPromise O.machine O.Contents O.KIND O.Rejects O.earlier D.shown P.shown K.shown
        (texts_of T.shown O.Answer.shown) L.Reads W.shown drawn device result.0.device peers.items
        result.0.peers.items out.old out.new result.0.status result.0.session sink result.1 }
{
    let Ok(head) = head_of::<D, O>(&mut device, drawn) else {
        let stream = stream_behind(sink, None);
        return end_unmet(
            Status::DeviceFailed,
            "device failed",
            device,
            peers,
            out,
            stream,
        );
    };
    let stream = stream_behind(sink, head);
    if stream.has_failed() {
        return end_unmet(Status::SinkFailed, "no stream", device, peers, out, stream);
    }
    talk_shipping::<O, L, T, D, P, K, R, G, FrameStream<W>>(
        rt, alloc, device, peers, out, gate, stream,
    )
}
