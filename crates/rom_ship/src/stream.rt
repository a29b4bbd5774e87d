//! A sink that is handed the frames of all that is done.
ghost use Rattle.std.specs.Prelude.{◌≡◌, ◌*◌, ◌<◌, ◌≤◌, ◌++◌, ℕ, List, length, map, take, false};
ghost use Rattle.rom_combine.specs.Shipping.{Ships, text_from, update_of};
ghost use Rattle.rom_frame.specs.Frames.{frames};
ghost use Rattle.rom_frame.specs.Heads as heads;
ghost use Rattle.rom_model.specs.declared.entry.Entry.{Entry};
ghost use Rattle.rom_ship.specs.Streams.{frame_text, sunk};

use rom_combine::{Batch, Shipper};
use rom_frame::{Head, MOST_BYTES, fill_frame};
use rom_model::MAX_CALLERS;
use rom_text::{Sink, print_bytes};

/// The most bytes of a batch's frames: of one update of each caller.
const BLOCK: usize = MOST_BYTES * MAX_CALLERS as usize;

/// Writes the frames of each batch to a sink, in one write where the sink takes so many bytes at once. After a
/// write that failed it writes no more. It takes no memory.
#[derive(Drop)]
pub struct FrameStream<K: Sink> {
    sink: K,
    failing: bool,
    // The frames of a batch, on their way.
    block: [u8; BLOCK],
}

impl<K: Sink> FrameStream<K> {
    /// A stream of frames to this sink.
    pub fn to(sink: K) -> Self
        ensures sink { result.sink ≡ sink }
        ensures on { result.failing ≡ false }
        // What it makes of a history, whichever it is, is the frames of its entries from the place of the first on.
        ensures frames { (place : ℕ) (history : List Entry) →
            text_from frame_text place (map update_of history) ≡ frames place history }
    {
        FrameStream {
            sink,
            failing: false,
            block: [0; BLOCK],
        }
    }

    /// One that begins with a head, which this writes.
    pub fn headed(sink: K, head: &Head) -> Self
        ensures head { Ships (sunk K.shown sink false) (sunk K.shown result.sink result.failing) (heads.head head.now) }
    {
        let mut bytes = [0; MOST_BYTES];
        let len = head.fill(&mut bytes);
        let mut stream = FrameStream::to(sink);
        write_on(&mut stream.sink, &mut stream.failing, &bytes[..len]);
        stream
    }

    /// The sink, as it stands.
    pub fn into_sink(self) -> K
        ensures { result ≡ self.sink }
    {
        let FrameStream {
            sink,
            failing: _,
            block: _,
        } = self;
        sink
    }
}

impl<K: Sink> Shipper for FrameStream<K> {
    ghost use Rattle.rom_ship.specs.Streams.{shown_stream};

    ghost shown = { shown_stream K.shown };

    fn ship(&mut self, batch: &Batch<'_>) {
        if self.failing {
            return;
        }
        let len = fill_batch(batch, &mut self.block);
        write_on(&mut self.sink, &mut self.failing, &self.block[..len]);
    }

    fn has_failed(&self) -> bool {
        self.failing
    }
}

/// Writes these bytes, unless a write has failed.
fn write_on<K: Sink>(sink: &mut K, failing: &mut bool, bytes: &[u8])
    ensures { Ships (sunk K.shown sink.old failing.old) (sunk K.shown sink.new failing.new) bytes.now }
{
    if !*failing {
        *failing = print_bytes(sink, bytes).is_err();
    }
}

/// Puts the frames of a batch at the start of these bytes, one behind another, and says how many bytes they are.
fn fill_batch(batch: &Batch<'_>, block: &mut [u8; BLOCK]) -> usize
    ensures within { result ≤ BLOCK }
    ensures frames { take result block.new ≡ text_from frame_text batch.now.place batch.now.updates }
{
    let mut frame = [0; MOST_BYTES];
    let mut len = 0;
    for i in 0..batch.len() {
        let place = batch.place() + i as u64;
        let count = fill_frame(place, batch.args(i), batch.reply(i), &mut frame);
        block[len..len + count].copy_from_slice(&frame[..count]);
        len += count;
    }
    len
}
