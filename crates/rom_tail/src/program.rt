//! The top call: a heap follows a stream in batches.
ghost use Rattle.std.specs.Prelude.{◌≡◌, length};
ghost use Rattle.rom_tail.specs.Promise.{TailPromise};

use crate::following::follow_stream;
use rom_device::Device;
use rom_run::Ended;
use rom_store::Gate;
use rom_text::{Sink, Source};
use std::alloc::Global;
use std::sync::Wait;

/// Opens the heap on a device, and has it take the frames of the one stream that is handed in. They are done in
/// batches, up to the first stop, and two lines tell of it. Or it prints why the heap is refused.
///
/// The stream is behind its head, if it has one, and may be without an end. It is not read before the heap is opened,
/// since a follower must know its count. A batch has the whole frames of what one read brought, at most sixteen, and
/// they share the syncs of one pass. Statuses are those of a `Stop`, or 5, and then there is a session; a refused
/// heap leaves the stream as it was. The gate is told of what is published. All memory is taken by the opening.
pub fn tail<D: Device + Send, S: Source, O: Sink, R: Wait, G: Gate>(
    rt: &R,
    alloc: Global,
    device: D,
    inputs: Vec<S>,
    out: &mut O,
    gate: &G,
) -> Ended<D, S>
    requires { length inputs.items ≡ 1 }
    // It ends so, and prints so: the facts are the record's fields.
    ensures promise { TailPromise D.shown S.shown O.shown device result.device inputs.items
        result.scripts.items out.old out.new result.status result.session }
{
    follow_stream(rt, alloc, device, inputs, out, gate)
}
