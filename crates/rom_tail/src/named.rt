//! The top call of a stream with a name: a heap follows it where both are of one heap, and else says why not.
ghost use Rattle.std.specs.Prelude.{◌≡◌, All, length};
ghost use Rattle.rom_name.specs.Peeked.{IsUnread};
ghost use Rattle.rom_replica.specs.Promise.{OfOne};
ghost use Rattle.rom_tail.specs.Named.{IsMetBy, IsUntailed, NamedPromise};

use crate::program::tail;
use rom_device::Device;
use rom_heap::Trio;
use rom_name::{Greeting, Peeked, Refusal, greet, tell_refusal};
use rom_run::{Ended, Status, tell};
use rom_store::Gate;
use rom_text::{Sink, Source};
use std::alloc::Global;
use std::sync::Wait;

/// How it ended, and why the stream was refused, where it was: whoever runs the program may say what helps.
#[derive(Drop)]
pub struct NamedEnd<D, S: Source> {
    pub ended: Ended<D, Peeked<S>>,
    pub refusal: Option<Refusal>,
}

/// Meets the stream. One that fails is read no more: `missing` takes its place, of which each read may fail.
fn meet_stream<D: Device, S: Source + Drop>(
    device: &mut D,
    stream: &mut Peeked<S>,
    missing: S,
) -> Greeting
    requires { IsUnread stream.old }
    ensures { IsMetBy D.shown S.shown missing device.old device.new stream.old stream.new result }
{
    match greet::<D, Trio, S>(device, stream, false) {
        Greeting::StreamFailed => {
            *stream = Peeked::over(missing);
            Greeting::StreamFailed
        }
        greeting => greeting,
    }
}

/// So of the one stream of these inputs.
fn meet_only<D: Device, S: Source + Drop>(
    device: &mut D,
    inputs: &mut [Peeked<S>],
    missing: S,
) -> Greeting
    requires one { length inputs.old ≡ 1 }
    requires unread { All IsUnread inputs.old }
    ensures met { OfOne inputs.old inputs.new (λ was now.
        IsMetBy D.shown S.shown missing device.old device.new was now result) }
    ensures many { length inputs.new ≡ length inputs.old }
{
    meet_stream(device, &mut inputs[0], missing)
}

/// Ends without following, with a status.
fn end_untailed<D, S: Source>(
    status: u8,
    device: D,
    inputs: Vec<Peeked<S>>,
    refusal: Option<Refusal>,
) -> NamedEnd<D, S>
    ensures untailed { IsUntailed device result.ended.device inputs.items
        result.ended.scripts.items result.ended.session }
    ensures status { result.ended.status ≡ status }
    ensures refusal { result.refusal ≡ refusal }
{
    NamedEnd {
        ended: Ended {
            status,
            device,
            scripts: inputs,
            session: None,
        },
        refusal,
    }
}

/// Meets the one stream that is handed in with the heap of a device, and follows it as `tail` does where it is of that
/// heap; or prints why not. `missing` takes the place of a stream that failed before it was known how it begins, and
/// is followed then: so it is to fail at once, and the status is 4.
///
/// Before it follows, the heap has taken the name or the epoch that it is to take. With status 3 the stream is
/// refused, and is behind its head, if it has one; or the heap is, as by `tail`. `refusal` tells which.
pub fn follow_named<D: Device + Send, S: Source + Drop, O: Sink, R: Wait, G: Gate>(
    rt: &R,
    alloc: Global,
    device: D,
    inputs: Vec<Peeked<S>>,
    missing: S,
    out: &mut O,
    gate: &G,
) -> NamedEnd<D, S>
    requires one { length inputs.items ≡ 1 }
    requires unread { All IsUnread inputs.items }
    // It ends so, and prints so: the facts are the record's fields.
    ensures promise { NamedPromise D.shown S.shown O.shown missing device result.ended.device
        inputs.items result.ended.scripts.items out.old out.new result.ended.status
        result.ended.session result.refusal }
{
    let mut device = device;
    let mut inputs = inputs;
    match meet_only(&mut device, &mut inputs, missing) {
        Greeting::Followed | Greeting::StreamFailed => NamedEnd {
            ended: tail(rt, alloc, device, inputs, out, gate),
            refusal: None,
        },
        Greeting::Refused(why) => {
            end_untailed(tell_refusal(out, &why), device, inputs, Some(why))
        }
        Greeting::DeviceFailed => {
            tell(out, &["device failed"]);
            end_untailed(Status::DeviceFailed.number(), device, inputs, None)
        }
    }
}
