//! The top call: all that the program does.
ghost use Rattle.std.specs.Prelude.{◌≡◌, length};
ghost use Rattle.rom_replica.specs.Promise.{CanBeFollowed, FollowPromise, ReplicaPromise};
ghost use Rattle.rom_replica.specs.Words.{replica_command};
ghost use Rattle.rom_run.specs.Plain.{plain_scripts};

use crate::follow::follow;
use crate::ship::run_primary;
use crate::words::read_command;
use rom_device::Device;
use rom_run::{Ended, Plain, asked_by};
use rom_store::Gate;
use rom_text::{Names, Sink, Source};
use std::alloc::Global;
use std::sync::Wait;
use std::thread::Threads;

/// As `follow`, which promises it in one.
fn run_follower<D: Device + Send, S: Source, O: Sink, R: Wait, G: Gate>(
    rt: &R,
    alloc: Global,
    device: D,
    inputs: Vec<S>,
    out: &mut O,
    gate: &G,
) -> Ended<D, S>
    requires one { length inputs.items ≡ 1 }
    ensures promise { FollowPromise D.shown S.shown O.shown device result.device inputs
        result.scripts out.old out.new result.status result.session }
{
    follow(rt, alloc, device, inputs, out, gate)
}

/// Does all that the program does: runs the command that the words are on the device and the inputs that
/// are handed in, and prints to the sink. `main` hands in what `files_of` of the same words names: the
/// scripts for `ship`, the one stream for `follow`.
///
/// `ship` runs its scripts as a program of plain words does, each by a caller of its own, in a thread where
/// one can be made. `follow` opens the heap before it reads the stream, which a refused heap leaves as it
/// was; behind that its statuses are those of a `Stop`, or 5, and there is a session. Of `follow` the gate
/// is told of what is published. All memory is taken before the first update. Words that are no command
/// make no call of the device, which is handed back whatever comes.
pub fn run_replica<R: Threads + Wait + Sync, D: Device + Send, S: Source, O: Sink, G: Gate + Sync>(
    rt: &R,
    alloc: Global,
    words: &Names,
    device: D,
    inputs: Vec<S>,
    out: &mut O,
    gate: &G,
) -> Ended<D, S>
    requires { length inputs.items ≡ length (plain_scripts (replica_command words.now)) }

    // What the words ask for is done so, and printed so: the facts are the record's fields.
    ensures promise { ReplicaPromise D.shown S.shown O.shown (replica_command words.now) device
        result.device inputs result.scripts out.old out.new result.status result.session }

    // The history that a primary ships is one that a follower may be sent.
    ensures followed { CanBeFollowed }
{
    let Some(plain) = read_command(words) else {
        return run_primary(rt, alloc, None, device, inputs, out, gate);
    };
    match plain {
        Plain::Follow { .. } => run_follower(rt, alloc, device, inputs, out, gate),
        _ => run_primary(rt, alloc, asked_by(Some(plain)), device, inputs, out, gate),
    }
}
