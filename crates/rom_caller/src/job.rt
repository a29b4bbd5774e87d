//! Callers at work, in threads.
ghost use Rattle.std.specs.Prelude.{◌≡◌, ◌*◌, ◌+◌, ◌≤◌, ◌<◌, ℕ, All, Some, length, slice_get};
ghost use Rattle.rom_store.specs.Callers.{IsNewCaller, IsNumberedCaller};
ghost use Rattle.rom_store.specs.Closing.{kept_in};
ghost use Rattle.rom_store.specs.Indexed.{Indexed};
ghost use Rattle.rom_caller.specs.Working.{HasComeBack, HasDone, IsFor, IsForSome};

use crate::caller::Caller;
use crate::who::Who;
use crate::work::Work;
use rom_device::Device;
use rom_model::{MAX_CALLERS, Object};
use rom_store::{Label, Pass, Store};
use std::marker::Brand;
use std::sync::Wait;
use std::thread;
use std::thread::Threads;

/// A caller's pass, and what the caller gives back once it has worked.
#[derive(Drop)]
pub(crate) struct Job<T> {
    pub pass: Option<Pass>,
    pub out: Option<T>,
    // No two jobs, which threads change all the time, share a line of a processor's cache.
    pub apart: [u64; 8],
}

// What one caller does, under the type that names it.
fn work_as<D: Device, O: Object, N: Label, C: Who, W: Work<O, R>, R: Wait>(
    rt: &R,
    store: &Store<D, O, N>,
    work: &W,
    pass: Pass,
    index: usize,
) -> (Pass, W::Out)
    requires opened { (s : O.State) × (k : ℕ) × O.Contents N.base.order N.base.image s k }
    requires new { IsNewCaller O.Contents N.table N.base index pass }
    requires who { C.number ≡ index + 1 }
    ensures numbered { IsNumberedCaller O.Contents N.table N.base index result.0 }
    ensures did { W.Did work.now N.base index (kept_in result.0) result.1 }
{
    let mut caller = Caller::<'_, D, O, N, C>::of(store, pass);
    let out = work.work(rt, &mut caller, index);
    (caller.into_pass(), out)
}

/// The store, and what its callers are to do.
#[derive(Clone, Copy)]
pub(crate) struct Room<'a, D: Device, O: Object, N: Label, W> {
    pub store: &'a Store<D, O, N>,
    pub work: &'a W,
}

// It picks the type that names the caller.
fn work_one<D: Device, O: Object, N: Label, W: Work<O, R>, R: Wait>(
    rt: &R,
    room: &Room<'_, D, O, N, W>,
    job: &mut Job<W::Out>,
)
    requires opened { (s : O.State) × (k : ℕ) × O.Contents N.base.order N.base.image s k }
    requires ready { IsForSome O.Contents N.table N.base job.old.pass }
    ensures { HasComeBack O.Contents N.table N.base (W.Did room.now.work.now) job.old.pass job.new.pass job.new.out }
{
    let pass = job.pass.take().unwrap();
    let index = pass.number() as usize - 1;
    let (pass, out) = work_as::<D, O, N, Brand, W, R>(rt, room.store, room.work, pass, index);
    job.pass = Some(pass);
    job.out = Some(out);
}

// Each caller in a thread of its own, where one can be made.
fn work_all<
    'a,
    D: Device + Send,
    O: Object + Send + Sync,
    N: Label + Send + Sync,
    W: Work<O, R> + Sync,
    R: Threads + Wait + Sync,
>(rt: &R, room: &Room<'a, D, O, N, W>, jobs: &mut [Job<W::Out>])
where
    O::Call: Send + Sync,
    O::Query: Send + Sync,
    O::Reply: Send + Sync,
    O::Answer: Send + Sync,
    W::Out: Send,
    requires opened { (s : O.State) × (k : ℕ) × O.Contents N.base.order N.base.image s k }
    requires ready { All (λ j. IsForSome O.Contents N.table N.base j.pass) jobs.old }
    ensures done { (j : ℕ) (a : _) (b : _) → slice_get jobs.old j ≡ Some a →
        slice_get jobs.new j ≡ Some b →
        HasComeBack O.Contents N.table N.base (W.Did room.now.work.now) a.pass b.pass b.out }
{
    let most = MAX_CALLERS as usize;
    thread::for_each_mut(rt, jobs, most, &|_, job| work_one(rt, room, job));
}

/// Has each caller work, in a thread of its own where one can be made.
pub(crate) fn work_jobs<
    'a,
    D: Device + Send,
    O: Object + Send + Sync,
    N: Label + Send + Sync,
    W: Work<O, R> + Sync,
    R: Threads + Wait + Sync,
>(rt: &R, room: &Room<'a, D, O, N, W>, jobs: &mut Vec<Job<W::Out>>)
where
    O::Call: Send + Sync,
    O::Query: Send + Sync,
    O::Reply: Send + Sync,
    O::Answer: Send + Sync,
    W::Out: Send,
    requires opened { (s : O.State) × (k : ℕ) × O.Contents N.base.order N.base.image s k }
    requires next { Indexed (λ i job. IsFor O.Contents N.table N.base i job.pass) jobs.old.items }
    ensures many { length jobs.new.items ≡ length jobs.old.items }
    ensures done { Indexed (λ i job. HasDone O.Contents N.table N.base (W.Did room.now.work.now) i
        job.pass job.out) jobs.new.items }
{
    work_all(rt, room, jobs.as_mut_slice());
}
