//! A call is answered while a reader stays, once its batch is committed, and its caller posts again
//! while that pass runs.
ghost use Rattle.std.specs.Prelude.{All, IsTrue};
ghost use Rattle.rom_lr.specs.Seats.{IsSeatOf, view};
ghost use Rattle.rom_rows.specs.Callers.{HasCalls};
ghost use Rattle.rom_rows.specs.Staying.{IsStaying};
ghost use Rattle.rom_rule.specs.Views.{is_reading};

use crate::callers::{post_call, told};
use crate::cores::seated_on;
use crate::crowd::{await_answer, new_heap, pass_until};
use crate::stay::Stay;
use crate::watched::{Watch, Watched};
use rom_heap::Trio;
use rom_lr::{Seat, Shared};
use rom_model::{Call, Reply, Updated};
use std::sync::Wait;
use std::test::Fail;
use std::thread;
use std::thread::Threads;

/// Keeps the reader there until the first call is answered and another one is posted. It tells whether
/// each was told that it was queued, at places 0 and 1, and whether the first batch was committed and
/// no sync was made since when its call was answered.
fn hold(shared: &Shared<Trio>, watch: &Watch, reader: &mut Seat, poster: &mut Seat) -> bool
    requires reader { IsSeatOf shared.now reader.old }
    requires stays { IsTrue (is_reading (view reader.old).position) }
    requires poster { HasCalls shared.now 1 0 poster.old }
{
    let Some((first, words)) = await_answer(shared, poster) else {
        shared.leave(reader);
        return false;
    };
    let committed = watch.is_committed();
    post_call(shared, poster, Call::Enq(6));
    shared.leave(reader);
    let queued = told(first, &words) == Some(Updated::Done(Reply::Queued, 0));
    let Some((second, words)) = await_answer(shared, poster) else {
        return false;
    };
    committed && queued && told(second, &words) == Some(Updated::Done(Reply::Queued, 1))
}

fn stay<R: Wait>(rt: &R, shared: &Shared<Trio>, watch: &Watch, job: &mut Stay<'_>)
    requires ready { IsStaying shared.now job.old }
{
    let went = match job {
        Stay::Holds(reader, poster, _) => hold(shared, watch, reader, poster),
        Stay::Passes(core, _) => pass_until(rt, shared, core, watch, 2),
    };
    match job {
        Stay::Holds(_, _, right) | Stay::Passes(_, right) => *right = went,
    }
}

fn stay_all<R: Threads + Wait + Sync>(
    rt: &R,
    shared: &Shared<Trio>,
    watch: &Watch,
    jobs: &mut [Stay<'_>],
)
    requires ready { All (λ job. IsStaying shared.now job) jobs.old }
{
    thread::for_each_mut(rt, jobs, 2, &|_, job| stay(rt, shared, watch, job));
}

#[test]
fn a_call_is_answered_while_a_reader_stays(rt: HostRuntime) -> Result<(), Fail> {
    let alloc = rt.alloc();
    let watch = Watch::new();
    let device = Watched::new(new_heap(alloc)?, &watch);
    let (core, shared, (mut first, mut second, _third)) = seated_on(alloc, device)?;
    shared.enter(&mut first);
    post_call(&shared, &mut second, Call::Enq(5));
    let mut jobs = Vec::with_capacity(alloc, 2)?;
    jobs.push(Stay::Holds(first, second, false))?;
    jobs.push(Stay::Passes(core, false))?;
    stay_all(&rt, &shared, &watch, jobs.as_mut_slice());
    for job in &jobs {
        match job {
            Stay::Holds(_, _, right) | Stay::Passes(_, right) => assert!(rt; *right),
        }
    }
    // Each of the two batches was committed when the gate was told of it.
    assert_eq!(rt; watch.certain(), 2);
    Ok(())
}
