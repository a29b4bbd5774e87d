//! Room for callers' jobs and for what comes back, and who takes it to work.
ghost use Rattle.std.specs.Prelude.{◌≡◌, ◌≤◌, [], IfOk, length, vec_capacity};
ghost use Rattle.rom_store.specs.Callers.{IsNewCaller, IsNumberedCaller};
ghost use Rattle.rom_store.specs.Closing.{kept_in};
ghost use Rattle.rom_store.specs.Indexed.{Both, Indexed};
ghost use Rattle.rom_caller.specs.Working.{HasDone, HasRooms, IsFor};

use crate::job::Job;
use crate::work::Work;
use rom_model::Object;
use rom_store::{Label, Pass};
use std::alloc::{AllocError, Global};
use std::sync::Wait;

/// Room for a job of each caller, and for its pass and what it gives back.
#[derive(Drop)]
pub(crate) struct Rooms<T> {
    pub jobs: Vec<Job<T>>,
    pub passes: Vec<Pass>,
    pub results: Vec<T>,
}

impl<T: Drop> Rooms<T> {
    /// As much as so many callers need.
    pub fn for_callers(alloc: Global, callers: usize) -> Result<Self, AllocError>
        ensures { IfOk result (λ made. HasRooms callers made.jobs made.passes made.results) }
    {
        Ok(Rooms {
            jobs: Vec::with_capacity(alloc, callers)?,
            passes: Vec::with_capacity(alloc, callers)?,
            results: Vec::with_capacity(alloc, callers)?,
        })
    }
}

/// Each pass becomes a job.
pub(crate) fn deal<O: Object, N: Label, T: Drop>(passes: Vec<Pass>, jobs: &mut Vec<Job<T>>)
    requires none { jobs.old.items ≡ [] }
    requires space { length passes.items ≤ vec_capacity jobs.old }
    requires fresh { Indexed (IsNewCaller O.Contents N.table N.base) passes.items }
    ensures many { length jobs.new.items ≡ length passes.items }
    ensures jobs { Indexed (λ i job. IsFor O.Contents N.table N.base i job.pass) jobs.new.items }
{
    for pass in passes {
        jobs.push_reserved(Job {
            pass: Some(pass),
            out: None,
            apart: [0; 8],
        });
    }
}

/// The passes of the jobs, and what their callers gave back.
pub(crate) fn gather<O: Object, N: Label, W: Work<O, R>, R: Wait>(
    work: &W,
    jobs: Vec<Job<W::Out>>,
    passes: &mut Vec<Pass>,
    results: &mut Vec<W::Out>,
)
    requires jobs { Indexed (λ i job. HasDone O.Contents N.table N.base (W.Did work.now) i job.pass job.out)
        jobs.items }
    requires no_passes { passes.old.items ≡ [] }
    requires no_results { results.old.items ≡ [] }
    requires passes_fit { length jobs.items ≤ vec_capacity passes.old }
    requires results_fit { length jobs.items ≤ vec_capacity results.old }
    ensures passes_many { length passes.new.items ≡ length jobs.items }
    ensures results_many { length results.new.items ≡ length jobs.items }
    ensures passes { Indexed (IsNumberedCaller O.Contents N.table N.base) passes.new.items }
    ensures did { Both (λ i p out. W.Did work.now N.base i (kept_in p) out)
        passes.new.items results.new.items }
{
    for job in jobs {
        let Job {
            pass,
            out,
            apart: _,
        } = job;
        passes.push_reserved(pass.unwrap());
        results.push_reserved(out.unwrap());
    }
}
