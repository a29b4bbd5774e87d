//! Room for what callers are told, and who takes it to work.
ghost use Rattle.std.specs.Prelude.{◌≡◌, ◌+◌, ◌≤◌, [], length, map, IfOk, vec_len, vec_capacity};
ghost use Rattle.rom_store.specs.Callers.{IsNewCaller, IsNumberedCaller};
ghost use Rattle.rom_store.specs.Indexed.{Both, Indexed};
ghost use Rattle.rom_store.specs.Playing.{HasRooms};
ghost use Rattle.rom_store.specs.Working.{HasDoneLines, HasReservedRoom, IsNext, IsPast, script_of};

use crate::label::Label;
use crate::pass::Pass;
use crate::work::Job;
use rom_lines::{Results, Script};
use rom_model::Object;
use std::alloc::{AllocError, Global};

/// Room for a result of each line of each script, and for a job of each.
#[derive(Drop)]
pub(crate) struct Rooms<O: Object> {
    pub results: Vec<Results<O>>,
    pub jobs: Vec<Job<O>>,
}

// Room for a result of each line.
fn reserve<O: Object>(alloc: Global, scripts: &[Script<O>]) -> Result<Vec<Results<O>>, AllocError>
    ensures many { IfOk result (λ rooms. vec_len rooms ≡ length scripts.now) }
    ensures rooms { IfOk result (λ rooms. Indexed (HasReservedRoom O.machine.call_words
        (map (λ v. v.items) scripts.now)) rooms.items) }
{
    let mut rooms = Vec::with_capacity(alloc, scripts.len())?;
    for script in scripts {
        let room = Results::for_script(alloc, script)?;
        rooms.push_reserved(room);
    }
    Ok(rooms)
}

impl<O: Object> Rooms<O> {
    /// As much as these scripts need.
    pub fn for_scripts(alloc: Global, scripts: &[Script<O>]) -> Result<Self, AllocError>
        ensures rooms { IfOk result (λ made.
            HasRooms O.machine.call_words scripts.now made.results made.jobs) }
    {
        let results = reserve(alloc, scripts)?;
        let jobs = Vec::with_capacity(alloc, scripts.len())?;
        Ok(Rooms { results, jobs })
    }
}

/// Each pass becomes a job with its room, the last first.
pub(crate) fn deal<O: Object, N: Label>(
    scripts: &[Script<O>],
    passes: &mut Vec<Pass>,
    rooms: &mut Vec<Results<O>>,
    jobs: &mut Vec<Job<O>>,
)
    requires passes_many { vec_len passes.old ≡ length scripts.now }
    requires rooms_many { vec_len rooms.old ≡ length scripts.now }
    requires none { jobs.old.items ≡ [] }
    requires space { length scripts.now ≤ vec_capacity jobs.old }
    requires fresh { Indexed (IsNewCaller O.Contents N.table N.base) passes.old.items }
    requires rooms { Indexed (HasReservedRoom O.machine.call_words (map (λ v. v.items) scripts.now))
        rooms.old.items }
    ensures many { vec_len jobs.new ≡ length scripts.now }
    ensures jobs { Indexed (λ j job. IsNext O.Contents O.machine.call_words N.table N.base
        (map (λ v. v.items) scripts.now) j job.pass job.results) jobs.new.items }
    ensures passes { (passes.new.items ≡ [])
        × (vec_capacity passes.new ≡ vec_capacity passes.old) }
    ensures none_left { (rooms.new.items ≡ []) × (vec_capacity rooms.new ≡ vec_capacity rooms.old) }
{
    for _ in 0..scripts.len() {
        let pass = passes.take_last();
        let results = rooms.take_last();
        jobs.push_reserved(Job {
            pass,
            results,
            apart: [0; 8],
        });
    }
}

/// The passes and the results of the jobs, in the order of their callers.
pub(crate) fn gather<O: Object, N: Label>(
    scripts: &[Script<O>],
    jobs: &mut Vec<Job<O>>,
    passes: &mut Vec<Pass>,
    results: &mut Vec<Results<O>>,
)
    requires many { vec_len jobs.old ≡ length scripts.now }
    requires jobs { Indexed (λ j job. IsPast O.machine O.Contents N.base N.table
        (map (λ v. v.items) scripts.now) j job.pass job.results.items) jobs.old.items }
    requires passes { (passes.old.items ≡ []) × (length scripts.now ≤ vec_capacity passes.old) }
    requires results { (results.old.items ≡ []) × (length scripts.now ≤ vec_capacity results.old) }
    ensures passes_many { length passes.new.items ≡ length scripts.now }
    ensures results_many { length results.new.items ≡ length scripts.now }
    ensures passes { Indexed (IsNumberedCaller O.Contents N.table N.base) passes.new.items }
    ensures done { Both (λ i pass told. HasDoneLines O.machine O.Contents N.base pass
        (script_of (map (λ v. v.items) scripts.now) (i + 1)) told.items)
        passes.new.items results.new.items }
{
    for _ in 0..scripts.len() {
        let Job {
            pass,
            results: told,
            apart: _,
        } = jobs.take_last();
        passes.push_reserved(pass);
        results.push_reserved(told);
    }
}
