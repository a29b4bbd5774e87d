//! Readers beside a writer that switches: each sees one image.
ghost use Rattle.std.specs.Prelude.{◌≡◌, ℕ, All, IfOk, length};
ghost use Rattle.rom_model.specs.Blocks.{region_len};
ghost use Rattle.rom_model.specs.Region.{Contents};
ghost use Rattle.rom_model.specs.State.{empty};
ghost use Rattle.rom_model.specs.VecSpace.{words_of_space};
ghost use Rattle.rom_lr.specs.Writing.{NobodyReads};
ghost use Rattle.rom_lr.specs.declared.side.Side.TheVariants.{Main};
ghost use Rattle.rom_lr.specs.Opening.{AreNewSeats, IsNewSeat};
ghost use Rattle.rom_lr.specs.Seats.{IsSeatOf, IsWriterOf, view, writer_view};
ghost use Rattle.rom_rows.specs.Untouched.{AtRest, IsJobReady};
ghost use Rattle.rom_rule.specs.declared.views.Position.TheVariants.{Out};

use crate::job::Job;
use crate::turns::{to_back, to_main};
use rom_heap::Trio;
use rom_lr::{Seat, Shared, WriterSeat};
use rom_model::{VecSpace, new_region};
use std::alloc::{AllocError, Global};
use std::sync::Wait;
use std::test::Fail;
use std::thread;
use std::thread::Threads;

/// How often a reader enters, and how often the writer sends all to main and back.
const READS: u64 = 2000;

const TURNS: u64 = 500;

/// Whether all words of the image that the seat enters are those given.
fn finds(shared: &Shared<Trio>, seat: &mut Seat, image: &[u64]) -> bool
    requires of { IsSeatOf shared.now seat.old }
    requires out { (view seat.old).position ≡ Out }
    requires sized { length image.now ≡ region_len shared.now.layout.order }
    ensures of { IsSeatOf shared.now seat.new }
    ensures out { (view seat.new).position ≡ Out }
{
    shared.enter(seat);
    let mut same = true;
    for at in 0..image.len() {
        let word = shared.load(seat, at as u64);
        same = same && word == image[at];
    }
    shared.leave(seat);
    same
}

/// The same of every time that the seat enters.
fn finds_always(shared: &Shared<Trio>, seat: &mut Seat, image: &[u64]) -> bool
    requires of { IsSeatOf shared.now seat.old }
    requires out { (view seat.old).position ≡ Out }
    requires sized { length image.now ≡ region_len shared.now.layout.order }
    ensures of { IsSeatOf shared.now seat.new }
    ensures out { (view seat.new).position ≡ Out }
{
    let mut same = true;
    for _ in 0..READS {
        let found = finds(shared, seat, image);
        same = same && found;
    }
    same
}

fn switch_often<R: Wait>(rt: &R, shared: &Shared<Trio>, writer: &mut WriterSeat)
    requires of { IsWriterOf shared.now writer.old }
    requires rests { AtRest (writer_view writer.old) }
    ensures of { IsWriterOf shared.now writer.new }
    ensures rests { AtRest (writer_view writer.new) }
{
    for _ in 0..TURNS {
        to_main(rt, shared, writer);
        to_back(rt, shared, writer);
    }
}

/// What the threads share.
#[derive(Clone, Copy, Drop)]
struct Room<'a> {
    shared: &'a Shared<Trio>,
    image: &'a [u64],
    ghost sized: { length image.now ≡ region_len shared.now.layout.order },
}

fn work<R: Wait>(rt: &R, room: &Room<'_>, job: &mut Job)
    requires ready { IsJobReady room.now.shared.now job.old }
    ensures ready { IsJobReady room.now.shared.now job.new }
{
    match job {
        Job::Reads(seat, same) => *same = finds_always(room.shared, seat, room.image),
        Job::Writes(writer) => switch_often(rt, room.shared, writer),
    }
}

fn work_all<R: Threads + Wait + Sync>(rt: &R, room: &Room<'_>, jobs: &mut [Job])
    requires ready { All (λ job. IsJobReady room.now.shared.now job) jobs.old }
{
    thread::for_each_mut(rt, jobs, 3, &|_, job| work(rt, room, job));
}

/// A table of an empty heap for three callers, with all its seats.
fn opened(
    alloc: Global,
    heap: &VecSpace,
) -> Result<(Shared<Trio>, WriterSeat, Vec<Seat>), AllocError>
    requires made { Contents 4 (words_of_space heap.now) empty 0 }
    ensures of { IfOk result (λ opened. IsWriterOf opened.0 opened.1) }
    ensures layout { IfOk result (λ opened. (opened.0.layout.order ≡ 4)
        × (opened.0.layout.callers ≡ 3)) }
    ensures rests { IfOk result (λ opened. AtRest (writer_view opened.1)) }
    ensures unread { IfOk result (λ opened. NobodyReads opened.1 Main) }
    ensures many { IfOk result (λ opened. length opened.2.items ≡ 3) }
    ensures seats { IfOk result (λ opened. AreNewSeats opened.0 opened.2.items) }
{
    let (shared, writer, seats) = Shared::<Trio>::new(alloc, 4, 3, heap.words(), 0)?;
    Ok((shared, writer, seats))
}

/// The same with each caller's seat by itself.
pub fn seated(
    alloc: Global,
    heap: &VecSpace,
) -> Result<(Shared<Trio>, WriterSeat, (Seat, Seat, Seat)), AllocError>
    requires made { Contents 4 (words_of_space heap.now) empty 0 }
    ensures of { IfOk result (λ opened. IsWriterOf opened.0 opened.1) }
    ensures layout { IfOk result (λ opened. (opened.0.layout.order ≡ 4)
        × (opened.0.layout.callers ≡ 3)) }
    ensures rests { IfOk result (λ opened. AtRest (writer_view opened.1)) }
    ensures unread { IfOk result (λ opened. NobodyReads opened.1 Main) }
    ensures first { IfOk result (λ opened. IsNewSeat opened.0 1 opened.2.0) }
    ensures second { IfOk result (λ opened. IsNewSeat opened.0 2 opened.2.1) }
    ensures third { IfOk result (λ opened. IsNewSeat opened.0 3 opened.2.2) }
{
    let (shared, writer, mut seats) = opened(alloc, heap)?;
    let third = seats.pop().unwrap();
    let second = seats.pop().unwrap();
    let first = seats.pop().unwrap();
    Ok((shared, writer, (first, second, third)))
}

/// Whether a job's reader found what it should, and its writer left `version` as it was.
fn is_right(job: &Job) -> bool {
    match job {
        Job::Reads(_, same) => *same,
        Job::Writes(writer) => writer.version == 0,
    }
}

#[test]
fn each_reader_keeps_one_image_beside_a_switching_writer(rt: HostRuntime) -> Result<(), Fail> {
    let alloc = rt.alloc();
    let heap = new_region::<Trio>(alloc, 4)?;
    let (shared, writer, (first, second, _third)) = seated(alloc, &heap)?;
    let mut jobs = Vec::with_capacity(alloc, 3)?;
    jobs.push(Job::Reads(first, true))?;
    jobs.push(Job::Writes(writer))?;
    jobs.push(Job::Reads(second, true))?;
    let room = Room {
        shared: &shared,
        image: heap.words(),
    };
    work_all(&rt, &room, jobs.as_mut_slice());
    for job in &jobs {
        assert!(rt; is_right(job));
    }
    Ok(())
}
