//! A durable job queue between two threads: `jobs FILE` keeps it in a heap in that file, and makes the heap
//! where the file is new. One thread enqueues twenty jobs. The other takes the first, does it and
//! acknowledges it, until none is left. A job that was not acknowledged before a stop is taken again.
#![tactic(auto)]

use rom_caller::{Calls, Work};
use rom_file::{Program, run_on_file};
use rom_heap::Trio;
use rom_model::{Answer, Call, Query, Reply, Updated};
use std::rt::Clock;
use std::sync::{Wait, atomic};
use std::{process, thread, time};

/// Whether all jobs of this run are enqueued.
#[derive(Default, Drop)]
struct Jobs(atomic::AtomicBool);

// Whether a job was enqueued or acknowledged.
fn is_done(told: Updated<Reply>) -> bool {
    matches!(told, Updated::Done(Reply::Queued | Reply::Head(_), _))
}

// Does a job, then acknowledges it. Whether both went well.
fn do_job(rt: &(impl Wait + Print), caller: &mut impl Calls<Trio>, job: u64) -> bool {
    println!(rt; "job {job}").is_ok() && is_done(caller.update(rt, &Call::Deq))
}

impl<R: Wait + Clock + Print> Work<Trio, R> for Jobs {
    type Out = bool;

    fn work<C: Calls<Trio>>(&self, rt: &R, caller: &mut C, index: usize) -> bool {
        if index == 1 {
            let all_queued = (1..=20).all(|job| is_done(caller.update(rt, &Call::Enq(job))));
            self.0.store(true, atomic::Ordering::SeqCst);
            return all_queued;
        }
        for _ in rt.forever() {
            // Looked at first, so that no job is overlooked.
            let all_in = self.0.load(atomic::Ordering::SeqCst);
            match caller.query(&Query::Peek).0 {
                Answer::Head(job) if !do_job(rt, caller, job) => return false,
                Answer::Head(_) => {}
                _ if all_in => return true,
                _ => thread::sleep(rt, time::Duration::from_millis(1)),
            }
        }
        unreachable!()
    }
}

fn main(rt: HostRuntime) -> process::ExitCode {
    run_on_file(&rt, Program::new(&rt, "jobs"), 5, 2, &Jobs::default())
}
