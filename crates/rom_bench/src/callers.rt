//! The one caller of a heap of order 4 in memory, as a program of one's own has it.

use crate::stores::{KEY, ORDER, VALUE, WORDS, Work as Repeated};
use rom_caller::{Calls, Mode, Work, with_callers};
use rom_device::Ram;
use rom_heap::Trio;
use rom_model::{Answer, Call, Query, Updated};
use std::alloc::AllocError;
use std::sync::Wait;
use std::thread::Threads;

/// What the caller does, and how often.
#[derive(Drop)]
struct Repeats {
    work: Repeated,
    times: u64,
}

impl<R: Wait> Work<Trio, R> for Repeats {
    type Out = u64;

    fn work<C: Calls<Trio>>(&self, rt: &R, caller: &mut C, _index: usize) -> u64 {
        let _ = caller.update(rt, &Call::Enq(VALUE));
        let _ = caller.update(rt, &Call::Put(KEY, VALUE));
        let query = match self.work {
            Repeated::Get => Query::Get(KEY),
            Repeated::Peek => Query::Peek,
            Repeated::Update => return update_all(rt, caller, self.times),
        };
        read_all(caller, &query, self.times)
    }
}

/// Reads so often, and tells how many answers had the value that is there.
fn read_all(caller: &mut impl Calls<Trio>, query: &Query, reads: u64) -> u64 {
    let mut found = 0u64;
    for _ in 0..reads {
        let (answer, _front) = caller.query(query);
        if answer == Answer::Value(VALUE) || answer == Answer::Head(VALUE) {
            found = found.wrapping_add(1);
        }
    }
    found
}

/// Updates so often, and tells how many were done.
fn update_all(rt: &impl Wait, caller: &mut impl Calls<Trio>, updates: u64) -> u64 {
    let mut done = 0u64;
    for round in 0..updates {
        if let Updated::Done(_, _) = caller.update(rt, &Call::Put(KEY, round)) {
            done = done.wrapping_add(1);
        }
    }
    done
}

/// Works so often on a new heap, and tells how much was done, or `None` where no heap was made.
pub fn work<R: Threads + Wait + Sync + AllocGlobal>(
    rt: &R,
    work: Repeated,
    times: u64,
) -> Result<Option<u64>, AllocError> {
    let device = Ram::zeroed(rt.alloc(), WORDS)?;
    let repeats = Repeats { work, times };
    match with_callers(rt, device, Mode::OpenOrCreate(ORDER), 1, &repeats) {
        Ok(ran) => Ok(ran.results.first().copied()),
        Err(_) => Ok(None),
    }
}
