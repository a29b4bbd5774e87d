//! Four threads that count together: `tally FILE` keeps a [`Counter`] in a heap in that file, and makes the heap
//! where the file is new. Each thread adds 1 twenty-five times, and the sum is printed that is there then.
#![tactic(auto)]

use counter::{Add, Counter, Query};
use rom_caller::{Calls, Work};
use rom_file::{Program, work_on_file};
use rom_model::Updated;
use std::io;
use std::process::ExitCode;
use std::sync::Wait;

struct Tally;

impl<R: Wait> Work<Counter, R> for Tally {
    type Out = bool;

    fn work<C: Calls<Counter>>(&self, rt: &R, caller: &mut C, index: usize) -> bool {
        let one = Add { amount: 1 };
        (0..25).all(|_| matches!(caller.update(rt, &one), Updated::Done(..)))
    }
}

fn main(rt: HostRuntime) -> io::Result<ExitCode> {
    let mut ran = match work_on_file(&rt, Program::new(&rt, "tally"), 4, 4, &Tally) {
        Ok(ran) => ran,
        Err(status) => return Ok(status),
    };
    println!(&rt; "sum {}", ran.closed.ask(&Query::Get).value)?;
    if ran.results.iter().all(|well| *well) {
        Ok(ExitCode::SUCCESS)
    } else {
        Ok(ExitCode::FAILURE)
    }
}
