//! Makes calls on a heap in memory, reads and updates of a store and of a `Caller`, and passes, for their instructions to be
//! counted; and makes and opens a heap in a file.
//!
//! It knows which calls to repeat and how often; nothing is promised of what they answer.
//!
//! It stands apart from the program. Nothing is promised of its answers; it is proved that it
//! does not panic and that it meets the conditions of what it calls.
#![tactic(auto)]

mod callers;
mod calls;
mod command;
mod heap;
mod passes;
mod stores;

use command::Command;
use rom_header::Geometry;
use rom_host::hold_streams;
use std::process::ExitCode;
use std::{env, io};

const USAGE: &str = "rom_bench make FILE ORDER | open FILE
rom_bench count CALL CALLS
a CALL is enq, deq, add, add-middle, rem, rem-middle, put, again, del, move, has, has-middle, get, peek, len, total
or nothing, and at most 1000 are made
rom_bench store WORK TIMES | caller WORK TIMES
a WORK is get, peek or update
rom_bench pass PASSES";

/// What the words after the program's name ask for.
fn wanted(rt: &HostRuntime) -> io::Result<Option<Command>> {
    let mut words = Vec::new(rt.alloc());
    for word in env::args(rt)?.skip(1) {
        words.push(word)?;
    }
    Ok(Command::read(words))
}

/// Makes a heap in the file. `false` says that none could be made.
fn make(rt: &HostRuntime, path: &str, geometry: Geometry) -> io::Result<bool> {
    let mut device = heap::device_at(rt, path)?;
    heap::make(rt.alloc(), &mut device, geometry)
}

/// Opens the heap in the file, and says which state was found. `false` says that there was no heap.
fn open(rt: &HostRuntime, path: &str) -> io::Result<bool> {
    let mut device = heap::device_at(rt, path)?;
    let found = heap::open(&mut device);
    match found {
        Some(state) => println!(rt; "{}", heap::name_of(state))?,
        None => println!(rt; "no heap to open")?,
    }
    Ok(found.is_some())
}

/// Says how much was done. `None` says that no heap was made.
fn tell(rt: &HostRuntime, done: Option<u64>) -> io::Result<bool> {
    match done {
        Some(done) => println!(rt; "{done} done")?,
        None => println!(rt; "no heap was made")?,
    }
    Ok(done.is_some())
}

fn main(rt: HostRuntime) -> io::Result<ExitCode> {
    hold_streams(&rt)?;
    let Some(command) = wanted(&rt)? else {
        println!(&rt; "{}", USAGE)?;
        return Ok(ExitCode::from(2));
    };
    let is_done = match command {
        Command::Make(path, geometry) => make(&rt, path.as_str(), geometry)?,
        Command::Open(path) => open(&rt, path.as_str())?,
        Command::Count(calls, many) => tell(&rt, Some(calls::count(rt.alloc(), calls, many)?))?,
        // Readers are waited for with the handle that `main` alone has.
        Command::Store(work, times) => tell(&rt, stores::make(&rt, rt.alloc(), work, times)?)?,
        Command::Caller(work, times) => tell(&rt, callers::work(&rt, work, times)?)?,
        Command::Pass(many) => tell(&rt, passes::make(&rt, rt.alloc(), many)?)?,
    };
    if is_done {
        Ok(ExitCode::SUCCESS)
    } else {
        Ok(ExitCode::from(1))
    }
}
