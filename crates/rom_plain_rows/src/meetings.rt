//! Callers who meet: each goes on with a line only when all others have begun theirs. Their texts are
//! replayed on plain models.

use crate::key::Key;
use crate::map::Map;
use crate::runner::{PROGRAMS, Program, formatted, ran};
use crate::sum::Sum;
use rom_device::Device;
use rom_store::NoGate;
use rom_test::{
    AMPLE, Found, Holding, Limits, Replayed, Roll, SMALL, is_lawful, lines_of, number_after,
    places, right,
};
use std::alloc::{AllocError, Global};
use std::sync::Wait;
use std::test::Fail;
use std::thread::Threads;

/// There is room for the text of some thousand lines.
const LIMITS: Limits = Limits {
    room: 262_144,
    ..AMPLE
};

/// Scripts of one length, which callers have in turns. What comes and goes is what all share.
fn scripts_of(program: Program) -> &'static [&'static str] {
    match program {
        Program::Counter => &["add 3\nget\nadd 4\n"],
        Program::Blobs => &["set 7 aa\ncut 7\nsize\nset 7 bb\nfetch 7\n"],
        Program::Index => &[
            "put 7 1\nput 3 2\nrange 0 9\ndel 7\nfrom 0\nput 7 3\nrange 3 7\n",
            "put 5 4\ndel 3\nfrom 4\nput 3 9\ndel 5\nget 7\nrange 9 0\n",
            "range 0 9\nput 1 8\nput 9 6\ndel 1\nrange 0 9\ndel 9\nget 3\n",
        ],
    }
}

/// A script of queries alone.
fn queries_of(program: Program) -> &'static [&'static str] {
    match program {
        Program::Counter => &["get\nget\nget\n"],
        Program::Blobs => &["size\nfetch 7\nsize\n"],
        Program::Index => &["range 0 9\nget 7\nfrom 3\n"],
    }
}

/// Runs callers who meet at each line, with these scripts, from a heap of this count which holds what the
/// model does, and asserts that the text is that of one history.
fn meet<R: Threads + Wait + Sync + AllocGlobal, M: Replayed>(
    rt: &R,
    program: Program,
    words: &[&str],
    scripts: &[&str],
    device: Vec<u64>,
    from: u64,
    model: &mut M,
) -> Result<Found, Fail> {
    let alloc = rt.alloc();
    let lines = lines_of(alloc, scripts)?;
    let gate = Roll::new(alloc, &lines, Holding::EachLine)?;
    let found = ran(rt, program, words, scripts, device, LIMITS, &gate)?;
    let text = found.text();
    let wrong = gate.differs(true, places(text));
    right(
        program.name(),
        scripts.len(),
        found.status == 0 && wrong.is_none(),
    )?;
    let lawful = is_lawful(alloc, model, from, scripts, text)?;
    right("the history of callers", scripts.len(), lawful)?;
    Ok(found)
}

/// The same of so many callers who have these scripts in turns, from an empty heap.
fn meet_many<R: Threads + Wait + Sync + AllocGlobal>(
    rt: &R,
    program: Program,
    words: &[&str],
    scripts: &[&str],
    callers: u64,
    device: Vec<u64>,
) -> Result<Found, Fail> {
    let alloc = rt.alloc();
    let mut words = words.to_vec(alloc)?;
    let mut own = Vec::new(alloc);
    for script in scripts.iter().copied().cycle().take(callers as usize) {
        words.push("a")?;
        own.push(script)?;
    }
    match program {
        Program::Counter => {
            let mut model = Sum { value: 0 };
            meet(rt, program, &words, &own, device, 0, &mut model)
        }
        Program::Blobs => meet(rt, program, &words, &own, device, 0, &mut Key::new(alloc)),
        Program::Index => meet(
            rt,
            program,
            &words,
            &own,
            device,
            0,
            &mut Map::new(alloc, 8),
        ),
    }
}

#[test]
fn callers_run_beside_each_other(rt: HostRuntime) -> Result<(), Fail> {
    for program in PROGRAMS {
        for callers in [2, 16] {
            for scripts in [scripts_of(program), queries_of(program)] {
                let zeros = vec![in rt.alloc(); 0u64; SMALL]?;
                meet_many(&rt, program, &["try"], scripts, callers, zeros)?;
            }
        }
    }
    Ok(())
}

#[test]
fn each_order_has_room_for_its_callers(rt: HostRuntime) -> Result<(), Fail> {
    for program in PROGRAMS {
        for order in 4u32..17 {
            let heap = formatted(&rt, program, order)?;
            let scripts = scripts_of(program);
            meet_many(
                &rt,
                program,
                &["run", "heap"],
                scripts,
                u64::from(order),
                heap,
            )?;
        }
    }
    Ok(())
}

#[test]
fn callers_add_in_threads(rt: HostRuntime) -> Result<(), Fail> {
    let mut script = String::new(rt.alloc());
    for _ in 0..1000 {
        script.push_str("add 3\n")?;
    }
    let zeros = vec![in rt.alloc(); 0u64; SMALL]?;
    let scripts = [script.as_str()];
    let added = meet_many(&rt, Program::Counter, &["try"], &scripts, 3, zeros)?;
    let heap = added.device.words().to_vec(rt.alloc())?;
    let look = ["run", "heap", "a"];
    let found = ran(&rt, Program::Counter, &look, &["get"], heap, AMPLE, &NoGate)?;
    assert!(rt; found.text() == "caller 1\nsum 9000 #3000\ncount 3000\n");
    Ok(())
}

/// How many keys have a value, how much each has first, and how many moves there are from one to another.
const KEYS: u64 = 100;

const EACH: u64 = 1000;

const MOVES: u64 = 200;

/// The script that gives the keys their values.
fn beginning(alloc: Global) -> Result<String, AllocError> {
    let mut script = String::new(alloc);
    for key in 0..KEYS {
        let line = format!(in alloc; "put 1{key}0 {EACH}\n")?;
        script.push_str(line.as_str())?;
    }
    Ok(script)
}

/// The script of the moves. Each is three updates: a key has 1 less, another one without a value comes or
/// goes, so that the tree is turned, and one more key has 1 more.
fn moves(alloc: Global) -> Result<String, AllocError> {
    let mut values = [EACH; KEYS as usize];
    let mut script = String::new(alloc);
    for number in 0..MOVES {
        let from = number % KEYS;
        let to = number.saturating_mul(37).saturating_add(50) % KEYS;
        let less = values[from as usize].saturating_sub(1);
        values[from as usize] = less;
        let more = values[to as usize].saturating_add(1);
        values[to as usize] = more;
        let lines = if number < KEYS {
            format!(in alloc; "put 1{from}0 {less}\nput 1{from}5 0\nput 1{to}0 {more}\n")?
        } else {
            format!(in alloc; "put 1{from}0 {less}\ndel 1{from}5\nput 1{to}0 {more}\n")?
        };
        script.push_str(lines.as_str())?;
    }
    Ok(script)
}

/// The script of as many ranges over all keys.
fn ranges(alloc: Global) -> Result<String, AllocError> {
    let mut script = String::new(alloc);
    for _ in 0..MOVES {
        script.push_str("range 0 18446744073709551615\nrange 100 1995\nrange 0 19999\n")?;
    }
    Ok(script)
}

/// Whether each range was told of a front that is before or behind the writer's line of its number, which
/// each caller began when the others began theirs.
fn fronts_are_near(text: &str) -> bool {
    let mut number = 0u64;
    for line in text.lines() {
        if line.starts_with("caller ") {
            number = 0;
            continue;
        }
        if let Some(front) = number_after(line, '#') {
            let updates = front.saturating_sub(KEYS);
            if updates != number && updates != number.saturating_add(1) {
                return false;
            }
        }
        number = number.saturating_add(1);
    }
    true
}

#[test]
fn ranges_beside_a_writer_are_of_one_state(rt: HostRuntime) -> Result<(), Fail> {
    let alloc = rt.alloc();
    let (begin, moves, ranges) = (beginning(alloc)?, moves(alloc)?, ranges(alloc)?);
    let mut model = Map::new(alloc, 256);
    let heap = formatted(&rt, Program::Index, 9)?;
    let first = [begin.as_str()];
    let words = ["run", "heap", "a"];
    let begun = meet(&rt, Program::Index, &words, &first, heap, 0, &mut model)?;
    let heap = begun.device.words().to_vec(alloc)?;
    let scripts = [moves.as_str(), ranges.as_str(), ranges.as_str()];
    let words = ["run", "heap", "a", "b", "c"];
    let found = meet(
        &rt,
        Program::Index,
        &words,
        &scripts,
        heap,
        KEYS,
        &mut model,
    )?;
    assert!(rt; fronts_are_near(found.text()));
    Ok(())
}
