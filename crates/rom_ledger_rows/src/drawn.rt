//! Drawn scripts of groups and single lines, from an empty heap to a full one and back.

use crate::book::Book;
use crate::drawing::{Draw, Kind, line};
use crate::runner::{LONG, formatted, run_one};
use crate::tally::Tally;
use rom_device::Device;
use rom_test::{is_lawful, places, right};
use std::alloc::{AllocError, Global};
use std::sync::Wait;
use std::test::Fail;
use std::thread::Threads;

/// A drawn run: a heap's order and room, how many keys come, how many of them are there first, in the set and
/// in the map, from which number on it is drawn, how many lines come while the heap gets full, and as many while
/// it gets empty, and how often.
#[derive(Clone, Copy)]
struct Drawn {
    order: u32,
    room: usize,
    keys: u64,
    filled: u64,
    start: u64,
    lines: u64,
    turns: u64,
}

/// The lines, and then those that take all that may be there.
fn script_of(alloc: Global, drawn: &Drawn) -> Result<String, AllocError> {
    let mut draw = Draw { last: drawn.start };
    let mut script = String::new(alloc);
    for key in 0..drawn.filled {
        script.push_str(format!(in alloc; "add {key}\nput {key} 1\n")?.as_str())?;
    }
    for number in 0..drawn.lines.saturating_mul(drawn.turns).saturating_mul(2) {
        let kind = Kind {
            keys: drawn.keys,
            grows: number.checked_div(drawn.lines).unwrap_or(0) % 2 == 0,
        };
        script.push_str(line(alloc, kind, number, &mut draw)?.as_str())?;
        script.push_str("\n")?;
    }
    for key in 0..drawn.keys {
        script.push_str(format!(in alloc; "rem {key}\ndel {key}\n")?.as_str())?;
    }
    for _ in 0..drawn.room {
        script.push_str("deq\n")?;
    }
    script.push_str("len\ntotal\nfresh 0\n")?;
    Ok(script)
}

/// Whether a heap was full at some time, and holds nothing at the end.
fn was_full_and_is_empty(text: &str) -> bool {
    text.contains("\nfull @") && text.contains("\nqueue 0 set 0 map 0 #")
}

/// Runs a drawn script, asserts that it is told as by a book, and that it got full and empty, and tallies its
/// groups. The heap that is left is one.
fn try_drawn<R: Threads + Wait + Sync + AllocGlobal>(
    rt: &R,
    row: usize,
    drawn: &Drawn,
) -> Result<Tally, Fail> {
    let alloc = rt.alloc();
    let script = script_of(alloc, drawn)?;
    let heap = formatted(rt, drawn.order)?;
    let found = run_one(rt, script.as_str(), heap.as_slice(), LONG)?;
    right("the status of drawn lines", row, found.status == 0)?;
    let mut book = Book::new(alloc, drawn.room)?;
    let scripts = [script.as_str()];
    let lawful = is_lawful(alloc, &mut book, 0, &scripts, found.text())?;
    right("what drawn lines are told", row, lawful)?;
    right("full and empty", row, was_full_and_is_empty(found.text()))?;
    let again = run_one(rt, "len\n", found.device.words(), LONG)?;
    let count = places(found.text());
    let wanted = format!(in alloc; "caller 1\nqueue 0 set 0 map 0 #{count}\ncount {count}\n")?;
    right("a drained heap", row, again.text() == wanted.as_str())?;
    Ok(Tally::of(found.text()))
}

const FOUR: Drawn = Drawn {
    order: 4,
    room: 15,
    keys: 5,
    filled: 0,
    start: 1,
    lines: 50,
    turns: 35,
};

static SMALL: [Drawn; 2] = [
    FOUR,
    Drawn {
        keys: 4,
        start: 2,
        lines: 60,
        turns: 25,
        ..FOUR
    },
];

const TWELVE: Drawn = Drawn {
    order: 12,
    room: 3840,
    keys: 2500,
    filled: 1700,
    start: 1,
    lines: 1500,
    turns: 1,
};

#[test]
fn drawn_groups_on_a_small_heap(rt: HostRuntime) -> Result<(), Fail> {
    for (row, drawn) in SMALL.iter().enumerate() {
        let tally = try_drawn(&rt, row, drawn)?;
        right("groups that were done", row, tally.done >= 300)?;
        right("groups that were not done", row, tally.undone >= 1000)?;
        right("each member and failure", row, tally.has_each())?;
    }
    Ok(())
}

#[test]
fn drawn_groups_on_a_greater_heap(rt: HostRuntime) -> Result<(), Fail> {
    let tally = try_drawn(&rt, 12, &TWELVE)?;
    right("groups that were done", 12, tally.done >= 300)?;
    right("groups that were not done", 12, tally.undone >= 300)
}
