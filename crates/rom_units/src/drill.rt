//! The scripts of drills, line by line, and their five lines.

use crate::right::right;
use crate::told::{Told, results_of, script_of};
use rom_model::{Answer, Call, LineResult, Query, Reply, Updated};
use rom_script::{
    Bytes, Collect, IoFailed, Line, Summary, drill_script, drill_scripts, print_drill, read_script,
    sum_dequeued, sum_enqueued,
};
use std::test::Fail;

/// From 1 the numbers 59559187, 1495354192 and 671064393 are drawn, and a fourth one.
const WORKED: &[u8] =
    b"put 0 1000\nput 1 1000\nput 2 1000\nput 3 1000\nenq 227\ndeq\nmove 0 1 4\ntotal\nrem 4\n";

/// The sum of the start and the caller's number is taken whole: here the numbers follow 15.
const LAST_START: &[u8] =
    b"put 60 1000\nput 61 1000\nput 62 1000\nput 63 1000\nadd 127\nget 56\nrem 120\nadd 121\n";

/// Here they follow 0.
const FROM_0: &[u8] =
    b"put 0 1000\nput 1 1000\nput 2 1000\nput 3 1000\nenq 0\ndeq\nenq 5367\ndeq\nenq 2497\ndeq\nmove 1 2 29\n";

/// A start, a caller, how many callers there are, and the lines of four items.
static SCRIPTS: [(u64, u64, u64, &[u8]); 3] = [
    (1, 1, 1, WORKED),
    (u64::MAX, 16, 16, LAST_START),
    (2147483647, 1, 1, FROM_0),
];

#[test]
fn scripts_follow_from_their_start(rt: HostRuntime) -> Result<(), Fail> {
    for (row, (start, caller, callers, lines)) in SCRIPTS.iter().enumerate() {
        assert!(rt; 1 <= *caller && *caller <= *callers && *callers <= 16);
        let script = drill_script(rt.alloc(), *start, *caller, *callers, 4)?;
        let mut source = Bytes::new(lines.to_vec(rt.alloc())?, 4096, Vec::new(rt.alloc()));
        let wanted = read_script(rt.alloc(), &mut source)?;
        right("lines", row, script.len() as u64 == wanted.len())?;
        for i in 0..script.len() {
            right("line", i, Some(script.whole(i)) == wanted.at(i as u64))?;
        }
    }
    Ok(())
}

/// What one caller's script of three items is told: four keys, and then these.
const TOLD: [Told; 8] = [
    LineResult::Update(Updated::Done(Reply::NoPrior, 0)),
    LineResult::Update(Updated::Done(Reply::NoPrior, 1)),
    LineResult::Update(Updated::Done(Reply::NoPrior, 2)),
    LineResult::Update(Updated::Done(Reply::NoPrior, 3)),
    LineResult::Update(Updated::Done(Reply::Queued, 4)),
    LineResult::Update(Updated::Done(Reply::Head(227), 5)),
    LineResult::Update(Updated::Done(Reply::Moved, 6)),
    LineResult::Read(Answer::Total(4000), 7),
];

const FIVE_LINES: &[u8] =
    b"drill 1 callers 1 calls 3\nenqueued 227 dequeued 227\nqueue 0 set 0 map 4\ntotal 4000\ncount 7\n";

const MOST: u64 = 18446744073709551615;

/// Lines of each of two callers, and what they are told.
const LINES: [Line; 6] = [
    Line::Update(Call::Enq(MOST)),
    Line::Update(Call::Enq(3)),
    Line::Update(Call::Enq(5)),
    Line::Update(Call::Deq),
    Line::Ask(Query::Peek),
    Line::Update(Call::Put(1, 9)),
];

const RESULTS: [Told; 6] = [
    LineResult::Update(Updated::Done(Reply::Queued, 1)),
    LineResult::Update(Updated::Done(Reply::Full, 2)),
    LineResult::Update(Updated::Doubt),
    LineResult::Update(Updated::Done(Reply::Head(MOST), 4)),
    LineResult::Read(Answer::Head(11), 5),
    LineResult::Update(Updated::Done(Reply::Was(13), 5)),
];

#[test]
fn a_drill_has_five_lines(rt: HostRuntime) -> Result<(), Fail> {
    let alloc = rt.alloc();
    let scripts = drill_scripts(alloc, 1, 1, 3)?;
    let results = [results_of(alloc, &TOLD)?];
    let drilled = Summary {
        start: 1,
        callers: 1,
        calls: 3,
        enqueued: sum_enqueued(&scripts, &results),
        dequeued: sum_dequeued(&results),
        sizes: Answer::Sizes {
            queue: 0,
            set: 0,
            map: 4,
        },
        total: Answer::Total(4000),
        count: 7,
    };
    for room in 0..=FIVE_LINES.len() {
        let mut out = Collect::with_room(alloc, room as u64, 7)?;
        let printed = print_drill(&mut out, &drilled);
        let wanted = if room < FIVE_LINES.len() {
            Err(IoFailed)
        } else {
            Ok(())
        };
        right("printed", room, printed == wanted)?;
        right("bytes", room, out.bytes() == &FIVE_LINES[..room])?;
    }
    // What was not put in and what was not taken out is not summed.
    let scripts = [script_of(alloc, &LINES)?, script_of(alloc, &LINES)?];
    let results = [results_of(alloc, &RESULTS)?, results_of(alloc, &RESULTS)?];
    let twice = 36893488147419103230;
    assert!(rt; sum_enqueued(&scripts, &results) == twice);
    assert!(rt; sum_dequeued(&results) == twice);
    Ok(())
}
