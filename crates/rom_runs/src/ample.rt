//! Runs that no want of memory may end: of heaps of each order, of many callers, and of long scripts.

use crate::model::Elements;
use crate::rows::{PLAIN, Row, Text, Words};
use crate::runner::{ran, try_rows};
use rom_device::Device;
use rom_shell::NoGate;
use rom_test::{Holding, NEVER, Roll, device_of, is_lawful, lines_in, places, words_of_order};
use std::process::Abort;
use std::sync::Wait;
use std::test::Fail;
use std::thread::Threads;

/// Room for what is printed.
const ROOM: u64 = 16384;

/// What each caller of a heap of some order does.
const SCRIPT: &str = "put 1 1\nadd 2\nhas 2\nrem 2\nget 1\n";

const TRY: Row = Row {
    words: &["try", "a"],
    text: Text::OneHistory(0),
    ..PLAIN
};

static SCRIPTS: [Row; 5] = [
    // The most lines that a script may have.
    Row {
        scripts: &["131072 * \n"],
        status: 1,
        text: Text::Is("caller 1\n131072 * unread\ncount 0\n"),
        ..TRY
    },
    Row {
        scripts: &["enq 7\n59999 * peek\n"],
        text: Text::Is("caller 1\nqueued @0\n59999 * head 7 #1\ncount 1\n"),
        ..TRY
    },
    Row {
        scripts: &["20000 * put 1 1\n20000 * add 2\n20000 * get 1\n"],
        ..TRY
    },
    Row {
        words: &["try", "a", "b", "c"],
        scripts: &["20000 * put 1 1\n"; 3],
        ..TRY
    },
    Row {
        words: &["run", "F", "a", "b", "c"],
        scripts: &["20000 * put 1 1\n"; 3],
        device: Words::Heap(&[]),
        ..TRY
    },
];

/// The longest drill that there is.
const LONGEST: Row = Row {
    words: &["drill", "--calls=10000", "--callers=16", "5"],
    text: Text::Is(
        "drill 5 callers 16 calls 10000\nenqueued 165396733 dequeued 165396733\nqueue 0 set 70 map 64\ntotal 64000\ncount 160307\n",
    ),
    device: Words::Zeros(49_192),
    drawn: &[
        12453, 12617, 12527, 12494, 12524, 12455, 12575, 12657, 12509, 12464, 12503, 12523, 12506,
        12563, 12593, 12429,
    ],
    ..PLAIN
};

/// Runs a command that is to tell this, and gives the words that it leaves.
fn tells<R: Threads + Wait + Sync + AllocGlobal + Abort>(
    rt: &R,
    words: &[&str],
    device: Vec<u64>,
    wanted: String,
) -> Result<Vec<u64>, Fail> {
    let device = device_of(rt.alloc(), device, 0, Vec::new(rt.alloc()), NEVER)?;
    let found = ran(rt, words, &[], &[], device, ROOM, &NoGate)?;
    assert_eq!(rt; (found.status, found.text()), (0, wanted.as_str()));
    Ok(found.device.words().to_vec(rt.alloc())?)
}

/// Runs so many callers, who meet, on an empty heap of these words, and gives the words that they leave.
fn meet<R: Threads + Wait + Sync + AllocGlobal + Abort>(
    rt: &R,
    callers: usize,
    device: Vec<u64>,
) -> Result<Vec<u64>, Fail> {
    let alloc = rt.alloc();
    let mut words = ["run", "F"].to_vec(alloc)?;
    for _ in 0..callers {
        words.push("a")?;
    }
    let scripts = vec![in alloc; SCRIPT; callers]?;
    let lines = vec![in alloc; 5u64; callers]?;
    let gate = Roll::new(alloc, &lines, Holding::Callers)?;
    let device = device_of(alloc, device, lines_in(&lines), Vec::new(alloc), NEVER)?;
    let found = ran(rt, &words, &scripts, &[], device, ROOM, &gate)?;
    let text = found.text();
    let wrong = gate.differs(true, places(text));
    assert_eq!(rt; (found.status, wrong), (0, None), "{callers}: {text:?}");
    let mut model = Elements::new(alloc)?;
    assert!(rt;
        is_lawful(alloc, &mut model, 0, &scripts, text)?,
        "{callers}: {text:?}"
    );
    Ok(found.device.words().to_vec(alloc)?)
}

/// Makes a heap of that order, takes it for one of version 1 and upgrades it, has as many callers as the
/// order's number run on it, and shows it between.
fn try_order<R: Threads + Wait + Sync + AllocGlobal + Abort>(
    rt: &R,
    order: u32,
) -> Result<(), Fail> {
    let alloc = rt.alloc();
    let digits = format!(in alloc; "{order}")?;
    let units = 1u64 << order.min(16);
    let free = units.saturating_sub(units / 16);
    let zeros = vec![in alloc; 0u64; words_of_order(order)]?;
    let wanted = format!(in alloc; "formatted order {order}\n")?;
    let mut heap = tells(
        rt,
        &["format", "F", "--order", digits.as_str()],
        zeros,
        wanted,
    )?;
    let region = heap.len().saturating_sub(8) / 2;
    for version in [9, region.saturating_add(9)] {
        if let Some(word) = heap.get_mut(version) {
            *word = 1;
        }
    }
    let wanted = format!(in alloc; "upgraded order {order}\n")?;
    let heap = tells(rt, &["upgrade", "F"], heap, wanted)?;
    let wanted = format!(in alloc;
        "order {order}\ncount 0\nqueue 0 set 0 map 0\nfree {free}\ntotal 0\n"
    )?;
    let heap = tells(rt, &["stat", "F"], heap, wanted)?;
    let heap = meet(rt, order as usize, heap)?;
    let (count, free) = (order.saturating_mul(3), free.saturating_sub(1));
    let wanted = format!(in alloc;
        "order {order}\ncount {count}\nqueue 0 set 0 map 1\nfree {free}\ntotal 1\n"
    )?;
    tells(rt, &["stat", "F"], heap, wanted)?;
    Ok(())
}

#[test]
fn each_order_has_room_for_its_callers(rt: HostRuntime) -> Result<(), Fail> {
    for order in 4u32..17 {
        try_order(&rt, order)?;
    }
    Ok(())
}

#[test]
fn long_scripts_are_run(rt: HostRuntime) -> Result<(), Fail> {
    try_rows(&rt, &SCRIPTS)
}

#[test]
fn the_longest_drill_is_run(rt: HostRuntime) -> Result<(), Fail> {
    try_rows(&rt, &[LONGEST])
}
