//! Full heaps that are made again, or greater, from the scripts that are printed of them.

use rom_device::Ram;
use rom_dump::dump;
use rom_heap::Trio;
use rom_rebuild::CarryTrio;
use rom_shell::{NoGate, files_of, run};
use rom_test::{names_of, right, source_of};
use rom_text::Collect;
use std::alloc::{AllocError, Global};
use std::sync::Wait;
use std::test::Fail;
use std::thread::Threads;

/// How many elements a part of a script has, and how many of them a line.
const PART: u64 = 20480;

const GROUP: u64 = 8;

/// Room for what is printed.
const ROOM: u64 = 4_194_304;

/// A full heap: how many elements each structure has, with numbers from this one on.
#[derive(Clone, Copy)]
struct Full {
    order: &'static str,
    words: u64,
    base: u64,
    queue: u64,
    set: u64,
    map: u64,
    /// What is told of its whole script, where that is too long.
    too_long: &'static str,
}

static FULL: [Full; 3] = [
    Full {
        order: "4",
        words: 232,
        base: 0,
        queue: 5,
        set: 4,
        map: 6,
        too_long: "",
    },
    Full {
        order: "9",
        words: 6184,
        base: 7,
        queue: 200,
        set: 130,
        map: 150,
        too_long: "",
    },
    // Each number has twenty digits.
    Full {
        order: "16",
        words: 786_472,
        base: 18_446_744_073_709_450_000,
        queue: 30_000,
        set: 1_440,
        map: 30_000,
        too_long: "script too long, 3 parts\n",
    },
];

/// The lines that make it, in parts: one for each element, the set rising and the keys falling.
fn lines_of(alloc: Global, full: &Full) -> Result<Vec<String>, AllocError> {
    let mut parts = Vec::new(alloc);
    let mut part = String::new(alloc);
    let many = full.queue.saturating_add(full.set).saturating_add(full.map);
    for index in 0..many {
        part.push_str(element_of(alloc, full, index, false)?.as_str())?;
        part.push_str("\n")?;
        if index % PART == PART - 1 {
            parts.push(part)?;
            part = String::new(alloc);
        }
    }
    parts.push(part)?;
    Ok(parts)
}

/// The lines of its own script, in parts: groups of eight, the set falling and the keys rising.
fn groups_of(alloc: Global, full: &Full) -> Result<Vec<String>, AllocError> {
    let mut parts = Vec::new(alloc);
    let mut part = String::new(alloc);
    let many = full.queue.saturating_add(full.set).saturating_add(full.map);
    for index in 0..many {
        let is_first = index % GROUP == 0;
        let is_last = index % GROUP == GROUP - 1 || index.saturating_add(1) == many;
        if is_first && !is_last {
            part.push_str("tx ")?;
        }
        part.push_str(element_of(alloc, full, index, true)?.as_str())?;
        part.push_str(if is_last { "\n" } else { " ; " })?;
        if index % PART == PART - 1 {
            parts.push(part)?;
            part = String::new(alloc);
        }
    }
    parts.push(part)?;
    Ok(parts)
}

/// The number of that index among so many.
fn number_of(full: &Full, index: u64, many: u64, rising: bool) -> u64 {
    let index = if rising {
        index
    } else {
        many.saturating_sub(index).saturating_sub(1)
    };
    full.base.saturating_add(index)
}

/// The line of an element. The keys rise and the set falls, or the other way round.
fn element_of(alloc: Global, full: &Full, index: u64, rising: bool) -> Result<String, AllocError> {
    if index < full.queue {
        let value = full.base.saturating_add(index % 1000);
        return format!(in alloc; "enq {value}");
    }
    let index = index.saturating_sub(full.queue);
    if index < full.set {
        let number = number_of(full, index, full.set, !rising);
        return format!(in alloc; "add {number}");
    }
    let key = number_of(full, index.saturating_sub(full.set), full.map, rising);
    let value = full.base.saturating_add(key % 997);
    format!(in alloc; "put {key} {value}")
}

/// A device, and what a command of `romulus` told of it.
#[derive(Drop)]
pub(crate) struct Told {
    pub(crate) device: Ram,
    pub(crate) status: u8,
    pub(crate) text: String,
}

/// Runs a command of `romulus`, with a script where it takes one.
pub(crate) fn ran<R: Threads + Wait + Sync + AllocGlobal>(
    rt: &R,
    words: &[&str],
    device: Ram,
    script: Option<&str>,
) -> Result<Told, Fail> {
    let alloc = rt.alloc();
    let names = names_of(alloc, words)?;
    let mut sources = Vec::new(alloc);
    if let Some(script) = script {
        sources.push(source_of(alloc, script.as_bytes(), 4096, 0)?)?;
    }
    if files_of(alloc, &names)?.scripts.len() != sources.len() as u64 {
        return Err("another number of scripts".into());
    }
    let mut out = Collect::with_room(alloc, ROOM, 4096)?;
    let ended = run(rt, alloc, &names, device, sources, &mut out, &NoGate);
    Ok(Told {
        device: ended.device,
        status: ended.status,
        text: str::from_utf8(out.bytes())?.to_string(alloc)?,
    })
}

/// A new heap on which these scripts were run one after another. None of their lines is told of anything but a
/// new element.
fn made<R: Threads + Wait + Sync + AllocGlobal>(
    rt: &R,
    full: &Full,
    scripts: &[String],
) -> Result<Ram, Fail> {
    let device = Ram::zeroed(rt.alloc(), full.words)?;
    let mut done = ran(rt, &["format", "heap", "--order", full.order], device, None)?;
    for script in scripts {
        done = ran(
            rt,
            &["run", "heap", "a"],
            done.device,
            Some(script.as_str()),
        )?;
        let others = done.text.lines().filter(|line| {
            !line.starts_with("queued @")
                && !line.starts_with("added @")
                && !line.starts_with("none @")
                && !line.starts_with("all ")
        });
        if done.status != 0 || others.count() != 2 {
            return Err("a line was told of something else".into());
        }
    }
    Ok(done.device)
}

/// What a command of `romulus_dump` tells, whose status is to be this one.
pub(crate) fn dumped(
    alloc: Global,
    words: &[&str],
    device: &mut Ram,
    status: u8,
) -> Result<String, Fail> {
    let names = names_of(alloc, words)?;
    let mut out = Collect::with_room(alloc, ROOM, 4096)?;
    if dump::<Ram, Trio, CarryTrio, Collect>(alloc, &names, device, &mut out) != status {
        return Err("another status".into());
    }
    Ok(str::from_utf8(out.bytes())?.to_string(alloc)?)
}

/// What `stat` prints but for the count.
fn stat_of<R: Threads + Wait + Sync + AllocGlobal>(rt: &R, device: Ram) -> Result<String, Fail> {
    let shown = ran(rt, &["stat", "heap"], device, None)?;
    let mut text = String::new(rt.alloc());
    for line in shown
        .text
        .lines()
        .filter(|line| !line.starts_with("count "))
    {
        text.push_str(line)?;
        text.push_str("\n")?;
    }
    Ok(text)
}

/// The script of a heap, in as many parts as there are.
fn parts_of(alloc: Global, full: &Full, device: &mut Ram) -> Result<Vec<String>, Fail> {
    let mut parts = Vec::new(alloc);
    if full.too_long.is_empty() {
        parts.push(dumped(alloc, &["script", "heap"], device, 0)?)?;
        return Ok(parts);
    }
    for part in ["1", "2", "3"] {
        parts.push(dumped(alloc, &["script", "heap", "--part", part], device, 0)?)?;
    }
    Ok(parts)
}

#[test]
fn a_full_heap_is_made_again(rt: HostRuntime) -> Result<(), Fail> {
    let alloc = rt.alloc();
    for (row, full) in FULL.iter().enumerate() {
        let mut device = made(&rt, full, &lines_of(alloc, full)?)?;
        if !full.too_long.is_empty() {
            let told = dumped(alloc, &["script", "heap"], &mut device, 8)?;
            right("too long, of heap", row, told.as_str() == full.too_long)?;
        }
        let parts = parts_of(alloc, full, &mut device)?;
        let wanted = groups_of(alloc, full)?;
        for (part, wanted) in parts.iter().zip(wanted.iter()) {
            right("a part of heap", row, part.as_str() == wanted.as_str())?;
        }
        let again = made(&rt, full, &parts)?;
        let stat = stat_of(&rt, device)?;
        right("full, heap", row, stat.contains("\nfree 0\n"))?;
        right(
            "stat of heap",
            row,
            stat_of(&rt, again)?.as_str() == stat.as_str(),
        )?;
    }
    Ok(())
}

#[test]
fn a_full_heap_grows(rt: HostRuntime) -> Result<(), Fail> {
    let alloc = rt.alloc();
    let [small, greater, _] = &FULL;
    let mut device = made(&rt, small, &lines_of(alloc, small)?)?;
    let parts = parts_of(alloc, small, &mut device)?;
    let mut grown = made(&rt, greater, &parts)?;
    let told = dumped(alloc, &["check", "heap"], &mut grown, 0)?;
    assert!(rt;
        told.as_str()
            == "region both: idle\nkind a queue, a set and a map\norder 9\ncount 2\nqueue 5 set 4 map 6\nfree 465\ntotal 15\n"
    );
    let again = parts_of(alloc, small, &mut grown)?;
    for (at, (part, was)) in again.iter().zip(parts.iter()).enumerate() {
        right("part", at, part.as_str() == was.as_str())?;
    }
    Ok(())
}
