//! Runs a row, and looks at all that it is to tell.

use crate::heaps::words_of;
use crate::model::Elements;
use crate::rows::{PLAIN, Row, Sink, Text, Words};
use rom_device::{Device, Fuse, Memory};
use rom_shell::{NoGate, files_of, run};
use rom_store::Gate;
use rom_test::{
    Found, Handed, NEVER, Roll, count_of, device_of, hand, is_lawful, lines_in, lines_of, places,
    texts_of,
};
use std::alloc::{AllocError, Global};
use std::process::Abort;
use std::sync::Wait;
use std::test::Fail;
use std::thread::Threads;

/// Room for what is printed beside the lines of scripts.
const ROOM: u64 = 4096;

/// No line is told more bytes.
const MOST_TOLD: u64 = 48;

/// A text with each line as often as it says.
fn written(alloc: Global, text: &str) -> Result<String, AllocError> {
    let mut whole = String::new(alloc);
    for line in text.lines() {
        let (times, line) = line.split_once(" * ").unwrap_or(("1", line));
        for _ in 0..times.parse::<u64>().unwrap_or(0) {
            whole.push_str(line)?;
            whole.push_str("\n")?;
        }
    }
    if !text.ends_with("\n") {
        whole.pop();
    }
    Ok(whole)
}

/// The scripts of a row, written out.
fn scripts_of(alloc: Global, row: &Row) -> Result<Vec<String>, AllocError> {
    let mut scripts = Vec::new(alloc);
    for script in row.scripts {
        scripts.push(written(alloc, script)?)?;
    }
    Ok(scripts)
}

/// How many lines each caller has.
fn lines_for(alloc: Global, row: &Row, scripts: &[&str]) -> Result<Vec<u64>, AllocError> {
    let mut lines = row.drawn.to_vec(alloc)?;
    lines.extend_from_slice(&lines_of(alloc, scripts)?)?;
    Ok(lines)
}

/// Runs a command on a device, with a sink of this room. Of each script the read of its number in `failing`
/// fails.
pub fn ran<R: Threads + Wait + Sync + AllocGlobal, G: Gate + Sync>(
    rt: &R,
    words: &[&str],
    scripts: &[&str],
    failing: &[u64],
    device: Fuse<Memory>,
    room: u64,
    gate: &G,
) -> Result<Found, Fail> {
    let alloc = rt.alloc();
    let Handed {
        names,
        scripts,
        device,
        mut out,
    } = hand(alloc, words, scripts, failing, device, room)?;
    if files_of(alloc, &names)?.scripts.len() != scripts.len() as u64 {
        return Err("another number of scripts".into());
    }
    let ended = run(rt, alloc, &names, device, scripts, &mut out, gate);
    Ok(Found {
        status: ended.status,
        bytes: out.bytes().to_vec(alloc)?,
        has_session: ended.session.is_some(),
        device: ended.device.inner(),
    })
}

/// The device of a row with these words, with room for the calls of that many lines.
fn device_for(
    alloc: Global,
    row: &Row,
    words: Vec<u64>,
    lines: u64,
) -> Result<Fuse<Memory>, AllocError> {
    let mut trips = Vec::new(alloc);
    if let Some(trip) = row.trip {
        trips.push(trip)?;
    }
    device_of(alloc, words, lines, trips, row.calls)
}

/// Runs a row on a device of these words, where nobody is told of its lines.
pub fn run_row<R: Threads + Wait + Sync + AllocGlobal>(
    rt: &R,
    row: &Row,
    words: Vec<u64>,
) -> Result<Found, Fail> {
    let device = device_for(rt.alloc(), row, words, 0)?;
    ran(rt, row.words, row.scripts, &[], device, ROOM, &NoGate)
}

/// What `stat` prints of these words.
pub fn shown<R: Threads + Wait + Sync + AllocGlobal>(
    rt: &R,
    words: Vec<u64>,
) -> Result<Found, Fail> {
    let device = device_for(rt.alloc(), &PLAIN, words, 0)?;
    ran(rt, &["stat", "file"], &[], &[], device, ROOM, &NoGate)
}

/// Whether scripts were run, by the whole text.
fn has_run(whole: &str) -> bool {
    whole.starts_with("caller ") || whole.starts_with("drill ")
}

/// The count of a heap that is shown so.
pub fn count_shown(shown: &str) -> Option<u64> {
    let line = shown.lines().nth(1)?;
    line.strip_prefix("count ")?.parse::<u64>().ok()
}

/// How many updates were done, by the whole text.
fn done_in(whole: &str) -> u64 {
    if whole.starts_with("drill ") {
        return count_of(whole).unwrap_or(0);
    }
    places(whole)
}

/// Whether the text is the front that the sink had room for of the whole one, which is that of one
/// history.
fn is_told(
    alloc: Global,
    row: &Row,
    scripts: &[&str],
    whole: &str,
    found: &Found,
    room: u64,
) -> Result<bool, AllocError> {
    let text = found.text();
    let is_front = whole.starts_with(text) && text.len() as u64 == room.min(whole.len() as u64);
    match row.text {
        Text::Is(_) => Ok(is_front),
        Text::OneHistory(from) => {
            is_lawful(alloc, &mut Elements::new(alloc)?, from, scripts, text)
        }
    }
}

/// What of the device differs after a run, but for the heap that is opened again.
fn device_differs(
    alloc: Global,
    row: &Row,
    before: &[u64],
    found: &Found,
) -> Result<Option<&'static str>, AllocError> {
    let device = &found.device;
    if row.calls == NEVER && device.fault_count() != row.faults {
        return Ok(Some("other calls of the device failed"));
    }
    if matches!(row.status, 2 | 4 | 8) && device.calls_made() > 0 {
        return Ok(Some("the device was called"));
    }
    if row.left.is_some() || matches!(row.status, 2 | 3 | 4 | 8) {
        let left = words_of(alloc, &row.left.unwrap_or(Words::Kept), before)?;
        if device.words() != left.as_slice() {
            return Ok(Some("the device has other words"));
        }
    }
    Ok(None)
}

/// What of a run differs from its row, but for its device.
fn differs(
    alloc: Global,
    row: &Row,
    scripts: &[&str],
    whole: &str,
    found: &Found,
    roll: &Roll,
    room: u64,
) -> Result<Option<&'static str>, AllocError> {
    let status = if has_run(whole) && room < whole.len() as u64 {
        5
    } else {
        row.status
    };
    if found.status != status {
        return Ok(Some("the status differs"));
    }
    if !is_told(alloc, row, scripts, whole, found, room)? {
        return Ok(Some("the text differs"));
    }
    if found.has_session != (has_run(whole) || whole.starts_with("order ")) {
        return Ok(Some("the session differs"));
    }
    Ok(roll.differs(has_run(whole), done_in(whole)))
}

/// Whether `stat` shows what the row says, or else the count that was told.
fn is_shown<R: Threads + Wait + Sync + AllocGlobal>(
    rt: &R,
    row: &Row,
    whole: &str,
    words: Vec<u64>,
) -> Result<bool, Fail> {
    if !row.shown.is_empty() {
        return Ok(shown(rt, words)?.text() == row.shown);
    }
    let told = count_of(whole);
    if told.is_none() || row.faults > 0 || row.calls < NEVER {
        return Ok(true);
    }
    Ok(count_shown(shown(rt, words)?.text()) == told)
}

/// Runs a row with a sink of this room, asserts that it does not differ, and gives the device's words.
fn try_once<R: Threads + Wait + Sync + AllocGlobal + Abort>(
    rt: &R,
    row: &Row,
    scripts: &[&str],
    before: &[u64],
    room: u64,
) -> Result<Vec<u64>, Fail> {
    let alloc = rt.alloc();
    let lines = lines_for(alloc, row, scripts)?;
    let roll = Roll::new(alloc, &lines, row.gate)?;
    let device = device_for(alloc, row, before.to_vec(alloc)?, lines_in(&lines))?;
    let found = ran(rt, row.words, scripts, row.failing, device, room, &roll)?;
    let whole = match row.text {
        Text::Is(text) => written(alloc, text)?,
        Text::OneHistory(_) => found.text().to_string(alloc)?,
    };
    let whole = whole.as_str();
    let words = found.device.words().to_vec(alloc)?;
    let wrong = match differs(alloc, row, scripts, whole, &found, &roll, room)? {
        None => device_differs(alloc, row, before, &found)?,
        wrong => wrong,
    };
    let wrong = match wrong {
        None if !is_shown(rt, row, whole, words.clone()?)? => Some("another heap is opened again"),
        wrong => wrong,
    };
    assert!(rt;
        wrong.is_none(),
        "{wrong:?} with room for {room} bytes: status {}, text {:?}, of {row:?}",
        found.status,
        found.text()
    );
    Ok(words)
}

/// Runs each row in turn, on the words that the one before it left where it says so.
pub fn try_rows<R: Threads + Wait + Sync + AllocGlobal + Abort>(
    rt: &R,
    rows: &[Row],
) -> Result<(), Fail> {
    let alloc = rt.alloc();
    let mut kept = Vec::new(alloc);
    for row in rows {
        let scripts = scripts_of(alloc, row)?;
        let before = words_of(alloc, &row.device, kept.as_slice())?;
        kept = try_row(rt, row, &texts_of(alloc, &scripts)?, before.as_slice())?;
    }
    Ok(())
}

/// Runs a row with a sink of each room that it says, and gives the device's words.
pub fn try_row<R: Threads + Wait + Sync + AllocGlobal + Abort>(
    rt: &R,
    row: &Row,
    scripts: &[&str],
    before: &[u64],
) -> Result<Vec<u64>, Fail> {
    if let (Sink::Each, Text::Is(text)) = (row.sink, row.text) {
        for room in 0..text.len() {
            try_once(rt, row, scripts, before, room as u64)?;
        }
        try_once(rt, row, scripts, before, text.len() as u64)?;
    }
    let lines = lines_in(&lines_for(rt.alloc(), row, scripts)?);
    let room = match row.sink {
        Sink::Only(room) => room,
        Sink::Ample | Sink::Each => ROOM.saturating_add(lines.saturating_mul(MOST_TOLD)),
    };
    try_once(rt, row, scripts, before, room)
}
