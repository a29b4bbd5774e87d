//! Long scripts of two callers on few keys, so that they meet there, the heap gets full, and amounts do not
//! fit; and scripts of sixteen callers on one key.

use crate::heaps::words_of;
use crate::rows::{PLAIN, Row, Text};
use crate::runner::try_row;
use rom_test::texts_of;
use std::alloc::{AllocError, Global};
use std::test::Fail;

/// How many updates each script has, with as many reads.
const UPDATES: u64 = 2000;

/// The next of a row of numbers that follow no plain pattern.
fn next_of(number: u64) -> u64 {
    number
        .wrapping_mul(6_364_136_223_846_793_005)
        .wrapping_add(1_442_695_040_888_963_407)
}

/// An update by this number, of few keys. Some values are so great that no amount can be added.
fn update_of(alloc: Global, number: u64) -> Result<String, AllocError> {
    let key = (number >> 8) % 5;
    let other = (number >> 16) % 5;
    let small = (number >> 24) % 50;
    let great = u64::MAX - small;
    match (number >> 32) % 8 {
        0 => format!(in alloc; "enq {small}\n"),
        1 => format!(in alloc; "deq\n"),
        2 => format!(in alloc; "add {key}\n"),
        3 => format!(in alloc; "rem {key}\n"),
        4 => format!(in alloc; "put {key} {small}\n"),
        5 => format!(in alloc; "put {key} {great}\n"),
        6 => format!(in alloc; "del {key}\n"),
        _ => format!(in alloc; "move {key} {other} {small}\n"),
    }
}

fn query_of(alloc: Global, number: u64) -> Result<String, AllocError> {
    let key = (number >> 8) % 5;
    let place = (number >> 8) % (2 * UPDATES);
    match (number >> 32) % 6 {
        0 => format!(in alloc; "has {key}\n"),
        1 => format!(in alloc; "get {key}\n"),
        2 => format!(in alloc; "peek\n"),
        3 => format!(in alloc; "len\n"),
        4 => format!(in alloc; "fresh {place}\n"),
        _ => format!(in alloc; "total\n"),
    }
}

/// A script of updates and reads in turn, by the numbers after this one.
fn script_of(alloc: Global, seed: u64) -> Result<String, AllocError> {
    let mut script = String::new(alloc);
    let mut number = seed;
    for _ in 0..UPDATES {
        number = next_of(number);
        script.push_str(update_of(alloc, number)?.as_str())?;
        number = next_of(number);
        script.push_str(query_of(alloc, number)?.as_str())?;
    }
    Ok(script)
}

/// The words alone: the scripts are made.
const MADE: Row = Row {
    words: &["try", "one", "two"],
    text: Text::OneHistory(0),
    ..PLAIN
};

#[test]
fn what_two_scripts_are_told_is_one_history(rt: HostRuntime) -> Result<(), Fail> {
    let alloc = rt.alloc();
    let (first, second) = (script_of(alloc, 1)?, script_of(alloc, 2)?);
    let words = words_of(alloc, &MADE.device, &[])?;
    let scripts = [first.as_str(), second.as_str()];
    try_row(&rt, &MADE, &scripts, words.as_slice())?;
    Ok(())
}

/// The script of a caller that gives one key values of its own, and reads it, in turn.
fn putting(alloc: Global, caller: u64) -> Result<String, AllocError> {
    let mut script = String::new(alloc);
    for round in 0..32u64 {
        let value = caller.saturating_mul(100).saturating_add(round);
        script.push_str(format!(in alloc; "put 5 {value}\nget 5\n")?.as_str())?;
    }
    Ok(script)
}

const SIXTEEN: Row = Row {
    words: &[
        "try", "a", "a", "a", "a", "a", "a", "a", "a", "a", "a", "a", "a", "a", "a", "a", "a",
    ],
    ..MADE
};

#[test]
fn sixteen_callers_put_and_read_one_key(rt: HostRuntime) -> Result<(), Fail> {
    let alloc = rt.alloc();
    let mut scripts = Vec::new(alloc);
    for caller in 0..16 {
        scripts.push(putting(alloc, caller)?)?;
    }
    let words = words_of(alloc, &SIXTEEN.device, &[])?;
    try_row(&rt, &SIXTEEN, &texts_of(alloc, &scripts)?, words.as_slice())?;
    Ok(())
}
