//! Scripts that are drawn, the same each time.

use std::alloc::{AllocError, Global};

/// Numbers that are drawn one after another, each from the one before.
#[derive(Clone, Copy)]
pub struct Draw {
    pub last: u64,
}

impl Draw {
    /// A number below that one.
    pub fn below(&mut self, end: u64) -> u64 {
        self.last = self
            .last
            .wrapping_mul(6_364_136_223_846_793_005)
            .wrapping_add(1_442_695_040_888_963_407);
        (self.last >> 33).checked_rem(end).unwrap_or(0)
    }
}

/// Which updates come where the heap is to get full, and where it is to get empty.
static GROWING: [&str; 16] = [
    "enq", "enq", "enq", "enq", "add", "add", "put", "put", "put", "put", "new", "inc", "inc",
    "move", "cas", "deq",
];

static SHRINKING: [&str; 16] = [
    "deq", "deq", "deq", "deq-if", "rem", "rem", "del", "del", "put", "put", "put", "inc", "inc",
    "move", "cas", "enq",
];

/// What is drawn: from how many keys, and whether the heap is to get full.
#[derive(Clone, Copy)]
pub struct Kind {
    pub keys: u64,
    pub grows: bool,
}

/// An amount or a value. Few are so great that hardly any amount can be added.
fn amount(draw: &mut Draw) -> u64 {
    let small = draw.below(3);
    if draw.below(24) == 0 {
        u64::MAX.saturating_sub(small)
    } else {
        small
    }
}

/// An update of one structure.
fn single(alloc: Global, kind: Kind, draw: &mut Draw) -> Result<String, AllocError> {
    let names = if kind.grows { &GROWING } else { &SHRINKING };
    let name = names.get(draw.below(16) as usize).copied().unwrap_or("deq");
    let (key, other) = (draw.below(kind.keys), draw.below(kind.keys));
    let (first, second) = (amount(draw), amount(draw));
    match name {
        "deq" => "deq".to_string(alloc),
        "enq" | "deq-if" => {
            let small = first.min(2);
            format!(in alloc; "{name} {small}")
        }
        "add" | "rem" | "del" => format!(in alloc; "{name} {key}"),
        "put" | "new" | "inc" => format!(in alloc; "{name} {key} {first}"),
        "cas" => format!(in alloc; "cas {key} {first} {second}"),
        _ => format!(in alloc; "move {key} {other} {first}"),
    }
}

/// A group of two to eight members.
fn group(alloc: Global, kind: Kind, draw: &mut Draw) -> Result<String, AllocError> {
    let mut text = "all ".to_string(alloc)?;
    for member in 0..draw.below(7).saturating_add(2) {
        if member > 0 {
            text.push_str(" ; ")?;
        }
        text.push_str(single(alloc, kind, draw)?.as_str())?;
    }
    Ok(text)
}

fn query(alloc: Global, kind: Kind, number: u64, draw: &mut Draw) -> Result<String, AllocError> {
    let key = draw.below(kind.keys);
    match draw.below(6) {
        0 => format!(in alloc; "has {key}"),
        1 => format!(in alloc; "get {key}"),
        2 => "peek".to_string(alloc),
        3 => "total".to_string(alloc),
        4 => {
            let place = draw.below(number.saturating_add(1));
            format!(in alloc; "fresh {place}")
        }
        _ => "len".to_string(alloc),
    }
}

/// The line after so many: six of ten are groups, and one is a query.
pub fn line(alloc: Global, kind: Kind, number: u64, draw: &mut Draw) -> Result<String, AllocError> {
    match draw.below(10) {
        0 => query(alloc, kind, number, draw),
        1..=3 => single(alloc, kind, draw),
        _ => group(alloc, kind, draw),
    }
}
