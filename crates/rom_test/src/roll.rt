//! A gate that notes all its calls, and holds callers or a pass up.

use crossbeam_utils::Backoff;
use rom_combine::Gate;
use std::alloc::{AllocError, Global};
use std::sync::Wait;
use std::sync::atomic::{AtomicU64, Ordering};

/// How often a thread looks before it gives up.
const TURNS: u64 = 20_000_000;

/// How long a pass is held up once all callers have begun, in looks.
const WHILE: u64 = 20_000;

/// Whom the gate holds up.
#[derive(Clone, Copy, Debug, PartialEq, Eq)]
pub enum Holding {
    /// Nobody.
    Nobody,
    /// Each caller as it begins its first line, until each of the others has begun its own; and so as it
    /// begins its last one.
    Callers,
    /// Each caller as it begins a line, until each of the others has begun as many.
    EachLine,
    /// The first pass, until each caller has begun its first line, and then for a while.
    FirstPass,
}

/// What a gate was told.
#[derive(Drop)]
pub struct Roll {
    holding: Holding,
    /// How many lines each caller has, and how many of them it has begun.
    lines: Vec<u64>,
    begun: Vec<AtomicU64>,
    /// How many lines were begun that are not the caller's next, or by no caller of the run.
    strays: AtomicU64,
    /// How many batches were published, how many of them were empty, and how many calls they did.
    batches: AtomicU64,
    empty: AtomicU64,
    done: AtomicU64,
    /// Whether a wait was given up.
    late: AtomicU64,
}

/// Looks at the word until it is at least that. `false` says that it gave up.
pub fn wait_for(word: &AtomicU64, least: u64) -> bool {
    let backoff = Backoff::new();
    for _ in 0..TURNS {
        if word.load(Ordering::SeqCst) >= least {
            return true;
        }
        backoff.snooze();
    }
    false
}

/// Where a caller's words stand in the lists, or behind all of them where there is no such caller.
fn index_of(caller: u32) -> usize {
    (caller as usize).checked_sub(1).unwrap_or(usize::MAX)
}

impl Roll {
    /// Nothing was told yet of callers who have so many lines each.
    pub fn new(alloc: Global, lines: &[u64], holding: Holding) -> Result<Roll, AllocError> {
        let mut begun = Vec::new(alloc);
        for _ in lines {
            begun.push(AtomicU64::new(0))?;
        }
        Ok(Roll {
            holding,
            lines: lines.to_vec(alloc)?,
            begun,
            strays: AtomicU64::new(0),
            batches: AtomicU64::new(0),
            empty: AtomicU64::new(0),
            done: AtomicU64::new(0),
            late: AtomicU64::new(0),
        })
    }

    /// Notes that the line is begun. `false` says that it is not the caller's next.
    fn begins(&self, caller: u32, line: u64) -> bool {
        match self.begun.get(index_of(caller)) {
            Some(begun) => line.checked_sub(1) == Some(begun.fetch_add(1, Ordering::SeqCst)),
            None => false,
        }
    }

    /// How many lines each of the others is to have begun before this one goes on.
    fn awaited(&self, caller: u32, line: u64) -> u64 {
        let is_last = self.lines.get(index_of(caller)).copied() == Some(line);
        match self.holding {
            Holding::Callers if is_last => u64::MAX,
            Holding::Callers if line == 1 => 1,
            Holding::EachLine => line,
            Holding::Callers | Holding::Nobody | Holding::FirstPass => 0,
        }
    }

    /// Waits until each caller has begun so many lines, or all that it has. One wait alone is given up.
    fn meets(&self, many: u64) {
        for (begun, lines) in self.begun.iter().zip(self.lines.iter()) {
            if self.late.load(Ordering::SeqCst) == 0 && !wait_for(begun, many.min(*lines)) {
                self.late.store(1, Ordering::SeqCst);
            }
        }
    }

    /// How many batches were published.
    pub fn published_batches(&self) -> u64 {
        self.batches.load(Ordering::SeqCst)
    }

    /// What differs, where the callers were to begin all their lines or none, and batches did so many
    /// calls.
    pub fn differs(&self, begin: bool, done: u64) -> Option<&'static str> {
        if self.late.load(Ordering::SeqCst) > 0 {
            return Some("callers did not run beside each other");
        }
        for (begun, lines) in self.begun.iter().zip(self.lines.iter()) {
            let wanted = if begin { *lines } else { 0 };
            if begun.load(Ordering::SeqCst) != wanted {
                return Some("the gate was told of other lines");
            }
        }
        if self.strays.load(Ordering::SeqCst) > 0 {
            return Some("the gate was told of a line that is not the next");
        }
        if self.empty.load(Ordering::SeqCst) > 0 {
            return Some("the gate was told of an empty batch");
        }
        if self.done.load(Ordering::SeqCst) != done {
            return Some("the gate was told of another number of calls");
        }
        None
    }
}

impl Gate for Roll {
    fn before<R: Wait>(&self, _rt: &R, caller: u32, line: u64) {
        if !self.begins(caller, line) {
            self.strays.fetch_add(1, Ordering::SeqCst);
        }
        let many = self.awaited(caller, line);
        if many > 0 {
            self.meets(many);
        }
    }

    fn published<R: Wait>(&self, _rt: &R, count: u32) {
        self.done.fetch_add(u64::from(count), Ordering::SeqCst);
        if count == 0 {
            self.empty.fetch_add(1, Ordering::SeqCst);
        }
        let is_first = self.batches.fetch_add(1, Ordering::SeqCst) == 0;
        if is_first && self.holding == Holding::FirstPass {
            self.meets(1);
            let backoff = Backoff::new();
            for _ in 0..WHILE {
                backoff.snooze();
            }
        }
    }
}
