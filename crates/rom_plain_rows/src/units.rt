//! A plain model of keys with bytes: which units are taken, and for each key how many bytes it has, from
//! which number they are made, and where its node and its bytes begin.

use std::alloc::{AllocError, Global};

#[derive(Clone, Copy)]
struct Held {
    key: u64,
    seed: u64,
    len: usize,
    node: usize,
    body: usize,
}

/// What an update is told.
#[derive(Clone, Copy)]
pub enum Told {
    New,
    Was(usize),
    Full,
    None,
}

/// A unit has four words, and a block of bytes 1, 2, 4 or 8 units.
pub fn units_for(len: usize) -> usize {
    match len {
        0 => 0,
        1..=32 => 1,
        33..=64 => 2,
        65..=128 => 4,
        _ => 8,
    }
}

#[derive(Drop)]
pub struct Units {
    taken: Vec<bool>,
    held: Vec<Held>,
    /// How many updates there were.
    pub count: u64,
}

impl Units {
    /// No key in so many units, of which the first sixteenth has the bucket table.
    pub fn new(alloc: Global, units: usize) -> Result<Units, AllocError> {
        let mut taken = vec![in alloc; false; units]?;
        for unit in taken.iter_mut().take(units / 16) {
            *unit = true;
        }
        Ok(Units {
            taken,
            held: Vec::new(alloc),
            count: 0,
        })
    }

    fn is_free(&self, at: usize, many: usize) -> bool {
        match self.taken.get(at..at.saturating_add(many)) {
            Some(block) => block.iter().all(|unit| !*unit),
            None => false,
        }
    }

    /// Where the first block of so many units is free.
    fn lowest(&self, many: usize) -> Option<usize> {
        for number in 0..self.taken.len() {
            let at = number.saturating_mul(many);
            if self.is_free(at, many) {
                return Some(at);
            }
        }
        None
    }

    fn mark(&mut self, at: usize, many: usize, taken: bool) {
        for unit in self.taken.iter_mut().skip(at).take(many) {
            *unit = taken;
        }
    }

    /// Takes the first block of so many units, or none where none are wanted.
    fn reserve(&mut self, many: usize) -> Option<usize> {
        if many == 0 {
            return Some(0);
        }
        let at = self.lowest(many)?;
        self.mark(at, many, true);
        Some(at)
    }

    fn index_of(&self, key: u64) -> Option<usize> {
        self.held.iter().position(|held| held.key == key)
    }

    fn add(&mut self, key: u64, seed: u64, len: usize) -> Result<Told, AllocError> {
        let many = units_for(len);
        let Some(body) = self.reserve(many) else {
            return Ok(Told::Full);
        };
        let Some(node) = self.reserve(1) else {
            self.mark(body, many, false);
            return Ok(Told::Full);
        };
        self.held.push(Held {
            key,
            seed,
            len,
            node,
            body,
        })?;
        Ok(Told::New)
    }

    fn replace(&mut self, index: usize, seed: u64, len: usize) -> Told {
        let Some(was) = self.held.get(index).copied() else {
            return Told::None;
        };
        let (old, many) = (units_for(was.len), units_for(len));
        let mut body = was.body;
        if old != many {
            let Some(at) = self.reserve(many) else {
                return Told::Full;
            };
            self.mark(was.body, old, false);
            body = at;
        }
        if let Some(held) = self.held.get_mut(index) {
            held.seed = seed;
            held.len = len;
            held.body = body;
        }
        Told::Was(was.len)
    }

    /// Gives a key so many bytes, which are made from the number of updates before.
    pub fn set(&mut self, key: u64, len: usize) -> Result<Told, AllocError> {
        let seed = self.count;
        self.count = seed.saturating_add(1);
        match self.index_of(key) {
            Some(index) => Ok(self.replace(index, seed, len)),
            None => self.add(key, seed, len),
        }
    }

    /// Takes a key out.
    pub fn cut(&mut self, key: u64) -> Told {
        self.count = self.count.saturating_add(1);
        let Some(index) = self.index_of(key) else {
            return Told::None;
        };
        let Some(was) = self.held.get(index).copied() else {
            return Told::None;
        };
        self.held.retain(|held| held.key != key);
        self.mark(was.node, 1, false);
        self.mark(was.body, units_for(was.len), false);
        Told::Was(was.len)
    }

    /// Of which number a key's bytes are made, and how many it has.
    pub fn fetch(&self, key: u64) -> Option<(u64, usize)> {
        let held = self.held.get(self.index_of(key)?)?;
        Some((held.seed, held.len))
    }

    /// How many units the nodes and blocks of all keys have.
    pub fn units(&self) -> usize {
        let mut units = 0usize;
        for held in self.held.iter() {
            units = units.saturating_add(1).saturating_add(units_for(held.len));
        }
        units
    }

    /// How many keys there are.
    pub fn keys(&self) -> u64 {
        self.held.len() as u64
    }
}
