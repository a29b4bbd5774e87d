//! A queue, a set and a map in the plainest form: a list, and lists that rise.

use crate::book::Told;
use std::alloc::{AllocError, Global};
use std::collections::VecDeque;

/// The value of a key, and one more than the place at which it was written.
#[derive(Clone, Copy)]
struct Value {
    value: u64,
    stamp: u64,
}

/// The elements of all three, and for how many there is room.
#[derive(Drop)]
pub struct Shelf {
    queue: VecDeque<u64>,
    set: Vec<u64>,
    keys: Vec<u64>,
    /// The value of each key, in the order of the keys.
    values: Vec<Value>,
    room: usize,
    /// What the update under way stamps the values with that it writes.
    pub stamp: u64,
}

impl Shelf {
    /// Nothing in any of them.
    pub fn new(alloc: Global, room: usize) -> Result<Shelf, AllocError> {
        Ok(Shelf {
            queue: VecDeque::with_capacity(alloc, room)?,
            set: Vec::new(alloc),
            keys: Vec::new(alloc),
            values: Vec::new(alloc),
            room,
            stamp: 0,
        })
    }

    /// The same elements, in other memory.
    pub fn copied(&self, alloc: Global) -> Result<Shelf, AllocError> {
        let mut copy = Shelf::new(alloc, self.room)?;
        for number in self.queue.iter() {
            copy.queue.push_back(*number)?;
        }
        copy.set.extend_from_slice(&self.set)?;
        copy.keys.extend_from_slice(&self.keys)?;
        copy.values.extend_from_slice(&self.values)?;
        copy.stamp = self.stamp;
        Ok(copy)
    }

    pub fn sizes(&self) -> [usize; 3] {
        [self.queue.len(), self.set.len(), self.keys.len()]
    }

    fn is_full(&self) -> bool {
        let [queue, set, map] = self.sizes();
        queue.saturating_add(set).saturating_add(map) >= self.room
    }

    pub fn first(&self) -> Option<u64> {
        self.queue.front().copied()
    }

    pub fn has(&self, number: u64) -> bool {
        self.set.binary_search(&number).is_ok()
    }

    pub fn value(&self, key: u64) -> Option<u64> {
        let at = self.keys.binary_search(&key).ok()?;
        Some(self.values.get(at)?.value)
    }

    /// The sum of all values.
    pub fn total(&self) -> u128 {
        let mut sum = 0u128;
        for value in &self.values {
            sum = sum.saturating_add(u128::from(value.value));
        }
        sum
    }

    /// How many values were written at this place or later.
    pub fn fresh(&self, place: u64) -> u64 {
        self.values
            .iter()
            .filter(|value| value.stamp > place)
            .count() as u64
    }

    pub fn enq(&mut self, number: u64) -> Result<Told, AllocError> {
        if self.is_full() {
            return Ok(Told::ill("full"));
        }
        self.queue.push_back(number)?;
        Ok(Told::well("queued"))
    }

    pub fn deq(&mut self) -> Told {
        match self.queue.pop_front() {
            Some(number) => Told::well("head").with(number),
            None => Told::ill("empty"),
        }
    }

    pub fn deq_if(&mut self, number: u64) -> Told {
        match self.first() {
            Some(first) if first != number => Told::ill("other").with(first),
            _ => self.deq(),
        }
    }

    pub fn add(&mut self, number: u64) -> Result<Told, AllocError> {
        let Err(at) = self.set.binary_search(&number) else {
            return Ok(Told::ill("present"));
        };
        if self.is_full() {
            return Ok(Told::ill("full"));
        }
        let at = at.min(self.set.len());
        self.set.insert(at, number)?;
        Ok(Told::well("added"))
    }

    pub fn rem(&mut self, number: u64) -> Told {
        match self.set.binary_search(&number) {
            Ok(at) if at < self.set.len() => {
                self.set.remove(at);
                Told::well("removed")
            }
            _ => Told::ill("absent"),
        }
    }

    /// Gives a key a value, and tells the value that it had.
    fn set_value(&mut self, key: u64, value: u64) -> Result<Option<u64>, AllocError> {
        let new = Value {
            value,
            stamp: self.stamp,
        };
        match self.keys.binary_search(&key) {
            Ok(at) => {
                let Some(place) = self.values.get_mut(at) else {
                    return Ok(None);
                };
                let was = place.value;
                *place = new;
                Ok(Some(was))
            }
            Err(at) => {
                let at_keys = at.min(self.keys.len());
                self.keys.insert(at_keys, key)?;
                let at_values = at.min(self.values.len());
                self.values.insert(at_values, new)?;
                Ok(None)
            }
        }
    }

    pub fn put(&mut self, key: u64, value: u64) -> Result<Told, AllocError> {
        if self.value(key).is_none() && self.is_full() {
            return Ok(Told::ill("full"));
        }
        Ok(match self.set_value(key, value)? {
            Some(was) => Told::well("was").with(was),
            None => Told::well("none"),
        })
    }

    pub fn del(&mut self, key: u64) -> Told {
        let Some(was) = self.value(key) else {
            return Told::ill("none");
        };
        if let Ok(at) = self.keys.binary_search(&key) {
            if at < self.keys.len() {
                self.keys.remove(at);
            }
            if at < self.values.len() {
                self.values.remove(at);
            }
        }
        Told::well("was").with(was)
    }

    pub fn shift(&mut self, from: u64, to: u64, amount: u64) -> Result<Told, AllocError> {
        let (Some(source), Some(target)) = (self.value(from), self.value(to)) else {
            return Ok(Told::ill("absent"));
        };
        let Some(less) = source.checked_sub(amount) else {
            return Ok(Told::ill("short").with(source));
        };
        if from == to {
            return Ok(Told::well("moved"));
        }
        let Some(more) = target.checked_add(amount) else {
            return Ok(Told::ill("over"));
        };
        self.set_value(from, less)?;
        self.set_value(to, more)?;
        Ok(Told::well("moved"))
    }

    pub fn inc(&mut self, key: u64, amount: u64) -> Result<Told, AllocError> {
        let Some(was) = self.value(key) else {
            return Ok(Told::ill("absent"));
        };
        let Some(sum) = was.checked_add(amount) else {
            return Ok(Told::ill("over"));
        };
        self.put(key, sum)
    }

    pub fn make(&mut self, key: u64, value: u64) -> Result<Told, AllocError> {
        if self.value(key).is_some() {
            return Ok(Told::ill("present"));
        }
        let put = self.put(key, value)?;
        Ok(if put.is_well() {
            Told::well("added")
        } else {
            put
        })
    }

    pub fn cas(&mut self, key: u64, was: u64, value: u64) -> Result<Told, AllocError> {
        match self.value(key) {
            None => Ok(Told::ill("absent")),
            Some(now) if now != was => Ok(Told::ill("other").with(now)),
            Some(_) => self.put(key, value),
        }
    }
}
