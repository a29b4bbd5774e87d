//! A queue, a set and a map in the plainest form, by which a printed text is checked.
//!
//! It shares no code with the object of a heap, which it is to agree with.

use crate::texts::{answer_text, reply_text, step_of};
use rom_model::{Answer, Call, Group, Kind, Query, Replies, Reply, Single, SingleReply, Step};
use rom_test::{Asked, Replayed};
use std::alloc::{AllocError, Global};
use std::collections::VecDeque;

/// How many elements a heap of order 4 has room for.
const ROOM: usize = 15;

/// A key of the map.
#[derive(Clone, Copy)]
struct Pair {
    key: u64,
    value: u64,
    /// One more than the place at which the value was written.
    stamp: u64,
}

/// The elements, each list in no order but the queue's.
#[derive(Drop)]
pub struct Elements {
    queue: VecDeque<u64>,
    set: Vec<u64>,
    map: Vec<Pair>,
    /// What the update under way stamps the values with that it writes.
    stamp: u64,
}

impl Elements {
    /// Nothing in any of them. Only a group takes memory later.
    pub fn new(alloc: Global) -> Result<Elements, AllocError> {
        Ok(Elements {
            queue: VecDeque::with_capacity(alloc, ROOM)?,
            set: Vec::with_capacity(alloc, ROOM)?,
            map: Vec::with_capacity(alloc, ROOM)?,
            stamp: 0,
        })
    }

    fn is_full(&self) -> bool {
        self.queue.len()
            >= ROOM
                .saturating_sub(self.set.len())
                .saturating_sub(self.map.len())
    }

    fn value(&self, key: u64) -> Option<u64> {
        for pair in &self.map {
            if pair.key == key {
                return Some(pair.value);
            }
        }
        None
    }

    /// Gives a key that is there another value.
    fn set_value(&mut self, key: u64, value: u64) {
        let stamp = self.stamp;
        for pair in self.map.iter_mut() {
            if pair.key == key {
                *pair = Pair { key, value, stamp };
            }
        }
    }

    fn put(&mut self, key: u64, value: u64) -> Result<SingleReply, AllocError> {
        if let Some(old) = self.value(key) {
            self.set_value(key, value);
            return Ok(SingleReply::Was(old));
        }
        if self.is_full() {
            return Ok(SingleReply::Full);
        }
        let stamp = self.stamp;
        self.map.push(Pair { key, value, stamp })?;
        Ok(SingleReply::NoPrior)
    }

    fn del(&mut self, key: u64) -> SingleReply {
        match self.value(key) {
            Some(old) => {
                self.map.retain(|pair| pair.key != key);
                SingleReply::Was(old)
            }
            None => SingleReply::NoPrior,
        }
    }

    fn shift(&mut self, from: u64, to: u64, amount: u64) -> SingleReply {
        let (Some(source), Some(target)) = (self.value(from), self.value(to)) else {
            return SingleReply::Absent;
        };
        let Some(less) = source.checked_sub(amount) else {
            return SingleReply::Short(source);
        };
        if from == to {
            return SingleReply::Moved;
        }
        let Some(more) = target.checked_add(amount) else {
            return SingleReply::Over;
        };
        self.set_value(from, less);
        self.set_value(to, more);
        SingleReply::Moved
    }

    fn add(&mut self, number: u64) -> Result<SingleReply, AllocError> {
        if self.set.contains(&number) {
            return Ok(SingleReply::Present);
        }
        if self.is_full() {
            return Ok(SingleReply::Full);
        }
        self.set.push(number)?;
        Ok(SingleReply::Added)
    }

    fn rem(&mut self, number: u64) -> SingleReply {
        if !self.set.contains(&number) {
            return SingleReply::Absent;
        }
        self.set.retain(|other| *other != number);
        SingleReply::Removed
    }

    /// Does an update of one structure.
    fn one(&mut self, call: &Single) -> Result<SingleReply, AllocError> {
        Ok(match *call {
            Single::Enq(_) if self.is_full() => SingleReply::Full,
            Single::Enq(number) => {
                self.queue.push_back(number)?;
                SingleReply::Queued
            }
            Single::Deq => match self.queue.pop_front() {
                Some(number) => SingleReply::Head(number),
                None => SingleReply::Empty,
            },
            Single::Add(number) => self.add(number)?,
            Single::Rem(number) => self.rem(number),
            Single::Put(key, value) => self.put(key, value)?,
            Single::Del(key) => self.del(key),
            Single::Move(from, to, amount) => self.shift(from, to, amount),
        })
    }

    /// The same elements, in other memory.
    fn copied(&self, alloc: Global) -> Result<Elements, AllocError> {
        let mut copy = Elements::new(alloc)?;
        for number in self.queue.iter() {
            copy.queue.push_back(*number)?;
        }
        copy.set.extend_from_slice(&self.set)?;
        copy.map.extend_from_slice(&self.map)?;
        copy.stamp = self.stamp;
        Ok(copy)
    }

    /// Does the members of a group, or none of them where one finds no room.
    fn several(&mut self, alloc: Global, group: &Group) -> Result<Reply, AllocError> {
        let mut after = self.copied(alloc)?;
        let mut replies = Replies::new();
        for member in group.as_slice() {
            let reply = after.one(member)?;
            if reply == SingleReply::Full {
                return Ok(Reply::Full);
            }
            // No group has a ninth member.
            if replies.len() < 8 {
                replies.push(reply);
            }
        }
        *self = after;
        Ok(Reply::All(replies))
    }

    /// Does an update at this place.
    fn apply(&mut self, alloc: Global, call: &Call, place: u64) -> Result<Reply, AllocError> {
        self.stamp = place.saturating_add(1);
        match call.kind() {
            Kind::Single(single) => Ok(Reply::plain(self.one(&single)?)),
            Kind::Several(group) => self.several(alloc, &group),
        }
    }

    /// Answers a query.
    fn tell(&self, query: &Query) -> Answer {
        match *query {
            Query::Has(number) if self.set.contains(&number) => Answer::Yes,
            Query::Has(_) => Answer::No,
            Query::Get(key) => match self.value(key) {
                Some(value) => Answer::Value(value),
                None => Answer::Missing,
            },
            Query::Peek => match self.queue.front() {
                Some(number) => Answer::Head(*number),
                None => Answer::Empty,
            },
            Query::Len => Answer::Sizes {
                queue: self.queue.len() as u64,
                set: self.set.len() as u64,
                map: self.map.len() as u64,
            },
            Query::Total => {
                let mut sum = 0u128;
                for pair in &self.map {
                    sum = sum.wrapping_add(u128::from(pair.value));
                }
                Answer::Total(sum)
            }
            Query::Fresh(place) => {
                let fresh = self.map.iter().filter(|pair| pair.stamp > place);
                Answer::Fresh(fresh.count() as u64)
            }
        }
    }
}

impl Replayed for Elements {
    fn asked(&self, line: &str) -> Asked {
        match step_of(line) {
            Step::Update(_) => Asked::Update,
            Step::Ask(_) => Asked::Query,
            Step::Unread => Asked::Unread,
        }
    }

    fn update(&mut self, alloc: Global, line: &str, place: u64) -> Result<String, AllocError> {
        match step_of(line) {
            Step::Update(call) => {
                let reply = self.apply(alloc, &call, place)?;
                reply_text(alloc, &reply, place)
            }
            _ => Ok(String::new(alloc)),
        }
    }

    fn answer(&self, alloc: Global, line: &str, front: u64) -> Result<String, AllocError> {
        match step_of(line) {
            Step::Ask(query) => answer_text(alloc, &self.tell(&query), front),
            _ => Ok(String::new(alloc)),
        }
    }
}
