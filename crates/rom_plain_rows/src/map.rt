//! A plain model of an ordered index: std's own map, with a limit on the number of its keys.

use crate::texts::{answer_text, reply_text, step_of};
use rom_model::Step;
use rom_order::{OrderAnswer, OrderCall, OrderQuery, OrderReply};
use rom_test::{Asked, Replayed};
use std::alloc::{AllocError, AllocFailed, Global};
use std::collections::BTreeMap;

/// What is told where memory for the map is wanted.
pub type Wanting = AllocFailed<(u64, u64)>;

#[derive(Drop)]
pub struct Map {
    map: BTreeMap<u64, u64>,
    /// How many keys there is room for.
    room: usize,
}

impl Map {
    pub fn new(alloc: Global, room: usize) -> Map {
        Map {
            map: BTreeMap::new(alloc),
            room,
        }
    }

    /// How many keys there are.
    pub fn keys(&self) -> usize {
        self.map.len()
    }

    fn put(&mut self, key: u64, value: u64) -> Result<OrderReply, Wanting> {
        if !self.map.contains_key(&key) && self.map.len() >= self.room {
            return Ok(OrderReply::Full);
        }
        match self.map.insert(key, value)? {
            Some(before) => Ok(OrderReply::Was(before)),
            None => Ok(OrderReply::NoPrior),
        }
    }

    /// Does an update.
    pub fn apply(&mut self, call: &OrderCall) -> Result<OrderReply, Wanting> {
        match *call {
            OrderCall::Put(key, value) => self.put(key, value),
            OrderCall::Del(key) => match self.map.remove(&key) {
                Some(before) => Ok(OrderReply::Was(before)),
                None => Ok(OrderReply::NoPrior),
            },
        }
    }

    fn range(&self, low: u64, high: u64) -> OrderAnswer {
        let mut count = 0u64;
        let mut sum = 0u128;
        if low <= high {
            for (_, value) in self.map.range(low..=high) {
                count = count.saturating_add(1);
                sum = sum.saturating_add(*value as u128);
            }
        }
        OrderAnswer::Range { count, sum }
    }

    /// Answers a query.
    pub fn tell(&self, query: &OrderQuery) -> OrderAnswer {
        match *query {
            OrderQuery::Get(key) => match self.map.get(&key) {
                Some(value) => OrderAnswer::Value(*value),
                None => OrderAnswer::Missing,
            },
            OrderQuery::From(key) => match self.map.range(key..).next() {
                Some((key, value)) => OrderAnswer::Pair(*key, *value),
                None => OrderAnswer::Missing,
            },
            OrderQuery::Range(low, high) => self.range(low, high),
        }
    }
}

impl Replayed for Map {
    fn asked(&self, line: &str) -> Asked {
        match step_of(line) {
            Step::Update(_) => Asked::Update,
            Step::Ask(_) => Asked::Query,
            Step::Unread => Asked::Unread,
        }
    }

    fn update(&mut self, alloc: Global, line: &str, place: u64) -> Result<String, AllocError> {
        let Step::Update(call) = step_of(line) else {
            return Ok(String::new(alloc));
        };
        match self.apply(&call) {
            Ok(reply) => reply_text(alloc, &reply, place),
            Err(_) => Err(AllocError),
        }
    }

    fn answer(&self, alloc: Global, line: &str, front: u64) -> Result<String, AllocError> {
        match step_of(line) {
            Step::Ask(query) => answer_text(alloc, &self.tell(&query), front),
            _ => Ok(String::new(alloc)),
        }
    }
}
