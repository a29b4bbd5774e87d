//! Walks along the chains of a region: which nodes they reach, and where they break. What was reached is kept
//! as one mark for each node of the allocator's tree, so the test of that tree takes the marks as they are.
ghost use Rattle.std.specs.Prelude.{◌≡◌, ◌≢◌, ℕ, ◌^◌, ◌<◌, ◌∷◌, [], List, length, MatchResult, Err, slice_index};
ghost use Rattle.rom_model.specs.Blocks.{IsOrder, block_of, region_len};
ghost use Rattle.rom_model.specs.Tests.{checked};
ghost use Rattle.rom_heap.specs.Walks.{next_word, node_tests, Reaches, Breaks, Walks, AreMarks, AreSomeMarks, IsWalk, IsReached, IsOnWalk, HasWalked};

use crate::inspect::follow::follow;
use crate::inspect::keys::{has_key, is_above};
use rom_block::{check, check_zeros};
use rom_map::{MAP_LINK, MAP_STAMP};
use rom_model::{Break, COUNT, QUEUE_HEAD, Rule, SET_HEAD, blocks_at, bucket};
use rom_queue::{QUEUE_LINK, QUEUE_ZEROS};
use rom_set::{SET_LINK, SET_ZEROS};

/// A chain of a region.
#[derive(Clone, Copy, Debug, PartialEq, Eq)]
pub enum Walk {
    Queue,
    Set,
    /// That of the bucket with this number, in a region of version 1.
    OldBucket(u64),
    /// That of the bucket with this number.
    Bucket(u64),
}

/// How far a walk along a chain came. All offsets are in words from the region's start.
#[derive(Clone, Copy, Debug, PartialEq, Eq)]
pub struct Reached {
    /// Where the next link stands.
    pub link: u64,
    /// Where the last node begins, or 0.
    pub last: u64,
    /// How many nodes were reached.
    pub count: u64,
}

impl Walk {
    /// A walk that has reached no node yet.
    fn begin(self, order: u32) -> Reached
        requires order { IsOrder order }
        requires walk { IsWalk order self }
        ensures { IsReached order self [] result }
    {
        let link = match self {
            Walk::Queue => QUEUE_HEAD,
            Walk::Set => SET_HEAD,
            Walk::OldBucket(number) | Walk::Bucket(number) => blocks_at(order) + number,
        };
        Reached {
            link,
            last: 0,
            count: 0,
        }
    }

    /// Which word of a node is its link to the next.
    fn next_word(self) -> u64
        ensures is { result ≡ next_word self }
        ensures small { result < 4 }
    {
        match self {
            Walk::Queue => QUEUE_LINK,
            Walk::Set => SET_LINK,
            Walk::OldBucket(_) | Walk::Bucket(_) => MAP_LINK,
        }
    }

    /// Tests a node behind those that were reached.
    fn inspect_node(
        self,
        region: &[u64],
        order: u32,
        reached: Reached,
        node: u64,
    ) -> Result<(), Break>
        requires order { IsOrder order }
        requires sized { length region.now ≡ region_len order }
        requires walk { IsWalk order self }
        requires reached { (seen : List ℕ) × (before : List ℕ)
            × Reaches order region.now self seen before × IsReached order self before reached }
        requires node { (b : ℕ) × (node ≡ block_of order b) × (b < 2 ^ order) }
        ensures { (seen before : List ℕ) (b : ℕ) → Reaches order region.now self seen before
            → IsReached order self before reached → node ≡ block_of order b
            → result ≡ checked (node_tests order region.now self before b) }
    {
        match self {
            Walk::Queue => check_zeros(region, node + QUEUE_ZEROS, 2, Rule::Pad),
            Walk::Set => {
                check_zeros(region, node + SET_ZEROS, 2, Rule::Pad)?;
                check(is_above(region, reached, node), node, Rule::Order)
            }
            Walk::Bucket(number) => {
                let at = node + MAP_STAMP;
                let stamp = region[at as usize];
                check(stamp <= region[COUNT as usize], at, Rule::Stamp)?;
                let own = bucket(order, region[node as usize]) == number;
                check(own, node, Rule::Bucket)?;
                check(is_above(region, reached, node), node, Rule::Order)
            }
            Walk::OldBucket(number) => {
                check_zeros(region, node + MAP_STAMP, 1, Rule::Pad)?;
                let key = region[node as usize];
                check(bucket(order, key) == number, node, Rule::Bucket)?;
                // The bucket is walked again from its head: no memory, but the square of its length in steps.
                let stands = has_key(region, order, number, reached.count, key);
                check(!stands, node, Rule::Repeat)
            }
        }
    }

    /// Goes on to the next node, marks it and tests it.
    fn step(
        self,
        region: &[u64],
        order: u32,
        reached: Reached,
        marks: &mut [bool],
    ) -> Result<Reached, Break>
        requires order { IsOrder order }
        requires sized { length region.now ≡ region_len order }
        requires walk { IsWalk order self }
        requires so_far { (seen : List ℕ) × (before : List ℕ)
            × IsOnWalk order region.now self seen before reached marks.old }
        requires some { slice_index region.now reached.link ≢ 0 }
        ensures { (seen before : List ℕ)
            → IsOnWalk order region.now self seen before reached marks.old → MatchResult result
            (λ next. (b : ℕ) × IsOnWalk order region.now self seen (b ∷ before) next marks.new)
            (λ e. Breaks order region.now self seen before e) }
    {
        let node = follow(region, order, reached.link, marks)?;
        self.inspect_node(region, order, reached, node)?;
        Ok(Reached {
            link: node + self.next_word(),
            last: node,
            count: reached.count + 1,
        })
    }

    /// Walks to the end of the chain, and marks its nodes.
    pub fn go(self, region: &[u64], order: u32, marks: &mut [bool]) -> Result<Reached, Break>
        requires order { IsOrder order }
        requires sized { length region.now ≡ region_len order }
        requires walk { IsWalk order self }
        requires marks { AreSomeMarks order marks.old }
        ensures { (seen : List ℕ) → AreMarks order seen marks.old → MatchResult result
            (λ reached. HasWalked order region.now self seen reached marks.new)
            (λ e. Walks order region.now self seen (Err e)) }
    {
        let mut reached = self.begin(order);
        while region[reached.link as usize] != 0 {
            reached = self.step(region, order, reached, marks)?;
        }
        Ok(reached)
    }
}
