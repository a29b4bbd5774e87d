//! Sums over all keys of the map.
ghost use Rattle.std.specs.Prelude.{◌≡◌, ℕ, ◌+◌, ◌*◌, ◌<◌, ◌≤◌, ◌^◌, List, length};
ghost use Rattle.std.specs.List.{sum_by};
ghost use Rattle.std.specs.FinMap as map;
ghost use Rattle.rom_model.specs.Space.{Looks};
ghost use Rattle.rom_model.specs.State.{State, total_of, fresh_after};
ghost use Rattle.rom_model.specs.Blocks.{IsOrder, region_len};
ghost use Rattle.rom_model.specs.Region.{buckets, IsWellFormed, Contents};
ghost use Rattle.rom_bucket.specs.Walk.{IsBucket, HoldsBucket};
ghost use Rattle.rom_map.specs.Sums.{word_of_measure, amount, counted_at, sum_of};

use crate::node::{MAP_LINK, MAP_STAMP, MAP_VALUE};
use rom_model::{Look, blocks_at, power_of_two};

/// What a sum counts of each key.
#[derive(Clone, Copy)]
enum Measure {
    /// Its value.
    Value,
    /// 1 where its stamp is above this place, and else 0.
    Fresh(u64),
}

impl Measure {
    /// Which word of a key's node it is taken from.
    fn word(self) -> u64
        ensures { result ≡ word_of_measure self }
    {
        match self {
            Measure::Value => MAP_VALUE,
            Measure::Fresh(_) => MAP_STAMP,
        }
    }

    /// What is counted of a key whose node has that word.
    fn of(self, word: u64) -> u64
        ensures { result ≡ amount self word }
    {
        match self {
            Measure::Value => word,
            Measure::Fresh(place) => u64::from(word > place),
        }
    }
}

/// The sum over a bucket's keys. A bucket has no more than 65,536 nodes.
// Most buckets are empty: inside the loop over all buckets one costs a load and a test.
#[inline(always)]
fn bucket_sum<M: Look>(space: &mut M, order: u32, number: u64, measure: Measure) -> u128
    requires order { IsOrder order }
    requires number { number < buckets order }
    requires sized { length (M.shown.image space.old) ≡ region_len order }
    requires bucket { HoldsBucket order number (M.shown.image space.old) }
    ensures sum { (blocks : List ℕ) → IsBucket order (M.shown.image space.old) number blocks
        → result ≡ sum_by (counted_at measure order (M.shown.image space.old)) blocks }
    ensures fits { (blocks : List ℕ) → IsBucket order (M.shown.image space.old) number blocks
        → result ≤ length blocks * 2 ^ 64 }
    ensures looks { (blocks : List ℕ) → IsBucket order (M.shown.image space.old) number blocks
        → Looks M.shown (1 + 2 * length blocks) space.old space.new }
{
    let mut total = 0;
    let mut node = space.load(blocks_at(order) + number);
    while node != 0 {
        let word = space.load(node + measure.word());
        total += u128::from(measure.of(word));
        node = space.load(node + MAP_LINK);
    }
    total
}

/// The sum over all keys of the map, in one walk along all chains.
fn map_sum<M: Look>(space: &mut M, order: u32, measure: Measure) -> u128
    requires order { IsOrder order }
    requires region { IsWellFormed order (M.shown.image space.old) }
    ensures sum { (s : State) (k : ℕ) → Contents order (M.shown.image space.old) s k
        → result ≡ sum_of measure s }
    ensures fits { result < 2 ^ 80 }
    ensures looks { (s : State) (k : ℕ) → Contents order (M.shown.image space.old) s k
        → Looks M.shown (buckets order + 2 * map.len s.pairs) space.old space.new }
{
    let mut total = 0;
    for number in 0..power_of_two(order - 2) {
        total += bucket_sum(space, order, number, measure);
    }
    total
}

/// The sum of all values of the map.
pub fn map_total<M: Look>(space: &mut M, order: u32) -> u128
    requires order { IsOrder order }
    requires region { IsWellFormed order (M.shown.image space.old) }
    ensures total { (s : State) (k : ℕ) → Contents order (M.shown.image space.old) s k
        → result ≡ total_of s }
    ensures fits { result < 2 ^ 80 }
    // The words stay. One load for each bucket and two for each key of the map are counted at most.
    ensures looks { (s : State) (k : ℕ) → Contents order (M.shown.image space.old) s k
        → Looks M.shown (buckets order + 2 * map.len s.pairs) space.old space.new }
{
    map_sum(space, order, Measure::Value)
}

/// How many keys of the map have a stamp above a place. A key that was taken out is not counted: to keep its
/// stamp would take a block that nobody gives back.
pub fn map_fresh<M: Look>(space: &mut M, order: u32, place: u64) -> u64
    requires order { IsOrder order }
    requires region { IsWellFormed order (M.shown.image space.old) }
    ensures fresh { (s : State) (k : ℕ) → Contents order (M.shown.image space.old) s k
        → result ≡ fresh_after s place }
    // The words stay. One load for each bucket and two for each key of the map are counted at most.
    ensures looks { (s : State) (k : ℕ) → Contents order (M.shown.image space.old) s k
        → Looks M.shown (buckets order + 2 * map.len s.pairs) space.old space.new }
{
    map_sum(space, order, Measure::Fresh(place)) as u64
}
