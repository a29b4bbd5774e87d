//! One offset more in ranges that rise, are disjoint and do not touch.
ghost use Rattle.std.specs.Prelude.{◌≡◌, ℕ, ◌+◌, ◌^◌, ◌<◌, ◌≤◌, length, slice_index_or};
ghost use Rattle.std.specs.List.{insert};
ghost use Rattle.std.specs.Vec.{vec_len, vec_capacity};
ghost use Rattle.rom_ranges.specs.Holding.{AddsOffset};
ghost use Rattle.rom_ranges.specs.Ranges.{AreApart};
ghost use Rattle.rom_ranges.specs.declared.range.Range.{Range};

use crate::range::Range;

/// The first range that ends at the offset or past it, by its index; where there is none, how many
/// ranges there are. Where the last range begins at the offset or before it, no other is looked at.
fn first_near(ranges: &[Range], at: u64) -> usize
    requires { AreApart ranges.now }
    ensures within { result ≤ length ranges.now }
    ensures before { (k : ℕ) (d : Range) → k < result → (slice_index_or ranges.now k d).end < at }
    ensures near { (d : Range) → result < length ranges.now →
        at ≤ (slice_index_or ranges.now result d).end }
{
    let count = ranges.len();
    if count == 0 || at < ranges[count - 1].start {
        return ranges.partition_point(|range| range.end < at);
    }
    if ranges[count - 1].end < at {
        return count;
    }
    count - 1
}

/// Holds the offset from now on. There is room for one range more.
pub(crate) fn hold(ranges: &mut Vec<Range>, at: u64)
    requires apart { AreApart ranges.old.items }
    requires room { vec_len ranges.old < vec_capacity ranges.old }
    requires small { at < 2 ^ 63 }
    ensures holds { AddsOffset at ranges.old.items ranges.new.items }
    ensures capacity { vec_capacity ranges.old ≤ vec_capacity ranges.new }
{
    let i = first_near(ranges.as_slice(), at);
    if i == ranges.len() {
        hold_alone(ranges, i, at);
        return;
    }
    let near = ranges[i];
    if at + 1 < near.start {
        hold_alone(ranges, i, at);
        return;
    }
    if at < near.start {
        ranges[i].start = at;
        return;
    }
    if at < near.end {
        return;
    }
    lengthen(ranges, i, at);
}

/// Puts a range of the offset alone there.
fn hold_alone(ranges: &mut Vec<Range>, i: usize, at: u64)
    requires within { i ≤ vec_len ranges.old }
    requires room { vec_len ranges.old < vec_capacity ranges.old }
    requires small { at < 2 ^ 63 }
    ensures items { ranges.new.items
        ≡ insert ranges.old.items i record { start = at; end = at + 1 } }
    ensures capacity { vec_capacity ranges.old ≤ vec_capacity ranges.new }
{
    // There is room, so it takes no memory and cannot fail.
    let _ = ranges.insert(
        i,
        Range {
            start: at,
            end: at + 1,
        },
    );
}

/// Lets the range that ends at the offset hold it. Where the next one begins right behind it, the two
/// become one.
fn lengthen(ranges: &mut Vec<Range>, i: usize, at: u64)
    requires apart { AreApart ranges.old.items }
    requires within { i < vec_len ranges.old }
    requires before { (k : ℕ) (d : Range) → k < i → (slice_index_or ranges.old.items k d).end < at }
    requires ends { (d : Range) → (slice_index_or ranges.old.items i d).end ≡ at }
    requires small { at < 2 ^ 63 }
    ensures holds { AddsOffset at ranges.old.items ranges.new.items }
    ensures capacity { vec_capacity ranges.old ≤ vec_capacity ranges.new }
{
    if i + 1 < ranges.len() && ranges[i + 1].start == at + 1 {
        ranges[i].end = ranges[i + 1].end;
        ranges.remove(i + 1);
        return;
    }
    ranges[i].end = at + 1;
}
