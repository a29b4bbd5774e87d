//! The object by its words: the worked regions, the inspection's answers, and loads and stores counted.
ghost use Rattle.std.specs.Prelude.{◌<◌, ◌≤◌, ℕ, length, IfOk};
ghost use Rattle.rom_model.specs.VecSpace.{words_of_space};
ghost use Rattle.rom_model.specs.History.{LAST_COUNT};
ghost use Rattle.rom_model.specs.State.{State, empty};
ghost use Rattle.rom_model.specs.Region.{Contents};
ghost use Rattle.rom_counted.specs.Counted.{BeginsLedger};

use crate::regions::{BROKEN, BROKEN_OLD, OLD, OLD_PAIRS, QUEUED, region};
use crate::right::right;
use rom_counted::Counted;
use rom_heap::Trio;
use rom_model::{
    Answer, Call, Group, Object, Query, Renew, Reply, Rule, Single, SingleReply, Unfit, VecSpace,
    new_region,
};
use std::alloc::Global;
use std::marker::Brand;
use std::sync::ledger::{Blank, Ledger};
use std::test::Fail;

/// With fifteen numbers the heap is full.
const FIFTEEN: [Single; 15] = [
    Single::Add(1),
    Single::Add(2),
    Single::Add(3),
    Single::Add(4),
    Single::Add(5),
    Single::Add(6),
    Single::Add(7),
    Single::Add(8),
    Single::Add(9),
    Single::Add(10),
    Single::Add(11),
    Single::Add(12),
    Single::Add(13),
    Single::Add(14),
    Single::Add(15),
];

/// Updates on a new heap of order 4, one more and what it is told, and the words that are then others
/// than in a new region.
static UPDATES: [(&[Single], Single, SingleReply, Option<&[(usize, u64)]>); 16] = [
    (&[], Single::Enq(9), SingleReply::Queued, Some(&QUEUED)),
    (
        &[Single::Enq(9)],
        Single::Deq,
        SingleReply::Head(9),
        Some(&[(2, 2), (52, 9)]),
    ),
    // The second node is linked to the first, and is the tail.
    (
        &[Single::Enq(9)],
        Single::Enq(8),
        SingleReply::Queued,
        Some(&[
            (2, 2),
            (3, 52),
            (4, 56),
            (5, 2),
            (20, 1),
            (24, 0),
            (25, 1),
            (33, 0),
            (34, 0),
            (52, 9),
            (53, 56),
            (56, 8),
        ]),
    ),
    (
        &[],
        Single::Put(5, 7),
        SingleReply::NoPrior,
        Some(&[
            (2, 1),
            (9, 1),
            (24, 0),
            (33, 0),
            (48, 52),
            (52, 5),
            (53, 7),
            (55, 1),
        ]),
    ),
    // The same value again: the stamp is another.
    (
        &[Single::Put(5, 7)],
        Single::Put(5, 7),
        SingleReply::Was(7),
        Some(&[
            (2, 2),
            (9, 1),
            (24, 0),
            (33, 0),
            (48, 52),
            (52, 5),
            (53, 7),
            (55, 2),
        ]),
    ),
    // Two keys of one bucket, which rise, whichever came last.
    (
        &[Single::Put(0, 1)],
        Single::Put(5, 2),
        SingleReply::NoPrior,
        Some(&[
            (2, 2),
            (9, 2),
            (20, 1),
            (24, 0),
            (25, 1),
            (33, 0),
            (34, 0),
            (48, 52),
            (53, 1),
            (54, 56),
            (55, 1),
            (56, 5),
            (57, 2),
            (59, 2),
        ]),
    ),
    (
        &[Single::Put(5, 2)],
        Single::Put(0, 1),
        SingleReply::NoPrior,
        Some(&[
            (2, 2),
            (9, 2),
            (20, 1),
            (24, 0),
            (25, 1),
            (33, 0),
            (34, 0),
            (48, 56),
            (52, 5),
            (53, 2),
            (55, 1),
            (57, 1),
            (58, 52),
            (59, 2),
        ]),
    ),
    // A move of nothing writes both stamps.
    (
        &[Single::Put(0, 1), Single::Put(5, 2)],
        Single::Move(0, 5, 0),
        SingleReply::Moved,
        Some(&[
            (2, 3),
            (9, 2),
            (20, 1),
            (24, 0),
            (25, 1),
            (33, 0),
            (34, 0),
            (48, 52),
            (53, 1),
            (54, 56),
            (55, 3),
            (56, 5),
            (57, 2),
            (59, 3),
        ]),
    ),
    // The words of a block that was given back stay.
    (
        &[Single::Put(0, 1), Single::Put(5, 2)],
        Single::Del(0),
        SingleReply::Was(1),
        Some(&[
            (2, 3),
            (9, 1),
            (20, 1),
            (25, 1),
            (34, 0),
            (48, 56),
            (53, 1),
            (54, 56),
            (55, 1),
            (56, 5),
            (57, 2),
            (59, 2),
        ]),
    ),
    // Two numbers, of which the smaller one came last.
    (
        &[Single::Add(8)],
        Single::Add(5),
        SingleReply::Added,
        Some(&[
            (2, 2),
            (6, 56),
            (7, 2),
            (20, 1),
            (24, 0),
            (25, 1),
            (33, 0),
            (34, 0),
            (52, 8),
            (56, 5),
            (57, 52),
        ]),
    ),
    (
        &[Single::Add(8), Single::Add(5)],
        Single::Rem(8),
        SingleReply::Removed,
        Some(&[
            (2, 3),
            (6, 56),
            (7, 1),
            (20, 1),
            (25, 1),
            (34, 0),
            (52, 8),
            (56, 5),
        ]),
    ),
    (&FIFTEEN, Single::Add(16), SingleReply::Full, None),
    (&FIFTEEN, Single::Add(15), SingleReply::Present, None),
    (&FIFTEEN, Single::Put(1, 1), SingleReply::Full, None),
    (&FIFTEEN, Single::Enq(1), SingleReply::Full, None),
    (&FIFTEEN, Single::Rem(16), SingleReply::Absent, None),
];

/// Does updates one after another on a new heap of order 4, and then one more; what that is told.
pub(crate) fn apply_all(space: &mut VecSpace, calls: &[Single], last: &Call) -> Reply
    requires few { length calls.now ≤ 15 }
    requires region { Contents 4 (words_of_space space.old) empty 0 }
{
    for call in calls {
        Trio::apply(space, 4, &Call::plain(*call));
    }
    Trio::apply(space, 4, last)
}

#[test]
fn updates_word_for_word(rt: HostRuntime) -> Result<(), Fail> {
    for (row, (calls, last, reply, changes)) in UPDATES.iter().enumerate() {
        let mut space = new_region::<Trio>(rt.alloc(), 4)?;
        assert!(rt; calls.len() <= 15);
        let told = apply_all(&mut space, calls, &Call::plain(*last));
        right("update", row, told == Reply::plain(*reply))?;
        if let Some(changes) = changes {
            let words = region(false, changes);
            right("words", row, space.words() == words.as_slice())?;
        }
    }
    // A new region over other words: those of free blocks, which begin behind the bucket table, stay.
    let mut space = VecSpace::of(vec![in rt.alloc(); 7u64; 112]?);
    Trio::format(&mut space, 4);
    let words = space.words();
    assert!(rt; words.get(..52) == region(false, &[]).get(..52));
    assert!(rt; words.get(52..) == Some([7u64; 60].as_slice()));
    Ok(())
}

/// The version that a region is inspected by, whether 9 is in its queue, words that are changed, and what
/// the inspection tells.
static INSPECTED: [(u64, bool, &[(usize, u64)], Result<(), Unfit>); 10] = [
    (2, false, &[], Ok(())),
    (2, true, &[], Ok(())),
    (
        2,
        false,
        &[
            (2, 1),
            (9, 1),
            (24, 0),
            (33, 0),
            (48, 52),
            (52, 5),
            (53, 7),
            (55, 1),
        ],
        Ok(()),
    ),
    // Words of free blocks may be anything.
    (2, true, &[(56, 7), (111, 9)], Ok(())),
    // Only the first words tell that a region is old, whatever else it is.
    (2, false, &[OLD], Err(Unfit::Old)),
    (2, false, &[OLD, (3, 53)], Err(Unfit::Old)),
    (2, false, &OLD_PAIRS, Err(Unfit::Old)),
    (1, false, &[OLD], Ok(())),
    (1, false, &OLD_PAIRS, Ok(())),
    (
        1,
        false,
        &[],
        Err(Unfit::Malformed {
            offset: 1,
            rule: Rule::Root,
        }),
    ),
];

/// What the inspection of a region of order 4 by that version tells.
fn inspected(alloc: Global, version: u64, words: &[u64; 112]) -> Result<(), Unfit> {
    if version == 1 {
        Trio::inspect_old(alloc, words, 4)
    } else {
        Trio::inspect(alloc, words, 4)
    }
}

#[test]
fn regions_of_both_versions_are_inspected(rt: HostRuntime) -> Result<(), Fail> {
    for (row, (version, queued, changes, want)) in INSPECTED.iter().enumerate() {
        let told = inspected(rt.alloc(), *version, &region(*queued, changes));
        right("inspected", row, told == *want)?;
    }
    for (row, (queued, changes, offset, rule)) in BROKEN.iter().enumerate() {
        let (offset, rule) = (*offset, *rule);
        let told = inspected(rt.alloc(), 2, &region(*queued, changes));
        right(
            "broken",
            row,
            told == Err(Unfit::Malformed { offset, rule }),
        )?;
    }
    for (row, (changes, offset, rule)) in BROKEN_OLD.iter().enumerate() {
        let (offset, rule) = (*offset, *rule);
        let told = inspected(rt.alloc(), 1, &region(false, changes));
        right(
            "broken and old",
            row,
            told == Err(Unfit::Malformed { offset, rule }),
        )?;
    }
    Ok(())
}

/// How many elements a heap of order 16 has room for.
const CAP: u64 = 61440;

/// A heap of order 16 whose free blocks hold 7 in each word, after this update and so many new keys.
fn filled(alloc: Global, first: Call, keys: u64) -> Result<VecSpace, Fail>
    ensures region { IfOk result (λ space. (s : State) × (k : ℕ)
        × Contents 16 (words_of_space space) s k × (k < LAST_COUNT)) }
{
    let mut space = VecSpace::of(vec![in alloc; 7u64; 393232]?);
    Trio::format(&mut space, 16);
    Trio::apply(&mut space, 16, &first);
    for key in 0..keys.min(CAP) {
        Trio::apply(&mut space, 16, &Call::Put(key, 1));
    }
    Ok(space)
}

/// What an update is told in such a heap, and how many stores it makes.
fn told_and_stores<L: Ledger>(blank: Blank, space: VecSpace, call: Call) -> (Reply, u64)
    requires blank { BeginsLedger L.name L.parts blank.name blank.parts }
    requires region { (s : State) × (k : ℕ) × Contents 16 (words_of_space space) s k × (k < LAST_COUNT) }
{
    let limit = Trio::STORES * Trio::weight_of(&call);
    let mut space: Counted<L> = Counted::begin(space, limit, blank);
    let reply = Trio::apply(&mut space, 16, &call);
    (reply, space.stores())
}

#[test]
fn the_most_stores_of_each_update(rt: HostRuntime) -> Result<(), Fail> {
    // An update and a number of keys before; then an update with its reply and its stores.
    let rows = [
        (Call::Enq(1), CAP - 2, Call::Enq(9), Reply::Queued, 25),
        (Call::Enq(1), CAP - 1, Call::Deq, Reply::Head(1), 21),
        (Call::Deq, CAP - 1, Call::Add(5), Reply::Added, 24),
        (Call::Add(5), CAP - 1, Call::Rem(5), Reply::Removed, 20),
        (Call::Deq, CAP - 1, Call::Put(70000, 9), Reply::NoPrior, 24),
        (Call::Deq, CAP, Call::Put(1000, 9), Reply::Was(1), 3),
        (Call::Deq, CAP, Call::Del(1000), Reply::Was(1), 20),
        (Call::Deq, CAP, Call::Move(1000, 2000, 1), Reply::Moved, 5),
        (Call::Deq, CAP, Call::Add(5), Reply::Full, 1),
    ];
    for (row, (first, keys, call, reply, stores)) in rows.iter().enumerate() {
        let space = filled(rt.alloc(), *first, *keys)?;
        let told = told_and_stores::<Brand>(Blank::new(1), space, *call);
        right("stores", row, told == (*reply, *stores))?;
    }
    Ok(())
}

#[test]
fn the_stores_of_a_group(rt: HostRuntime) -> Result<(), Fail> {
    let twice = [Single::Add(5), Single::Add(6)];
    let eight = [Single::Enq(9); 8];
    // How many keys there are; the members; whether they are done, and how many stores they make at
    // most. A refused group stores the count.
    let rows: [(u64, &[Single], bool, u64); 4] = [
        (CAP - 2, &twice, true, 1 + 2 * 23),
        (CAP - 1, &twice, false, 1),
        (CAP - 8, &eight, true, 1 + 8 * 24),
        (CAP - 7, &eight, false, 1),
    ];
    for (row, (keys, members, done, stores)) in rows.iter().enumerate() {
        let space = filled(rt.alloc(), Call::Deq, *keys)?;
        let group = Group::of(members).ok_or("not two to eight members")?;
        let (reply, made) = told_and_stores::<Brand>(Blank::new(1), space, Call::Group(group));
        right("group", row, (reply != Reply::Full) == *done)?;
        right("stores", row, made <= *stores && (*done || made == 1))?;
    }
    Ok(())
}

/// What a query is told in such a heap, and how many loads it makes.
fn answer_and_loads<L: Ledger>(blank: Blank, space: VecSpace, query: Query) -> (Answer, u64)
    requires blank { BeginsLedger L.name L.parts blank.name blank.parts }
    requires region { (s : State) × (k : ℕ) × Contents 16 (words_of_space space) s k × (k < LAST_COUNT) }
{
    let mut space: Counted<L> = Counted::begin(space, 0, blank);
    let answer = Trio::answer(&mut space, 16, &query);
    (answer, space.loads())
}

#[test]
fn loads_of_each_query(rt: HostRuntime) -> Result<(), Fail> {
    let sizes = Answer::Sizes {
        queue: 1,
        set: 0,
        map: 3,
    };
    // The update before, the query on a heap with three keys more, its answer, and the loads that are
    // made: a bucket is empty or has one key here.
    let rows = [
        (Call::Add(5), Query::Has(5), Answer::Yes, 2),
        (Call::Add(5), Query::Has(9), Answer::No, 3),
        (Call::Deq, Query::Get(1), Answer::Value(1), 3),
        (Call::Deq, Query::Get(3), Answer::Missing, 1),
        (Call::Enq(7), Query::Peek, Answer::Head(7), 2),
        (Call::Deq, Query::Peek, Answer::Empty, 1),
        (Call::Enq(7), Query::Len, sizes, 3),
        (Call::Deq, Query::Total, Answer::Total(3), 16384 + 2 * 3),
        (Call::Deq, Query::Fresh(2), Answer::Fresh(2), 16384 + 2 * 3),
    ];
    for (row, (first, query, answer, loads)) in rows.iter().enumerate() {
        let space = filled(rt.alloc(), *first, 3)?;
        let told = answer_and_loads::<Brand>(Blank::new(1), space, *query);
        right("loads", row, told == (*answer, *loads))?;
    }
    Ok(())
}
