//! Groups of updates: their words, and what they do on a heap of order 4.

use crate::heap::apply_all;
use crate::right::right;
use rom_heap::Trio;
use rom_model::{
    Args, Back, Call, Group, Replies, Reply, Single, SingleReply, call_words, new_region,
    reply_words, words_call, words_reply,
};
use std::alloc::Global;
use std::test::Fail;

/// Words that stand for no call.
static NO_CALL: [&[u64]; 10] = [
    // No words, a tag of no row, a number too many.
    &[],
    &[12, 40],
    &[2, 0],
    // No number of members, one member, nine.
    &[8],
    &[8, 1, 2],
    &[8, 9, 2, 2, 2, 2, 2, 2, 2, 2, 2],
    // A member too few, one too many, one that lacks a number.
    &[8, 2, 2],
    &[8, 2, 2, 2, 2],
    &[8, 2, 2, 5, 6],
    // A group in a group.
    &[8, 2, 2, 8, 2, 2, 2],
];

/// Words that stand for no reply: none; of a group, no number of replies, too few words, nine replies, a
/// group's replies in a group's.
static NO_REPLY: [&[u64]; 5] = [
    &[],
    &[14],
    &[14, 2, 10, 9],
    &[14, 9, 1, 1, 1, 1, 1, 1, 1, 1, 1],
    &[14, 1, 14, 0],
];

#[test]
fn groups_and_their_replies_have_the_words_of_the_tables(rt: HostRuntime) -> Result<(), Fail> {
    let calls = [Single::Move(1, 2, 3); 9];
    for (many, fits) in [(0, false), (1, false), (2, true), (8, true), (9, false)] {
        let group = Group::of(&calls[..many.min(9)]);
        right("members", many, group.is_some() == fits)?;
    }
    let members = [Single::Deq, Single::Put(5, 6), Single::Rem(7)];
    let group = Group::of(&members).expect(&rt, "three members");
    let words = call_words(&Call::Group(group));
    assert!(rt; words.as_slice() == [8, 3, 2, 5, 5, 6, 4, 7].as_slice());
    assert!(rt; words_call(&words) == Some(Call::Group(group)));
    // Eight members of four words each.
    let widest = Group::of(&calls[..8]).expect(&rt, "eight members");
    assert!(rt; call_words(&Call::Group(widest)).len() == 34);

    let mut replies = Replies::new();
    replies.push(SingleReply::Was(9));
    replies.push(SingleReply::Moved);
    let words = reply_words(&Reply::All(replies));
    assert!(rt; words.as_slice() == [14, 2, 10, 9, 11].as_slice());
    assert!(rt; words_reply(&words) == Some(Reply::All(replies)));
    Ok(())
}

#[test]
fn other_words_are_no_call_and_no_reply(rt: HostRuntime) -> Result<(), Fail> {
    for (row, words) in NO_CALL.iter().enumerate() {
        assert!(rt; words.len() <= 40);
        right("call", row, words_call(&Args::of(words)).is_none())?;
    }
    for (row, words) in NO_REPLY.iter().enumerate() {
        assert!(rt; words.len() <= 20);
        right("reply", row, words_reply(&Back::of(words)).is_none())?;
    }
    Ok(())
}

/// How many values the queue has first, each of them 1; the members of a group; and what they are
/// told, or nothing where one of them finds the heap full.
static GROUPS: [(usize, &[Single], &[SingleReply]); 17] = [
    (
        0,
        &[Single::Put(1, 5), Single::Put(2, 6), Single::Move(1, 2, 5)],
        &[
            SingleReply::NoPrior,
            SingleReply::NoPrior,
            SingleReply::Moved,
        ],
    ),
    (14, &[Single::Add(1), Single::Add(2)], &[]),
    (
        14,
        &[Single::Deq, Single::Add(1), Single::Add(1)],
        &[
            SingleReply::Head(1),
            SingleReply::Added,
            SingleReply::Present,
        ],
    ),
    // The room that a member gives back serves a later one, and not an earlier one.
    (
        15,
        &[Single::Deq, Single::Enq(2)],
        &[SingleReply::Head(1), SingleReply::Queued],
    ),
    (15, &[Single::Enq(2), Single::Deq], &[]),
    // What an earlier member puts in or takes out is there, or not, for a later one.
    (
        14,
        &[Single::Add(5), Single::Add(5)],
        &[SingleReply::Added, SingleReply::Present],
    ),
    (
        14,
        &[
            Single::Add(5),
            Single::Rem(5),
            Single::Add(5),
            Single::Rem(6),
        ],
        &[
            SingleReply::Added,
            SingleReply::Removed,
            SingleReply::Added,
            SingleReply::Absent,
        ],
    ),
    (
        14,
        &[Single::Put(5, 1), Single::Put(5, 2)],
        &[SingleReply::NoPrior, SingleReply::Was(1)],
    ),
    (
        14,
        &[Single::Put(5, 1), Single::Del(5), Single::Put(6, 2)],
        &[
            SingleReply::NoPrior,
            SingleReply::Was(1),
            SingleReply::NoPrior,
        ],
    ),
    (14, &[Single::Put(5, 1), Single::Put(6, 2)], &[]),
    // A number of the set is none of the map's keys.
    (14, &[Single::Add(5), Single::Put(5, 1)], &[]),
    // What changes nothing gives no room.
    (15, &[Single::Del(5), Single::Put(5, 1)], &[]),
    (15, &[Single::Rem(5), Single::Add(5)], &[]),
    (
        15,
        &[Single::Move(1, 2, 0), Single::Move(1, 1, 0)],
        &[SingleReply::Absent, SingleReply::Absent],
    ),
    // The queue is emptied, and a value that a member put is taken by a later one.
    (
        1,
        &[Single::Deq, Single::Deq, Single::Enq(3), Single::Deq],
        &[
            SingleReply::Head(1),
            SingleReply::Empty,
            SingleReply::Queued,
            SingleReply::Head(3),
        ],
    ),
    // The last of eight members finds the heap full, or takes its last place.
    (8, &[Single::Enq(2); 8], &[]),
    (7, &[Single::Enq(2); 8], &[SingleReply::Queued; 8]),
];

/// Whether a group on a heap with so many values is told this.
fn is_told(
    alloc: Global,
    many: usize,
    members: &[Single],
    wanted: &[SingleReply],
) -> Result<bool, Fail> {
    let group = Group::of(members).ok_or("not two to eight members")?;
    let values = &[Single::Enq(1); 15][..many.min(15)];
    let mut space = new_region::<Trio>(alloc, 4)?;
    match apply_all(&mut space, values, &Call::Group(group)) {
        Reply::All(replies) => Ok(replies.as_slice() == wanted),
        told => {
            // A call that is full changes the count alone, and so does a refused group.
            let mut alone = new_region::<Trio>(alloc, 4)?;
            apply_all(&mut alone, values, &Call::Rem(0));
            Ok(told == Reply::Full && wanted.is_empty() && space.words() == alone.words())
        }
    }
}

#[test]
fn groups_on_a_heap_with_so_many_values(rt: HostRuntime) -> Result<(), Fail> {
    for (row, (many, members, wanted)) in GROUPS.iter().enumerate() {
        right("group", row, is_told(rt.alloc(), *many, members, wanted)?)?;
    }
    Ok(())
}
