//! A group that fails at any of its members leaves each word as an update does that only counts.

use crate::book::Book;
use crate::runner::{ROOM, SHORT, prepared, run_one};
use rom_device::Device;
use rom_test::{Replayed, right};
use std::alloc::{AllocError, Global};
use std::sync::Wait;
use std::test::Fail;
use std::thread::Threads;

/// What a heap begins with, members that succeed there in any order, each once, and members that never do.
#[derive(Clone, Copy)]
struct Members {
    before: &'static str,
    good: &'static [&'static str],
    bad: &'static [&'static str],
}

static MEMBERS: [Members; 2] = [
    Members {
        before: "put 1 100\nput 2 50\nput 3 7\nput 7 70\nput 8 1\nadd 5\nadd 50\nenq 8\nenq 8\nenq 8\n",
        good: &[
            "enq 9",
            "deq",
            "move 1 2 30",
            "add 6",
            "rem 5",
            "put 4 1",
            "del 3",
            "deq-if 8",
            "inc 1 5",
            "new 6 1",
            "cas 7 70 71",
            "put 8 2",
        ],
        bad: &[
            "rem 99",
            "deq-if 1",
            "new 7 1",
            "inc 99 1",
            "add 50",
            "move 1 2 1000",
            "cas 7 1 2",
            "del 98",
            "inc 2 18446744073709551615",
            "cas 99 1 2",
            "move 1 99 1",
        ],
    },
    // No room is left, and none comes.
    Members {
        before: "put 1 100\nput 2 50\nput 3 7\nput 7 70\nput 8 1\nadd 5\nadd 50\ntx enq 8 ; enq 8 ; enq 8 ; enq 8 ; enq 8 ; enq 8 ; enq 8 ; enq 8\n",
        good: &[
            "put 1 200",
            "inc 2 5",
            "move 1 2 30",
            "cas 7 70 71",
            "put 3 8",
            "inc 8 1",
            "move 2 3 1",
            "inc 3 4",
        ],
        bad: &["enq 1", "add 77", "put 77 1", "new 78 2"],
    },
];

/// The member of that number, counted from 0, in a list that begins again behind its end.
fn member_at(members: &[&'static str], number: usize) -> &'static str {
    let at = number.checked_rem(members.len()).unwrap_or(0);
    members.get(at).copied().unwrap_or("deq")
}

/// A group of so many members, of which that one fails, counted from 1. The rest stands behind it.
fn group_of(
    alloc: Global,
    members: &Members,
    many: usize,
    failing: usize,
) -> Result<String, AllocError> {
    let turn = many.saturating_mul(8).saturating_add(failing);
    let mut number = turn % 12;
    let mut text = "all".to_string(alloc)?;
    for member in 1..many.saturating_add(1) {
        let next = if member == failing {
            member_at(members.bad, turn % 11)
        } else {
            number = number.saturating_add(1);
            member_at(members.good, number)
        };
        text.push_str(if member == 1 { " " } else { " ; " })?;
        text.push_str(next)?;
    }
    Ok(text)
}

/// Runs the group alone on a heap, and asserts what it is told, and that each word of the file is then as
/// `counted` has it.
fn try_group<R: Threads + Wait + Sync + AllocGlobal>(
    rt: &R,
    members: &Members,
    many: usize,
    failing: usize,
    heap: &[u64],
    counted: &[u64],
    book: &mut Book,
) -> Result<(), Fail> {
    let alloc = rt.alloc();
    let row = many.saturating_mul(10).saturating_add(failing);
    let group = group_of(alloc, members, many, failing)?;
    let place = members.before.lines().count() as u64;
    let told = book.update(alloc, group.as_str(), place)?;
    let begin = format!(in alloc; "undone {failing} ")?;
    right("which member fails", row, told.starts_with(begin.as_str()))?;
    let found = run_one(rt, group.as_str(), heap, SHORT)?;
    let count = place.saturating_add(1);
    let wanted = format!(in alloc; "caller 1\n{told}\ncount {count}\n")?;
    right("a group that fails", row, found.text() == wanted.as_str())?;
    right("the words it leaves", row, found.device.words() == counted)
}

/// The words of a heap after a lone update that is refused, and so changes nothing but the count.
fn counted<R: Threads + Wait + Sync + AllocGlobal>(rt: &R, heap: &[u64]) -> Result<Vec<u64>, Fail> {
    let found = run_one(rt, "rem 98765\n", heap, SHORT)?;
    right(
        "a refused update",
        0,
        found.text().starts_with("caller 1\nabsent @"),
    )?;
    Ok(found.device.words().to_vec(rt.alloc())?)
}

#[test]
fn a_group_that_fails_leaves_each_word(rt: HostRuntime) -> Result<(), Fail> {
    let alloc = rt.alloc();
    for members in &MEMBERS {
        let mut book = Book::new(alloc, ROOM)?;
        let heap = prepared(&rt, members.before, &mut book)?;
        let counted = counted(&rt, heap.as_slice())?;
        for many in 2..9usize {
            for failing in 1..many.saturating_add(1) {
                try_group(
                    &rt,
                    members,
                    many,
                    failing,
                    heap.as_slice(),
                    counted.as_slice(),
                    &mut book,
                )?;
            }
        }
    }
    Ok(())
}
