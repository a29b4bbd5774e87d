//! Callers who meet: each goes on with a line only when all others have begun theirs. Their groups are on the
//! same keys.

use crate::book::Book;
use crate::runner::{Program, ROOM, formatted, ran};
use rom_test::{AMPLE, Found, Holding, Roll, SMALL, is_lawful, lines_of, places, right};
use std::sync::Wait;
use std::test::Fail;
use std::thread::Threads;

/// Scripts of one length, which callers have in turns.
static SCRIPTS: [&str; 4] = [
    "put 1 100\nall add 9 ; move 1 2 3\nget 1\nall rem 9 ; enq 9\nlen\ninc 2 1\nall del 3 ; new 3 1\npeek\n",
    "put 2 50\nall cas 3 1 2 ; inc 1 1 ; enq 7\ntotal\nall deq-if 7 ; put 3 1\nget 3\nall deq ; deq\nrem 9\nlen\n",
    "new 3 1\nall move 2 1 5 ; move 1 2 2 ; inc 3 1\nhas 9\ntx add 9 ; enq 8 ; deq\nget 2\nall add 4 ; rem 4 ; add 4\ndeq-if 9\ntotal\n",
    "enq 7\nall enq 1 ; enq 2 ; enq 3 ; enq 4 ; enq 5 ; enq 6\nlen\nall deq ; deq ; deq ; deq ; deq\nfresh 20\ncas 3 2 1\nall rem 4 ; inc 1 1\nget 1\n",
];

/// Runs callers who meet at each line, with these scripts, from a heap of this count which holds what the
/// book does, and asserts that the text is that of one history.
pub fn meet<R: Threads + Wait + Sync + AllocGlobal>(
    rt: &R,
    words: &[&str],
    scripts: &[&str],
    device: Vec<u64>,
    from: u64,
    book: &mut Book,
) -> Result<Found, Fail> {
    let alloc = rt.alloc();
    let lines = lines_of(alloc, scripts)?;
    let gate = Roll::new(alloc, &lines, Holding::EachLine)?;
    let found = ran(rt, Program::Ledger, words, scripts, device, AMPLE, &gate)?;
    let text = found.text();
    let wrong = gate.differs(true, places(text));
    right(
        "callers who meet",
        scripts.len(),
        found.status == 0 && wrong.is_none(),
    )?;
    let lawful = is_lawful(alloc, book, from, scripts, text)?;
    right("the history of callers", scripts.len(), lawful)?;
    Ok(found)
}

#[test]
fn sixteen_callers_do_groups_on_the_same_keys(rt: HostRuntime) -> Result<(), Fail> {
    let alloc = rt.alloc();
    let mut scripts = Vec::new(alloc);
    for script in SCRIPTS.iter().copied().cycle().take(16) {
        scripts.push(script)?;
    }
    let mut book = Book::new(alloc, ROOM)?;
    let mut words = vec![in alloc; "a"; 17]?;
    if let Some(first) = words.get_mut(0) {
        *first = "try";
    }
    let zeros = vec![in alloc; 0u64; SMALL]?;
    meet(&rt, &words, &scripts, zeros, 0, &mut book)?;
    // And on a heap in a file, three times.
    let mut words = vec![in alloc; "a"; 18]?;
    if let Some(first) = words.get_mut(0) {
        *first = "run";
    }
    let mut book = Book::new(alloc, ROOM)?;
    let mut heap = formatted(&rt, 4)?;
    let mut from = 0u64;
    for _ in 0..3 {
        let found = meet(&rt, &words, &scripts, heap, from, &mut book)?;
        from = from.saturating_add(places(found.text()));
        heap = found.device.words().to_vec(alloc)?;
    }
    Ok(())
}
