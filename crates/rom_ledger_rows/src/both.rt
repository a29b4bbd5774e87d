//! One file serves the ledger's program and `romulus`.

use crate::book::Book;
use crate::runner::{ONE, Program, ROOM, SHORT, ran};
use rom_device::Device;
use rom_store::NoGate;
use rom_test::{SMALL, is_lawful, places, right};
use std::sync::Wait;
use std::test::Fail;
use std::thread::Threads;

/// Scripts, and which program runs each. The heap goes from one to the next.
static RUNS: [(Program, &str); 6] = [
    (
        Program::Ledger,
        "put 1 100\nnew 2 5\nall add 900 ; move 1 2 30\nall enq 55 ; move 1 2 1000\nlen\n",
    ),
    (
        Program::Romulus,
        "get 1\nget 2\nhas 900\nfresh 2\nmove 2 1 10\nenq 7\ntx deq ; add 5\ntx enq 1 ; put 1 90\nlen\n",
    ),
    (
        Program::Ledger,
        "peek\nget 1\nall deq-if 1 ; inc 1 10 ; cas 2 25 26\ncas 1 1 1\ninc 9 1\nfresh 7\nlen\n",
    ),
    (
        Program::Romulus,
        "get 1\nget 2\ntotal\nput 3 1\ntx enq 1 ; enq 2 ; enq 3 ; enq 4 ; enq 5 ; enq 6 ; enq 7 ; enq 8\nenq 9\nenq 10\nlen\n",
    ),
    (
        Program::Ledger,
        "all enq 1 ; put 1 1\nall deq ; deq ; deq ; rem 900 ; del 3\nall add 1 ; add 1\nlen\nfresh 0\n",
    ),
    (
        Program::Romulus,
        "len\ntotal\nfresh 0\npeek\nhas 900\nhas 1\ndeq\n",
    ),
];

/// Makes a heap by the one program, has both update it in turns, and asserts that each text goes on with one
/// history.
fn in_turns<R: Threads + Wait + Sync + AllocGlobal>(
    rt: &R,
    maker: Program,
    words: &[&str],
) -> Result<(), Fail> {
    let alloc = rt.alloc();
    let mut book = Book::new(alloc, ROOM)?;
    let zeros = vec![in alloc; 0u64; SMALL]?;
    let made = ran(rt, maker, words, &[], zeros, SHORT, &NoGate)?;
    right("a new heap", 0, made.status == 0)?;
    let mut heap = made.device.words().to_vec(alloc)?;
    let mut from = 0u64;
    for (row, (program, script)) in RUNS.iter().copied().enumerate() {
        let found = ran(rt, program, &ONE, &[script], heap, SHORT, &NoGate)?;
        right("a heap of both", row, found.status == 0)?;
        let lawful = is_lawful(alloc, &mut book, from, &[script], found.text())?;
        right("what both tell", row, lawful)?;
        from = from.saturating_add(places(found.text()));
        heap = found.device.words().to_vec(alloc)?;
    }
    Ok(())
}

#[test]
fn one_file_serves_both_programs(rt: HostRuntime) -> Result<(), Fail> {
    in_turns(&rt, Program::Ledger, &["format", "heap", "4"])?;
    in_turns(&rt, Program::Romulus, &["format", "heap", "--order", "4"])
}

/// Both programs do the same of the same script, to the word.
#[test]
fn both_programs_leave_the_same_words(rt: HostRuntime) -> Result<(), Fail> {
    let alloc = rt.alloc();
    for (row, (program, script)) in RUNS.iter().copied().enumerate() {
        if program == Program::Romulus {
            let mut heaps = Vec::new(alloc);
            for program in [Program::Ledger, Program::Romulus] {
                let words = match program {
                    Program::Ledger => ["format", "heap", "4"].as_slice(),
                    Program::Romulus => ["format", "heap", "--order", "4"].as_slice(),
                };
                let zeros = vec![in alloc; 0u64; SMALL]?;
                let made = ran(&rt, program, words, &[], zeros, SHORT, &NoGate)?;
                let heap = made.device.words().to_vec(alloc)?;
                let found = ran(&rt, program, &ONE, &[script], heap, SHORT, &NoGate)?;
                heaps.push(found.device.words().to_vec(alloc)?)?;
            }
            let same = heaps.first().map(|heap| heap.as_slice())
                == heaps.get(1).map(|heap| heap.as_slice());
            right("the words of both", row, same)?;
        }
    }
    Ok(())
}
