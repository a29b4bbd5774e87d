//! What lines were told, as it is printed, to the byte.
ghost use Rattle.std.specs.Prelude.{◌<◌, None};

use crate::files::path;
use crate::right::right;
use crate::told::{Told, results_of};
use rom_heap::Trio;
use rom_lines::Results;
use rom_model::{Answer, LineResult, Replies, Reply, SingleReply, Updated};
use rom_script::{
    Adapted, Collect, IoFailed, ReadRefused, Sink, TrioLines, print_answer, print_number,
    print_pieces, print_run, print_text, print_update, read_bytes, read_script,
};
use std::alloc::{AllocError, Global};
use std::fs::File;
use std::test::Fail;
use std::{env, fs};

const UPDATES: [(Updated<Reply>, &str); 16] = [
    (Updated::Done(Reply::Queued, 0), "queued @0"),
    (Updated::Done(Reply::Full, 10), "full @10"),
    (Updated::Done(Reply::Head(9), 1), "head 9 @1"),
    (Updated::Done(Reply::Empty, 2), "empty @2"),
    (Updated::Done(Reply::Added, 3), "added @3"),
    (Updated::Done(Reply::Present, 4), "present @4"),
    (Updated::Done(Reply::Removed, 5), "removed @5"),
    (Updated::Done(Reply::Absent, 6), "absent @6"),
    (Updated::Done(Reply::NoPrior, 7), "none @7"),
    (Updated::Done(Reply::Was(0), 8), "was 0 @8"),
    (Updated::Done(Reply::Moved, 9), "moved @9"),
    (Updated::Done(Reply::Short(40), 3), "short 40 @3"),
    (
        Updated::Done(Reply::Over, u64::MAX),
        "over @18446744073709551615",
    ),
    (Updated::Spent, "spent"),
    (Updated::Failed, "fault"),
    (Updated::Doubt, "doubt"),
];

/// What the members of groups are told.
static GROUPS: [(&[SingleReply], &str); 4] = [
    (
        &[
            SingleReply::NoPrior,
            SingleReply::NoPrior,
            SingleReply::Moved,
        ],
        "all none ; none ; moved @7",
    ),
    (
        &[
            SingleReply::Head(1),
            SingleReply::Added,
            SingleReply::Present,
        ],
        "all head 1 ; added ; present @7",
    ),
    (
        &[SingleReply::Empty, SingleReply::Short(0)],
        "all empty ; short 0 @7",
    ),
    (
        &[
            SingleReply::Was(u64::MAX),
            SingleReply::Queued,
            SingleReply::Removed,
            SingleReply::Absent,
            SingleReply::Over,
            SingleReply::Was(0),
            SingleReply::Head(10),
            SingleReply::Was(10),
        ],
        "all was 18446744073709551615 ; queued ; removed ; absent ; over ; was 0 ; head 10 ; was 10 @7",
    ),
];

static ANSWERS: [(Answer, u64, &str); 10] = [
    (Answer::Yes, 1, "yes #1"),
    (Answer::No, 4, "no #4"),
    (Answer::Value(7), 1, "value 7 #1"),
    (Answer::Missing, 3, "none #3"),
    (Answer::Head(u64::MAX), 10, "head 18446744073709551615 #10"),
    (Answer::Empty, 0, "empty #0"),
    (
        Answer::Sizes {
            queue: 1,
            set: 20,
            map: 0,
        },
        5,
        "queue 1 set 20 map 0 #5",
    ),
    (
        Answer::Total(36893488147419103230),
        2,
        "total 36893488147419103230 #2",
    ),
    (Answer::Yes, u64::MAX, "yes #18446744073709551615"),
    (Answer::Fresh(12), 30, "fresh 12 #30"),
];

/// Whether this is printed of an update.
fn prints(alloc: Global, updated: &Updated<Reply>, text: &str) -> Result<bool, Fail> {
    let mut out = Collect::with_room(alloc, 1000, 2)?;
    print_update(&mut out, updated)?;
    Ok(out.bytes() == text.as_bytes())
}

/// What the members of a group are told, of which there are at most eight.
fn replies_of(told: &[SingleReply]) -> Replies {
    let mut replies = Replies::new();
    for reply in told {
        if replies.len() < 8 {
            replies.push(*reply);
        }
    }
    replies
}

#[test]
fn replies_and_answers_have_their_texts(rt: HostRuntime) -> Result<(), Fail> {
    for (row, (updated, text)) in UPDATES.iter().enumerate() {
        right("update", row, prints(rt.alloc(), updated, text)?)?;
    }
    for (row, (told, text)) in GROUPS.iter().enumerate() {
        let updated = Updated::Done(Reply::All(replies_of(told)), 7);
        right("group", row, prints(rt.alloc(), &updated, text)?)?;
    }
    for (row, (answer, front, text)) in ANSWERS.iter().enumerate() {
        let mut out = Collect::with_room(rt.alloc(), 1000, 2)?;
        print_answer(&mut out, answer, *front)?;
        right("answer", row, out.bytes() == text.as_bytes())?;
    }
    let mut out = Collect::with_room(rt.alloc(), 1000, 2)?;
    print_number(&mut out, u128::MAX)?;
    print_pieces(&mut out, &[" ", "", "a", "bc"])?;
    assert!(rt; out.bytes() == b"340282366920938463463374607431768211455 abc".as_slice());
    Ok(())
}

type Row = LineResult<SingleReply, Answer>;

const UNREAD: Row = LineResult::Unread;

/// A queue of fifteen that is filled.
const FILLED: &[Row] = &[
    LineResult::Update(Updated::Done(SingleReply::Queued, 0)),
    LineResult::Update(Updated::Done(SingleReply::Queued, 1)),
    LineResult::Update(Updated::Done(SingleReply::Queued, 2)),
    LineResult::Update(Updated::Done(SingleReply::Queued, 3)),
    LineResult::Update(Updated::Done(SingleReply::Queued, 4)),
    LineResult::Update(Updated::Done(SingleReply::Queued, 5)),
    LineResult::Update(Updated::Done(SingleReply::Queued, 6)),
    LineResult::Update(Updated::Done(SingleReply::Queued, 7)),
    LineResult::Update(Updated::Done(SingleReply::Queued, 8)),
    LineResult::Update(Updated::Done(SingleReply::Queued, 9)),
    LineResult::Update(Updated::Done(SingleReply::Queued, 10)),
    LineResult::Update(Updated::Done(SingleReply::Queued, 11)),
    LineResult::Update(Updated::Done(SingleReply::Queued, 12)),
    LineResult::Update(Updated::Done(SingleReply::Queued, 13)),
    LineResult::Update(Updated::Done(SingleReply::Queued, 14)),
    LineResult::Update(Updated::Done(SingleReply::Full, 15)),
    LineResult::Update(Updated::Done(SingleReply::Head(1), 16)),
    LineResult::Update(Updated::Done(SingleReply::Queued, 17)),
];

const FILLED_TEXT: &str =
    "caller 1\nqueued @0\nqueued @1\nqueued @2\nqueued @3\nqueued @4\nqueued @5\nqueued @6\nqueued @7\nqueued @8\nqueued @9\nqueued @10\nqueued @11\nqueued @12\nqueued @13\nqueued @14\nfull @15\nhead 1 @16\nqueued @17\ncount 18\n";

/// What each caller was told, the count, and the text.
static RUNS: [(&[&[Row]], u64, &str); 3] = [
    (&[FILLED], 18, FILLED_TEXT),
    (
        &[
            &[
                LineResult::Update(Updated::Done(SingleReply::Queued, 1)),
                UNREAD,
            ],
            &[],
            &[
                LineResult::Read(Answer::Empty, 0),
                LineResult::Update(Updated::Done(SingleReply::Added, 0)),
            ],
        ],
        2,
        "caller 1\nqueued @1\nunread\ncaller 2\ncaller 3\nempty #0\nadded @0\ncount 2\n",
    ),
    (&[], 7, "count 7\n"),
];

/// What each line of each caller was told, by rows that have the reply to an update of one structure.
fn callers_of(alloc: Global, callers: &[&[Row]]) -> Result<Vec<Results<Trio>>, AllocError> {
    let mut results = Vec::new(alloc);
    for rows in callers {
        let mut told = Vec::new(alloc);
        for row in *rows {
            told.push(match *row {
                Row::Update(Updated::Done(reply, place)) => {
                    Told::Update(Updated::Done(Reply::plain(reply), place))
                }
                Row::Read(answer, front) => Told::Read(answer, front),
                _ => Told::Unread,
            })?;
        }
        results.push(results_of(alloc, &told)?)?;
    }
    Ok(results)
}

/// Prints a run to sinks that take so many bytes at a time, with room for each number of the text's bytes.
fn prints_the_front(
    alloc: Global,
    results: &[Results<Trio>],
    count: u64,
    text: &[u8],
    piece: u64,
) -> Result<(), Fail>
    requires { 0 < piece }
{
    for room in 0..=text.len() {
        let mut out = Collect::with_room(alloc, room as u64, piece)?;
        let printed = print_run::<Trio, TrioLines, Collect>(&mut out, results, count).is_ok();
        let front = out.bytes() == &text[..room];
        right("room", room, front && printed == (room == text.len()))?;
    }
    Ok(())
}

#[test]
fn a_sink_without_room_has_the_front_of_the_text(rt: HostRuntime) -> Result<(), Fail> {
    for (callers, count, text) in &RUNS {
        let results = callers_of(rt.alloc(), callers)?;
        for piece in [1, 5, 7, 4096] {
            prints_the_front(rt.alloc(), &results, *count, text.as_bytes(), piece)?;
        }
    }
    Ok(())
}

/// A sink that takes all it is given, and keeps how many bytes came by each write.
#[derive(Drop)]
struct Widths {
    widths: Vec<u64>,
    faults: u64,
    failing: bool,
}

impl Sink for Widths {
    ghost shown = { record {
      taken = λ _. None;
      faults = λ w. w.faults;
      failing = λ w. w.failing;
      Rest = Unit {0};
      rest = λ _. tt;
    } };

    fn write(&mut self, piece: &[u8]) -> Result<u64, IoFailed> {
        match self.widths.push(piece.len() as u64) {
            Ok(()) => {
                self.failing = false;
                Ok(piece.len() as u64)
            }
            Err(_) => {
                self.failing = true;
                self.faults = self.faults.saturating_add(1);
                Err(IoFailed)
            }
        }
    }
}

#[test]
fn texts_of_runs_leave_in_whole_blocks(rt: HostRuntime) -> Result<(), Fail> {
    let alloc = rt.alloc();
    // `caller 1`, so many lines `unread`, and `count 5`, with an LF after each.
    let runs: [(usize, &[u64]); 4] = [
        (0, &[17]),
        (1753, &[4096, 4096, 4096]),
        (1754, &[4096, 4096, 4096, 7]),
        (2000, &[4096, 4096, 4096, 1729]),
    ];
    for (lines, widths) in runs {
        let unread = vec![in alloc; UNREAD; lines]?;
        let mut out = Widths {
            widths: Vec::new(alloc),
            faults: 0,
            failing: false,
        };
        let results = callers_of(alloc, &[unread.as_slice()])?;
        print_run::<Trio, TrioLines, Widths>(&mut out, &results, 5)?;
        right("lines", lines, out.widths.as_slice() == widths)?;
    }
    Ok(())
}

#[test]
fn files_are_sources_and_sinks(rt: HostRuntime) -> Result<(), Fail> {
    let alloc = rt.alloc();
    let path = path(&rt, "script")?;
    let mut out = Adapted::new(fs::create(&rt, &path)?);
    let results = callers_of(alloc, &[FILLED])?;
    print_run::<Trio, TrioLines, Adapted<File>>(&mut out, &results, 18)?;
    let mut source = Adapted::new(fs::open(&rt, &path)?);
    let bytes = read_bytes(alloc, &mut source)?;
    fs::remove_file(&rt, &path)?;
    assert!(rt; bytes.as_slice() == FILLED_TEXT.as_bytes());

    // The file is open for reading alone.
    assert!(rt; print_text(&mut source, "x").is_err());

    let mut folder = Adapted::new(fs::open(&rt, env::temp_dir(&rt)?)?);
    assert!(rt; matches!(read_bytes(alloc, &mut folder), Err(ReadRefused::Failed)));
    let mut missing = Adapted::<File>::missing();
    let script = read_script(alloc, &mut missing);
    assert!(rt; matches!(script, Err(ReadRefused::Failed)));
    assert!(rt; print_text(&mut missing, "x").is_err());
    Ok(())
}
