//! Lines that are read and lines that are not, where lines end, and scripts in pieces.

use crate::right::right;
use rom_model::{Call, Group, Query, Single};
use rom_script::{Bytes, Line, ReadRefused, line_end, read_bytes, read_line, read_script};
use std::test::Fail;

const ENQ_7: Line = Line::Update(Call::Enq(7));

const DEQ: Line = Line::Update(Call::Deq);

const PEEK: Line = Line::Ask(Query::Peek);

const LINES: [(&[u8], Line); 14] = [
    (b"enq 7", ENQ_7),
    (b"deq", DEQ),
    (b"add 10", Line::Update(Call::Add(10))),
    (b"rem 0", Line::Update(Call::Rem(0))),
    (b"put 5 8", Line::Update(Call::Put(5, 8))),
    (b"del 1", Line::Update(Call::Del(1))),
    (b"move 1 2 60", Line::Update(Call::Move(1, 2, 60))),
    (b"has 3", Line::Ask(Query::Has(3))),
    (
        b"get 18446744073709551615",
        Line::Ask(Query::Get(18446744073709551615)),
    ),
    (b"peek", PEEK),
    (b"len", Line::Ask(Query::Len)),
    (b"total", Line::Ask(Query::Total)),
    (b"fresh 0", Line::Ask(Query::Fresh(0))),
    (
        b"fresh 18446744073709551615",
        Line::Ask(Query::Fresh(18446744073709551615)),
    ),
];

/// Lines that ask for nothing.
static UNREAD: [&[u8]; 44] = [
    b"fresh",
    b"fresh 1 2",
    b"put 18446744073709551616 1",
    b"put 1 100000000000000000000",
    b"enq 007",
    b"enq 00",
    b"enq +1",
    b"enq -1",
    b"enq 0x1",
    b"enq \xd9\xa1",
    b"put  1 1",
    b"put 1  1",
    b"put 1 1 ",
    b" put 1 1",
    b"put\t1 1",
    b"put 1\t1",
    b"PUT 1 1",
    b"put 1",
    b"move 1 2 3 4",
    b"total 1",
    b"deq ",
    b"len\r",
    b"",
    b"tx",
    b"tx ",
    b"tx enq 1",
    b"tx enq 1 ; peek",
    b"tx len ; enq 1",
    b"tx enq 1 ; tx deq ; deq",
    b"tx tx enq 1 ; deq",
    b"tx enq 1;deq",
    b"tx enq 1 ;deq",
    b"tx enq 1; deq",
    b"tx enq 1  ; deq",
    b"tx enq 1 ;  deq",
    b"tx  enq 1 ; deq",
    b"tx enq 1 ; deq ;",
    b"tx enq 1 ; deq ; ",
    b"tx enq 1 ;  ; deq",
    b"tx ; enq 1 ; deq",
    b"tx enq 1 ; enq 18446744073709551616",
    b"tx enq 1 ; unread",
    b"TX enq 1 ; deq",
    b"tx deq ; deq ; deq ; deq ; deq ; deq ; deq ; deq ; deq",
];

/// Lines of groups and their members.
static GROUPS: [(&[u8], &[Single]); 3] = [
    (
        b"tx deq ; enq 18446744073709551615",
        &[Single::Deq, Single::Enq(18446744073709551615)],
    ),
    (
        b"tx put 1 5 ; put 2 6 ; move 1 2 5",
        &[Single::Put(1, 5), Single::Put(2, 6), Single::Move(1, 2, 5)],
    ),
    (
        b"tx enq 7 ; deq ; add 1 ; rem 1 ; put 5 8 ; del 5 ; move 1 2 60 ; add 1",
        &[
            Single::Enq(7),
            Single::Deq,
            Single::Add(1),
            Single::Rem(1),
            Single::Put(5, 8),
            Single::Del(5),
            Single::Move(1, 2, 60),
            Single::Add(1),
        ],
    ),
];

#[test]
fn lines_are_read_or_unread() -> Result<(), Fail> {
    for (row, (line, wanted)) in LINES.iter().enumerate() {
        right("line", row, read_line(line) == *wanted)?;
    }
    for (row, line) in UNREAD.iter().enumerate() {
        right("unread", row, read_line(line) == Line::Unread)?;
    }
    for (row, (line, members)) in GROUPS.iter().enumerate() {
        let group = Group::of(members).ok_or("not two to eight members")?;
        right(
            "group",
            row,
            read_line(line) == Line::Update(Call::Group(group)),
        )?;
    }
    Ok(())
}

/// Texts and their lines.
static ENDS: [(&[u8], &[&[u8]]); 13] = [
    (b"", &[]),
    (b"a", &[b"a"]),
    (b"a\n", &[b"a"]),
    (b"a\nb", &[b"a", b"b"]),
    (b"\n", &[b""]),
    (b"\n\n", &[b"", b""]),
    (b"a\n\nb\n\n", &[b"a", b"", b"b", b""]),
    (b"a\r\nb\r\n", &[b"a", b"b"]),
    (b"\r\n\r\n", &[b"", b""]),
    (b"a\r\r\nb", &[b"a\r", b"b"]),
    (b"a\rb\n", &[b"a\rb"]),
    (b"a\nb\r", &[b"a", b"b"]),
    (b"a\n\r", &[b"a", b""]),
];

/// Whether these are the text's lines.
fn ends(text: &[u8], lines: &[&[u8]]) -> bool {
    let mut start = 0;
    for line in lines {
        if start >= text.len() as u64 {
            return false;
        }
        let (end, next) = line_end(text, start);
        if &text[start as usize..end as usize] != *line {
            return false;
        }
        start = next;
    }
    start == text.len() as u64
}

#[test]
fn lines_end_at_lf_without_one_cr() -> Result<(), Fail> {
    for (row, (text, lines)) in ENDS.iter().enumerate() {
        right("text", row, ends(text, lines))?;
    }
    Ok(())
}

const SCRIPT: &[u8] = b"enq 7\r\n\ndeq\nPUT 1 1\npeek\r\r\ndeq \npeek";

/// The script's lines.
const READ: [Line; 7] = [
    ENQ_7,
    Line::Unread,
    DEQ,
    Line::Unread,
    Line::Unread,
    Line::Unread,
    PEEK,
];

#[test]
fn scripts_are_read_in_pieces(rt: HostRuntime) -> Result<(), Fail> {
    let alloc = rt.alloc();
    for piece in [1, 3, 4096] {
        let mut source = Bytes::new(SCRIPT.to_vec(alloc)?, piece, Vec::new(alloc));
        let script = read_script(alloc, &mut source)?;
        right(
            "in pieces of",
            piece as usize,
            script.lines() == READ.as_slice(),
        )?;
        assert!(rt; script.len() == 7 && script.at(6) == Some(PEEK));
    }
    // Of pieces of three bytes one read fails, counted from 1: twelve give the script, and one more tells
    // its end.
    for trip in 1..=13 {
        let mut source = Bytes::new(SCRIPT.to_vec(alloc)?, 3, [trip].to_vec(alloc)?);
        let failed = matches!(read_script(alloc, &mut source), Err(ReadRefused::Failed));
        right("failing read", trip as usize, failed)?;
        // What came before the failure is gone, and the rest is still there.
        let rest = read_bytes(alloc, &mut source)?;
        let gone = 36.min(3 * (trip - 1)) as usize;
        right(
            "rest",
            trip as usize,
            Some(rest.as_slice()) == SCRIPT.get(gone..),
        )?;
    }
    Ok(())
}

/// A byte, how many of it a script has and those behind them, and how many a read gives at most. Then the
/// script's lines, none of which is a command; or that it is too long, and how many bytes are not read then.
static LONG: [(u8, usize, &[u8], u64, Result<u64, usize>); 6] = [
    (b'7', 1_048_576, b"", u64::MAX, Ok(1)),
    (b'7', 1_048_580, b"", u64::MAX, Err(3)),
    (b'7', 1_048_577, b"", 1000, Err(0)),
    (b'\n', 131_072, b"", u64::MAX, Ok(131_072)),
    // A last line without LF is one too many as well, and all bytes are read before that is told.
    (b'\n', 131_072, b"\n", 1000, Err(0)),
    (b'\n', 131_072, b"7", 1000, Err(0)),
];

#[test]
fn scripts_have_at_most_1048576_bytes_and_131072_lines(rt: HostRuntime) -> Result<(), Fail> {
    let alloc = rt.alloc();
    for (byte, many, behind, piece, want) in &LONG {
        assert!(rt; *piece > 0);
        let mut bytes = vec![in alloc; *byte; *many]?;
        bytes.extend_from_slice(behind)?;
        // Blocks of 4,096 bytes: 256 reads give the longest script, and one more tells its end.
        let trips = [if want.is_ok() { 258 } else { 0 }].to_vec(alloc)?;
        let mut source = Bytes::new(bytes, *piece, trips);
        let told = match read_script(alloc, &mut source) {
            Ok(script) => Ok(script.len()),
            Err(ReadRefused::TooLong) => Err(read_bytes(alloc, &mut source)?.len()),
            Err(_) => return Err("no script".into()),
        };
        right("bytes", *many, told == *want)?;
    }
    Ok(())
}
