//! Headers and new heaps of order 4, by their words.

use crate::devices::{AMPLE, Failing, device};
use crate::files::{bytes_of, device_over, zeroed};
use crate::regions::{FRESH, MAGIC, change, heap};
use crate::right::right;
use rom_device::CallKind::{Read, Sync, Write};
use rom_header::{FormatRefused, HeaderRefused, State, read_header, write_new};
use std::alloc::{AllocError, Global};
use std::fs;
use std::test::Fail;

/// How many words there are, what they are, the first one, and calls that fail. Then whether a heap is
/// made, and what the first word is. The magic is written by write 232, between syncs 2 and 3.
type Made = (
    usize,
    u64,
    u64,
    &'static [Failing],
    Result<(), FormatRefused>,
    u64,
);

static MADE: [Made; 16] = [
    (232, 0, 0, &[], Ok(()), MAGIC),
    (235, 0, 0, &[], Ok(()), MAGIC),
    (235, 7, 7, &[], Ok(()), MAGIC),
    (
        231,
        0,
        0,
        &[],
        Err(FormatRefused::TooSmall {
            need: 232,
            have: 231,
        }),
        0,
    ),
    (
        8,
        0,
        0,
        &[],
        Err(FormatRefused::TooSmall { need: 232, have: 8 }),
        0,
    ),
    (
        1,
        0,
        0,
        &[],
        Err(FormatRefused::TooSmall { need: 232, have: 1 }),
        0,
    ),
    (
        0,
        0,
        0,
        &[],
        Err(FormatRefused::TooSmall { need: 232, have: 0 }),
        0,
    ),
    (1, 0, MAGIC, &[], Err(FormatRefused::AlreadyAHeap), MAGIC),
    (232, 0, MAGIC, &[], Err(FormatRefused::AlreadyAHeap), MAGIC),
    (
        232,
        0,
        0,
        &[(Read, 0, 232, 1, true)],
        Err(FormatRefused::Device),
        0,
    ),
    (
        232,
        0,
        0,
        &[(Sync, 0, 232, 1, true)],
        Err(FormatRefused::Device),
        0,
    ),
    (
        232,
        0,
        0,
        &[(Write, 0, 232, 1, true)],
        Err(FormatRefused::Device),
        0,
    ),
    (
        232,
        0,
        0,
        &[(Write, 0, 232, 231, true)],
        Err(FormatRefused::Device),
        0,
    ),
    (
        232,
        0,
        0,
        &[(Sync, 0, 232, 2, true)],
        Err(FormatRefused::Device),
        0,
    ),
    (
        232,
        0,
        0,
        &[(Write, 0, 232, 232, true)],
        Err(FormatRefused::Device),
        MAGIC,
    ),
    (
        232,
        0,
        0,
        &[(Sync, 0, 232, 3, true)],
        Err(FormatRefused::Device),
        MAGIC,
    ),
];

/// Whether a heap is made of a row, or refused, as it is wanted.
fn is_none_or_whole(alloc: Global, row: &Made) -> Result<bool, AllocError> {
    let (len, word, first, failing, want, left) = *row;
    let mut words = vec![in alloc; word; len]?;
    change(words.as_mut_slice(), &[(0, first)]);
    let mut memory = device(alloc, words.as_slice(), AMPLE, failing)?;
    let made = write_new(&mut memory, 4, &FRESH);
    let word = memory.words().first().copied().unwrap_or(left);
    if made.is_err() {
        return Ok(made == want && word == left);
    }
    let behind = words.get(232..).unwrap_or(&[]);
    let whole = heap(alloc, 0, &FRESH, &FRESH, behind)?;
    Ok(made == want && word == left && memory.words() == whole.as_slice())
}

#[test]
fn a_new_heap_is_none_or_whole(rt: HostRuntime) -> Result<(), Fail> {
    for (at, row) in MADE.iter().enumerate() {
        right("a new heap", at, is_none_or_whole(rt.alloc(), row)?)?;
    }
    Ok(())
}

#[test]
fn a_file_becomes_a_heap(rt: HostRuntime) -> Result<(), Fail> {
    let path = zeroed(&rt, "header", 1856)?;
    {
        let mut device = device_over(&rt, &path, true, 1856)?;
        assert!(rt; write_new(&mut device, 4, &FRESH).is_ok());
        let header = read_header(&mut device).ok().ok_or("no header")?;
        assert!(rt; header.geometry.order() == 4 && header.state == State::Idle);
    }
    let bytes = fs::read(&rt, path.as_path())?;
    let words = heap(rt.alloc(), 0, &FRESH, &FRESH, &[])?;
    assert!(rt; bytes.as_slice() == bytes_of(rt.alloc(), words.as_slice())?.as_slice());
    assert!(rt; bytes.as_slice().starts_with(b"1SULUMOR"));
    fs::remove_file(&rt, path.as_path())?;
    Ok(())
}

#[test]
fn a_header_is_refused_by_its_first_wrong_word(rt: HostRuntime) -> Result<(), Fail> {
    let alloc = rt.alloc();
    let too_small = HeaderRefused::TooSmall {
        need: 424,
        have: 232,
    };
    // A word that is another, calls that fail, and why the header is refused.
    let rows: [(usize, u64, &[Failing], Option<HeaderRefused>); 12] = [
        (0, 0, &[], Some(HeaderRefused::NotAHeap)),
        (1, 2, &[], Some(HeaderRefused::BadVersion(2))),
        (2, 3, &[], Some(HeaderRefused::BadOrder(3))),
        (2, 17, &[], Some(HeaderRefused::BadOrder(17))),
        (2, 5, &[], Some(too_small)),
        (3, 3, &[], Some(HeaderRefused::BadState(3))),
        (3, 2, &[], None),
        (4, 9, &[], None),
        (
            4,
            0,
            &[(Read, 0, 232, 1, false)],
            Some(HeaderRefused::Device),
        ),
        (
            4,
            0,
            &[(Read, 0, 232, 2, false)],
            Some(HeaderRefused::Device),
        ),
        (
            4,
            0,
            &[(Read, 0, 232, 3, false)],
            Some(HeaderRefused::Device),
        ),
        (
            4,
            0,
            &[(Read, 0, 232, 4, false)],
            Some(HeaderRefused::Device),
        ),
    ];
    for (row, (at, value, failing, want)) in rows.iter().enumerate() {
        let mut words = heap(alloc, 0, &FRESH, &FRESH, &[])?;
        change(words.as_mut_slice(), &[(*at, *value)]);
        let mut memory = device(alloc, words.as_slice(), AMPLE, failing)?;
        right("header", row, read_header(&mut memory).err() == *want)?;
    }
    Ok(())
}
