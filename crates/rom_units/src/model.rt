//! The words of calls and replies, buckets and sizes.

use crate::right::right;
use rom_heap::Trio;
use rom_model::{Call, Object, Reply, blocks_at, bucket, power_of_two, region_len};
use std::test::Fail;

const CALLS: [(Call, &[u64]); 8] = [
    (Call::Enq(0), &[1, 0]),
    (Call::Enq(u64::MAX), &[1, u64::MAX]),
    (Call::Deq, &[2]),
    (Call::Add(31), &[3, 31]),
    (Call::Rem(41), &[4, 41]),
    (Call::Put(51, 52), &[5, 51, 52]),
    (Call::Del(61), &[6, 61]),
    (Call::Move(71, 72, 73), &[7, 71, 72, 73]),
];

const REPLIES: [(Reply, &[u64]); 13] = [
    (Reply::Queued, &[1]),
    (Reply::Full, &[2]),
    (Reply::Head(31), &[3, 31]),
    (Reply::Empty, &[4]),
    (Reply::Added, &[5]),
    (Reply::Present, &[6]),
    (Reply::Removed, &[7]),
    (Reply::Absent, &[8]),
    (Reply::NoPrior, &[9]),
    (Reply::Was(101), &[10, 101]),
    (Reply::Moved, &[11]),
    (Reply::Short(u64::MAX), &[12, u64::MAX]),
    (Reply::Over, &[13]),
];

#[test]
fn calls_and_replies_have_the_words_of_the_tables() -> Result<(), Fail> {
    for (row, (call, wanted)) in CALLS.iter().enumerate() {
        let words = Trio::call_words(call);
        right("words", row, words.as_slice() == *wanted)?;
        right("call", row, Trio::words_call(&words) == Some(*call))?;
    }
    for (row, (reply, wanted)) in REPLIES.iter().enumerate() {
        let words = Trio::reply_words(reply);
        right("words of a reply", row, words.as_slice() == *wanted)?;
        right("reply", row, Trio::words_reply(&words) == Some(*reply))?;
    }
    Ok(())
}

#[test]
fn keys_and_regions_have_the_numbers_of_the_tables(rt: HostRuntime) -> Result<(), Fail> {
    for (key, number) in [0, 2, 0, 3, 1, 0].iter().enumerate() {
        right("bucket", key, bucket(4, key as u64) == *number)?;
    }
    // The product of the greatest key and the factor is 2^64 less the factor: 0x61C8_8646...
    assert!(rt; bucket(4, u64::MAX) == 1);
    assert!(rt; bucket(16, u64::MAX) == 0x61C8 >> 2);
    assert!(rt; bucket(16, 1) == 0x9E37 >> 2);
    // The order, its units, the words of the region, and where the blocks begin.
    let rows = [
        (4, 16, 112, 48),
        (5, 32, 208, 80),
        (10, 1024, 6160, 2064),
        (16, 65_536, 393_232, 131_088),
    ];
    for (order, units, len, first) in rows {
        let sized = region_len(order) == len && blocks_at(order) == first;
        right(
            "order",
            order as usize,
            sized && power_of_two(order) == units,
        )?;
    }
    assert!(rt; power_of_two(0) == 1);
    Ok(())
}
