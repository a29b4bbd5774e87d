//! Offsets that are added, and the ranges that hold them.
ghost use Rattle.std.specs.Prelude.{◌≡◌};

use rom_ranges::{Range, RangeLog};
use std::test::Fail;

/// Adds offsets in turn to a log with room for four ranges, until it holds so many.
fn add_all(log: &mut RangeLog, offsets: &[u32])
    requires { log.old.room ≡ 4 }
    ensures { log.new.room ≡ 4 }
{
    for at in offsets {
        if log.list().len() < 4 {
            log.add(u64::from(*at));
        }
    }
}

#[test]
fn ranges_grow_and_meet(rt: HostRuntime) -> Result<(), Fail> {
    let five_to_seven = Range { start: 5, end: 8 };
    let ten = Range { start: 10, end: 11 };
    let mut log = RangeLog::with_room(rt.alloc(), 4)?;
    assert_eq!(rt; log.list().len(), 0);
    add_all(&mut log, &[5, 7, 6, 10, 6]);
    assert_eq!(rt; log.list(), [five_to_seven, ten].as_slice());
    // Each kind of place: right before a range, right behind it, between two that do not touch it.
    add_all(&mut log, &[4, 11, 9, 1]);
    let one = Range { start: 1, end: 2 };
    let four_to_seven = Range { start: 4, end: 8 };
    let nine_to_eleven = Range { start: 9, end: 12 };
    assert_eq!(rt; log.list(), [one, four_to_seven, nine_to_eleven].as_slice());
    log.clear();
    assert_eq!(rt; log.list().len(), 0);
    // It keeps the room.
    add_all(&mut log, &[6, 0, 2, 4]);
    assert_eq!(rt; log.list().len(), 4);
    Ok(())
}
