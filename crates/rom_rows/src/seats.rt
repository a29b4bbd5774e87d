//! What callers at their seats see of the writer, and of each other.
ghost use Rattle.std.specs.Prelude.{◌≡◌, ℕ};

use crate::asked::asked;
use crate::readers::seated;
use crate::turns::{change_back, change_main, tell, to_main};
use rom_heap::Trio;
use rom_lr::{Side, apply_main};
use rom_model::{Answer, COUNT, Call, Object, Query, Reply, VERSION, new_region};
use rom_ranges::RangeLog;
use std::test::Fail;

#[test]
fn a_word_stored_on_main_is_not_seen_on_back(rt: HostRuntime) -> Result<(), Fail> {
    let alloc = rt.alloc();
    let heap = new_region::<Trio>(alloc, 4)?;
    let (shared, mut writer, (mut seat, _second, _third)) = seated(alloc, &heap)?;
    shared.enter(&mut seat);
    shared.store_main(&mut writer, COUNT, 5);
    let seen = shared.load(&mut seat, COUNT);
    shared.leave(&mut seat);
    let stored = shared.load_main(&mut writer, COUNT);
    assert_eq!(rt; seen, 0);
    assert_eq!(rt; stored, 5);
    Ok(())
}

#[test]
fn an_update_on_main_is_not_seen_by_a_query_on_back(rt: HostRuntime) -> Result<(), Fail> {
    let alloc = rt.alloc();
    let heap = new_region::<Trio>(alloc, 4)?;
    let (shared, mut writer, (mut seat, _second, _third)) = seated(alloc, &heap)?;
    shared.enter(&mut seat);
    let mut log = RangeLog::with_room(alloc, Trio::STORES * Trio::WEIGHT)?;
    let reply = apply_main(&shared, &mut writer, &mut log, &Call::Enq(5));
    let told = asked(&shared, &mut seat, Query::Len);
    shared.leave(&mut seat);
    let counted = shared.load_main(&mut writer, COUNT);
    assert_eq!(rt; reply, Reply::Queued);
    let want = Answer::Sizes {
        queue: 0,
        set: 0,
        map: 0,
    };
    assert_eq!(rt; told, want);
    assert_eq!(rt; counted, 1);
    Ok(())
}

#[test]
fn a_word_is_stored_on_the_side_that_readers_left(rt: HostRuntime) -> Result<(), Fail> {
    let alloc = rt.alloc();
    let heap = new_region::<Trio>(alloc, 4)?;
    let (shared, mut writer, (mut seat, _second, _third)) = seated(alloc, &heap)?;
    let words = change_back(&rt, &shared, &mut writer, COUNT, 5);
    let side = shared.enter(&mut seat);
    let seen = shared.load(&mut seat, COUNT);
    shared.leave(&mut seat);
    assert_eq!(rt; words, (0, 5));
    assert_eq!(rt; (side, seen), (Side::Main, 0));

    let (shared, mut writer, (mut seat, _second, _third)) = seated(alloc, &heap)?;
    let word = change_main(&rt, &shared, &mut writer, COUNT, 6);
    let side = shared.enter(&mut seat);
    let seen = shared.load(&mut seat, COUNT);
    shared.leave(&mut seat);
    assert_eq!(rt; word, 6);
    assert_eq!(rt; (side, seen), (Side::Back, 0));
    Ok(())
}

#[test]
fn a_caller_that_learns_what_another_read_can_read(rt: HostRuntime) -> Result<(), Fail> {
    let alloc = rt.alloc();
    let heap = new_region::<Trio>(alloc, 4)?;
    let (shared, mut writer, (mut first, mut second, _third)) = seated(alloc, &heap)?;
    to_main(&rt, &shared, &mut writer);
    let read = shared.enter(&mut first);
    shared.leave(&mut first);
    // That the second has then seen as much is a clause of `tell`.
    tell(&shared, &mut first, &mut second);
    let side = shared.enter(&mut second);
    let version = shared.load(&mut second, VERSION);
    shared.leave(&mut second);
    assert_eq!(rt; (read, side), (Side::Main, Side::Main));
    assert_eq!(rt; version, 2);
    Ok(())
}
