//! Scripts of several callers that are played on one heap of order 4.
ghost use Rattle.std.specs.Prelude.{◌≡◌, ◌≤◌, ◌<◌, All, IfOk, length, vec_len};
ghost use Rattle.rom_model.specs.History.{LAST_COUNT};

use crate::heaps::{device, left};
use rom_combine::{Gate, NoGate};
use rom_device::{CallKind, Device, every_trip};
use rom_heap::Trio;
use rom_lines::{Results, Script, Told, Undone};
use rom_model::{Call, Step};
use rom_store::{Closed, Played, Refused, Unplayed, play};
use rom_test::{Holding, Roll};
use std::alloc::{AllocError, Global};
use std::sync::Wait;
use std::test::Fail;
use std::thread::Threads;

/// The results of all scripts, and the store that was closed.
fn played<D: Device + Send + Drop, R: Threads + Wait + Sync, G: Gate + Sync>(
    rt: &R,
    alloc: Global,
    device: D,
    scripts: &[Script<Trio>],
    gate: &G,
) -> Result<(Vec<Results<Trio>>, Closed<D, Trio>), Fail>
    requires callers { (0 < length scripts.now) × (length scripts.now ≤ 16) }
    requires few { All (λ v. length v.items ≤ LAST_COUNT) scripts.now }
{
    match play::<D, Trio, R, G>(rt, alloc, device, scripts, gate) {
        Ok(Played { results, closed }) => Ok((results, closed)),
        Err(Unplayed::NoRoom(_)) => Err("no room".into()),
        Err(Unplayed::Unopened(Refused { device: _, why: _ })) => Err("refused".into()),
    }
}

/// Marks the place as taken. `false` says that it is none, or was taken before.
fn take_place(taken: &mut [bool], place: u64) -> bool {
    match taken.get_mut(place as usize) {
        Some(mark) if !*mark => {
            *mark = true;
            true
        }
        _ => false,
    }
}

/// Whether the updates of a caller are done, each at a free place, which is then taken, or failed or in
/// doubt, and the places rise.
fn is_rising(taken: &mut [bool], results: &Results<Trio>) -> bool {
    let mut least = 0;
    for i in 0..results.len() {
        match results.at(i) {
            Told::Done(_, place) => {
                if place < least || !take_place(taken, place) {
                    return false;
                }
                least = place.saturating_add(1);
            }
            Told::Undone(Undone::Failed | Undone::Doubt) => {}
            _ => return false,
        }
    }
    true
}

/// How many updates of a caller were done, how many failed, and how many are in doubt.
fn fates_of(results: &Results<Trio>) -> (u64, u64, u64) {
    let mut fates = (0u64, 0u64, 0u64);
    for i in 0..results.len() {
        match results.at(i) {
            Told::Done(_, _) => fates.0 = fates.0.saturating_add(1),
            Told::Undone(Undone::Failed) => fates.1 = fates.1.saturating_add(1),
            Told::Undone(Undone::Doubt) => fates.2 = fates.2.saturating_add(1),
            _ => {}
        }
    }
    fates
}

/// The same of all callers.
fn fates(results: &[Results<Trio>]) -> (u64, u64, u64) {
    let mut fates = (0u64, 0u64, 0u64);
    for own in results {
        let (done, failed, doubt) = fates_of(own);
        fates.0 = fates.0.saturating_add(done);
        fates.1 = fates.1.saturating_add(failed);
        fates.2 = fates.2.saturating_add(doubt);
    }
    fates
}

/// Two numbers are put into the queue.
fn queueing(alloc: Global, number: u64) -> Result<Script<Trio>, AllocError>
    ensures few { IfOk result (λ script. length script.items ≤ LAST_COUNT) }
{
    let mut script = Script::new(alloc);
    script.push_step(&Step::Update(Call::Enq(number)))?;
    script.push_step(&Step::Update(Call::Enq(number)))?;
    Ok(script)
}

/// The lines of 16 callers that put two numbers each into the queue.
fn all_queueing(alloc: Global) -> Result<Vec<Script<Trio>>, AllocError>
    ensures many { IfOk result (λ scripts. vec_len scripts ≡ 16) }
    ensures few { IfOk result (λ scripts. All (λ v. length v.items ≤ LAST_COUNT) scripts.items) }
{
    let mut scripts = Vec::new(alloc);
    for caller in 0..16 {
        scripts.push(queueing(alloc, caller)?)?;
    }
    Ok(scripts)
}

/// The sync of MUTATING in the second pass fails, or that of COPYING there, whose calls are all that
/// failed, or are in doubt: one at most of each caller. All others are done, at the places from 0 on,
/// and they alone were published.
#[test]
fn a_fault_fails_at_most_one_update_of_each_of_sixteen_callers(
    rt: HostRuntime,
) -> Result<(), Fail> {
    let alloc = rt.alloc();
    let scripts = all_queueing(alloc)?;
    for sync in [6, 8] {
        let memory = device(alloc, 0, &[every_trip(CallKind::Sync, sync)])?;
        let gate = Roll::new(alloc, &[2; 16], Holding::Callers)?;
        let (results, closed) = played(&rt, alloc, memory, scripts.as_slice(), &gate)?;
        let (done, failed, doubt) = fates(results.as_slice());
        let (hit, other) = if sync == 6 {
            (failed, doubt)
        } else {
            (doubt, failed)
        };
        assert_eq!(rt; (done.saturating_add(hit), other), (32, 0));
        assert!(rt; hit >= 1);
        assert_eq!(rt; (closed.count(), gate.differs(true, done)), (done, None));
        let mut taken = vec![in alloc; false; 32]?;
        for own in &results {
            let (_, failed, doubt) = fates_of(own);
            assert!(rt; failed.saturating_add(doubt) <= 1);
            assert!(rt; is_rising(taken.as_mut_slice(), own));
        }
        assert!(rt; taken.iter().take(done as usize).all(|mark| *mark));
    }
    Ok(())
}

/// Two callers put two numbers each into the queue, and this sync fails. It tells how many updates were
/// done, failed and in doubt, the count at closing, and the one in what a stop leaves then.
fn run_faulty<R: Threads + Wait + Sync>(
    rt: &R,
    alloc: Global,
    sync: u64,
    kind: u64,
) -> Result<((u64, u64, u64), u64, u64), Fail> {
    let memory = device(alloc, 0, &[every_trip(CallKind::Sync, sync)])?;
    let scripts = [queueing(alloc, 1)?, queueing(alloc, 2)?];
    let (results, closed) = played(rt, alloc, memory, &scripts, &NoGate)?;
    let count = closed.count();
    let (memory, _session) = closed.parts();
    let (_, left) = left(alloc, memory, kind)?;
    Ok((fates(results.as_slice()), count, left))
}

/// The opening makes the first sync and a pass four, so these are of MUTATING and of COPYING in the
/// second pass, which finds one call or two.
#[test]
fn a_fault_in_mid_run_is_told_to_those_whom_it_hit(rt: HostRuntime) -> Result<(), Fail> {
    let alloc = rt.alloc();
    for kind in 0..3 {
        let (fates, count, left) = run_faulty(&rt, alloc, 6, kind)?;
        assert!(rt; fates == (3, 1, 0) || fates == (2, 2, 0));
        assert_eq!(rt; (count, left), (fates.0, fates.0));

        let (fates, count, left) = run_faulty(&rt, alloc, 8, kind)?;
        assert!(rt; fates == (3, 0, 1) || fates == (2, 0, 2));
        assert_eq!(rt; count, fates.0);
        // Where the pass in doubt was the last one, a stop may leave it done.
        assert!(rt; left == count || (count, left) == (2, 4));
    }
    Ok(())
}
