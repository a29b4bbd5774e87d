//! Batches and repairs on a new heap of order 4, by its words.
ghost use Rattle.std.specs.Prelude.{◌≡◌, ◌⊎◌, IfOk, IfSome, IsTrue, length, replicate};
ghost use Rattle.rom_model.specs.Blocks.{region_len};
ghost use Rattle.rom_device.specs.Memory.{shown_by_memory};
ghost use Rattle.rom_ranges.specs.Changes.{SameBut};
ghost use Rattle.rom_ranges.specs.Ranges.{AreWithin};
ghost use Rattle.rom_twin.specs.Seen.{committed};

use crate::devices::{AMPLE, Failing, device};
use crate::regions::heap;
use crate::right::right;
use rom_device::CallKind::{Sync, Write};
use rom_device::{Device, Failed, Memory};
use rom_header::{Geometry, write_new};
use rom_model::{Look, Space, VecSpace};
use rom_ranges::Range;
use rom_twin::{Phase, Twin};
use std::alloc::{AllocError, Global};
use std::test::Fail;

/// How many calls it takes to make the heap: a read, a write of each of its words, and 3 syncs.
const MADE: u64 = 236;

/// The words behind the heap, which are no part of it.
const BEHIND: [u64; 3] = [0; 3];

/// A region of order 4 has 112 words. That of the new heap has sevens.
const WHOLE: [Range; 1] = [Range { start: 0, end: 112 }];

/// A twin on a new heap of order 4, of whose device these calls fail.
fn fresh_twin(alloc: Global, failing: &[Failing]) -> Result<Option<Twin<Memory>>, AllocError>
    ensures phase { IfOk result (λ made. IfSome made (λ twin. twin.phase ≡ Phase.Clean)) }
    ensures order { IfOk result (λ made. IfSome made (λ twin. twin.order ≡ 4)) }
    ensures sevens { IfOk result (λ made. IfSome made (λ twin.
        committed shown_by_memory twin ≡ replicate 112 7)) }
{
    let region = vec![in alloc; 7u64; 112]?;
    let mut memory = device(alloc, &[0; 235], AMPLE, failing)?;
    let Some(geometry) = Geometry::of(4) else {
        return Ok(None);
    };
    let Ok(()) = write_new(&mut memory, 4, region.as_slice()) else {
        return Ok(None);
    };
    Ok(Some(Twin::new(memory, geometry)))
}

/// Runs a batch, as far as it comes.
fn run_batch<D: Device, M: Look>(
    twin: &mut Twin<D>,
    ranges: &[Range],
    image: &mut M,
) -> Result<(), Failed>
    requires phase { twin.old.phase ≡ Phase.Clean }
    requires image { length (M.shown.image image.old) ≡ region_len twin.old.order }
    requires within { AreWithin (region_len twin.old.order) ranges.now }
    requires but { IsTrue D.shown.tells_images →
        SameBut ranges.now (committed D.shown twin.old) (M.shown.image image.old) }
    ensures order { twin.new.order ≡ twin.old.order }
    ensures image { M.shown.image image.new ≡ M.shown.image image.old }
    ensures undone { IsTrue D.shown.tells_images →
        (twin.new.phase ≡ Phase.Undo) ⊎ (twin.new.phase ≡ Phase.Doubt) →
        committed D.shown twin.new ≡ committed D.shown twin.old }
    ensures redone { IsTrue D.shown.tells_images → twin.new.phase ≡ Phase.Redo →
        committed D.shown twin.new ≡ M.shown.image image.old }
{
    twin.begin()?;
    twin.persist(ranges, image)?;
    twin.commit()?;
    twin.copy(ranges, image)?;
    twin.finish()
}

/// Repairs what a batch left, if it left anything, from the image before it or the new one.
fn mend<D: Device, M: Look>(twin: &mut Twin<D>, old: &mut M, new: &mut M) -> Result<(), Failed>
    requires old { length (M.shown.image old.old) ≡ region_len twin.old.order }
    requires new { length (M.shown.image new.old) ≡ region_len twin.old.order }
    requires undone { IsTrue D.shown.tells_images →
        (twin.old.phase ≡ Phase.Undo) ⊎ (twin.old.phase ≡ Phase.Doubt) →
        committed D.shown twin.old ≡ M.shown.image old.old }
    requires redone { IsTrue D.shown.tells_images → twin.old.phase ≡ Phase.Redo →
        committed D.shown twin.old ≡ M.shown.image new.old }
    ensures order { twin.new.order ≡ twin.old.order }
    ensures old { M.shown.image old.new ≡ M.shown.image old.old }
    ensures new { M.shown.image new.new ≡ M.shown.image new.old }
    ensures undone { IsTrue D.shown.tells_images →
        (twin.new.phase ≡ Phase.Undo) ⊎ (twin.new.phase ≡ Phase.Doubt) →
        committed D.shown twin.new ≡ M.shown.image old.old }
    ensures redone { IsTrue D.shown.tells_images → twin.new.phase ≡ Phase.Redo →
        committed D.shown twin.new ≡ M.shown.image new.old }
{
    match twin.phase() {
        Phase::Undo | Phase::Doubt => twin.repair(old),
        Phase::Redo => twin.repair(new),
        _ => Ok(()),
    }
}

/// Whether the heap has this state, and both regions these words.
fn holds(alloc: Global, device: &Memory, state: u64, region: &[u64]) -> Result<bool, AllocError> {
    let want = heap(alloc, state, region, region, &BEHIND)?;
    Ok(device.words() == want.as_slice())
}

#[test]
fn a_batch_makes_227_writes_and_4_syncs(rt: HostRuntime) -> Result<(), Fail> {
    let Some(mut twin) = fresh_twin(rt.alloc(), &[])? else {
        panic!(rt; "no heap was made");
    };
    let mut image = VecSpace::of(vec![in rt.alloc(); 9u64; 112]?);
    assert!(rt; run_batch(&mut twin, &WHOLE, &mut image).is_ok());
    assert!(rt; twin.phase() == Phase::Clean);
    let device = twin.into_device();
    assert!(rt; device.calls_made() == MADE + 227 + 4);
    assert!(rt; holds(rt.alloc(), &device, 0, image.words())?);
    Ok(())
}

#[test]
fn ranges_that_do_not_touch_are_written_alone(rt: HostRuntime) -> Result<(), Fail> {
    let Some(mut twin) = fresh_twin(rt.alloc(), &[])? else {
        panic!(rt; "no heap was made");
    };
    let mut image = VecSpace::of(vec![in rt.alloc(); 7u64; 112]?);
    image.store(5, 105);
    image.store(111, 211);
    let ranges = [
        Range { start: 4, end: 6 },
        Range {
            start: 111,
            end: 112,
        },
    ];
    assert!(rt; run_batch(&mut twin, &ranges, &mut image).is_ok());
    let device = twin.into_device();
    // Two words and one, to main and to back.
    assert!(rt; device.calls_made() == MADE + 3 + 6 + 4);
    assert!(rt; holds(rt.alloc(), &device, 0, image.words())?);
    Ok(())
}

/// Calls that fail. The batch fails at the first, which leaves this phase; then a first repair, which may
/// be done or fail too, and a second one where it fails. At the end the heap has this state, and both
/// regions this word everywhere.
///
/// The state is word 3, main is words 8 to 119, and back the same behind it. The making of the heap takes
/// the first write of the state, 112 writes to each region, and 3 syncs.
type Fault = (&'static [Failing], Phase, bool, u64, u64);

static FAULTS: [Fault; 13] = [
    (&[(Write, 3, 4, 2, false)], Phase::Undo, true, 0, 7),
    (&[(Sync, 0, 1, 4, false)], Phase::Undo, true, 0, 7),
    (&[(Write, 8, 120, 162, false)], Phase::Undo, true, 0, 7),
    (&[(Sync, 0, 1, 5, false)], Phase::Undo, true, 0, 7),
    (&[(Write, 3, 4, 3, false)], Phase::Doubt, true, 0, 7),
    (&[(Sync, 0, 1, 6, false)], Phase::Doubt, true, 0, 7),
    (&[(Write, 120, 232, 162, false)], Phase::Redo, true, 0, 9),
    (&[(Sync, 0, 1, 7, false)], Phase::Redo, true, 0, 9),
    // The last write of the batch, and that of a repair: nothing is left to be done.
    (&[(Write, 3, 4, 4, false)], Phase::Clean, true, 2, 9),
    (
        &[(Sync, 0, 1, 4, false), (Write, 3, 4, 4, false)],
        Phase::Undo,
        true,
        1,
        7,
    ),
    (
        &[(Sync, 0, 1, 4, false), (Sync, 0, 1, 5, false)],
        Phase::Undo,
        false,
        0,
        7,
    ),
    (
        &[(Sync, 0, 1, 6, false), (Write, 8, 120, 274, false)],
        Phase::Doubt,
        false,
        0,
        7,
    ),
    (
        &[(Sync, 0, 1, 7, false), (Sync, 0, 1, 8, false)],
        Phase::Redo,
        false,
        0,
        9,
    ),
];

/// Whether a row's fault leaves its phase, and is repaired.
fn is_repaired(alloc: Global, row: &Fault) -> Result<bool, AllocError> {
    let (failing, phase, repaired, state, word) = *row;
    let Some(mut twin) = fresh_twin(alloc, failing)? else {
        return Ok(false);
    };
    let mut old = VecSpace::of(vec![in alloc; 7u64; 112]?);
    let mut new = VecSpace::of(vec![in alloc; 9u64; 112]?);
    let failed = run_batch(&mut twin, &WHOLE, &mut new).is_err();
    let mut well = failed && twin.phase() == phase;
    // A repair that fails leaves the phase as it was.
    let mended = mend(&mut twin, &mut old, &mut new).is_ok();
    well = well && mended == repaired;
    if !mended {
        well = well && twin.phase() == phase;
        well = mend(&mut twin, &mut old, &mut new).is_ok() && well;
    }
    well = well && twin.phase() == Phase::Clean;
    Ok(well && holds(alloc, &twin.into_device(), state, &[word; 112])?)
}

#[test]
fn a_fault_leaves_its_phase_and_is_repaired(rt: HostRuntime) -> Result<(), Fail> {
    for (at, row) in FAULTS.iter().enumerate() {
        right("fault", at, is_repaired(rt.alloc(), row)?)?;
    }
    Ok(())
}
