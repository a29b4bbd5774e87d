//! One batch that replaces both regions of a heap.
ghost use Rattle.std.specs.Prelude.{◌≡◌, ◌+◌, ◌*◌, ◌≤◌, ℕ, List, OnOk, IsTrue, length};
ghost use Rattle.rom_model.specs.Blocks.{region_len};
ghost use Rattle.rom_device.specs.Device.{Becomes, Does, IsSynced, Makes, Runs};
ghost use Rattle.rom_header.specs.Layout.{MAIN, back_of, main_of, words_needed};
ghost use Rattle.rom_header.specs.Regions.{IsCurrentRegion, IsHeap};
ghost use Rattle.rom_header.specs.Writing.{StateOrWithin};
ghost use Rattle.rom_twin.specs.Images.{Twins};
ghost use Rattle.rom_twin.specs.Seen.{KeepsHeap, committed, main_now};
ghost use Rattle.rom_open.specs.Batch.{CountsEither, WritesAndSyncs, whole_region};
ghost use Rattle.rom_open.specs.UpgradeCalls.{replacement_syncs, replacement_writes};
ghost use Rattle.rom_open.specs.Upgrading.{IsWholeHeap};

use rom_device::{Device, Failed};
use rom_header::Geometry;
use rom_model::Look;
use rom_ranges::Range;
use rom_twin::{Phase, Twin};

/// Writes the new region to main, and commits it: from then on it counts.
fn commit_region<D: Device, M: Look>(
    twin: &mut Twin<D>,
    ranges: &[Range],
    region: &mut M,
) -> Result<(), Failed>
    requires phase { twin.old.phase ≡ Phase.Clean }
    requires region { length (M.shown.image region.old) ≡ region_len twin.old.order }
    requires ranges { ranges.now ≡ whole_region twin.old.order }
    ensures ok { OnOk result (twin.new.phase ≡ Phase.Committed) }
    ensures kept { KeepsHeap D.shown (committed D.shown twin.old) twin.old twin.new }
    ensures main { IsTrue D.shown.tells_images →
        OnOk result (main_now D.shown twin.new ≡ M.shown.image region.old) }
    ensures region { OnOk result (M.shown.image region.new ≡ M.shown.image region.old) }
    ensures since { IsTrue D.shown.tells_images →
        Runs D.shown (Becomes (CountsEither twin.old.order (committed D.shown twin.old)
        (M.shown.image region.old)))
        twin.old.device twin.new.device }
    ensures does { Does D.shown (StateOrWithin MAIN (2 * region_len twin.old.order))
        twin.old.device twin.new.device }
    ensures makes { Makes D.shown 0 (region_len twin.old.order + 2) 3
        twin.old.device twin.new.device result }
{
    twin.begin()?;
    twin.persist(ranges, region)?;
    twin.commit()
}

/// Writes the committed region to back too, and ends the batch. A fault at its last write, of IDLE, is no
/// error.
fn end_batch<D: Device, M: Look>(
    twin: &mut Twin<D>,
    ranges: &[Range],
    region: &mut M,
) -> Result<(), Failed>
    requires phase { twin.old.phase ≡ Phase.Committed }
    requires region { length (M.shown.image region.old) ≡ region_len twin.old.order }
    requires ranges { ranges.now ≡ whole_region twin.old.order }
    requires main { IsTrue D.shown.tells_images →
        main_now D.shown twin.old ≡ M.shown.image region.old }
    ensures since { IsTrue D.shown.tells_images →
        Runs D.shown (Becomes (λ i. IsCurrentRegion twin.old.order i (M.shown.image region.old)))
        twin.old.device twin.new.device }
    ensures now { IsTrue D.shown.tells_images → OnOk result ((i : List ℕ) →
        D.shown.leaves twin.new.device i →
        Twins twin.old.order (M.shown.image region.old) i) }
    ensures whole { IsTrue D.shown.tells_images →
        OnOk result (IsWholeHeap twin.old.order (D.shown.words twin.new.device)) }
    ensures does { Does D.shown (StateOrWithin MAIN (2 * region_len twin.old.order))
        twin.old.device twin.new.device }
    ensures spends { WritesAndSyncs D.shown (region_len twin.old.order + 1) 1
        twin.old.device twin.new.device result }
{
    twin.copy(ranges, region)?;
    let _ = twin.finish();
    Ok(())
}

/// Makes both regions of a heap the new one, in one batch. The heap is recovered, and nothing was written
/// since. The device comes back whatever is answered.
///
/// Stopped at any moment, it leaves a heap in which the region counts that counted before, or the new one.
pub(crate) fn replace_regions<D: Device, M: Look>(
    device: D,
    geometry: Geometry,
    region: &mut M,
) -> (D, Result<(), Failed>)
    requires fits { words_needed geometry ≤ D.shown.size device }
    requires heap { IsTrue D.shown.tells_images → IsHeap geometry (D.shown.words device) }
    requires twins { IsTrue D.shown.tells_images →
        main_of geometry (D.shown.words device) ≡ back_of geometry (D.shown.words device) }
    requires certain { IsSynced D.shown device }
    requires region { length (M.shown.image region.old) ≡ region_len geometry }
    ensures since { IsTrue D.shown.tells_images →
        Runs D.shown (Becomes (CountsEither geometry (back_of geometry (D.shown.words device))
        (M.shown.image region.old)))
        device result.0 }
    ensures now { IsTrue D.shown.tells_images → OnOk result.1 ((i : List ℕ) →
        D.shown.leaves result.0 i → Twins geometry (M.shown.image region.old) i) }
    ensures whole { IsTrue D.shown.tells_images →
        OnOk result.1 (IsWholeHeap geometry (D.shown.words result.0)) }
    ensures does { Does D.shown (StateOrWithin MAIN (2 * region_len geometry)) device result.0 }
    ensures spends { WritesAndSyncs D.shown (replacement_writes geometry) replacement_syncs device result.0 result.1 }
{
    let ranges = [Range {
        start: 0,
        end: geometry.region(),
    }];
    let mut twin = Twin::new(device, geometry);
    let committed = commit_region(&mut twin, &ranges, region);
    if committed.is_err() {
        return (twin.into_device(), committed);
    }
    let ended = end_batch(&mut twin, &ranges, region);
    (twin.into_device(), ended)
}
