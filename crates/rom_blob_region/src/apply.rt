//! One update.
ghost use Rattle.std.specs.Prelude.{◌≡◌, ◌+◌, ◌<◌, ◌≤◌, ℕ, length, slice_index};
ghost use Rattle.rom_model.specs.Space.{ChangesOnly, Costs, HasRoom, Stores};
ghost use Rattle.rom_model.specs.History.{LAST_COUNT};
ghost use Rattle.rom_model.specs.Blocks.{IsOrder};
ghost use Rattle.rom_blob_region.specs.State.{BlobState, blob_step, MayRefuse};
ghost use Rattle.rom_blob_region.specs.declared.call.BlobReply.TheVariants.{Full};
ghost use Rattle.rom_blob_region.specs.Region.{BlobContents};

use crate::call::{BlobCall, BlobReply};
use crate::cut::cut_blob;
use crate::set::set_blob;
use rom_model::{COUNT, Space};

/// Counts one update more.
fn raise_count<M: Space>(space: &mut M)
    requires long { COUNT < length (M.shown.image space.old) }
    requires within { slice_index (M.shown.image space.old) COUNT < LAST_COUNT }
    requires room { HasRoom M.shown 1 space.old }
    ensures raised { slice_index (M.shown.image space.new) COUNT
        ≡ slice_index (M.shown.image space.old) COUNT + 1 }
    ensures others { ChangesOnly COUNT 1 (M.shown.image space.old) (M.shown.image space.new) }
    ensures costs { Costs M.shown 1 1 space.old space.new }
{
    let count = space.load(COUNT);
    space.store(COUNT, count + 1);
}

/// Does an update that is counted already.
fn update<M: Space>(space: &mut M, order: u32, call: &BlobCall) -> BlobReply
    requires order { IsOrder order }
    requires region { (s : BlobState) × (k : ℕ) × BlobContents order (M.shown.image space.old) s k }
    requires room { HasRoom M.shown 72 space.old }
    ensures done { (s : BlobState) (j k : ℕ) → BlobContents order (M.shown.image space.old) s k
        → let after = blob_step order s j call.now in
        (result ≡ after.1) × BlobContents order (M.shown.image space.new) after.0 k }
    ensures crowded { (s : BlobState) (k : ℕ) → BlobContents order (M.shown.image space.old) s k
        → result ≡ Full → MayRefuse order s call.now }
    ensures stores { Stores M.shown 72 space.old space.new }
{
    match *call {
        BlobCall::Set(key, bytes) => set_blob(space, order, key, &bytes),
        BlobCall::Cut(key) => cut_blob(space, order, key),
    }
}

/// Does an update. The raised count is stored first, also where nothing else changes.
pub fn apply_blob<M: Space>(space: &mut M, order: u32, call: &BlobCall) -> BlobReply
    requires order { IsOrder order }
    requires region { (s : BlobState) × (k : ℕ) × BlobContents order (M.shown.image space.old) s k
        × (k < LAST_COUNT) }
    requires room { HasRoom M.shown 128 space.old }
    // The reply is the step's. The region then stands for the state after it, and counts one update more.
    ensures done { (s : BlobState) (k : ℕ) → BlobContents order (M.shown.image space.old) s k
        → let after = blob_step order s k call.now in
        (result ≡ after.1) × BlobContents order (M.shown.image space.new) after.0 (k + 1) }
    // `Full` comes only where so many units are in use that there may be no block, and never for a `Cut`.
    ensures crowded { (s : BlobState) (k : ℕ) → BlobContents order (M.shown.image space.old) s k
        → result ≡ Full → MayRefuse order s call.now }
    ensures stores { Stores M.shown 128 space.old space.new }
{
    raise_count(space);
    update(space, order, call)
}
