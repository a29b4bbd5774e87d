//! What is asked of keys with bytes.
ghost use Rattle.std.specs.Prelude.{◌≡◌, ℕ, ◌+◌, ◌*◌};
ghost use Rattle.std.specs.FinMap as finite;
ghost use Rattle.rom_model.specs.Space.{Looks};
ghost use Rattle.rom_model.specs.Blocks.{IsOrder};
ghost use Rattle.rom_bucket.specs.Buckets.{keys_beside};
ghost use Rattle.rom_blob_region.specs.State.{BlobState, blob_tell};
ghost use Rattle.rom_blob_region.specs.Region.{BlobContents};
ghost use Rattle.rom_blob_region.specs.declared.call.BlobQuery.TheVariants.{Fetch, Size};

use crate::bytes::Chunk;
use crate::call::BlobAnswer;
use crate::node::{BODY, LEN};
use rom_bucket::find;
use rom_model::Look;

/// The root word that counts the keys.
pub const KEYS: u64 = 3;

/// The bytes of a key.
pub fn fetch_blob<M: Look>(space: &mut M, order: u32, key: u64) -> BlobAnswer
    requires order { IsOrder order }
    requires region { (s : BlobState) × (k : ℕ) × BlobContents order (M.shown.image space.old) s k }
    // The answer is the key's bytes in the state that the region stands for, or that the key is missing.
    ensures told { (s : BlobState) (k : ℕ) → BlobContents order (M.shown.image space.old) s k
        → result ≡ blob_tell s (Fetch key) }
    // No word changes. Loads, where counted: at most 36, and 2 more for each key in the bucket of this one.
    ensures looks { (s : BlobState) (k : ℕ) → BlobContents order (M.shown.image space.old) s k
        → Looks M.shown (4 + 2 * keys_beside order s key + 32) space.old space.new }
{
    let node = find(space, order, key).node;
    if node == 0 {
        return BlobAnswer::Missing;
    }
    let len = space.load(node + LEN);
    if len == 0 {
        return BlobAnswer::Bytes(Chunk::new());
    }
    let at = space.load(node + BODY);
    BlobAnswer::Bytes(Chunk::load(space, at, len))
}

/// How many keys there are.
pub fn count_blobs<M: Look>(space: &mut M, order: u32) -> BlobAnswer
    requires order { IsOrder order }
    requires region { (s : BlobState) × (k : ℕ) × BlobContents order (M.shown.image space.old) s k }
    // The answer is the number of keys in the state that the region stands for.
    ensures told { (s : BlobState) (k : ℕ) → BlobContents order (M.shown.image space.old) s k
        → result ≡ blob_tell s Size }
    ensures looks { Looks M.shown 1 space.old space.new }
{
    BlobAnswer::Keys(space.load(KEYS))
}
