//! One query.
ghost use Rattle.std.specs.Prelude.{◌≡◌, ℕ};
ghost use Rattle.rom_model.specs.Space.{Looks};
ghost use Rattle.rom_model.specs.Blocks.{IsOrder};
ghost use Rattle.rom_blob_region.specs.State.{BlobState, blob_tell, blob_cost};
ghost use Rattle.rom_blob_region.specs.Region.{BlobContents};

use crate::call::{BlobAnswer, BlobQuery};
use crate::fetch::{count_blobs, fetch_blob};
use rom_model::Look;

/// Answers a query.
pub fn answer_blob<M: Look>(space: &mut M, order: u32, query: &BlobQuery) -> BlobAnswer
    requires order { IsOrder order }
    requires region { (s : BlobState) × (k : ℕ) × BlobContents order (M.shown.image space.old) s k }
    // The answer is what the query is told in the state that the region stands for.
    ensures told { (s : BlobState) (k : ℕ) → BlobContents order (M.shown.image space.old) s k
        → result ≡ blob_tell s query.now }
    // No word changes, and at most `blob_cost` loads are made, where they are counted.
    ensures looks { (s : BlobState) (k : ℕ) → BlobContents order (M.shown.image space.old) s k
        → Looks M.shown (blob_cost order s query.now) space.old space.new }
{
    match *query {
        BlobQuery::Fetch(key) => fetch_blob(space, order, key),
        BlobQuery::Size => count_blobs(space, order),
    }
}
