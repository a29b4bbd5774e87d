//! Taking keys out.
ghost use Rattle.std.specs.Prelude.{◌≡◌, ℕ, ◌+◌, ◌<◌};
ghost use Rattle.std.specs.FinMap as finite;
ghost use Rattle.rom_model.specs.Space.{HasRoom, Stores};
ghost use Rattle.rom_model.specs.Blocks.{IsOrder};
ghost use Rattle.rom_blob_region.specs.State.{BlobState, cut_blob};
ghost use Rattle.rom_blob_region.specs.Region.{BlobContents};

use crate::body::give_body;
use crate::call::BlobReply;
use crate::fetch::KEYS;
use crate::node::{BODY, LEN};
use rom_block::Blocks;
use rom_bucket::{find, unlink_node};
use rom_model::Space;

/// Takes a key out, and gives back the blocks of its node and of its bytes.
pub fn cut_blob<M: Space>(space: &mut M, order: u32, key: u64) -> BlobReply
    requires order { IsOrder order }
    requires region { (s : BlobState) × (k : ℕ) × BlobContents order (M.shown.image space.old) s k }
    requires room { HasRoom M.shown 36 space.old }
    // The reply and the state after it are those that the definition `cut_blob` gives. The count stays.
    ensures done { (s : BlobState) (k : ℕ) → BlobContents order (M.shown.image space.old) s k
        → let after = cut_blob s key (finite.get s key) in
        (result ≡ after.1) × BlobContents order (M.shown.image space.new) after.0 k }
    ensures stores { Stores M.shown 36 space.old space.new }
{
    let place = find(space, order, key);
    if place.node == 0 {
        return BlobReply::NoPrior;
    }
    let len = space.load(place.node + LEN);
    let body = space.load(place.node + BODY);
    unlink_node(space, KEYS, place);
    Blocks::give(space, order, place.node, 0);
    give_body(space, order, body, len);
    BlobReply::Was(len)
}
