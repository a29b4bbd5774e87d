//! Giving keys bytes.
ghost use Rattle.std.specs.Prelude.{◌≡◌, ◌≢◌, ◌⊎◌, ℕ, ◌+◌, ◌-◌, ◌<◌, ◌≤◌, ◌^◌, None, List, length};
ghost use Rattle.std.specs.FinMap as finite;
ghost use Rattle.rom_model.specs.Space.{Costs, HasRoom, Stores};
ghost use Rattle.rom_model.specs.Blocks.{IsOrder};
ghost use Rattle.rom_bucket.specs.Buckets.{There};
ghost use Rattle.rom_blob_region.specs.Bytes.{words_for};
ghost use Rattle.rom_blob_region.specs.State.{BlobState, blocks_taken, new_body, set_new, set_blob, IsCrowded};
ghost use Rattle.rom_blob_region.specs.declared.call.BlobReply.TheVariants.{Full};
ghost use Rattle.rom_blob_region.specs.Region.{IsBlobs, BlobContents};
ghost use Rattle.rom_blob_region.specs.Calls.{IsFilled, stay_there};

use crate::body::{give_body, order_for, take_body};
use crate::bytes::Chunk;
use crate::call::BlobReply;
use crate::fetch::KEYS;
use crate::node::{BODY, LEN};
use rom_block::Blocks;
use rom_bucket::{Node, Place, find, link_first};
use rom_model::{Space, store_changed};

/// Gives bytes to a key that is not there. Both blocks are taken before anything else is stored.
fn add_key<M: Space>(space: &mut M, order: u32, key: u64, bytes: &Chunk) -> BlobReply
    requires order { IsOrder order }
    requires region { (s : BlobState) × (k : ℕ) × BlobContents order (M.shown.image space.old) s k }
    requires absent { (s : BlobState) (k : ℕ) → BlobContents order (M.shown.image space.old) s k
        → finite.get s key ≡ None }
    requires room { HasRoom M.shown 72 space.old }
    ensures done { (s : BlobState) (k : ℕ) → BlobContents order (M.shown.image space.old) s k
        → let after = set_new order s key bytes.now (new_body order (blocks_taken s) bytes.now) in
        (result ≡ after.1) × BlobContents order (M.shown.image space.new) after.0 k }
    ensures stores { Stores M.shown 72 space.old space.new }
{
    let len = bytes.len();
    // The block of the bytes first: a node that is taken first might split the last large block, though a
    // single unit is free behind that block.
    let Some(body) = take_body(space, order, len) else {
        return BlobReply::Full;
    };
    let Some(node) = Blocks::take(space, order, 0) else {
        give_body(space, order, body, len);
        return BlobReply::Full;
    };
    bytes.store(space, body);
    // To the front of its bucket: keys in order would make the walks to absent keys shorter, and no others.
    link_first(
        space,
        order,
        KEYS,
        node,
        Node {
            key,
            second: len,
            last: body,
        },
    );
    BlobReply::New
}

/// Whether so many bytes stay in the block in which so many others stood.
fn stays_there(was: u64, len: u64) -> bool
    ensures { result ≡ stay_there was len }
{
    was != 0 && len != 0 && order_for(was) == order_for(len)
}

/// Stores bytes from an offset on, and their number and that offset in a node.
fn fill_key<M: Space>(space: &mut M, node: u64, at: u64, bytes: &Chunk)
    requires node { node + 4 ≤ length (M.shown.image space.old) }
    requires body { at + words_for (length bytes.now) ≤ length (M.shown.image space.old) }
    requires small { node < 2 ^ 32 }
    requires low { at < 2 ^ 32 }
    requires beside { (node + 4 ≤ at) ⊎ (at + words_for (length bytes.now) ≤ node) }
    requires room { HasRoom M.shown 34 space.old }
    ensures filled { IsFilled node at bytes.now (M.shown.image space.old)
        (M.shown.image space.new) }
    ensures costs { Costs M.shown 34 34 space.old space.new }
{
    bytes.store(space, at);
    store_changed(space, node + LEN, bytes.len());
    store_changed(space, node + BODY, at);
}

/// Gives other bytes to a key whose node is at that place. A block for them is taken before the old one
/// is given back.
fn replace_bytes<M: Space>(space: &mut M, order: u32, place: Place, bytes: &Chunk) -> BlobReply
    requires order { IsOrder order }
    requires region { (key : ℕ) × (bucket : ℕ → List ℕ) × (s : BlobState) × (k : ℕ)
        × IsBlobs order (M.shown.image space.old) bucket s k
        × There order (M.shown.image space.old) bucket key place }
    requires room { HasRoom M.shown 72 space.old }
    ensures done { (key : ℕ) (bucket : ℕ → List ℕ) (s : BlobState) (k : ℕ)
        → IsBlobs order (M.shown.image space.old) bucket s k
        → There order (M.shown.image space.old) bucket key place
        → let after = set_blob order s key bytes.now (finite.get s key) in
        (result ≡ after.1) × BlobContents order (M.shown.image space.new) after.0 k }
    ensures stores { Stores M.shown 72 space.old space.new }
{
    let len = bytes.len();
    let was = space.load(place.node + LEN);
    let old = space.load(place.node + BODY);
    // The bytes are written over in place: the device has the old image until the batch commits.
    if stays_there(was, len) {
        fill_key(space, place.node, old, bytes);
        return BlobReply::Was(was);
    }
    // The old block is still taken, so that `Full` changes nothing. The price: it cannot make room for the
    // new bytes.
    let Some(body) = take_body(space, order, len) else {
        return BlobReply::Full;
    };
    fill_key(space, place.node, body, bytes);
    give_body(space, order, old, was);
    BlobReply::Was(was)
}

/// Gives a key bytes. There is no change where no block is free for them, or for a new key's node.
pub fn set_blob<M: Space>(space: &mut M, order: u32, key: u64, bytes: &Chunk) -> BlobReply
    requires order { IsOrder order }
    requires region { (s : BlobState) × (k : ℕ) × BlobContents order (M.shown.image space.old) s k }
    requires room { HasRoom M.shown 72 space.old }
    // The reply and the state after it are those that the definition `set_blob` gives. The count stays.
    ensures done { (s : BlobState) (k : ℕ) → BlobContents order (M.shown.image space.old) s k
        → let after = set_blob order s key bytes.now (finite.get s key) in
        (result ≡ after.1) × BlobContents order (M.shown.image space.new) after.0 k }
    ensures stores { Stores M.shown 72 space.old space.new }
    // `Full` comes only where so many units are in use that there may be no block for bytes or a new node.
    ensures crowded { (s : BlobState) (k : ℕ) → BlobContents order (M.shown.image space.old) s k
        → result ≡ Full → IsCrowded order s (length bytes.now) }
{
    let place = find(space, order, key);
    if place.node == 0 {
        return add_key(space, order, key, bytes);
    }
    replace_bytes(space, order, place, bytes)
}
