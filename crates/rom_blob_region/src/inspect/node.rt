//! A node of a bucket's chain: its key, and its bytes.
ghost use Rattle.std.specs.Prelude.{◌≡◌, ◌≢◌, ℕ, ◌+◌, ◌/◌, ◌%◌, ◌^◌, ◌<◌, ◌≤◌, List, length};
ghost use Rattle.rom_model.specs.Blocks.{IsOrder, block_of, region_len};
ghost use Rattle.rom_model.specs.Region.{buckets};
ghost use Rattle.rom_model.specs.Tests.{checked};
ghost use Rattle.rom_blob_region.specs.Region.{len_at};
ghost use Rattle.rom_blob_region.specs.Tests.{key_tests, ends_bare};
ghost use Rattle.rom_blob_region.specs.Walks.{ReachesBlobs, AreBlobMarks, AreSomeBlobMarks, AnswersBody};

use crate::inspect::follow::follow_block;
use crate::inspect::keys::has_key;
use crate::node::{BODY, LEN};
use crate::order_for;
use rom_block::{check, check_word};
use rom_model::{Break, Rule, blocks_at, bucket};

/// The greatest number of bytes of a key.
const MAX_LEN: u64 = 256;

/// Tests how many bytes a node has, and its key, behind so many nodes of the bucket with that number.
pub fn inspect_key(
    region: &[u64],
    order: u32,
    number: u64,
    count: u64,
    node: u64,
) -> Result<(), Break>
    requires order { IsOrder order }
    requires sized { length region.now ≡ region_len order }
    requires number { number < buckets order }
    requires reached { (seen : List ℕ) × (before : List ℕ)
        × ReachesBlobs order region.now number seen before × (count ≡ length before) }
    requires node { (b : ℕ) × (node ≡ block_of order b) × (b < 2 ^ order) }
    ensures { (seen before : List ℕ) (b : ℕ) → ReachesBlobs order region.now number seen before
        → count ≡ length before → node ≡ block_of order b
        → result ≡ checked (key_tests order region.now number before b) }
{
    let at = node + LEN;
    check(region[at as usize] <= MAX_LEN, at, Rule::Count)?;
    let key = region[node as usize];
    check(bucket(order, key) == number, node, Rule::Bucket)?;
    let stands = has_key(region, order, blocks_at(order) + number, count, key);
    check(!stands, node, Rule::Repeat)
}

/// Whether the last word of so many bytes from that offset on has zeros behind the last byte. So equal bytes
/// are equal words. The block's words behind that one are never read, and may be anything: to clear them
/// would be writes to a device.
fn ends_bare(region: &[u64], at: u64, len: u64) -> bool
    requires within { len % 8 ≢ 0 → at + len / 8 < length region.now }
    requires small { length region.now < 2 ^ 32 }
    ensures { result ≡ ends_bare region.now at len }
{
    let rest = len % 8;
    rest == 0 || region[(at + len / 8) as usize] >> (8 * rest) == 0
}

/// Tests the bytes of a node, and marks their block.
pub fn inspect_body(region: &[u64], order: u32, node: u64, marks: &mut [bool]) -> Result<(), Break>
    requires order { IsOrder order }
    requires sized { length region.now ≡ region_len order }
    requires node { (b : ℕ) × (node ≡ block_of order b) × (b < 2 ^ order)
        × (len_at order region.now b ≤ 256) }
    requires marks { AreSomeBlobMarks order marks.old }
    ensures { (held : List ℕ) (b : ℕ) → AreBlobMarks order held marks.old → node ≡ block_of order b
        → AnswersBody order region.now held b result marks.new }
{
    let len = region[(node + LEN) as usize];
    if len == 0 {
        return check_word(region, node + BODY, Rule::Link, 0);
    }
    follow_block(region, order, node + BODY, order_for(len), marks)?;
    let at = region[(node + BODY) as usize];
    check(ends_bare(region, at, len), at + len / 8, Rule::Pad)
}
