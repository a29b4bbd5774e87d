//! The stores of updates and the loads of queries, at order 16 on words that count them.
ghost use Rattle.std.specs.Prelude.{◌<◌, ℕ, IfOk};
ghost use Rattle.rom_model.specs.VecSpace.{words_of_space};
ghost use Rattle.rom_model.specs.History.{LAST_COUNT};
ghost use Rattle.rom_counted.specs.Counted.{BeginsLedger};
ghost use Rattle.rom_blob_region.specs.State.{BlobState};
ghost use Rattle.rom_blob_region.specs.Region.{BlobContents};

use rom_blob::{
    BlobAnswer, BlobCall, BlobQuery, BlobReply, Chunk, answer_blob, apply_blob, format_blobs,
};
use rom_counted::Counted;
use rom_model::VecSpace;
use std::alloc::Global;
use std::marker::Brand;
use std::sync::ledger::{Blank, Ledger};
use std::test::Fail;

/// How many stores an update may make.
const STORES: u64 = 128;

/// So many bytes that are the same.
fn bytes(byte: u8, len: usize) -> Chunk {
    let all = [byte; 256];
    let some = all.get(..len).unwrap_or(&[]);
    Chunk::of(some).unwrap_or(Chunk::new())
}

/// A heap whose free blocks hold 7 in each word, in which the key 1 has so many bytes, or is not there.
fn held(alloc: Global, len: Option<usize>) -> Result<VecSpace, Fail>
    ensures region { IfOk result (λ space. (s : BlobState) × (k : ℕ)
        × BlobContents 16 (words_of_space space) s k × (k < LAST_COUNT)) }
{
    let call = match len {
        Some(len) => BlobCall::Set(1, bytes(1, len)),
        None => BlobCall::Cut(1),
    };
    let mut space = VecSpace::of(vec![in alloc; 7u64; 393232]?);
    format_blobs(&mut space, 16);
    apply_blob(&mut space, 16, &call);
    Ok(space)
}

/// What an update is told in such a heap, and how many stores it makes.
fn told_and_stores<L: Ledger>(blank: Blank, space: VecSpace, call: BlobCall) -> (BlobReply, u64)
    requires blank { BeginsLedger L.name L.parts blank.name blank.parts }
    requires region { (s : BlobState) × (k : ℕ) × BlobContents 16 (words_of_space space) s k
        × (k < LAST_COUNT) }
{
    let mut space: Counted<L> = Counted::begin(space, STORES, blank);
    let reply = apply_blob(&mut space, 16, &call);
    (reply, space.stores())
}

#[test]
fn stores_of_each_update(rt: HostRuntime) -> Result<(), Fail> {
    let (none, few, many) = (bytes(2, 0), bytes(2, 33), bytes(2, 256));
    // How many bytes the key 1 has, an update of it, its reply and its stores: the count; words of bytes
    // that differ; length and place where they differ; of a new key or one that goes also link and size,
    // and of a new one the four words of its node; and as many words of the tree as the blocks change.
    let rows = [
        (
            None,
            BlobCall::Set(1, many),
            BlobReply::New,
            1 + 32 + 4 + 2 + 16,
        ),
        (None, BlobCall::Set(1, none), BlobReply::New, 1 + 4 + 2 + 14),
        (None, BlobCall::Cut(1), BlobReply::NoPrior, 1),
        (
            Some(256),
            BlobCall::Set(1, many),
            BlobReply::Was(256),
            1 + 32,
        ),
        (
            Some(129),
            BlobCall::Set(1, many),
            BlobReply::Was(129),
            1 + 32 + 1,
        ),
        (
            Some(256),
            BlobCall::Set(1, few),
            BlobReply::Was(256),
            1 + 5 + 2 + 2 + 2,
        ),
        (
            Some(256),
            BlobCall::Set(1, none),
            BlobReply::Was(256),
            1 + 2 + 2,
        ),
        (Some(256), BlobCall::Cut(1), BlobReply::Was(256), 1 + 2 + 16),
    ];
    for (len, call, reply, stores) in rows {
        let space = held(rt.alloc(), len)?;
        let told = told_and_stores::<Brand>(Blank::new(1), space, call);
        assert_eq!(rt; told, (reply, stores), "at {call:?}");
    }
    Ok(())
}

/// What a query is told in such a heap, and how many loads it makes.
fn answer_and_loads<L: Ledger>(blank: Blank, space: VecSpace, query: BlobQuery) -> (BlobAnswer, u64)
    requires blank { BeginsLedger L.name L.parts blank.name blank.parts }
    requires region { (s : BlobState) × (k : ℕ) × BlobContents 16 (words_of_space space) s k
        × (k < LAST_COUNT) }
{
    let mut space: Counted<L> = Counted::begin(space, 0, blank);
    let answer = answer_blob(&mut space, 16, &query);
    (answer, space.loads())
}

/// How many bytes or keys an answer has.
fn size_of(answer: BlobAnswer) -> Option<u64> {
    match answer {
        BlobAnswer::Bytes(bytes) => Some(bytes.len()),
        BlobAnswer::Missing => None,
        BlobAnswer::Keys(count) => Some(count),
    }
}

#[test]
fn loads_of_each_query(rt: HostRuntime) -> Result<(), Fail> {
    // How many bytes the key 1 has, a query, how many bytes or keys it is told, and its loads: the
    // bucket's word and the key; the length; the place, and the words of bytes.
    let rows = [
        (Some(256), BlobQuery::Fetch(1), Some(256), 2 + 1 + 1 + 32),
        (Some(33), BlobQuery::Fetch(1), Some(33), 2 + 1 + 1 + 5),
        (Some(0), BlobQuery::Fetch(1), Some(0), 2 + 1),
        (None, BlobQuery::Fetch(1), None, 1),
        (Some(256), BlobQuery::Size, Some(1), 1),
    ];
    for (len, query, size, loads) in rows {
        let space = held(rt.alloc(), len)?;
        let told = answer_and_loads::<Brand>(Blank::new(1), space, query);
        assert_eq!(rt; size_of(told.0), size, "at {query:?}");
        assert_eq!(rt; told.1, loads, "at {query:?}");
    }
    Ok(())
}
