//! The object.
ghost use Rattle.rom_model.specs.Earlier.{no_earlier};
ghost use Rattle.rom_blob_region.specs.State.{BlobState};
ghost use Rattle.rom_blob_region.specs.Region.{BlobContents};
ghost use Rattle.rom_blob_region.specs.Answers.{RejectsBlobs};
ghost use Rattle.rom_blob.specs.Blobs.{blobs};
ghost use Rattle.rom_blob.specs.Laws.{blob_contents_within, blob_reply_back, blob_reply_few, one_blob_contents};
ghost use Rattle.rom_blob.specs.Tags.{blob_call_only, blob_reply_only};

use crate::codes;
use rom_blob_region::{
    BlobAnswer, BlobCall, BlobQuery, BlobReply, answer_blob, apply_blob, format_blobs,
    inspect_blobs,
};
use rom_model::{Args, Back, Look, Object, Space, Unfit};
use std::alloc::Global;

/// Keys with up to 256 bytes each.
#[derive(Clone, Copy, Debug)]
pub struct Blobs;

impl Object for Blobs {
    ghost KIND = { 2 };

    const KIND: u64 = 2;

    ghost STORES = { 128 };

    const STORES: u64 = 128;

    ghost WEIGHT = { 1 };

    const WEIGHT: u64 = 1;

    ghost State = { BlobState };

    type Call = BlobCall;

    type Query = BlobQuery;

    type Reply = BlobReply;

    type Answer = BlobAnswer;

    ghost machine = { blobs };

    ghost Contents = { BlobContents };

    ghost Rejects = { RejectsBlobs };

    ghost earlier = { no_earlier };

    fn weight_of(call: &BlobCall) -> u64 {
        1
    }

    fn call_words(call: &BlobCall) -> Args {
        codes::call_words(call)
    }

    fn put_call_words(call: &BlobCall, words: &mut Args) {
        codes::put_call_words(call, words);
    }

    fn words_call(words: &Args) -> Option<BlobCall> {
        codes::words_call(words)
    }

    fn reply_words(reply: &BlobReply) -> Back {
        codes::reply_words(reply)
    }

    fn words_reply(words: &Back) -> Option<BlobReply> {
        codes::words_reply(words)
    }

    fn format<M: Space>(space: &mut M, order: u32) {
        format_blobs(space, order);
    }

    fn apply<M: Space>(space: &mut M, order: u32, call: &BlobCall) -> BlobReply {
        apply_blob(space, order, call)
    }

    fn apply_words<M: Space>(space: &mut M, order: u32, words: &Args, told: &mut Back) {
        let call = codes::words_call(words).unwrap();
        codes::put_reply_words(&apply_blob(space, order, &call), told);
    }

    #[inline(always)]
    fn answer<M: Look>(space: &mut M, order: u32, query: &BlobQuery) -> BlobAnswer {
        answer_blob(space, order, query)
    }

    fn inspect(alloc: Global, region: &[u64], order: u32) -> Result<(), Unfit> {
        inspect_blobs(alloc, region, order)
    }

    ghost call_only = { blob_call_only };

    ghost reply_back = { blob_reply_back };

    ghost reply_only = { blob_reply_only };

    ghost reply_few = { blob_reply_few };

    ghost one_contents = { one_blob_contents };

    ghost contents_within = { blob_contents_within };
}
