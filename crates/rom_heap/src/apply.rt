//! One update.
ghost use Rattle.std.specs.Prelude.{◌≡◌, ◌+◌, ◌*◌, ◌<◌, ◌≤◌, ℕ, IfNone, IsSome, length, slice_index};
ghost use Rattle.rom_model.specs.Space.{ChangesOnly, Counts, HasRoom, Stores};
ghost use Rattle.rom_model.specs.State.{State, one};
ghost use Rattle.rom_model.specs.Singles.{kind_of, reply_kind};
ghost use Rattle.rom_model.specs.Codes as codes;
ghost use Rattle.rom_model.specs.Machine.{weight_on_words};
ghost use Rattle.rom_model.specs.Trio.{trio, weight};
ghost use Rattle.rom_model.specs.History.{LAST_COUNT};
ghost use Rattle.rom_model.specs.Blocks.{IsOrder};
ghost use Rattle.rom_model.specs.Region.{IsWellFormed, Contents};
ghost use Rattle.rom_model.specs.declared.call.Single.TheVariants as call;
ghost use Rattle.rom_heap.specs.Updates.{HasStamp, DoesUpdate, DoesUpdates, DoesNext, DoesWords, most_stores, most_of};
ghost use Rattle.rom_heap.specs.Fits.{IsGroupDone, GroupStores};

use crate::fits::fits;
use rom_map::{Moved, Put, map_del, map_move, map_put};
use rom_model::{
    Args, Back, COUNT, Call, Kind, Replies, Reply, Single, SingleReply, Space, first_single,
    put_reply_words, put_single_reply_words, words_call,
};
use rom_queue::{queue_pop, queue_push};
use rom_set::{Inserted, set_insert, set_remove};

/// Counts one update more, and tells the raised count, which is the update's stamp.
fn raise_count<M: Space>(space: &mut M) -> u64
    requires long { COUNT < length (M.shown.image space.old) }
    requires within { slice_index (M.shown.image space.old) COUNT < LAST_COUNT }
    requires room { HasRoom M.shown 1 space.old }
    ensures stamp { result ≡ slice_index (M.shown.image space.old) COUNT + 1 }
    ensures raised { slice_index (M.shown.image space.new) COUNT
        ≡ slice_index (M.shown.image space.old) COUNT + 1 }
    ensures others { ChangesOnly COUNT 1 (M.shown.image space.old) (M.shown.image space.new) }
    ensures counts { Counts M.shown 1 1 space.old space.new }
{
    let stamp = space.load(COUNT) + 1;
    space.store(COUNT, stamp);
    stamp
}

fn enq<M: Space>(space: &mut M, order: u32, value: u64) -> SingleReply
    requires order { IsOrder order }
    requires region { IsWellFormed order (M.shown.image space.old) }
    requires room { HasRoom M.shown 31 space.old }
    ensures does { DoesUpdate M.shown order (call.Enq value) result space.old space.new }
{
    if queue_push(space, order, value) {
        SingleReply::Queued
    } else {
        SingleReply::Full
    }
}

fn deq<M: Space>(space: &mut M, order: u32) -> SingleReply
    requires order { IsOrder order }
    requires region { IsWellFormed order (M.shown.image space.old) }
    requires room { HasRoom M.shown 31 space.old }
    ensures does { DoesUpdate M.shown order call.Deq result space.old space.new }
{
    match queue_pop(space, order) {
        Some(value) => SingleReply::Head(value),
        None => SingleReply::Empty,
    }
}

fn add<M: Space>(space: &mut M, order: u32, key: u64) -> SingleReply
    requires order { IsOrder order }
    requires region { IsWellFormed order (M.shown.image space.old) }
    requires room { HasRoom M.shown 31 space.old }
    ensures does { DoesUpdate M.shown order (call.Add key) result space.old space.new }
{
    match set_insert(space, order, key) {
        Inserted::New => SingleReply::Added,
        Inserted::There => SingleReply::Present,
        Inserted::Full => SingleReply::Full,
    }
}

fn rem<M: Space>(space: &mut M, order: u32, key: u64) -> SingleReply
    requires order { IsOrder order }
    requires region { IsWellFormed order (M.shown.image space.old) }
    requires room { HasRoom M.shown 31 space.old }
    ensures does { DoesUpdate M.shown order (call.Rem key) result space.old space.new }
{
    if set_remove(space, order, key) {
        SingleReply::Removed
    } else {
        SingleReply::Absent
    }
}

fn put<M: Space>(space: &mut M, order: u32, key: u64, value: u64, stamp: u64) -> SingleReply
    requires order { IsOrder order }
    requires region { HasStamp order (M.shown.image space.old) stamp }
    requires room { HasRoom M.shown 31 space.old }
    ensures does { DoesUpdate M.shown order (call.Put key value) result space.old space.new }
{
    match map_put(space, order, key, value, stamp) {
        Put::New => SingleReply::NoPrior,
        Put::Was(before) => SingleReply::Was(before),
        Put::Full => SingleReply::Full,
    }
}

fn del<M: Space>(space: &mut M, order: u32, key: u64) -> SingleReply
    requires order { IsOrder order }
    requires region { IsWellFormed order (M.shown.image space.old) }
    requires room { HasRoom M.shown 31 space.old }
    ensures does { DoesUpdate M.shown order (call.Del key) result space.old space.new }
{
    match map_del(space, order, key) {
        Some(value) => SingleReply::Was(value),
        None => SingleReply::NoPrior,
    }
}

fn shift<M: Space>(
    space: &mut M,
    order: u32,
    from: u64,
    to: u64,
    amount: u64,
    stamp: u64,
) -> SingleReply
    requires order { IsOrder order }
    requires region { HasStamp order (M.shown.image space.old) stamp }
    requires room { HasRoom M.shown 31 space.old }
    ensures does { DoesUpdate M.shown order (call.Move from to amount) result space.old space.new }
{
    match map_move(space, order, from, to, amount, stamp) {
        Moved::Done => SingleReply::Moved,
        Moved::Absent => SingleReply::Absent,
        Moved::Short(value) => SingleReply::Short(value),
        Moved::Over => SingleReply::Over,
    }
}

/// Does an update of one structure that is counted already. What it writes of the map has this
/// stamp.
pub fn update<M: Space>(space: &mut M, order: u32, call: &Single, stamp: u64) -> SingleReply
    requires order { IsOrder order }
    requires region { HasStamp order (M.shown.image space.old) stamp }
    requires room { HasRoom M.shown 31 space.old }
    ensures does { DoesUpdate M.shown order call.now result space.old space.new }
{
    match *call {
        Single::Enq(value) => enq(space, order, value),
        Single::Deq => deq(space, order),
        Single::Add(key) => add(space, order, key),
        Single::Rem(key) => rem(space, order, key),
        Single::Put(key, value) => put(space, order, key, value, stamp),
        Single::Del(key) => del(space, order, key),
        Single::Move(from, to, amount) => shift(space, order, from, to, amount, stamp),
    }
}

/// Does the members of a group in order, which is counted already. What they write of the map has
/// this one stamp.
fn update_all<M: Space>(space: &mut M, order: u32, calls: &[Single], stamp: u64) -> Replies
    requires order { IsOrder order }
    requires region { HasStamp order (M.shown.image space.old) stamp }
    requires few { length calls.now ≤ 8 }
    requires room { HasRoom M.shown (31 * length calls.now) space.old }
    ensures does { DoesUpdates M.shown order calls.now result space.old space.new }
{
    let mut replies = Replies::new();
    for call in calls {
        replies.push(update(space, order, call, stamp));
    }
    replies
}

/// Does an update of one structure. The raised count is stored first, also where nothing else
/// changes.
fn apply_one<M: Space>(space: &mut M, order: u32, call: &Single) -> SingleReply
    requires order { IsOrder order }
    requires region { (s : State) × (k : ℕ) × Contents order (M.shown.image space.old) s k
        × (k < LAST_COUNT) }
    requires room { HasRoom M.shown 32 space.old }
    ensures done { (s : State) (k : ℕ) → Contents order (M.shown.image space.old) s k
        → let after = one order s k call.now in
        (result ≡ after.1) × Contents order (M.shown.image space.new) after.0 (k + 1) }
    ensures stores { Stores M.shown (1 + most_stores order call.now result) space.old space.new }
{
    let stamp = raise_count(space);
    update(space, order, call, stamp)
}

/// Does the members of a group in order, or none of them where one would be refused. Which of the
/// two is found out by loads alone. Then the raised count is stored; of a refused group nothing else.
fn apply_group<M: Space>(space: &mut M, order: u32, calls: &[Single]) -> Option<Replies>
    requires order { IsOrder order }
    requires region { (s : State) × (k : ℕ) × Contents order (M.shown.image space.old) s k
        × (k < LAST_COUNT) }
    requires few { length calls.now ≤ 8 }
    requires room { HasRoom M.shown (1 + 31 * length calls.now) space.old }
    ensures done { (s : State) (k : ℕ) → Contents order (M.shown.image space.old) s k
        → IsGroupDone order s k calls.now result (M.shown.image space.new) }
    ensures stores { GroupStores M.shown order calls.now result space.old space.new }
    ensures refused { IfNone result
        (ChangesOnly COUNT 1 (M.shown.image space.old) (M.shown.image space.new)) }
{
    let fit = fits(space, order, calls);
    let stamp = raise_count(space);
    if !fit {
        return None;
    }
    Some(update_all(space, order, calls, stamp))
}

/// Does an update.
pub(crate) fn apply<M: Space>(space: &mut M, order: u32, call: &Call) -> Reply
    requires order { IsOrder order }
    requires region { (s : State) × (k : ℕ) × Contents order (M.shown.image space.old) s k
        × (k < LAST_COUNT) }
    requires room { HasRoom M.shown (32 * weight call.now) space.old }
    ensures done { DoesNext order call.now result
        (M.shown.image space.old) (M.shown.image space.new) }
    ensures stores { Stores M.shown (1 + most_of order (kind_of call.now) (reply_kind result))
        space.old space.new }
    ensures most { Stores M.shown (32 * weight call.now) space.old space.new }
{
    match call.kind() {
        Kind::Single(single) => Reply::plain(apply_one(space, order, &single)),
        Kind::Several(group) => match apply_group(space, order, group.as_slice()) {
            Some(replies) => Reply::All(replies),
            None => Reply::Full,
        },
    }
}

/// Does the update whose words these are, and tells the words of its reply.
pub(crate) fn apply_words<M: Space>(space: &mut M, order: u32, words: &Args, told: &mut Back)
    requires order { IsOrder order }
    requires call { IsSome (codes.words_call words.now) }
    requires region { (s : State) × (k : ℕ) × Contents order (M.shown.image space.old) s k
        × (k < LAST_COUNT) }
    requires room { HasRoom M.shown (32 * weight_on_words trio words.now) space.old }
    ensures done { DoesWords order words.now told.new
        (M.shown.image space.old) (M.shown.image space.new) }
    ensures most { Stores M.shown (32 * weight_on_words trio words.now) space.old space.new }
{
    match first_single(words.as_slice()) {
        Some(single) => put_single_reply_words(apply_one(space, order, &single), told),
        None => apply_whole(space, order, words, told),
    }
}

/// Does the update whose words these are, of one structure or of several.
#[cold]
#[inline(never)]
fn apply_whole<M: Space>(space: &mut M, order: u32, words: &Args, told: &mut Back)
    requires order { IsOrder order }
    requires call { IsSome (codes.words_call words.now) }
    requires region { (s : State) × (k : ℕ) × Contents order (M.shown.image space.old) s k
        × (k < LAST_COUNT) }
    requires room { HasRoom M.shown (32 * weight_on_words trio words.now) space.old }
    ensures done { DoesWords order words.now told.new
        (M.shown.image space.old) (M.shown.image space.new) }
    ensures most { Stores M.shown (32 * weight_on_words trio words.now) space.old space.new }
{
    let call = words_call(words).unwrap();
    let reply = apply(space, order, &call);
    put_reply_words(&reply, told);
}
