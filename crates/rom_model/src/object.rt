//! What a heap keeps: an object in the words of a region.
ghost use Rattle.std.specs.Prelude.{◌≡◌, ℕ, ◌+◌, ◌*◌, ◌<◌, ◌≤◌, List, length, Option, Some, Err, IsSome, IfSome, IfOk, OnOk, IfErr, slice_index, false};
ghost use Rattle.rom_model.specs.Space.{KeepsSpace, Looks, Stores, HasRoom};
ghost use Rattle.rom_model.specs.VecSpace.{words_of_space};
ghost use Rattle.rom_model.specs.Machine.{Machine, on_words, weight_on_words};
ghost use Rattle.rom_model.specs.History.{LAST_COUNT};
ghost use Rattle.rom_model.specs.Blocks.{IsOrder, region_len};
ghost use Rattle.rom_model.specs.Earlier.{Earlier};
ghost use Rattle.rom_model.specs.Inspected.{IsReason};
ghost use Rattle.rom_model.specs.declared.unfit.Unfit.{Unfit};
ghost use Rattle.rom_model.specs.declared.unfit.Unfit.TheVariants.{Old};

use crate::sizes::region_len;
use crate::space::{Look, Space};
use crate::unfit::Unfit;
use crate::vec_space::VecSpace;
use crate::words::{Args, Back};
use std::alloc::{AllocError, Global};

/// An object that is kept in a region of words. What runs it and keeps it safe over a stop knows no
/// more of it than this. It need not be `Send` or `Sync`: that is asked for where threads are started.
///
/// A region of an order from 4 to 16 stands for a state and a count of updates. An update changes the
/// words through any space, and a query looks at them through any view; neither takes memory.
pub trait Object {
    ghost KIND: { ℕ };

    /// The number of its kind.
    const KIND: u64;

    ghost STORES: { ℕ };

    /// The most stores that one update of weight 1 may make, and any other for each unit of its weight.
    /// A writer reserves room by this and `WEIGHT` alone.
    const STORES: u64;

    ghost WEIGHT: { ℕ };

    /// The greatest weight of an update. The log of a writer has room for updates of this weight. What a pass
    /// writes is bounded by the weights of the calls that it found.
    const WEIGHT: u64;

    /// Its states.
    ghost State: { Type 0 };

    /// What updates it.
    type Call: Copy;

    /// What reads it.
    type Query: Copy;

    /// What an update is told.
    type Reply: Copy;

    /// What a query is told.
    type Answer: Copy;

    /// What its calls and queries do, the weight of a call, the words of its calls and replies, and how
    /// many loads a query makes at most.
    ghost machine: { Machine State Self.Call Self.Query Self.Reply Self.Answer };

    /// The words of a region of that order are well-formed, and stand for that state and that count.
    ghost Contents: { ℕ → List ℕ → State → ℕ → Type 0 };

    /// Why the words of a region of that order are not accepted: they are one of an older version, or
    /// that word breaks that rule and each test before holds. Want of memory is no reason of words.
    ghost Rejects: { ℕ → List ℕ → Unfit → Type 0 };

    /// The version that its regions had before this one, or `no_earlier`. It stands here and not at `Renew`,
    /// since a command's promise speaks of it, and one promise serves the programs of all objects.
    ghost earlier: { Earlier State };

    // It is not named `weight`: names that differ only in case, as `WEIGHT` does, cannot stand in one trait.
    // `most` is a clause of this function and no law of each call: contracts see groups of any length.
    /// The weight of a call. It bounds the stores that the call makes.
    fn weight_of(call: &Self::Call) -> u64
        ensures is { result ≡ machine.weight call.now }
        ensures least { 1 ≤ result }
        ensures most { result ≤ WEIGHT };

    /// The words of a call. They stand for it alone.
    fn call_words(call: &Self::Call) -> Args
        ensures words { result ≡ machine.call_words call.now }
        ensures back { machine.words_call result ≡ Some call.now };

    /// Makes the words those of a call, whatever they were.
    fn put_call_words(call: &Self::Call, words: &mut Args)
        ensures words { words.new ≡ machine.call_words call.now }
        ensures back { machine.words_call words.new ≡ Some call.now }
    {
        *words = Self::call_words(call);
    }

    /// The call that the words are those of. It is `None` exactly where there is none.
    fn words_call(words: &Args) -> Option<Self::Call>
        ensures call { result ≡ machine.words_call words.now }
        // So a writer that has room for the greatest weight has room for each call that it reads from words.
        ensures weight { IfSome result (λ call.
            (1 ≤ machine.weight call) × (machine.weight call ≤ WEIGHT)) };

    /// The words of a reply. They stand for it alone.
    fn reply_words(reply: &Self::Reply) -> Back
        ensures words { result ≡ machine.reply_words reply.now }
        ensures back { machine.words_reply result ≡ Some reply.now };

    /// The reply that the words are those of. It is `None` exactly where there is none.
    fn words_reply(words: &Back) -> Option<Self::Reply>
        ensures { result ≡ machine.words_reply words.now };

    /// Makes the words those of a new region, whatever they were.
    fn format<M: Space>(space: &mut M, order: u32)
        requires order { IsOrder order }
        requires sized { length (M.shown.image space.old) ≡ region_len order }
        requires free { M.shown.has_limit ≡ false }
        ensures made { Contents order (M.shown.image space.new) machine.empty 0 }
        ensures space { KeepsSpace M.shown space.old space.new };

    /// Does an update, and counts it.
    fn apply<M: Space>(space: &mut M, order: u32, call: &Self::Call) -> Self::Reply
        requires order { IsOrder order }
        requires region { (s : State) × (k : ℕ)
            × Contents order (M.shown.image space.old) s k × (k < LAST_COUNT) }
        requires room { HasRoom M.shown (STORES * machine.weight call.now) space.old }
        // The reply is the step's. The region then stands for the state after it, and counts one update more.
        ensures done { (s : State) (k : ℕ) → Contents order (M.shown.image space.old) s k
            → let after = machine.step order s k call.now in
            (result ≡ after.1) × Contents order (M.shown.image space.new) after.0 (k + 1) }
        // It makes at most `STORES` stores for each unit of the call's weight, where they are counted.
        ensures stores { Stores M.shown (STORES * machine.weight call.now) space.old space.new };

    /// Does the update whose words these are, and counts it, as `apply` does. Makes `told` the words of
    /// its reply, whatever they were.
    fn apply_words<M: Space>(space: &mut M, order: u32, words: &Args, told: &mut Back)
        requires order { IsOrder order }
        requires call { IsSome (machine.words_call words.now) }
        requires region { (s : State) × (k : ℕ)
            × Contents order (M.shown.image space.old) s k × (k < LAST_COUNT) }
        // There is room for the greatest weight, so that a writer need not ask for the weight of these words.
        requires room { HasRoom M.shown (STORES * WEIGHT) space.old }
        // The step on these words gives the words in `told` and the state that the region then stands for.
        // The region counts one update more.
        ensures done { (s : State) (k : ℕ) → Contents order (M.shown.image space.old) s k
            → (after : State) × (on_words machine order s k words.now ≡ Some (after, told.new))
            × Contents order (M.shown.image space.new) after (k + 1) }
        // At most `STORES` stores are made for each unit of the weight of these words, where counted.
        ensures stores { Stores M.shown (STORES * weight_on_words machine words.now)
            space.old space.new }
        ensures weight { weight_on_words machine words.now ≤ WEIGHT }
    {
        let call = Self::words_call(words).unwrap();
        let reply = Self::apply(space, order, &call);
        *told = Self::reply_words(&reply);
    }

    /// Answers a query.
    fn answer<M: Look>(space: &mut M, order: u32, query: &Self::Query) -> Self::Answer
        requires order { IsOrder order }
        requires region { (s : State) × (k : ℕ) × Contents order (M.shown.image space.old) s k }
        // The answer is what the query is told in the state that the region stands for.
        ensures told { (s : State) (k : ℕ) → Contents order (M.shown.image space.old) s k
            → result ≡ machine.tell s query.now }
        // No word changes, and at most `cost` loads are made, where they are counted.
        ensures looks { (s : State) (k : ℕ) → Contents order (M.shown.image space.old) s k
            → Looks M.shown (machine.cost order s query.now) space.old space.new };

    /// Whether the words are a well-formed region. Else it tells why not: `Old` exactly of a region of
    /// an older version, and of any other the first test that does not hold, by the word's offset from
    /// the region's start and the rule that it breaks. `OutOfMemory` says that there was no memory,
    /// and then nothing is known of the words.
    fn inspect(alloc: Global, region: &[u64], order: u32) -> Result<(), Unfit>
        requires order { IsOrder order }
        requires sized { length region.now ≡ region_len order }
        // `Ok` tells that the words are a well-formed region.
        ensures fit { OnOk result ((s : State) × (k : ℕ) × Contents order region.now s k) }
        // Any error but `OutOfMemory` is true of the words.
        ensures reason { IfErr result (IsReason (Rejects order region.now)) }
        // Words of an older version get `Old`, and no other answer.
        ensures old { Rejects order region.now Old → result ≡ Err Old }
        // Words that are rejected stand for no state.
        ensures refused { (e : Unfit) → Rejects order region.now e → (s : State) (k : ℕ) →
            Contents order region.now s k → ⊥ }
        // Words are rejected for at most one reason.
        ensures one { (e d : Unfit) → Rejects order region.now e → Rejects order region.now d →
            e ≡ d };

    /// Words that are read as a call are the words of that call.
    ghost call_only: { (words : List ℕ) (call : Self.Call) → machine.words_call words ≡ Some call →
        machine.call_words call ≡ words };

    /// What a call is told that has words is read back from its own words. Histories need no more. Of any
    /// reply at all it would be false: a contract sees lists of more than eight replies.
    ghost reply_back: { (order : ℕ) (s : State) (count : ℕ) (words : List ℕ) (call : Self.Call) →
        machine.words_call words ≡ Some call →
        let told = (machine.step order s count call).1 in
        machine.words_reply (machine.reply_words told) ≡ Some told };

    /// Words that are read as a reply are the words of that reply.
    ghost reply_only: { (words : List ℕ) (reply : Self.Reply) →
        machine.words_reply words ≡ Some reply → machine.reply_words reply ≡ words };

    /// What a call is told has at most twice as many words as the call. Whoever keeps the words of replies
    /// reserves room by this before the calls are made.
    ghost reply_few: { (order : ℕ) (s : State) (count : ℕ) (words : List ℕ) (call : Self.Call) →
        machine.words_call words ≡ Some call →
        length (machine.reply_words (machine.step order s count call).1) ≤ 2 * length words };

    /// A region stands for one state and one count.
    ghost one_contents: { (order : ℕ) (words : List ℕ) (s t : State) (j k : ℕ) →
        Contents order words s j → Contents order words t k → (s ≡ t) × (j ≡ k) };

    /// It has the words of its order, the count is its word 2 and within the limit, and its word 0 is
    /// the number of the kind.
    ghost contents_within: { (order : ℕ) (words : List ℕ) (s : State) (k : ℕ) →
        Contents order words s k → (length words ≡ region_len order) × (slice_index words 2 ≡ k)
        × (k ≤ LAST_COUNT) × (slice_index words 0 ≡ KIND) };
}

/// The words of a new region of that order in memory. There is no other error than want of memory.
pub fn new_region<O: Object>(alloc: Global, order: u32) -> Result<VecSpace, AllocError>
    requires order { IsOrder order }
    ensures made { IfOk result (λ space. O.Contents order (words_of_space space) O.machine.empty 0) }
{
    let mut space = VecSpace::zeroed(alloc, region_len(order))?;
    O::format(&mut space, order);
    Ok(space)
}
