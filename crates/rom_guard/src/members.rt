//! Which updates of an object may stand in a guarded group.
ghost use Rattle.std.specs.Prelude.{◌≡◌, ℕ, ◌+◌, ◌-◌, ◌*◌, ◌<◌, ◌≤◌, List, ◌∷◌, ◌++◌, length, Some, None, slice_set};
ghost use Rattle.rom_model.specs.Space.{HasRoom, Stores};
ghost use Rattle.rom_model.specs.Blocks.{IsOrder};
ghost use Rattle.rom_model.specs.History.{LAST_COUNT};
ghost use Rattle.rom_model.specs.declared.words.TheConstants.{CALL_WORDS, REPLY_WORDS};
ghost use Rattle.rom_guard.specs.Guarded.{ShownMembers};

use rom_model::{Args, Back, Object, Space};

/// The updates of an object that may be members of a guarded group. `N` before-images may be kept, in order to
/// roll back what eight of them store.
pub trait Members<O: Object, const N: usize> {
    /// An update that may be a member.
    type Member: Copy;

    /// What a member is told.
    type Told: Copy;

    /// The call that a member is, whether what it was told is a success, and the words of both.
    ghost shown: { ShownMembers O.Call O.Reply Self.Member Self.Told };

    /// Does a member of an update that is counted already. What it writes has this stamp.
    fn update<M: Space>(space: &mut M, order: u32, member: &Self::Member, stamp: u64) -> Self::Told
        requires order { IsOrder order }
        requires region { (s : O.State) × (j : ℕ)
            × O.Contents order (M.shown.image space.old) s (j + 1) × (stamp ≡ j + 1) }
        requires room { HasRoom M.shown (O.STORES - 1) space.old }
        // It is told what the call is told that the member is. The region then stands for the state after that
        // call, and its count stays.
        ensures done { (s : O.State) (j : ℕ)
            → O.Contents order (M.shown.image space.old) s (j + 1)
            → let after = O.machine.step order s j (shown.as_call member.now) in
            (result ≡ shown.told_of after.1)
            × O.Contents order (M.shown.image space.new) after.0 (j + 1) }
        ensures stores { Stores M.shown (O.STORES - 1) space.old space.new };

    /// Whether a member that was told this did what it is for.
    fn succeeds(member: &Self::Member, told: &Self::Told) -> bool
        ensures { result ≡ shown.succeeds member.now told.now };

    /// Adds the words of a member at the end.
    fn push_member(member: &Self::Member, words: &mut Args)
        requires { length words.old + 4 ≤ CALL_WORDS }
        ensures { words.new ≡ words.old ++ shown.member_words member.now };

    /// The member that the words are those of.
    fn read_member(words: &[u64]) -> Option<Self::Member>
        ensures { result ≡ shown.words_member words.now };

    /// Adds the words of what a member is told at the end.
    fn push_told(told: &Self::Told, words: &mut Back)
        requires { length words.old + 2 ≤ REPLY_WORDS }
        ensures { words.new ≡ words.old ++ shown.told_words told.now };

    /// What a member was told by these words.
    fn read_told(words: &[u64]) -> Option<Self::Told>
        ensures { result ≡ shown.words_told words.now };

    /// `N` before-images are enough for what eight members store, and they are at most 65,536.
    ghost enough: { (1 ≤ O.STORES) × (8 * (O.STORES - 1) ≤ N) × (N ≤ 65536) };

    /// A region whose count is raised stands for the same state.
    ghost raised: { (order : ℕ) (words : List ℕ) (s : O.State) (k : ℕ) →
        O.Contents order words s k → k < LAST_COUNT →
        O.Contents order (slice_set words 2 (k + 1)) s (k + 1) };

    /// A member has four words, and they are read as that member alone.
    ghost member_four: { (member : Self.Member) → length (shown.member_words member) ≡ 4 };

    ghost member_back: { (member : Self.Member) →
        shown.words_member (shown.member_words member) ≡ Some member };

    ghost member_only: { (words : List ℕ) (member : Self.Member) →
        shown.words_member words ≡ Some member → shown.member_words member ≡ words };

    /// What a member is told has two words, and they are read as that alone.
    ghost told_two: { (told : Self.Told) → length (shown.told_words told) ≡ 2 };

    ghost told_back: { (told : Self.Told) →
        shown.words_told (shown.told_words told) ≡ Some told };

    ghost told_only: { (words : List ℕ) (told : Self.Told) →
        shown.words_told words ≡ Some told → shown.told_words told ≡ words };

    /// No words of the object begin with 0.
    ghost no_zero_call: { (words : List ℕ) → O.machine.words_call (0 ∷ words) ≡ None };

    ghost no_zero_reply: { (words : List ℕ) → O.machine.words_reply (0 ∷ words) ≡ None };
}
