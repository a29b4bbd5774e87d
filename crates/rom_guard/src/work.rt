//! How a guarded group is done: all members, or none where one does not succeed.
ghost use Rattle.std.specs.Prelude.{◌≡◌, ℕ, ◌+◌, ◌-◌, ◌*◌, ◌<◌, ◌≤◌, length};
ghost use Rattle.rom_model.specs.Space.{ChangesOnly, HasRoom, Stores};
ghost use Rattle.rom_model.specs.Blocks.{IsOrder};
ghost use Rattle.rom_model.specs.History.{LAST_COUNT};
ghost use Rattle.rom_guard.specs.Guarded.{group_of, tried};
ghost use Rattle.rom_guard.specs.Working.{IsGroup, IsKept, IsTried, MayDo, MayTry, OnStopped, members_in, tried_words};

use crate::codes::put_undone;
use crate::group::member_at;
use crate::members::Members;
use rom_model::{Back, COUNT, Object, Space};
use rom_undo::{BeforeImage, UndoSpace, roll_back};

/// Does the members that have these words, of an update that is counted already, in order, up to the first that
/// does not succeed. Tells whether all succeeded. Makes `told` the words of the group's reply.
fn try_members<O: Object, P: Members<O, N>, M: Space, const N: usize>(
    space: &mut M,
    order: u32,
    words: &[u64],
    stamp: u64,
    told: &mut Back,
) -> bool
    requires order { IsOrder order }
    requires group { IsGroup P.shown words.now }
    requires region { (s : O.State) × (j : ℕ)
        × O.Contents order (M.shown.image space.old) s (j + 1) × (stamp ≡ j + 1) }
    requires room { HasRoom M.shown ((O.STORES - 1) * length (members_in P.shown words.now)) space.old }
    ensures done { (s : O.State) (j : ℕ)
        → O.Contents order (M.shown.image space.old) s (j + 1)
        → let came = tried O.machine P.shown order s j (members_in P.shown words.now) in
        (told.new ≡ tried_words P.shown came)
        × IsTried came result (λ t. O.Contents order (M.shown.image space.new) t (j + 1)) }
    ensures stores { Stores M.shown ((O.STORES - 1) * length (members_in P.shown words.now))
        space.old space.new }
{
    let many = words[1];
    told.clear();
    told.extend(&[0, many]);
    for i in 0..many {
        let member = member_at::<O, P, N>(words, i);
        let reply = P::update(space, order, &member, stamp);
        if !P::succeeds(&member, &reply) {
            put_undone::<O, P, N>(i + 1, &reply, told);
            return false;
        }
        P::push_told(&reply, told);
    }
    true
}

/// Does the members that have these words, of an update that is counted already, in order, where each succeeds,
/// and else none of them. What stands where words are stored over is kept in the cells.
fn try_or_undo<O: Object, P: Members<O, N>, M: Space, const N: usize>(
    space: &mut M,
    order: u32,
    words: &[u64],
    stamp: u64,
    cells: &mut [BeforeImage],
    told: &mut Back,
)
    requires order { IsOrder order }
    requires group { IsGroup P.shown words.now }
    requires ready { MayTry O.Contents M.shown order stamp (length (members_in P.shown words.now))
        (O.STORES - 1) (length cells.old) space.old }
    ensures done { (s : O.State) (j : ℕ) → O.Contents order (M.shown.image space.old) s (j + 1)
        → let came = tried O.machine P.shown order s j (members_in P.shown words.now) in
        (told.new ≡ tried_words P.shown came)
        × IsKept came s (λ t. O.Contents order (M.shown.image space.new) t (j + 1)) }
    // Where one did not succeed, all words are what they were, whatever the members before it wrote.
    ensures undone { (s : O.State) (j : ℕ) → O.Contents order (M.shown.image space.old) s (j + 1)
        → OnStopped (tried O.machine P.shown order s j (members_in P.shown words.now))
        (M.shown.image space.new ≡ M.shown.image space.old) }
    ensures stores { Stores M.shown (2 * length cells.old) space.old space.new }
{
    let mut trial = UndoSpace {
        space: &mut *space,
        cells: &mut *cells,
        len: 0,
    };
    let done = try_members::<O, P, UndoSpace<'_, M>, N>(&mut trial, order, words, stamp, told);
    let UndoSpace {
        space: _,
        cells: _,
        len,
    } = trial;
    if !done {
        roll_back(space, &cells[..len]);
    }
}

/// Counts one update more, and tells the raised count, which is the update's stamp.
fn raise_count<O: Object, P: Members<O, N>, M: Space, const N: usize>(
    space: &mut M,
    order: u32,
) -> u64
    requires order { IsOrder order }
    requires region { (s : O.State) × (k : ℕ)
        × O.Contents order (M.shown.image space.old) s k × (k < LAST_COUNT) }
    requires room { HasRoom M.shown 1 space.old }
    ensures raised { (s : O.State) (k : ℕ) → O.Contents order (M.shown.image space.old) s k
        → O.Contents order (M.shown.image space.new) s (k + 1) × (result ≡ k + 1) }
    ensures others { ChangesOnly COUNT 1 (M.shown.image space.old) (M.shown.image space.new) }
    ensures stores { Stores M.shown 1 space.old space.new }
{
    let stamp = space.load(COUNT) + 1;
    space.store(COUNT, stamp);
    stamp
}

/// Does the group that has these words, and counts it. What stands where words are stored over is kept in
/// the cells.
fn apply_in<O: Object, P: Members<O, N>, M: Space, const N: usize>(
    space: &mut M,
    order: u32,
    words: &[u64],
    cells: &mut [BeforeImage],
    told: &mut Back,
)
    requires order { IsOrder order }
    requires group { IsGroup P.shown words.now }
    requires region { (s : O.State) × (k : ℕ)
        × O.Contents order (M.shown.image space.old) s k × (k < LAST_COUNT) }
    requires long { (O.STORES - 1) * length (members_in P.shown words.now) ≤ length cells.old }
    requires room { HasRoom M.shown (1 + 2 * length cells.old) space.old }
    ensures done { (s : O.State) (k : ℕ) → O.Contents order (M.shown.image space.old) s k
        → let came = tried O.machine P.shown order s k (members_in P.shown words.now) in
        (told.new ≡ tried_words P.shown came)
        × O.Contents order (M.shown.image space.new) (group_of {R = O.Reply} s came).0 (k + 1) }
    // Where one did not succeed, no word but the count has changed.
    ensures undone { (s : O.State) (k : ℕ) → O.Contents order (M.shown.image space.old) s k
        → OnStopped (tried O.machine P.shown order s k (members_in P.shown words.now))
        (ChangesOnly COUNT 1 (M.shown.image space.old) (M.shown.image space.new)) }
    ensures stores { Stores M.shown (1 + 2 * length cells.old) space.old space.new }
{
    let stamp = raise_count::<O, P, M, N>(space, order);
    try_or_undo::<O, P, M, N>(space, order, words, stamp, cells, told);
}

/// Does the group that has these words, and counts it. Makes `told` the words of its reply. `N` before-images are kept
/// down at most.
#[cold]
#[inline(never)]
pub(crate) fn apply_group<O: Object, P: Members<O, N>, M: Space, const N: usize>(
    space: &mut M,
    order: u32,
    words: &[u64],
    told: &mut Back,
)
    requires order { IsOrder order }
    requires group { IsGroup P.shown words.now }
    requires ready { MayDo O.Contents M.shown order (length (members_in P.shown words.now))
        (O.STORES - 1) space.old }
    ensures done { (s : O.State) (k : ℕ) → O.Contents order (M.shown.image space.old) s k
        → let came = tried O.machine P.shown order s k (members_in P.shown words.now) in
        (told.new ≡ tried_words P.shown came)
        × O.Contents order (M.shown.image space.new) (group_of {R = O.Reply} s came).0 (k + 1) }
    // Where one did not succeed, no word but the count has changed.
    ensures undone { (s : O.State) (k : ℕ) → O.Contents order (M.shown.image space.old) s k
        → OnStopped (tried O.machine P.shown order s k (members_in P.shown words.now))
        (ChangesOnly COUNT 1 (M.shown.image space.old) (M.shown.image space.new)) }
    ensures stores { Stores M.shown (1 + 2 * ((O.STORES - 1) * length (members_in P.shown words.now)))
        space.old space.new }
{
    let mut cells = [BeforeImage { at: 0, word: 0 }; N];
    let most = (O::STORES as usize - 1) * words[1] as usize;
    apply_in::<O, P, M, N>(space, order, words, &mut cells[..most], told);
}
