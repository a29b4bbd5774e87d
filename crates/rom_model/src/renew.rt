//! Objects whose regions had another version before.
ghost use Rattle.std.specs.Prelude.{◌≡◌, ◌≢◌, ℕ, ◌≤◌, ◌==◌, ◌&&◌, List, length, Err, OnOk, IfErr, slice_index};
ghost use Rattle.rom_model.specs.Blocks.{IsOrder, region_len};
ghost use Rattle.rom_model.specs.History.{LAST_COUNT};
ghost use Rattle.rom_model.specs.Inspected.{IsReason};
ghost use Rattle.rom_model.specs.VecSpace.{words_of_space};
ghost use Rattle.rom_model.specs.declared.unfit.Unfit.{Unfit};
ghost use Rattle.rom_model.specs.declared.unfit.Unfit.TheVariants.{Old};

use crate::object::Object;
use crate::unfit::Unfit;
use crate::vec_space::VecSpace;
use std::alloc::{AllocError, Global};

/// An object whose regions are of version 2 and were of version 1 before, and how one of these becomes
/// one of this version.
pub trait Renew: Object {
    /// Whether the words are a well-formed region of version 1. Else it tells the first test that does
    /// not hold, as `inspect` does, and never `Old`.
    fn inspect_old(alloc: Global, region: &[u64], order: u32) -> Result<(), Unfit>
        requires order { IsOrder order }
        requires sized { length region.now ≡ region_len order }
        // `Ok` tells that the words are a well-formed region of version 1.
        ensures fit { OnOk result ((s : Self.State) × (k : ℕ)
            × Self.earlier.Contents order region.now s k) }
        // Any error but `OutOfMemory` is true of the words.
        ensures reason { IfErr result (IsReason (Self.earlier.Rejects order region.now)) }
        ensures never_old { result ≢ Err Old }
        // Words that are rejected as version 1 stand for no state in that version.
        ensures refused { (e : Unfit) → Self.earlier.Rejects order region.now e → (s : Self.State)
            (k : ℕ) → Self.earlier.Contents order region.now s k → ⊥ }
        // Words are rejected as version 1 for at most one reason.
        ensures one { (e d : Unfit) → Self.earlier.Rejects order region.now e →
            Self.earlier.Rejects order region.now d → e ≡ d };

    /// Makes a region of version 1 one of version 2, with the same state and the same count. After
    /// `AllocError` its words may be any.
    fn renew(alloc: Global, space: &mut VecSpace, order: u32) -> Result<(), AllocError>
        requires order { IsOrder order }
        requires region { (s : Self.State) × (k : ℕ)
            × Self.earlier.Contents order (words_of_space space.old) s k }
        // After `Ok` the words stand for the state and the count that those of version 1 stood for.
        ensures renewed { OnOk result ((s : Self.State) (k : ℕ) →
            Self.earlier.Contents order (words_of_space space.old) s k →
            Self.Contents order (words_of_space space.new) s k) };

    /// A region of version 1 stands for one state and one count.
    ghost one_earlier: { (order : ℕ) (words : List ℕ) (s t : Self.Object.State) (j k : ℕ) →
        Self.Object.earlier.Contents order words s j → Self.Object.earlier.Contents order words t k →
        (s ≡ t) × (j ≡ k) };

    /// It has the words of its order, the count is its word 2 and within the limit, its word 0 is the
    /// number of the kind, and its word 1 that of the version.
    ghost earlier_within: { (order : ℕ) (words : List ℕ) (s : Self.Object.State) (k : ℕ) →
        Self.Object.earlier.Contents order words s k → (length words ≡ region_len order)
        × (slice_index words 2 ≡ k) × (k ≤ LAST_COUNT)
        × (slice_index words 0 ≡ Self.Object.KIND) × (slice_index words 1 ≡ 1) };

    /// By these two words a region is known to be of version 2.
    ghost next_is: { (words : List ℕ) → Self.Object.earlier.is_next words
        ≡ ((slice_index words 0 == Self.Object.KIND) && (slice_index words 1 == 2)) };
}
