//! How heaps of an object are carried over.
ghost use Rattle.std.specs.Prelude.{◌≡◌, ℕ, ◌<◌, List, IfOk};
ghost use Rattle.rom_model.specs.Blocks.{IsOrder};
ghost use Rattle.rom_model.specs.VecSpace.{words_of_space};
ghost use Rattle.rom_text.specs.Streams.{Prints};
ghost use Rattle.rom_carry.specs.Carried.{AreWritten};

use crate::written::Written;
use rom_model::{Object, VecSpace};
use rom_text::{IoFailed, Sink};
use std::alloc::{AllocError, Global};

/// How what heaps of an object hold is carried over into others. The relations speak of the words of a region, and
/// each `impl` says them of the state that the words stand for.
pub trait Carry<O: Object> {
    /// These lines carry over what a region of that order with these words holds: done in a new heap of the same or
    /// of a greater order they give its elements again.
    ghost Carrying: { ℕ → List ℕ → List (List ℕ) → Type 0 };

    /// This text tells the sizes of the heap in such a region.
    ghost Sized: { ℕ → List ℕ → List ℕ → Type 0 };

    /// This text tells what a monitor watches of it.
    ghost Measured: { ℕ → List ℕ → List ℕ → Type 0 };

    /// Words of a region of another order stand for what such a region stands for, and for its count.
    ghost Grown: { ℕ → List ℕ → ℕ → List ℕ → Type 0 };

    /// The elements of a region, as they are written in lines.
    type Elements: Written + Drop;

    /// The elements of a region.
    fn elements(
        alloc: Global,
        space: &mut VecSpace,
        order: u32,
    ) -> Result<Self::Elements, AllocError>
        requires order { IsOrder order }
        requires region { (s : O.State) × (k : ℕ) × O.Contents order (words_of_space space.old) s k }
        // Their lines carry over what the region holds.
        ensures carrying { IfOk result (λ elements.
            Carrying order (words_of_space space.old) (Self.Elements.lines elements)) }
        // They are lines of scripts, and within the bounds.
        ensures written { IfOk result (λ elements. AreWritten Self.Elements.bounds (Self.Elements.lines elements)) }
        ensures words { words_of_space space.new ≡ words_of_space space.old };

    /// Prints the sizes of the heap in a region, in lines.
    fn print_sizes<K: Sink>(space: &mut VecSpace, order: u32, out: &mut K) -> Result<(), IoFailed>
        requires order { IsOrder order }
        requires region { (s : O.State) × (k : ℕ) × O.Contents order (words_of_space space.old) s k }
        // Each text that tells the sizes is the one that is printed, so there is one alone.
        ensures prints { (text : List ℕ) → Sized order (words_of_space space.old) text →
            Prints K.shown out.old out.new result text };

    /// Prints what a monitor watches of it, in the text format of Prometheus.
    fn print_measures<K: Sink>(
        space: &mut VecSpace,
        order: u32,
        out: &mut K,
    ) -> Result<(), IoFailed>
        requires order { IsOrder order }
        requires region { (s : O.State) × (k : ℕ) × O.Contents order (words_of_space space.old) s k }
        // Each text that tells what a monitor watches is the one that is printed.
        ensures prints { (text : List ℕ) → Measured order (words_of_space space.old) text →
            Prints K.shown out.old out.new result text };

    /// A region of a greater order with the same elements and the same count.
    fn grow(
        alloc: Global,
        space: &mut VecSpace,
        order: u32,
        greater: u32,
    ) -> Result<VecSpace, AllocError>
        requires order { IsOrder order }
        requires greater { (order < greater) × IsOrder greater }
        requires region { (s : O.State) × (k : ℕ) × O.Contents order (words_of_space space.old) s k }
        // It stands for what the region stood for, and for its count.
        ensures grown { IfOk result (λ region.
            Grown order (words_of_space space.old) greater (words_of_space region)) }
        // It is well-formed.
        ensures fit { IfOk result (λ region. (s : O.State) × (k : ℕ)
            × O.Contents greater (words_of_space region) s k) };

    /// Of a region that stands for something there is a text that tells its sizes.
    ghost some_sizes: { (order : ℕ) (words : List ℕ) (s : O.State) (k : ℕ) → O.Contents order words s k →
        (text : List ℕ) × Sized order words text };

    /// And one that tells what a monitor watches.
    ghost some_measures: { (order : ℕ) (words : List ℕ) (s : O.State) (k : ℕ) → O.Contents order words s k →
        (text : List ℕ) × Measured order words text };
}
