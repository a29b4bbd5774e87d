//! All elements of a region.
ghost use Rattle.std.specs.Prelude.{◌≡◌, length};

use crate::elements::chain::collect_chain;
use crate::elements::element::Element;
use crate::elements::keys::collect_keys;
use crate::elements::values::values_of;
use rom_model::{MAP_LEN, QUEUE_HEAD, QUEUE_LEN, SET_HEAD, SET_LEN, VecSpace};
use rom_queue::QUEUE_LINK;
use rom_set::SET_LINK;
use std::alloc::{AllocError, Global};

/// The elements of a region: those of the queue, first to last, then the numbers of the set, which
/// fall, and then the map's keys, which rise, with their values.
///
/// The numbers of the set fall, so that each `add` of the script meets no number below its own, and passes none.
#[derive(Drop)]
pub struct Elements {
    queue: Vec<u64>,
    // They rise, as they stand in their chain.
    members: Vec<u64>,
    keys: Vec<u64>,
    // Of each key, in the same order.
    values: Vec<u64>,
    ghost paired: { length values.items ≡ length keys.items },
}

impl Elements {
    ghost use Rattle.std.specs.Prelude.{◌<◌, ◌^◌, ℕ, IfOk, slice_index_or};
    ghost use Rattle.std.specs.List.{AllByRecursion};
    ghost use Rattle.rom_model.specs.Blocks.{IsOrder};
    ghost use Rattle.rom_model.specs.Region.{Contents, IsWellFormed};
    ghost use Rattle.rom_model.specs.State.{State};
    ghost use Rattle.rom_model.specs.VecSpace.{words_of_space};
    ghost use Rattle.rom_rebuild.specs.Elements.{AreElements, ElementFits, ElementSeen, elements_in};
    ghost use Rattle.rom_rebuild.specs.Filling.{AreLists};

    /// Those of a region. Each list gets the room that the region's counts name, and no more; the words
    /// stay.
    ///
    /// They are taken before the first line is printed, since the keys must be sorted, and the script's
    /// length must be known. At order 16 this takes at most 983,040 bytes. An inspection takes 1,179,648
    /// bytes, and gives them back before it answers.
    pub(crate) fn of(
        alloc: Global,
        space: &mut VecSpace,
        order: u32,
    ) -> Result<Elements, AllocError>
        requires order { IsOrder order }
        requires region { IsWellFormed order (words_of_space space.old) }
        // The elements are those of the state that the region stands for, in the order of a script.
        ensures are { IfOk result (λ elements. (s : State) (k : ℕ) →
            Contents order (words_of_space space.old) s k → AreElements s (elements_in elements)) }
        // Each list has the elements of one structure.
        ensures lists { IfOk result (λ elements. (s : State) (k : ℕ) →
            Contents order (words_of_space space.old) s k →
            AreLists s elements.queue.items elements.members.items elements.keys.items) }
        // The numbers of the elements have at most 64 bits.
        ensures fit { IfOk result (λ elements. AllByRecursion ElementFits (elements_in elements)) }
        ensures words { words_of_space space.new ≡ words_of_space space.old }
    {
        let words = space.words();
        let mut queue = Vec::with_capacity(alloc, words[QUEUE_LEN as usize] as usize)?;
        collect_chain(words, order, QUEUE_HEAD, QUEUE_LINK, &mut queue)?;
        let mut members = Vec::with_capacity(alloc, words[SET_LEN as usize] as usize)?;
        collect_chain(words, order, SET_HEAD, SET_LINK, &mut members)?;
        let mut keys = Vec::with_capacity(alloc, words[MAP_LEN as usize] as usize)?;
        collect_keys(words, order, &mut keys)?;
        let values = values_of(alloc, space, order, &keys)?;
        Ok(Elements {
            queue,
            members,
            keys,
            values,
        })
    }

    /// The values of the queue, first to last.
    pub(crate) fn queue(&self) -> &[u64]
        ensures { result.now ≡ self.now.queue.items }
    {
        &self.queue
    }

    /// The numbers of the set, which rise.
    pub(crate) fn members(&self) -> &[u64]
        ensures { result.now ≡ self.now.members.items }
    {
        &self.members
    }

    /// The keys of the map, which rise.
    pub(crate) fn keys(&self) -> &[u64]
        ensures { result.now ≡ self.now.keys.items }
    {
        &self.keys
    }

    /// How many there are.
    pub(crate) fn count(&self) -> u64
        requires { length (elements_in self.now) < 2 ^ 64 }
        ensures { result ≡ length (elements_in self.now) }
    {
        self.queue.len() as u64 + self.members.len() as u64 + self.keys.len() as u64
    }

    /// The element at an index, counted from 0.
    pub(crate) fn at(&self, i: u64) -> Element
        requires { i < length (elements_in self.now) }
        ensures { (d : ElementSeen) → slice_index_or (elements_in self.now) i d ≡ result }
    {
        let i = i as usize;
        if i < self.queue.len() {
            return Element::Value(self.queue[i]);
        }
        let i = i - self.queue.len();
        if i < self.members.len() {
            return Element::Member(self.members[self.members.len() - 1 - i]);
        }
        let i = i - self.members.len();
        Element::Pair(self.keys[i], self.values[i])
    }
}
