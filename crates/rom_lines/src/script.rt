//! A script that owns its lines.
ghost use Rattle.std.specs.Prelude.{◌≡◌, ◌<◌, ◌≤◌, [], ◌∷◌, ◌++◌, length, IfOk, OnOk, OnErr, Some, IsSome, IfSome, slice_get};
ghost use Rattle.rom_model.specs.declared.line.Step.TheVariants.{Update, Ask, Unread};
ghost use Rattle.rom_lines.specs.Steps.{IsLineAt, needs};

use rom_model::{Args, Object, Query, Step};
use std::alloc::{AllocError, Global};
use std::marker::Model;
use std::mem::size_of;

/// What stands for a line: where the words of its call begin and how many they are, or its query.
#[derive(Clone, Copy, Debug)]
pub(crate) enum Cell<Q> {
    Update(u64, u64),
    Ask(Q),
    Unread,
}

// A line of the three structures has no more, and the words of its call.
const _: () = prove!(size_of::<Cell<Query>>() == 24);

/// A line of a script.
#[derive(Clone, Copy, Debug)]
pub enum Line<'a, Q> {
    /// The words of its call.
    Update(&'a [u64]),
    Ask(Q),
    /// The line is no command; it makes no call.
    Unread,
}

/// The lines of a script, in order. A contract sees what each asks for.
#[derive(Drop)]
pub struct Script<O: Object> {
    cells: Vec<Cell<O::Query>>,
    words: Vec<u64>,
}

impl<O: Object> Model for Script<O> {
    ghost use Rattle.std.specs.Prelude.{◌≤◌, length, map, All};
    ghost use Rattle.rom_model.specs.declared.line.Step.{Step};
    ghost use Rattle.rom_lines.specs.Steps.{Items, StepCellFits, step_of_cell, total_words};

    ghost Value = { Items (Step O.Call O.Query) };

    ghost view = { λ s. record { items = map (step_of_cell O.machine.words_call s.words.items) s.cells.items } };

    ghost invariant = { λ s. All (StepCellFits O.machine.words_call s.words.items) s.cells.items
        × (total_words s.cells.items ≤ length s.words.items) };
}

impl<O: Object> Script<O> {
    /// No lines.
    pub fn new(alloc: Global) -> Self
        ensures { result.items ≡ [] }
    {
        Script {
            cells: Vec::new(alloc),
            words: Vec::new(alloc),
        }
    }

    /// No lines, and memory for so many, whose calls have so many words together. They may become more. No clause
    /// tells how much memory there is.
    pub fn with_capacity(alloc: Global, lines: usize, words: usize) -> Result<Self, AllocError>
        ensures { IfOk result (λ made. made.items ≡ []) }
    {
        let cells = Vec::with_capacity(alloc, lines)?;
        let words = Vec::with_capacity(alloc, words)?;
        Ok(Script { cells, words })
    }

    /// How many lines there are.
    pub fn len(&self) -> usize
        ensures { result ≡ length self.now.items }
    {
        self.cells.len()
    }

    /// Room for the words of the replies to all lines, in words: twice those of the calls. `None` says that
    /// no `usize` tells so many.
    pub(crate) fn reply_words(&self) -> Option<usize>
        ensures { IfSome result (λ many. needs O.machine.call_words self.now.items ≤ many) }
    {
        self.words.len().checked_mul(2)
    }

    /// Adds a line that asks for the call with these words.
    pub fn push_words(&mut self, words: &Args) -> Result<(), AllocError>
        requires call { IsSome (O.machine.words_call words.now) }
        // The words come behind those of the calls before, and are read as the call that they were here.
        ensures added { OnOk result ((call : O.Call) → O.machine.words_call words.now ≡ Some call →
            self.new.items ≡ self.old.items ++ Update call ∷ []) }
        ensures err { OnErr result (self.new.items ≡ self.old.items) }
    {
        let from = self.words.len() as u64;
        self.words.extend_from_slice(words.as_slice())?;
        self.cells.push(Cell::Update(from, words.len()))?;
        Ok(())
    }

    /// Adds a line that asks a query.
    pub fn push_query(&mut self, query: O::Query) -> Result<(), AllocError>
        ensures added { OnOk result (self.new.items ≡ self.old.items ++ Ask query ∷ []) }
        ensures err { OnErr result (self.new.items ≡ self.old.items) }
    {
        self.cells.push(Cell::Ask(query))?;
        Ok(())
    }

    /// Adds a line that is no command.
    pub fn push_unread(&mut self) -> Result<(), AllocError>
        ensures added { OnOk result (self.new.items ≡ self.old.items ++ Unread ∷ []) }
        ensures err { OnErr result (self.new.items ≡ self.old.items) }
    {
        self.cells.push(Cell::Unread)?;
        Ok(())
    }

    /// Adds a line that asks for what a step does, for who has it as one. Who has the words of a call
    /// adds them by `push_words`.
    pub fn push_step(&mut self, step: &Step<O::Call, O::Query>) -> Result<(), AllocError>
        ensures added { OnOk result (self.new.items ≡ self.old.items ++ step.now ∷ []) }
        ensures err { OnErr result (self.new.items ≡ self.old.items) }
    {
        match step {
            Step::Update(call) => self.push_words(&O::call_words(call)),
            Step::Ask(query) => self.push_query(*query),
            Step::Unread => self.push_unread(),
        }
    }

    /// The line at an index, counted from 0.
    pub fn line(&self, i: usize) -> Line<'_, O::Query>
        requires { i < length self.now.items }
        ensures { IsLineAt O.machine.words_call self.now.items i result }
    {
        match self.cells[i] {
            Cell::Update(from, many) => {
                Line::Update(&self.words[from as usize..(from + many) as usize])
            }
            Cell::Ask(query) => Line::Ask(query),
            Cell::Unread => Line::Unread,
        }
    }

    /// What the line at an index asks for, with its call, which is read from its words here.
    pub fn whole(&self, i: usize) -> Step<O::Call, O::Query>
        requires { i < length self.now.items }
        ensures { slice_get self.now.items i ≡ Some result }
    {
        match self.line(i) {
            Line::Update(words) => { Step::Update(O::words_call(&Args::of(words)).unwrap()) }
            Line::Ask(query) => Step::Ask(query),
            Line::Unread => Step::Unread,
        }
    }
}
