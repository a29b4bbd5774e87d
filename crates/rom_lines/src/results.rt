//! Results that are kept small, in room that is reserved before they come.
ghost use Rattle.std.specs.Prelude.{◌≡◌, ◌<◌, ◌≤◌, [], ◌∷◌, ◌++◌, length, IfOk, IsSome, Some, slice_get};
ghost use Rattle.rom_model.specs.declared.line.LineResult.TheVariants.{Unread, Read, Update};
ghost use Rattle.rom_model.specs.declared.call.Updated.TheVariants.{Done};
ghost use Rattle.rom_lines.specs.Replies.{TookRoom, HasRoomFor, HasReplyWords, SaysResultAt, undone_as, updated_as};

use crate::script::Script;
use rom_model::{Back, LineResult, Object, Updated};
use std::alloc::{AllocError, Global};
use std::marker::Model;
use std::mem::size_of;

/// Why an update was not done.
#[derive(Clone, Copy, Debug, PartialEq, Eq)]
pub enum Undone {
    /// The count of updates stands at its limit.
    Spent,
    /// The device failed before the commit.
    Failed,
    /// The device failed at the commit. The update is not in the history, but a stop before the
    /// next repair may leave it done.
    Doubt,
}

/// What became of an update. The words of its reply stand elsewhere.
#[derive(Clone, Copy, Debug, PartialEq, Eq)]
pub enum Became {
    /// It was done: its place in the history.
    Done(u64),
    Undone(Undone),
}

/// What stands for a result.
#[derive(Clone, Copy, Debug)]
pub(crate) enum Cell {
    Unread,
    /// The place of the update, where the words of its reply begin, and how many they are.
    Done(u64, u64, u64),
    Undone(Undone),
    /// A front, and where the answer stands.
    Read(u64, u64),
}

// A result has no more, and the words of its reply, or its answer.
const _: () = prove!(size_of::<Cell>() == 32);

/// What became of a line.
#[derive(Clone, Copy, Debug)]
pub enum Told<'a, A> {
    Unread,
    /// The words of the reply, and the place of the update.
    Done(&'a [u64], u64),
    Undone(Undone),
    /// An answer and its front.
    Read(&'a A, u64),
}

/// The results of lines, in order. A contract sees what became of each line, and how much room is left.
/// Nothing but `with_room` and `for_script` takes memory.
#[derive(Drop)]
pub struct Results<O: Object> {
    cells: Vec<Cell>,
    words: Vec<u64>,
    answers: Vec<O::Answer>,
}

impl<O: Object> Model for Results<O> {
    ghost use Rattle.std.specs.Prelude.{◌+◌, ◌-◌, ◌≤◌, map, All, vec_len, vec_capacity};
    ghost use Rattle.rom_model.specs.declared.line.LineResult.{LineResult};
    ghost use Rattle.rom_lines.specs.Replies.{Reserved, ReplyCellFits, result_of};

    ghost Value = { Reserved (LineResult O.Reply O.Answer) };

    ghost view = { λ s. record {
      items = map (result_of O.machine.words_reply s.words.items s.answers.items) s.cells.items;
      lines = vec_capacity s.cells - vec_len s.cells;
      words = vec_capacity s.words - vec_len s.words;
    } };

    // There is room for an answer wherever there is room for a result. It costs no page before it is used.
    ghost invariant = { λ s. All (ReplyCellFits O.machine.words_reply s.words.items s.answers.items) s.cells.items
        × (vec_capacity s.cells + vec_len s.answers ≤ vec_capacity s.answers + vec_len s.cells) };
}

impl<O: Object> Results<O> {
    /// No results, and room for so many, whose replies have so many words together.
    pub fn with_room(alloc: Global, lines: usize, words: usize) -> Result<Self, AllocError>
        ensures none { IfOk result (λ made. made.items ≡ []) }
        ensures room { IfOk result (λ made. (made.lines ≡ lines) × (made.words ≡ words)) }
    {
        let cells = Vec::with_capacity(alloc, lines)?;
        let words = Vec::with_capacity(alloc, words)?;
        let answers = Vec::with_capacity(alloc, lines)?;
        Ok(Results {
            cells,
            words,
            answers,
        })
    }

    /// No results, and room for one of each line of a script.
    pub fn for_script(alloc: Global, script: &Script<O>) -> Result<Self, AllocError>
        ensures none { IfOk result (λ made. made.items ≡ []) }
        ensures room { IfOk result (HasRoomFor O.machine.call_words script.now.items) }
    {
        match script.reply_words() {
            None => Err(AllocError),
            Some(words) => Self::with_room(alloc, script.len(), words),
        }
    }

    /// How many results there are.
    pub fn len(&self) -> usize
        ensures { result ≡ length self.now.items }
    {
        self.cells.len()
    }

    /// Adds the result of a line that is no command.
    pub fn push_unread(&mut self)
        requires { 0 < self.old.lines }
        ensures added { self.new.items ≡ self.old.items ++ Unread ∷ [] }
        ensures room { TookRoom self.old self.new 0 }
    {
        self.cells.push_reserved(Cell::Unread);
    }

    /// Adds an answer and its front.
    pub fn push_read(&mut self, answer: O::Answer, front: u64)
        requires { 0 < self.old.lines }
        ensures added { self.new.items ≡ self.old.items ++ Read answer front ∷ [] }
        ensures room { TookRoom self.old self.new 0 }
    {
        let at = self.answers.len() as u64;
        self.answers.push_reserved(answer);
        self.cells.push_reserved(Cell::Read(front, at));
    }

    /// Adds what became of an update: these are the words of its reply, where it was done.
    pub fn push_update(&mut self, became: Became, words: &Back)
        requires reply { HasReplyWords O.machine.words_reply became words.now }
        requires line { 0 < self.old.lines }
        requires room { length words.now ≤ self.old.words }
        ensures added { self.new.items ≡ self.old.items
            ++ Update (updated_as O.machine.words_reply became words.now) ∷ [] }
        ensures room { TookRoom self.old self.new (length words.now) }
    {
        match became {
            Became::Done(place) => self.push_done(words, place),
            Became::Undone(why) => self.push_undone(why),
        }
    }

    /// Adds that an update was done, by the words of its reply, at a place.
    fn push_done(&mut self, words: &Back, place: u64)
        requires reply { IsSome (O.machine.words_reply words.now) }
        requires line { 0 < self.old.lines }
        requires room { length words.now ≤ self.old.words }
        // The words come behind those of the replies before, and are read as the reply that they were here.
        ensures added { (reply : O.Reply) → O.machine.words_reply words.now ≡ Some reply →
            self.new.items ≡ self.old.items ++ Update (Done reply place) ∷ [] }
        ensures room { TookRoom self.old self.new (length words.now) }
    {
        let from = self.words.len() as u64;
        self.words.extend_from_slice(words.as_slice()).unwrap();
        self.cells
            .push_reserved(Cell::Done(place, from, words.len()));
    }

    /// Adds that an update was not done.
    fn push_undone(&mut self, why: Undone)
        requires { 0 < self.old.lines }
        ensures added { self.new.items ≡ self.old.items ++ Update (undone_as why) ∷ [] }
        ensures room { TookRoom self.old self.new 0 }
    {
        self.cells.push_reserved(Cell::Undone(why));
    }

    /// The result at an index, counted from 0, with the words of its reply.
    pub fn at(&self, i: usize) -> Told<'_, O::Answer>
        requires { i < length self.now.items }
        ensures { SaysResultAt O.machine.words_reply self.now.items i result }
    {
        match self.cells[i] {
            Cell::Unread => Told::Unread,
            Cell::Done(place, from, many) => Told::Done(
                &self.words[from as usize..(from + many) as usize],
                place,
            ),
            Cell::Undone(why) => Told::Undone(why),
            Cell::Read(front, at) => Told::Read(&self.answers[at as usize], front),
        }
    }

    /// The result at an index, counted from 0, with its reply, which is read from its words here.
    pub fn whole(&self, i: usize) -> LineResult<O::Reply, O::Answer>
        requires { i < length self.now.items }
        ensures { slice_get self.now.items i ≡ Some result }
    {
        match self.at(i) {
            Told::Unread => LineResult::Unread,
            Told::Done(words, place) => {
                let reply = O::words_reply(&Back::of(words)).unwrap();
                LineResult::Update(Updated::Done(reply, place))
            }
            Told::Undone(Undone::Spent) => LineResult::Update(Updated::Spent),
            Told::Undone(Undone::Failed) => LineResult::Update(Updated::Failed),
            Told::Undone(Undone::Doubt) => LineResult::Update(Updated::Doubt),
            Told::Read(answer, front) => LineResult::Read(*answer, front),
        }
    }
}
