//! A ledger in the plainest form, which reads lines and prints what they are told.

use crate::shelf::Shelf;
use rom_test::{Asked, Replayed};
use std::alloc::{AllocError, Global};

/// What an update of one structure is told, and whether it did what it is for.
#[derive(Clone, Copy)]
pub struct Told {
    word: &'static str,
    number: Option<u64>,
    well: bool,
}

impl Told {
    pub fn well(word: &'static str) -> Told {
        Told {
            word,
            number: None,
            well: true,
        }
    }

    pub fn ill(word: &'static str) -> Told {
        Told {
            word,
            number: None,
            well: false,
        }
    }

    /// The same, with a number behind the word.
    pub fn with(self, number: u64) -> Told {
        Told {
            number: Some(number),
            ..self
        }
    }

    pub fn is_well(self) -> bool {
        self.well
    }

    fn text(self, alloc: Global) -> Result<String, AllocError> {
        let word = self.word;
        match self.number {
            Some(number) => format!(in alloc; "{word} {number}"),
            None => word.to_string(alloc),
        }
    }
}

/// How a group's line begins, and what its reply begins with where it is done.
#[derive(Clone, Copy, PartialEq, Eq)]
enum Group {
    /// Done where each member finds room.
    Tx,
    /// Done where each member succeeds.
    All,
}

/// What a ledger holds. It is told well-formed lines, or lines that name no command.
#[derive(Drop)]
pub struct Book {
    shelf: Shelf,
}

/// The first three numbers of these words. One that is not there is 0.
fn numbers_of(words: &str) -> [u64; 3] {
    let mut numbers = [0; 3];
    for (place, digits) in numbers.iter_mut().zip(words.split(' ')) {
        *place = digits.parse::<u64>().unwrap_or(0);
    }
    numbers
}

/// Does an update of one structure.
fn one(shelf: &mut Shelf, line: &str) -> Result<Told, AllocError> {
    let (name, words) = line.split_once(" ").unwrap_or((line, ""));
    let [first, second, third] = numbers_of(words);
    match name {
        "enq" => shelf.enq(first),
        "deq" => Ok(shelf.deq()),
        "deq-if" => Ok(shelf.deq_if(first)),
        "add" => shelf.add(first),
        "rem" => Ok(shelf.rem(first)),
        "put" => shelf.put(first, second),
        "new" => shelf.make(first, second),
        "cas" => shelf.cas(first, second, third),
        "inc" => shelf.inc(first, second),
        "del" => Ok(shelf.del(first)),
        _ => shelf.shift(first, second, third),
    }
}

/// Whether a group is not done, of which a member was told this.
fn stops(group: Group, told: Told) -> bool {
    match group {
        Group::Tx => told.word == "full",
        Group::All => !told.well,
    }
}

/// What is printed of a group that is not done.
fn undone_text(
    alloc: Global,
    group: Group,
    member: usize,
    told: Told,
) -> Result<String, AllocError> {
    let own = told.text(alloc)?;
    match group {
        Group::Tx => Ok(own),
        Group::All => {
            let number = member.saturating_add(1);
            format!(in alloc; "undone {number} {own}")
        }
    }
}

impl Book {
    /// It has room for so many elements.
    pub fn new(alloc: Global, room: usize) -> Result<Book, AllocError> {
        Ok(Book {
            shelf: Shelf::new(alloc, room)?,
        })
    }

    /// Does the members of a group, or none of them.
    fn several(
        &mut self,
        alloc: Global,
        group: Group,
        members: &str,
    ) -> Result<String, AllocError> {
        let mut after = self.shelf.copied(alloc)?;
        let mut text = match group {
            Group::Tx => "all".to_string(alloc)?,
            Group::All => "done".to_string(alloc)?,
        };
        for (member, line) in members.split(" ; ").enumerate() {
            let told = one(&mut after, line)?;
            if stops(group, told) {
                return undone_text(alloc, group, member, told);
            }
            text.push_str(if member == 0 { " " } else { " ; " })?;
            text.push_str(told.text(alloc)?.as_str())?;
        }
        self.shelf = after;
        Ok(text)
    }

    /// What is printed of a line's update, without its place.
    fn done(&mut self, alloc: Global, line: &str) -> Result<String, AllocError> {
        if let Some(members) = line.strip_prefix("all ") {
            return self.several(alloc, Group::All, members);
        }
        if let Some(members) = line.strip_prefix("tx ") {
            return self.several(alloc, Group::Tx, members);
        }
        one(&mut self.shelf, line)?.text(alloc)
    }

    /// What is printed of a query, without its front.
    fn told(&self, alloc: Global, line: &str) -> Result<String, AllocError> {
        let (name, words) = line.split_once(" ").unwrap_or((line, ""));
        let [first, _, _] = numbers_of(words);
        match name {
            "has" if self.shelf.has(first) => "yes".to_string(alloc),
            "has" => "no".to_string(alloc),
            "get" => match self.shelf.value(first) {
                Some(value) => format!(in alloc; "value {value}"),
                None => "none".to_string(alloc),
            },
            "peek" => match self.shelf.first() {
                Some(number) => format!(in alloc; "head {number}"),
                None => "empty".to_string(alloc),
            },
            "len" => {
                let [queue, set, map] = self.shelf.sizes();
                format!(in alloc; "queue {queue} set {set} map {map}")
            }
            "total" => {
                let sum = self.shelf.total();
                format!(in alloc; "total {sum}")
            }
            _ => {
                let keys = self.shelf.fresh(first);
                format!(in alloc; "fresh {keys}")
            }
        }
    }
}

impl Replayed for Book {
    fn asked(&self, line: &str) -> Asked {
        let (name, _) = line.split_once(" ").unwrap_or((line, ""));
        match name {
            "enq"
            | "deq"
            | "deq-if"
            | "add"
            | "rem"
            | "put"
            | "new"
            | "cas"
            | "inc"
            | "del"
            | "move"
            | "tx"
            | "all" => Asked::Update,
            "has" | "get" | "peek" | "len" | "total" | "fresh" => Asked::Query,
            _ => Asked::Unread,
        }
    }

    fn update(&mut self, alloc: Global, line: &str, place: u64) -> Result<String, AllocError> {
        self.shelf.stamp = place.saturating_add(1);
        let told = self.done(alloc, line)?;
        format!(in alloc; "{told} @{place}")
    }

    fn answer(&self, alloc: Global, line: &str, front: u64) -> Result<String, AllocError> {
        let told = self.told(alloc, line)?;
        format!(in alloc; "{told} #{front}")
    }
}
