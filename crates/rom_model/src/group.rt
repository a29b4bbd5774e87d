//! Groups of updates that are done at one place, and what their members are told. They take no
//! memory.
ghost use Rattle.std.specs.Prelude.{◌≡◌, ◌<◌, ◌≤◌, [], ◌∷◌, ◌++◌, length, slice_get};
ghost use Rattle.rom_model.specs.Groups.{sized};

use crate::call::{Single, SingleReply};
use std::marker::Model;

/// The least number of members of a group.
pub const MIN_MEMBERS: usize = 2;

/// The greatest number of members of a group.
pub const MAX_MEMBERS: usize = 8;

/// Two to eight updates. A contract sees a list, which may have any length: `HasSize` says which lists a
/// program can have. Eight nested options would bound the length, but then no clause could say "list".
#[derive(Clone, Copy, Debug)]
pub struct Group {
    cells: [Single; MAX_MEMBERS],
    len: usize,
}

impl Model for Group {
    ghost use Rattle.std.specs.Prelude.{◌≡◌, ℕ, ◌-◌, ◌≤◌, List, ◌++◌, length, take, replicate};
    ghost use Rattle.rom_model.specs.Padded.{IsPadded, padded_again, padded_len};
    ghost use Rattle.rom_model.specs.declared.call.Single.{Single};
    ghost use Rattle.rom_model.specs.declared.call.Single.TheVariants.{Deq};

    ghost Value = { List Single };

    ghost view = { λ g. take g.len g.cells };

    // The cells past the members hold one and the same, so that equal lists are equal values.
    ghost invariant = { λ g. (2 ≤ g.len) × IsPadded Deq 8 g.len g.cells };

    ghost inverse = { λ calls. record {
      cells = calls ++ replicate (8 - length calls) Deq;
      len = length calls;
    } };

    ghost inverse_ok = { λ g p i. record {
      cells = padded_again Deq 8 g.len g.cells p.1 i;
      len = padded_len Deq 8 g.len g.cells p.1 i;
    } };
}

impl Group {
    /// A group of these updates. It is `None` exactly where they are fewer than two or more than
    /// eight.
    pub fn of(calls: &[Single]) -> Option<Group>
        ensures { result ≡ sized calls.now }
    {
        if calls.len() < MIN_MEMBERS || calls.len() > MAX_MEMBERS {
            return None;
        }
        let mut cells = [Single::Deq; MAX_MEMBERS];
        cells[..calls.len()].copy_from_slice(calls);
        Some(Group {
            cells,
            len: calls.len(),
        })
    }

    /// How many members it has.
    pub fn len(&self) -> u64
        ensures many { result ≡ length self.now }
        ensures least { 2 ≤ result }
        ensures most { result ≤ 8 }
    {
        self.len as u64
    }

    /// Its members.
    pub fn as_slice(&self) -> &[Single]
        ensures is { result.now ≡ self.now }
        ensures least { 2 ≤ length self.now }
        ensures most { length self.now ≤ 8 }
    {
        &self.cells[..self.len]
    }

    /// The member at an index, counted from 0.
    pub fn at(&self, i: u64) -> Option<Single>
        ensures { result ≡ slice_get self.now i }
    {
        if i < self.len as u64 {
            Some(self.cells[i as usize])
        } else {
            None
        }
    }
}

impl PartialEq for Group {
    ghost use Rattle.std.specs.Cmp.Lexicographic.{pointwise, lists_per};
    ghost use Rattle.rom_model.specs.contracts.call.SinglePartialEq.TheImpl as single;
    ghost use Rattle.rom_model.specs.contracts.call.SinglePartialEq.TheImpl.Laws as single_laws;

    ghost eq = { pointwise single.eq-value.it };

    ghost laws = { lists_per single_laws.laws-law };

    fn eq(&self, other: &Group) -> bool {
        self.as_slice() == other.as_slice()
    }
}

impl Eq for Group {
    ghost use Rattle.std.specs.Cmp.Lexicographic.{lists_equiv};
    ghost use Rattle.rom_model.specs.contracts.call.SingleEq.TheImpl.Laws as single_laws;

    ghost laws = { lists_equiv single_laws.laws-law };
}

/// What the members of a group are told: at most eight replies. A contract sees their list.
#[derive(Clone, Copy, Debug)]
pub struct Replies {
    cells: [SingleReply; MAX_MEMBERS],
    len: usize,
}

impl Model for Replies {
    ghost use Rattle.std.specs.Prelude.{◌≡◌, ℕ, ◌-◌, List, ◌++◌, length, take, replicate};
    ghost use Rattle.rom_model.specs.Padded.{IsPadded, padded_again, padded_len};
    ghost use Rattle.rom_model.specs.declared.call.SingleReply.{SingleReply};
    ghost use Rattle.rom_model.specs.declared.call.SingleReply.TheVariants.{Full};

    ghost Value = { List SingleReply };

    ghost view = { λ r. take r.len r.cells };

    ghost invariant = { λ r. IsPadded Full 8 r.len r.cells };

    ghost inverse = { λ replies. record {
      cells = replies ++ replicate (8 - length replies) Full;
      len = length replies;
    } };

    ghost inverse_ok = { λ r p i. record {
      cells = padded_again Full 8 r.len r.cells p i;
      len = padded_len Full 8 r.len r.cells p i;
    } };
}

impl Replies {
    /// No replies.
    pub fn new() -> Self
        ensures { result ≡ [] }
    {
        Replies {
            cells: [SingleReply::Full; MAX_MEMBERS],
            len: 0,
        }
    }

    /// Adds a reply at the end.
    pub fn push(&mut self, reply: SingleReply)
        requires { length self.old < 8 }
        ensures { self.new ≡ self.old ++ reply ∷ [] }
    {
        self.cells[self.len] = reply;
        self.len += 1;
    }

    /// How many replies there are.
    pub fn len(&self) -> u64
        ensures many { result ≡ length self.now }
        ensures most { result ≤ 8 }
    {
        self.len as u64
    }

    /// The replies.
    pub fn as_slice(&self) -> &[SingleReply]
        ensures is { result.now ≡ self.now }
        ensures most { length self.now ≤ 8 }
    {
        &self.cells[..self.len]
    }

    /// The reply at an index, counted from 0.
    pub fn at(&self, i: u64) -> Option<SingleReply>
        ensures { result ≡ slice_get self.now i }
    {
        if i < self.len as u64 {
            Some(self.cells[i as usize])
        } else {
            None
        }
    }
}

impl PartialEq for Replies {
    ghost use Rattle.std.specs.Cmp.Lexicographic.{pointwise, lists_per};
    ghost use Rattle.rom_model.specs.contracts.call.SingleReplyPartialEq.TheImpl as single;
    ghost use Rattle.rom_model.specs.contracts.call.SingleReplyPartialEq.TheImpl.Laws as single_laws;

    ghost eq = { pointwise single.eq-value.it };

    ghost laws = { lists_per single_laws.laws-law };

    fn eq(&self, other: &Replies) -> bool {
        self.as_slice() == other.as_slice()
    }
}

impl Eq for Replies {
    ghost use Rattle.std.specs.Cmp.Lexicographic.{lists_equiv};
    ghost use Rattle.rom_model.specs.contracts.call.SingleReplyEq.TheImpl.Laws as single_laws;

    ghost laws = { lists_equiv single_laws.laws-law };
}
