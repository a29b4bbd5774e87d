//! The members of a guarded group, and what they are told, as words.
ghost use Rattle.std.specs.Prelude.{◌≡◌, ◌<◌, ◌≤◌, length, Some, slice_get};
ghost use Rattle.rom_model.specs.Groups.{sized};
ghost use Rattle.rom_guard.specs.Working.{IsGroup, IsToldAll, members_in, told_in};

use crate::members::Members;
use rom_model::{Args, Back, MAX_MEMBERS, MIN_MEMBERS, Object};
use std::marker::{Model, PhantomData};

/// How many words a member has.
pub(crate) const MEMBER_WORDS: usize = 4;

/// How many words there are of what a member is told.
pub(crate) const TOLD_WORDS: usize = 2;

/// Where the first member's words begin, and those of what the first was told.
pub(crate) const FIRST: usize = 2;

/// Two to eight members. A contract sees their list. They are kept as the words of the group's call, so that to
/// hand one on is to copy words.
#[derive(Clone, Copy, Debug)]
pub struct Group<O: Object, P: Members<O, N>, const N: usize> {
    pub(crate) words: Args,
    pub(crate) object: PhantomData<O>,
    pub(crate) members: PhantomData<P>,
}

impl<O: Object, P: Members<O, N>, const N: usize> Model for Group<O, P, N> {
    ghost use Rattle.std.specs.Prelude.{List, ◌∷◌};
    ghost use Rattle.std.proofs.Common.{sym};
    ghost use Rattle.rom_guard.specs.Guarded.{listed};
    ghost use Rattle.rom_guard.specs.Working.{IsGroup, members_in};

    ghost Value = { List P.Member };

    ghost view = { λ g. members_in P.shown g.words };

    ghost invariant = { λ g. IsGroup P.shown g.words };

    ghost inverse = { λ members. record {
      words = 0 ∷ listed P.shown.member_words members;
      object = record {};
      members = record {};
    } };

    ghost inverse_ok = { λ g p i. record { words = sym p.is i; object = record {}; members = record {} } };
}

/// The member at an index, counted from 0, of the words of a group.
pub(crate) fn member_at<O: Object, P: Members<O, N>, const N: usize>(
    words: &[u64],
    i: u64,
) -> P::Member
    requires group { IsGroup P.shown words.now }
    requires within { i < length (members_in P.shown words.now) }
    ensures { Some result ≡ slice_get (members_in P.shown words.now) i }
{
    let at = FIRST + MEMBER_WORDS * i as usize;
    P::read_member(&words[at..at + MEMBER_WORDS]).unwrap()
}

impl<O: Object, P: Members<O, N>, const N: usize> Group<O, P, N> {
    /// A group of these updates. It is `None` exactly where they are fewer than two or more than eight.
    pub fn of(members: &[P::Member]) -> Option<Self>
        ensures { result ≡ sized members.now }
    {
        if members.len() < MIN_MEMBERS || members.len() > MAX_MEMBERS {
            return None;
        }
        let mut words = Args::of(&[0, members.len() as u64]);
        for member in members {
            P::push_member(member, &mut words);
        }
        Some(Group {
            words,
            object: PhantomData,
            members: PhantomData,
        })
    }

    /// How many members it has.
    pub fn len(&self) -> u64
        ensures many { result ≡ length self.now }
        ensures least { 2 ≤ result }
        ensures most { result ≤ 8 }
    {
        self.words.as_slice()[1]
    }

    /// The member at an index, counted from 0.
    pub fn at(&self, i: u64) -> Option<P::Member>
        ensures { result ≡ slice_get self.now i }
    {
        if i < self.len() {
            Some(member_at::<O, P, N>(self.words.as_slice(), i))
        } else {
            None
        }
    }
}

/// What the two to eight members of a group were told, each of which succeeded. A contract sees the list.
#[derive(Clone, Copy, Debug)]
pub struct ToldAll<O: Object, P: Members<O, N>, const N: usize> {
    pub(crate) words: Back,
    pub(crate) object: PhantomData<O>,
    pub(crate) members: PhantomData<P>,
}

impl<O: Object, P: Members<O, N>, const N: usize> Model for ToldAll<O, P, N> {
    ghost use Rattle.std.specs.Prelude.{List, ◌∷◌};
    ghost use Rattle.std.proofs.Common.{sym};
    ghost use Rattle.rom_guard.specs.Guarded.{listed};
    ghost use Rattle.rom_guard.specs.Working.{IsToldAll, told_in};

    ghost Value = { List P.Told };

    ghost view = { λ t. told_in P.shown t.words };

    ghost invariant = { λ t. IsToldAll P.shown t.words };

    ghost inverse = { λ told. record {
      words = 0 ∷ listed P.shown.told_words told;
      object = record {};
      members = record {};
    } };

    ghost inverse_ok = { λ t p i. record { words = sym p.is i; object = record {}; members = record {} } };
}

/// What the member at an index, counted from 0, was told by these words.
pub(crate) fn told_at<O: Object, P: Members<O, N>, const N: usize>(words: &[u64], i: u64) -> P::Told
    requires told { IsToldAll P.shown words.now }
    requires within { i < length (told_in P.shown words.now) }
    ensures { Some result ≡ slice_get (told_in P.shown words.now) i }
{
    let at = FIRST + TOLD_WORDS * i as usize;
    P::read_told(&words[at..at + TOLD_WORDS]).unwrap()
}

impl<O: Object, P: Members<O, N>, const N: usize> ToldAll<O, P, N> {
    /// How many members were told something.
    pub fn len(&self) -> u64
        ensures many { result ≡ length self.now }
        ensures least { 2 ≤ result }
        ensures most { result ≤ 8 }
    {
        self.words.as_slice()[1]
    }

    /// What the member at an index was told, counted from 0.
    pub fn at(&self, i: u64) -> Option<P::Told>
        ensures { result ≡ slice_get self.now i }
    {
        if i < self.len() {
            Some(told_at::<O, P, N>(self.words.as_slice(), i))
        } else {
            None
        }
    }
}
