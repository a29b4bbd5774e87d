//! The words of calls and replies where there are guarded groups.
ghost use Rattle.std.specs.Prelude.{◌≡◌, ◌≤◌, ℕ, List, ◌∷◌, drop, Some, IfSome, IfNone, max};
ghost use Rattle.rom_guard.specs.Guarded.{call_words, read_listed, reply_words, weight, words_call, words_reply};
ghost use Rattle.rom_guard.specs.Working.{HasMany};

use crate::call::{GuardedCall, GuardedReply};
use crate::group::{FIRST, Group, MEMBER_WORDS, TOLD_WORDS, ToldAll};
use crate::members::Members;
use rom_model::{Args, Back, MAX_MEMBERS, MIN_MEMBERS, Object};
use std::marker::PhantomData;

/// How many are listed in words that begin with 0, each with so many words. It is `None` where it is not two to
/// eight, or there are other words.
fn many_listed(words: &[u64], width: usize) -> Option<usize>
    requires { width ≤ 4 }
    ensures some { IfSome result (HasMany width words.now) }
    ensures none { IfNone result ((many : ℕ) → HasMany width words.now many → ⊥) }
{
    let [_, many, rest @ ..] = words else {
        return None;
    };
    let many = *many as usize;
    if many < MIN_MEMBERS || many > MAX_MEMBERS || rest.len() != width * many {
        return None;
    }
    Some(many)
}

/// The group that the words are those of, which begin with 0.
fn read_group<O: Object, P: Members<O, N>, const N: usize>(words: &Args) -> Option<Group<O, P, N>>
    requires { (rest : List ℕ) × (words.now ≡ 0 ∷ rest) }
    ensures { result ≡ read_listed P.shown.words_member 4 (drop 1 words.now) }
{
    for i in 0..many_listed(words.as_slice(), MEMBER_WORDS)? {
        let at = FIRST + MEMBER_WORDS * i;
        P::read_member(&words.as_slice()[at..at + MEMBER_WORDS])?;
    }
    Some(Group {
        words: *words,
        object: PhantomData,
        members: PhantomData,
    })
}

/// What members were told by words that begin with 0.
fn read_told_all<O: Object, P: Members<O, N>, const N: usize>(
    words: &Back,
) -> Option<ToldAll<O, P, N>>
    requires { (rest : List ℕ) × (words.now ≡ 0 ∷ rest) }
    ensures { result ≡ read_listed P.shown.words_told 2 (drop 1 words.now) }
{
    for i in 0..many_listed(words.as_slice(), TOLD_WORDS)? {
        let at = FIRST + TOLD_WORDS * i;
        P::read_told(&words.as_slice()[at..at + TOLD_WORDS])?;
    }
    Some(ToldAll {
        words: *words,
        object: PhantomData,
        members: PhantomData,
    })
}

/// Makes the words those of a call, whatever they were.
pub(crate) fn put_guarded_call<O: Object, P: Members<O, N>, const N: usize>(
    call: &GuardedCall<O::Call, Group<O, P, N>>,
    words: &mut Args,
)
    ensures words { words.new ≡ call_words O.machine P.shown call.now }
    ensures back { words_call O.machine P.shown words.new ≡ Some call.now }
{
    match call {
        GuardedCall::Own(own) => O::put_call_words(own, words),
        GuardedCall::All(group) => *words = group.words,
    }
}

/// The call that the words are those of. It is `None` exactly where there is none.
pub(crate) fn read_guarded_call<O: Object, P: Members<O, N>, const N: usize>(
    words: &Args,
) -> Option<GuardedCall<O::Call, Group<O, P, N>>>
    ensures call { result ≡ words_call O.machine P.shown words.now }
    ensures weight { IfSome result (λ call. (1 ≤ weight O.machine P.shown call)
        × (weight O.machine P.shown call ≤ max O.WEIGHT 16)) }
{
    match words.as_slice() {
        [0, ..] => Some(GuardedCall::All(read_group::<O, P, N>(words)?)),
        _ => Some(GuardedCall::Own(O::words_call(words)?)),
    }
}

/// Makes the words those of the reply to a group of which that member, counted from 1, did not succeed, and was
/// told this.
pub(crate) fn put_undone<O: Object, P: Members<O, N>, const N: usize>(
    member: u64,
    why: &P::Told,
    words: &mut Back,
)
    ensures { words.new ≡ 0 ∷ 0 ∷ member ∷ P.shown.told_words why.now }
{
    words.clear();
    words.extend(&[0, 0, member]);
    P::push_told(why, words);
}

/// The words of a reply.
pub(crate) fn guarded_reply_words<O: Object, P: Members<O, N>, const N: usize>(
    reply: &GuardedReply<O::Reply, P::Told, ToldAll<O, P, N>>,
) -> Back
    ensures words { result ≡ reply_words O.machine P.shown reply.now }
    ensures back { words_reply O.machine P.shown result ≡ Some reply.now }
{
    match reply {
        GuardedReply::Own(own) => O::reply_words(own),
        GuardedReply::All(told) => told.words,
        GuardedReply::Undone(member, why) => {
            let mut words = Back::new();
            put_undone::<O, P, N>(*member, why, &mut words);
            words
        }
    }
}

/// The reply that the words are those of, which begin with 0.
fn read_group_reply<O: Object, P: Members<O, N>, const N: usize>(
    words: &Back,
) -> Option<GuardedReply<O::Reply, P::Told, ToldAll<O, P, N>>>
    requires { (rest : List ℕ) × (words.now ≡ 0 ∷ rest) }
    ensures { result ≡ words_reply O.machine P.shown words.now }
{
    match words.as_slice() {
        [_, 0, member, why @ ..] => Some(GuardedReply::Undone(*member, P::read_told(why)?)),
        _ => Some(GuardedReply::All(read_told_all::<O, P, N>(words)?)),
    }
}

/// The reply that the words are those of. It is `None` exactly where there is none.
pub(crate) fn read_guarded_reply<O: Object, P: Members<O, N>, const N: usize>(
    words: &Back,
) -> Option<GuardedReply<O::Reply, P::Told, ToldAll<O, P, N>>>
    ensures { result ≡ words_reply O.machine P.shown words.now }
{
    match words.as_slice() {
        [0, ..] => read_group_reply::<O, P, N>(words),
        _ => Some(GuardedReply::Own(O::words_reply(words)?)),
    }
}
