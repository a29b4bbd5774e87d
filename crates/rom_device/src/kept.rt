//! Older words that a stop may still leave.
ghost use Rattle.std.specs.Prelude.{◌≡◌, ◌<◌, ◌∷◌, [], ℕ, List, length, reverse, slice_index};
ghost use Rattle.rom_device.specs.Older.{IsOver, stale};
ghost use Rattle.rom_device.specs.declared.call.LoggedCall.{LoggedCall};

use crate::call::LoggedCall;

// The word at that place, or 0 where there is none.
fn word_of(words: &[u64], at: u64) -> u64
    ensures { result ≡ slice_index words.now at }
{
    words.get(at as usize).copied().unwrap_or(0)
}

/// A word as the calls made go by: whether it was written, and whether a stop may leave the older one.
#[derive(Clone, Copy)]
struct Kept {
    at: u64,
    handed: bool,
    stale: bool,
}

impl Kept {
    ghost use Rattle.rom_device.specs.Kept.{IsKeptWord};

    // The word before any call. A missing older word is 0.
    fn new(older: &[u64], start: &[u64], at: u64) -> Kept
        requires { at < length start.now }
        ensures at { result.at ≡ at }
        ensures kept { IsKeptWord older.now start.now [] result }
    {
        Kept {
            at,
            handed: false,
            stale: word_of(older, at) != start[at as usize],
        }
    }

    // The word after a call.
    fn after(self, call: LoggedCall) -> Kept
        ensures at { result.at ≡ self.at }
        ensures kept { (older base : List ℕ) (log : List LoggedCall) →
            IsKeptWord older base log self → IsKeptWord older base (call ∷ log) result }
    {
        match call {
            LoggedCall::Write {
                at,
                value: _,
                lands,
            } => Kept {
                handed: (lands && at == self.at) || self.handed,
                ..self
            },
            LoggedCall::Sync { done: true } => Kept {
                stale: self.stale && !self.handed,
                ..self
            },
            _ => self,
        }
    }

    // The word after all these calls.
    fn through(older: &[u64], start: &[u64], made: &[LoggedCall], at: u64) -> Kept
        requires { at < length start.now }
        ensures at { result.at ≡ at }
        ensures kept { IsKeptWord older.now start.now (reverse made.now) result }
    {
        let mut word = Kept::new(older, start, at);
        for call in made {
            word = word.after(*call);
        }
        word
    }
}

/// Puts the older word at each place where a stop may leave one and `old` says so.
pub fn put_older(words: &mut [u64], older: &[u64], start: &[u64], made: &[LoggedCall], old: &[bool])
    requires { length start.now ≡ length words.old }
    ensures { IsOver (stale older.now start.now (reverse made.now)) older.now words.old words.new }
{
    for at in 0..words.len() {
        let wanted = old.get(at).copied().unwrap_or(false);
        if wanted && Kept::through(older, start, made, at as u64).stale {
            words[at] = word_of(older, at as u64);
        }
    }
}
