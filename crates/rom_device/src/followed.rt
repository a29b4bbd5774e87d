//! The values that a stop may leave in one word of a memory device.
ghost use Rattle.std.specs.Prelude.{◌≡◌, ◌+◌, ◌<◌, ◌^◌, [], ◌∷◌, ℕ, List, length, reverse};
ghost use Rattle.rom_device.specs.Choice.{picked};
ghost use Rattle.rom_device.specs.declared.call.LoggedCall.{LoggedCall};

use crate::call::LoggedCall;

/// A word as the calls made go by: what it reads, how many values a stop may leave in it, and the
/// one of these of a given number, once there are so many. They are the last synced value and then
/// the values written since, in order.
#[derive(Clone, Copy)]
struct Followed {
    at: u64,
    number: u64,
    reads: u64,
    count: u64,
    value: u64,
}

impl Followed {
    ghost use Rattle.rom_device.specs.Followed.{IsFollowed};

    // The word before any call.
    fn new(start: &[u64], at: u64, number: u64) -> Followed
        requires { at < length start.now }
        ensures at { result.at ≡ at }
        ensures number { result.number ≡ number }
        ensures followed { IsFollowed start.now [] result }
    {
        let word = start[at as usize];
        Followed {
            at,
            number,
            reads: word,
            count: 1,
            value: word,
        }
    }

    // The word after a call.
    fn after(self, call: LoggedCall) -> Followed
        requires { self.count + 1 < 2 ^ 64 }
        ensures at { result.at ≡ self.at }
        ensures number { result.number ≡ self.number }
        ensures followed { (base : List ℕ) (log : List LoggedCall) → self.at < length base
            → IsFollowed base log self → IsFollowed base (call ∷ log) result }
    {
        match call {
            LoggedCall::Write { at, value, lands } if at == self.at => Followed {
                reads: if lands { value } else { self.reads },
                count: self.count + 1,
                value: if self.count == self.number {
                    value
                } else {
                    self.value
                },
                ..self
            },
            LoggedCall::Sync { done: true } => Followed {
                count: 1,
                value: self.reads,
                ..self
            },
            _ => self,
        }
    }

    // The word after all these calls.
    fn through(start: &[u64], made: &[LoggedCall], at: u64, number: u64) -> Followed
        requires { at < length start.now }
        ensures at { result.at ≡ at }
        ensures number { result.number ≡ number }
        ensures followed { IsFollowed start.now (reverse made.now) result }
    {
        let mut word = Followed::new(start, at, number);
        for call in made {
            word = word.after(*call);
        }
        word
    }
}

/// The possible value of that number of the word at that place, modulo how many there are.
pub fn picked_value(start: &[u64], made: &[LoggedCall], at: u64, number: u64) -> u64
    requires { at < length start.now }
    ensures { result ≡ picked start.now (reverse made.now) at number }
{
    let first = Followed::through(start, made, at, number);
    if number < first.count {
        return first.value;
    }
    Followed::through(start, made, at, number % first.count).value
}
