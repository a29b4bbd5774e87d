//! Which calls of a memory device are to fail.
ghost use Rattle.std.specs.Prelude.{◌≡◌, ◌<◌, ℕ, true};
ghost use Rattle.rom_device.specs.Trips.{covers, fires};

use crate::call::{CallKind, LoggedCall};

/// The `nth` call of that kind, counted from 1, fails. Of reads and writes only those of the words
/// `from` to `to - 1` count. A write that fails leaves the new value where `keeps_new`, else the
/// old one.
#[derive(Clone, Copy, Debug, PartialEq, Eq)]
pub struct Trip {
    pub call: CallKind,
    pub from: u64,
    pub to: u64,
    pub nth: u64,
    pub keeps_new: bool,
}

impl Trip {
    /// Whether such a call counts.
    pub fn covers(&self, call: CallKind, at: u64) -> bool
        ensures { result ≡ covers self.now call at }
    {
        match (self.call, call) {
            (CallKind::Sync, CallKind::Sync) => true,
            (CallKind::Read, CallKind::Read) | (CallKind::Write, CallKind::Write) => {
                self.from <= at && at < self.to
            }
            _ => false,
        }
    }

    /// Whether such a call fails, where these were made before it.
    pub fn fires(&self, made: &[LoggedCall], call: CallKind, at: u64) -> bool
        ensures { result ≡ fires self.now made.now call at }
    {
        let before = made
            .iter()
            .filter(|made| self.covers(made.kind(), made.place()))
            .count();
        self.covers(call, at) && self.nth.checked_sub(1) == Some(before as u64)
    }
}

/// The call of this number among all of that kind fails, of whatever word: no word of a device has the
/// place 2^64 - 1. A write leaves the new value.
pub fn every_trip(kind: CallKind, number: u64) -> Trip
    ensures kind { result.call ≡ kind }
    ensures number { result.nth ≡ number }
    // It counts each call of that kind at a place below 2^64 - 1.
    ensures words { (at : ℕ) → at < 18446744073709551615 → covers result kind at ≡ true }
    ensures keeps_new { result.keeps_new ≡ true }
{
    Trip {
        call: kind,
        from: 0,
        to: u64::MAX,
        nth: number,
        keeps_new: true,
    }
}
