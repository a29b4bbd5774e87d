//! Words in memory whose loads and stores are counted.
ghost use Rattle.std.specs.Prelude.{◌≡◌, ◌-◌, ◌^◌, min};
ghost use Rattle.rom_model.specs.VecSpace.{words_of_space};
ghost use Rattle.rom_counted.specs.Counted.{BeginsLedger};

use crate::tally::Tally;
use rom_model::{Look, Space, VecSpace};
use std::marker::Model;
use std::sync::ledger::{Blank, Ledger};

/// Words in memory whose loads and stores are counted, and which have a limit on the stores.
#[derive(Drop)]
pub struct Counted<L: Ledger> {
    space: VecSpace,
    /// The loads, as contracts count them.
    tally: Tally<L>,
    /// The loads, as a test can read them.
    loads: u64,
    stores: u64,
    limit: u64,
}

impl<L: Ledger> Model for Counted<L> {
    ghost use Rattle.std.specs.Prelude.{◌≡◌, ◌-◌, ◌^◌, min};
    ghost use Rattle.rom_model.specs.VecSpace.{words_of_space};
    ghost use Rattle.rom_counted.specs.Counted.{CountedWords};

    ghost Value = { CountedWords };

    ghost view = { λ s. record {
      words = words_of_space s.space;
      loads = s.tally;
      stores = s.stores;
      limit = s.limit;
    } };

    ghost invariant = { λ s. s.loads ≡ min s.tally (2 ^ 64 - 1) };
}

impl<L: Ledger> Counted<L> {
    /// These words, of which nothing is loaded or stored yet, with so many stores to come at most.
    /// The blank names the ledger in which proofs keep the count of loads.
    pub fn begin(space: VecSpace, limit: u64, blank: Blank) -> Counted<L>
        // The blank has the ledger's name and as many parts, at least one: so it can keep a count.
        requires blank { BeginsLedger L.name L.parts blank.name blank.parts }
        ensures words { result.words ≡ words_of_space space }
        ensures loads { result.loads ≡ 0 }
        ensures stores { result.stores ≡ 0 }
        ensures limit { result.limit ≡ limit }
    {
        Counted {
            space,
            tally: Tally::begin(blank),
            loads: 0,
            stores: 0,
            limit,
        }
    }

    /// The words.
    pub fn words(&self) -> &[u64]
        ensures { result.now ≡ self.now.words }
    {
        self.space.words()
    }

    /// How many loads were made. The count stays at the greatest number that it can hold.
    pub fn loads(&self) -> u64
        ensures { result ≡ min self.now.loads (2 ^ 64 - 1) }
    {
        self.loads
    }

    /// How many stores were made.
    pub fn stores(&self) -> u64
        ensures { result ≡ self.now.stores }
    {
        self.stores
    }
}

impl<L: Ledger> Look for Counted<L> {
    ghost use Rattle.std.specs.Prelude.{true};

    ghost shown = { record {
      image = λ s. s.words;
      tells_loads = true;
      loads = λ s. s.loads;
      tells_stores = true;
      stores = λ s. s.stores;
      has_limit = true;
      limit = λ s. s.limit;
      Rest = Unit {0};
      rest = λ _. tt;
    } };

    fn load(&mut self, at: u64) -> u64 {
        self.tally.add();
        self.loads = self.loads.saturating_add(1);
        self.space.load(at)
    }

    ghost limit_counts = { λ told. told };
}

impl<L: Ledger> Space for Counted<L> {
    fn store(&mut self, at: u64, value: u64) {
        self.stores += 1;
        self.space.store(at, value);
    }
}
