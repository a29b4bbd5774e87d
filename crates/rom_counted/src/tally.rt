//! A count that exists in proofs alone.
ghost use Rattle.std.specs.Prelude.{◌≡◌, ℕ, ◌+◌, ◌<◌};
ghost use Rattle.rom_counted.specs.Counted.{BeginsLedger};

use std::marker::Model;
use std::sync::ledger::{Blank, Book, Ledger, Share};

/// A count that takes no bytes and has no end.
#[derive(Drop)]
pub struct Tally<L: Ledger> {
    book: Book<L>,
    share: Share<L>,
}

impl<L: Ledger> Model for Tally<L> {
    ghost Value = { ℕ };

    ghost view = { λ t. t.book.total };

    ghost invariant = { λ t. 0 < t.share.parts };
}

impl<L: Ledger> Tally<L> {
    /// A count of nothing.
    pub fn begin(blank: Blank) -> Tally<L>
        requires { BeginsLedger L.name L.parts blank.name blank.parts }
        ensures { result ≡ 0 }
    {
        let (book, share) = blank.open();
        Tally { book, share }
    }

    /// One more.
    pub fn add(&mut self)
        ensures { self.new ≡ self.old + 1 }
    {
        self.book.add(&mut self.share, 1);
    }
}
