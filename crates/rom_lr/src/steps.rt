//! How many steps were made on shared words.
//!
//! An object's `answer` knows the loads of its words, and no seats. A caller's steps stand in what its seat
//! knows. The count joins the two, since each load adds one to both.
ghost use Rattle.std.specs.Prelude.{◌≡◌, ℕ, ◌+◌, ◌<◌};

use std::marker::Model;
use std::sync::ledger::{Blank, Book, Ledger, Share};

/// A count of steps on shared words, of no bytes: it costs nothing at run time, and only contracts
/// read it. Whoever makes one picks its ledger, by a call at `Brand`.
#[derive(Drop)]
pub struct Steps<L: Ledger> {
    book: Book<L>,
    share: Share<L>,
}

impl<L: Ledger> Model for Steps<L> {
    ghost Value = { ℕ };

    ghost view = { λ s. s.share.amount };

    ghost invariant = { λ s. 0 < s.share.parts };
}

impl<L: Ledger> Steps<L> {
    /// No steps yet. The blank is that of the ledger, and has a part.
    pub fn of(blank: Blank) -> Steps<L>
        requires name { blank.name ≡ L.name }
        requires parts { blank.parts ≡ L.parts }
        requires part { 0 < blank.parts }
        ensures none { result ≡ 0 }
    {
        let (book, share) = blank.open::<L>();
        Steps { book, share }
    }

    /// So many steps more.
    pub fn add(&mut self, steps: u64)
        ensures added { self.new ≡ self.old + steps }
    {
        self.book.add(&mut self.share, steps);
    }
}
