//! A shipper that keeps what the updates of the last batch were told.
ghost use Rattle.std.specs.Prelude.{◌≡◌, ◌≤◌, [], length};
ghost use Rattle.rom_model.specs.declared.limits.TheConstants.{MAX_CALLERS};

use crate::per_caller::PerCaller;
use crate::shipper::{Batch, Shipper};
use rom_model::Back;
use std::marker::Model;

/// What the updates of the last batch were told, in the order of their places. It hands nothing on.
#[derive(Drop)]
pub struct Replies {
    items: PerCaller<Back>,
}

// A contract sees the words of the replies.
impl Model for Replies {
    ghost use Rattle.std.specs.Prelude.{ℕ, ◌≤◌, List, length};
    ghost use Rattle.rom_model.specs.declared.limits.TheConstants.{MAX_CALLERS};

    ghost Value = { List (List ℕ) };

    ghost view = { λ r. r.items.items };

    ghost invariant = { λ r. length r.items.items ≤ MAX_CALLERS };
}

impl Replies {
    /// No replies.
    pub fn new() -> Self
        ensures none { result ≡ [] }
    {
        Replies {
            items: PerCaller::new(Back::new()),
        }
    }

    /// The words of the replies.
    pub fn as_slice(&self) -> &[Back]
        ensures words { result.now ≡ self.now }
        ensures few { length result.now ≤ MAX_CALLERS }
    {
        self.items.as_slice()
    }
}

impl Shipper for Replies {
    ghost use Rattle.std.specs.Prelude.{None, Some};
    ghost use Rattle.rom_combine.specs.Shipping.{unshipped};

    ghost shown = { record unshipped { last = λ r. Some r } };

    fn ship(&mut self, batch: &Batch<'_>) {
        self.items.clear();
        for i in 0..batch.len() {
            self.items.push(Back::of(batch.reply(i)));
        }
    }

    fn has_failed(&self) -> bool {
        false
    }
}
