//! How many words a heap has, and where they stand.
ghost use Rattle.std.specs.Prelude.{◌≡◌, ◌^◌, ◌⊎◌, ◌<◌, ◌≤◌, IfSome, IfNone};
ghost use Rattle.rom_model.specs.Blocks.{IsOrder, region_len};
ghost use Rattle.rom_header.specs.Layout.{words_needed, MAIN, back_at};

use rom_model::power_of_two;
use std::marker::Model;

/// The least and the greatest order of a heap.
const LEAST: u64 = 4;

const MOST: u64 = 16;

/// Where main begins, behind the words of the header.
const MAIN: u64 = 8;

/// The sizes and places of a heap of some order from 4 to 16. A contract sees the order. Lengths
/// and places are in words.
#[derive(Clone, Copy, Debug, PartialEq, Eq)]
pub struct Geometry {
    order: u32,
}

impl Model for Geometry {
    ghost use Rattle.std.specs.Prelude.{◌≡◌, ℕ, refl};
    ghost use Rattle.rom_model.specs.Blocks.{IsOrder};

    ghost Value = { ℕ };

    ghost view = { λ g. g.order };

    ghost invariant = { λ g. IsOrder g.order };

    ghost inverse = { λ n. record { order = n } };

    ghost inverse_ok = { λ g p i. record { order = g.order } };
}

impl Geometry {
    /// That of an order, or none where the order is not 4 to 16.
    pub fn of(order: u64) -> Option<Geometry>
        ensures some { IfSome result (λ geometry. (geometry ≡ order) × IsOrder order) }
        ensures none { IfNone result ((order < 4) ⊎ (16 < order)) }
    {
        if order < LEAST || order > MOST {
            return None;
        }
        Some(Geometry {
            order: order as u32,
        })
    }

    /// That of an order that there is.
    pub fn of_order(order: u32) -> Geometry
        requires { IsOrder order }
        ensures { result ≡ order }
    {
        Geometry { order }
    }

    /// The order.
    pub fn order(&self) -> u32
        ensures order { result ≡ self.now }
        ensures fits { IsOrder result }
    {
        self.order
    }

    /// How many blocks a region has.
    pub fn blocks(&self) -> u64
        ensures blocks { result ≡ 2 ^ self.now }
        ensures most { result ≤ 65536 }
    {
        power_of_two(self.order)
    }

    /// How many words a region has.
    pub fn region(&self) -> u64
        ensures region { result ≡ region_len self.now }
        ensures most { result ≤ 393232 }
    {
        rom_model::region_len(self.order)
    }

    /// Where main begins.
    pub fn main(&self) -> u64
        ensures { result ≡ MAIN }
    {
        MAIN
    }

    /// Where back begins.
    pub fn back(&self) -> u64
        ensures { result ≡ back_at self.now }
    {
        MAIN + self.region()
    }

    /// How many words a device needs for the heap.
    pub fn need(&self) -> u64
        ensures { result ≡ words_needed self.now }
    {
        MAIN + 2 * self.region()
    }
}
