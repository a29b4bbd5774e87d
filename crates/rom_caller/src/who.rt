//! Whose a caller is, by a type.
ghost use Rattle.std.specs.Prelude.{ℕ};

use std::marker::Brand;

/// The number of one caller of a store, by a type. It stands in contracts alone: a `Caller` cannot be swapped
/// for another, since their types differ.
pub trait Who {
    /// The caller's number; callers are numbered from 1.
    ghost number: { ℕ };
}

impl Who for Brand {
    ghost number = { 0 };
}
