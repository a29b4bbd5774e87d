//! What a row of a table must come to.
//!
//! A test is proved before it is run. An `assert_eq!`, or an `assert!` with a note, writes the texts of both
//! sides into it, and in a loop each takes the proof some seconds. A call of this is proved once for all.
//!
//! A table is a `static`, where its type can be in one. A table that is a `const` is built anew in each
//! function that goes over it, and the proof goes through all its rows there.

use std::test::Fail;

/// An error with these words and the row's number, where it did not come to what is wanted.
pub(crate) fn right(what: &'static str, row: usize, holds: bool) -> Result<(), Fail> {
    if holds {
        Ok(())
    } else {
        Err((what, row).into())
    }
}
