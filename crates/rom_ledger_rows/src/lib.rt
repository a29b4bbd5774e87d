//! Whole runs of the program of a ledger: groups that are done or change nothing, and the recipes that they
//! serve.
//!
//! It knows scripts, and what a ledger is to tell; no promise stands on it.
//!
//! A `Book` is a ledger in the plainest form. It reads lines and prints replies by itself, and shares no code
//! with the object. What runs print is replayed on it, whether their scripts were written by hand or drawn.
//! Groups that fail leave the words of a heap as an update leaves them that does nothing but count. Runs are
//! stopped at each call of the device. The recipes are stopped there too, and gone on with by whoever comes
//! next. No crate stands on this one, and it has nothing but tests.
#![tactic(auto)]

#[cfg(test)]
mod book;
#[cfg(test)]
mod both;
#[cfg(test)]
mod drawing;
#[cfg(test)]
mod drawn;
#[cfg(test)]
mod failing;
#[cfg(test)]
mod meetings;
#[cfg(test)]
mod recipes;
#[cfg(test)]
mod runner;
#[cfg(test)]
mod shelf;
#[cfg(test)]
mod stops;
#[cfg(test)]
mod tally;
#[cfg(test)]
mod workers;
