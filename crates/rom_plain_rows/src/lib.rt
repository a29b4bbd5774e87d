//! Whole runs of the programs of plain words: a counter, keys with bytes, an ordered index.
//!
//! It knows rows, and what these programs are to tell; no promise stands on it.
//!
//! One runner does each run, of whichever program. A row has the words of a command, its scripts, and what
//! it is to tell, which was written by hand. Texts of callers who meet are replayed on plain models, which
//! share no code with the objects. Long runs of keys with bytes are told line by line as a model of units
//! tells, and those of the index's calls as std's own map does. Heaps of keys with bytes and indexes are shown, made again
//! from their scripts, and made greater. No crate stands on this one, and it has
//! nothing but tests.
#![tactic(auto)]

#[cfg(test)]
mod blobs;
#[cfg(test)]
mod broken;
#[cfg(test)]
mod carried;
#[cfg(test)]
mod costs;
#[cfg(test)]
mod counters;
#[cfg(test)]
mod indexes;
#[cfg(test)]
mod key;
#[cfg(test)]
mod lengths;
#[cfg(test)]
mod long;
#[cfg(test)]
mod map;
#[cfg(test)]
mod meetings;
#[cfg(test)]
mod rows;
#[cfg(test)]
mod runner;
#[cfg(test)]
mod stops;
#[cfg(test)]
mod sum;
#[cfg(test)]
mod texts;
#[cfg(test)]
mod units;
