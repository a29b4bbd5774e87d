//! The programs that copy a heap: the script of a dump, and the frames of a primary, which a follower takes.
//!
//! It knows rows, and what dumps and replicas are to tell; no promise stands on it.
//!
//! A row has a heap, a command and what it is to tell, which was written by hand. Streams are made by a fake
//! carrier too, which loses, repeats, tears and reorders. A follower is compared with the primary word for
//! word: what a heap holds after so many updates is the same whoever did them. A full heap is made again
//! from its own script. No crate stands on this one, and it has nothing but tests.
#![tactic(auto)]

#[cfg(test)]
mod again;
#[cfg(test)]
mod carrier;
#[cfg(test)]
mod dumps;
#[cfg(test)]
mod follower;
#[cfg(test)]
mod from;
#[cfg(test)]
mod heaps;
#[cfg(test)]
mod in_use;
#[cfg(test)]
mod meetings;
#[cfg(test)]
mod messages;
#[cfg(test)]
mod runner;
#[cfg(test)]
mod shipped;
#[cfg(test)]
mod stops;
#[cfg(test)]
mod streams;
