//! Whole runs of the program, and talks, as rows of data.
//!
//! It knows rows, and what `romulus` and a talk are to tell; no promise stands on it.
//!
//! A row has the words of a command, its scripts, the device that it is run on and the sink that it prints
//! to, and then what it is to tell: its status, its text, the gate's calls, and the heap that is found when
//! the device is opened again. One runner does each, and a row that differs is printed whole. A row of a talk
//! has what clients say in the place of scripts, and then all that passes with each, in its order. The texts
//! of several callers are replayed on a plain model, which shares no code with the object of a heap. What is
//! wanted is written by hand, or was counted by a program of its own. No crate stands on this one, and it has
//! nothing but tests.
#![tactic(auto)]

#[cfg(test)]
mod ample;
#[cfg(test)]
mod devices;
#[cfg(test)]
mod drills;
#[cfg(test)]
mod heaps;
#[cfg(test)]
mod hindered;
#[cfg(test)]
mod lawful;
#[cfg(test)]
mod long;
#[cfg(test)]
mod meetings;
#[cfg(test)]
mod model;
#[cfg(test)]
mod rows;
#[cfg(test)]
mod runner;
#[cfg(test)]
mod scripts;
#[cfg(test)]
mod talks;
#[cfg(test)]
mod texts;
#[cfg(test)]
mod upgrades;
#[cfg(test)]
mod words;
