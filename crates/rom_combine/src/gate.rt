//! What is told of passes while they run.
//!
//! `Sync` is asked for where threads are started, and not by the trait: this toolchain covers no thread whose
//! closure calls a function with that bound.

use std::sync::Wait;

/// What is told of the callers' lines and of passes while they run. It gives no answer, so it can
/// change no reply; it can hold a caller or a pass up for a while, with the `rt` it is lent.
pub trait Gate {
    /// A caller is about to begin a line of its script. Callers and lines are numbered from 1.
    fn before<R: Wait>(&self, rt: &R, caller: u32, line: u64);

    /// A batch is published, which did so many calls. Readers may read it from now on; its callers
    /// are not answered yet.
    fn published<R: Wait>(&self, rt: &R, count: u32);
}

/// It does nothing.
pub struct NoGate;

impl Gate for NoGate {
    fn before<R: Wait>(&self, _rt: &R, _caller: u32, _line: u64) {}

    fn published<R: Wait>(&self, _rt: &R, _count: u32) {}
}
