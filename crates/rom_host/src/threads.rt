//! Whether threads can be had.
use std::sync::{Mutex, Wait};
use std::thread;
use std::thread::Threads;

/// Whether so many threads can be had at once beside this one. They are made, each waits until all are, and they
/// end.
pub(crate) fn can_spawn<R: Threads + Wait + Sync>(rt: &R, many: usize) -> bool {
    let gate = Mutex::new(());
    let shared = &gate;
    thread::scope(thread::scope_env(), rt, |scope| {
        let held = shared.lock(rt);
        let mut all = true;
        for _ in 0..many {
            if all {
                all = scope.spawn(move || drop(shared.lock(rt))).is_ok();
            }
        }
        drop(held);
        all
    })
}
