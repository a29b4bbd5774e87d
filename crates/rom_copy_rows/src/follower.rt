//! Takes messages on a heap.

use rom_device::{Device, Memory};
use rom_follow::{MessageTaken, follow_all};
use rom_heap::Trio;
use rom_model::{Answer, Query};
use rom_store::{NoGate, open_store};
use rom_test::{NEVER, device_of};
use std::sync::Wait;
use std::test::Fail;

/// No list has more messages.
const MESSAGES: u64 = 256;

/// A device after messages, what was answered to each, and the heap's count and its queue's front.
#[derive(Drop)]
pub struct Followed {
    pub answers: Vec<MessageTaken>,
    pub count: u64,
    pub front: Answer,
    pub device: Memory,
}

/// A follower that takes these messages, on a device of these words.
pub fn follow_messages<R: Wait + AllocGlobal>(
    rt: &R,
    words: Vec<u64>,
    messages: &[Vec<u8>],
) -> Result<Followed, Fail> {
    let alloc = rt.alloc();
    let mut answers = vec![in alloc; MessageTaken::NotAFrame; messages.len()]?;
    let device = device_of(alloc, words, MESSAGES, Vec::new(alloc), NEVER)?;
    let Ok(opening) = open_store::<_, Trio>(alloc, device, 1) else {
        return Err("the heap was not opened".into());
    };
    let mut closed = follow_all(rt, opening, messages, &mut answers, &NoGate);
    let count = closed.count();
    let front = closed.ask(&Query::Peek);
    let (device, _session) = closed.parts();
    Ok(Followed {
        answers,
        count,
        front,
        device: device.inner(),
    })
}
