//! Messages, and what a new follower answers.

use crate::follower::follow_messages;
use crate::runner::formatted;
use rom_follow::MessageTaken;
use rom_frame::{Frame, write_frame};
use rom_model::{Answer, Call, Reply};
use std::alloc::{AllocError, Global};
use std::process::Abort;
use std::sync::Wait;
use std::test::Fail;
use std::thread::Threads;

/// What a follower was sent: a frame, or the first bytes of one, so many.
#[derive(Clone, Copy, PartialEq, Eq)]
enum Sent {
    Whole(Frame),
    Torn(Frame, usize),
}

const QUEUED: Frame = Frame {
    place: 0,
    call: Call::Enq(9),
    reply: Reply::Queued,
};

const TAKEN: Frame = Frame {
    place: 1,
    call: Call::Deq,
    reply: Reply::Head(9),
};

/// What the other heap was told instead.
const FULL: Frame = Frame {
    place: 0,
    call: Call::Enq(9),
    reply: Reply::Full,
};

fn message_of(alloc: Global, sent: &Sent) -> Result<Vec<u8>, AllocError> {
    let (frame, len) = match sent {
        Sent::Whole(frame) => (frame, 512),
        Sent::Torn(frame, len) => (frame, *len),
    };
    let mut message = Vec::new(alloc);
    write_frame(frame.place, &frame.call, &frame.reply, &mut message)?;
    message.truncate(len);
    Ok(message)
}

/// Sends messages to a new follower: what is answered to them, and the count and the queue's front then.
fn try_row<R: Threads + Wait + Sync + AllocGlobal + Abort>(
    rt: &R,
    sent: &[Sent],
    answers: &[MessageTaken],
    count: u64,
    front: Answer,
) -> Result<(), Fail> {
    let mut messages = Vec::new(rt.alloc());
    for one in sent {
        messages.push(message_of(rt.alloc(), one)?)?;
    }
    let found = follow_messages(rt, formatted(rt, 4)?, &messages)?;
    assert!(rt; found.answers.as_slice() == answers);
    assert!(rt; found.count == count && found.front == front);
    Ok(())
}

#[test]
fn a_new_follower_answers_so(rt: HostRuntime) -> Result<(), Fail> {
    let sent = [
        Sent::Whole(TAKEN),
        Sent::Whole(QUEUED),
        Sent::Torn(QUEUED, 55),
        Sent::Whole(QUEUED),
        Sent::Whole(TAKEN),
    ];
    let answers = [
        MessageTaken::Early { place: 1, want: 0 },
        MessageTaken::Applied(0),
        MessageTaken::NotAFrame,
        MessageTaken::Known(0),
        MessageTaken::Applied(1),
    ];
    try_row(&rt, &sent, &answers, 2, Answer::Empty)?;
    let first = [Sent::Whole(QUEUED)];
    try_row(&rt, &first, &[MessageTaken::Applied(0)], 1, Answer::Head(9))?;
    let other = [Sent::Whole(FULL), Sent::Whole(TAKEN), Sent::Torn(TAKEN, 0)];
    let parted = [MessageTaken::Diverged {
        place: 0,
        ours: Reply::Queued,
        theirs: Reply::Full,
    }; 3];
    try_row(&rt, &other, &parted, 1, Answer::Head(9))
}
