//! What a heap does of a stream that begins with a head.
ghost use Rattle.std.specs.Prelude.{◌≡◌, ◌≤◌, ◌+◌};
ghost use Rattle.rom_name.specs.Identities.{IsNamed};
ghost use Rattle.rom_name.specs.Meetings.{IsMeeting, IsOfSameHeap};
ghost use Rattle.rom_name.specs.declared.meeting.Meeting.{Meeting};

use crate::identity::{Identity, is_named};
use rom_frame::{Head, HeapName};

/// Why a stream is not followed.
#[derive(Clone, Copy, Debug, PartialEq, Eq)]
pub enum Refusal {
    /// The heap has no name, and is not one that takes the stream's.
    NoName,
    /// The stream is of the heap of this name, which is another.
    OtherName(HeapName),
    /// The stream is of this epoch, and the heap of a later one, `have`.
    OlderEpoch { epoch: u64, have: u64 },
    /// The stream is of this epoch, more than one after `have`, that of the heap. The head does not say where those
    /// between them began.
    SkippedEpoch { epoch: u64, have: u64 },
    /// The stream's epoch is the heap's next one, which began at this count; and this heap did more, up to `done`,
    /// in its own.
    Parted { since: u64, done: u64 },
    /// The stream begins behind the update of this place, which the heap lacks.
    Gap(u64),
    /// The stream has no head, and `anonymous` was not asked for.
    Nameless,
}

/// What is done of a stream.
#[derive(Clone, Copy, Debug, PartialEq, Eq)]
pub enum Meeting {
    /// It is followed.
    Follow,
    /// The heap takes this identity, and follows.
    Take(Identity),
    /// The heap takes this epoch, and follows.
    Raise { epoch: u64, since: u64 },
    Refused(Refusal),
}

// Of a stream of the same heap, and of its epoch or the next.
fn meet_epoch(own: &Identity, count: u64, head: &Head) -> Meeting
    requires heap { IsOfSameHeap own.now count head.now }
    requires epoch { own.now.epoch ≤ head.now.epoch }
    requires next { head.now.epoch ≤ own.now.epoch + 1 }
    ensures is { IsMeeting own.now count head.now result }
{
    let is_later = own.epoch < head.epoch;
    if is_later && head.since < count {
        return Meeting::Refused(Refusal::Parted {
            since: head.since,
            done: count,
        });
    }
    if count < head.first {
        return Meeting::Refused(Refusal::Gap(count));
    }
    if !is_later {
        return Meeting::Follow;
    }
    Meeting::Raise {
        epoch: head.epoch,
        since: head.since,
    }
}

// Of a heap without a name.
fn meet_unnamed(own: &Identity, count: u64, head: &Head) -> Meeting
    requires { IsNamed own.now.name → ⊥ }
    ensures is { IsMeeting own.now count head.now result }
{
    if count != 0 || head.first != 0 || !is_named(head.name) {
        return Meeting::Refused(Refusal::NoName);
    }
    Meeting::Take(Identity {
        name: head.name,
        epoch: head.epoch,
        since: head.since,
    })
}

/// What a heap of this identity and this count of updates does of the stream with this head. The first
/// refusal whose cause there is in the order in which `Refusal` has them.
pub fn meet(own: &Identity, count: u64, head: &Head) -> Meeting
    // Each answer is true of the three, and no two could be.
    ensures is { IsMeeting own.now count head.now result }
    ensures only { (other : Meeting) → IsMeeting own.now count head.now other → result ≡ other }
{
    if !is_named(own.name) {
        return meet_unnamed(own, count, head);
    }
    if own.name != head.name {
        return Meeting::Refused(Refusal::OtherName(head.name));
    }
    if head.epoch < own.epoch {
        return Meeting::Refused(Refusal::OlderEpoch {
            epoch: head.epoch,
            have: own.epoch,
        });
    }
    if 1 < head.epoch - own.epoch {
        return Meeting::Refused(Refusal::SkippedEpoch {
            epoch: head.epoch,
            have: own.epoch,
        });
    }
    meet_epoch(own, count, head)
}
