//! A fake carrier that loses, repeats, tears and reorders frames, by a list of what it does. What a follower
//! holds is compared with what one holds that took as many frames in their order, and that one at the end
//! with the primary.

use crate::follower::follow_messages;
use crate::runner::{behind, formatted, front, ran};
use rom_device::Device;
use rom_follow::MessageTaken;
use rom_test::right;
use std::alloc::{AllocError, Global};
use std::test::Fail;

/// The scripts of four callers.
const SCRIPTS: [&str; 4] = [
    "enq 1\nput 1 5\ntx deq ; add 7\nrem 7\n",
    "add 2\nenq 4\ndel 1\n",
    "put 3 9\nmove 3 1 2\ndeq\nput 3 4\n",
    "deq\nadd 2\nenq 8\n",
];

/// What a follower is to answer to a message.
#[derive(Clone, Copy)]
enum Wanted {
    Applied(u64),
    Known(u64),
    Early(u64, u64),
    NotAFrame,
}

impl Wanted {
    /// Whether a follower answered that.
    fn is(&self, told: &MessageTaken) -> bool {
        match (*self, *told) {
            (Wanted::Applied(place), MessageTaken::Applied(at)) => at == place,
            (Wanted::Known(place), MessageTaken::Known(at)) => at == place,
            (Wanted::Early(place, count), MessageTaken::Early { place: at, want }) => {
                at == place && want == count
            }
            (Wanted::NotAFrame, MessageTaken::NotAFrame) => true,
            _ => false,
        }
    }
}

/// Whether a follower answered what was wanted to each message.
fn are_told(wanted: &[Wanted], told: &[MessageTaken]) -> bool {
    wanted.len() == told.len()
        && wanted
            .iter()
            .zip(told)
            .all(|(wanted, told)| wanted.is(told))
}

/// Numbers that look drawn, the same each time.
#[derive(Drop)]
struct Drawn {
    state: u64,
}

impl Drawn {
    /// The next one, below this.
    fn below(&mut self, most: usize) -> usize {
        self.state = self
            .state
            .wrapping_mul(6364136223846793005)
            .wrapping_add(1442695040888963407);
        ((self.state >> 33) as usize).checked_rem(most).unwrap_or(0)
    }
}

/// Where each frame of these bytes begins, and where the last ends.
fn bounds(alloc: Global, bytes: &[u8]) -> Result<Vec<usize>, AllocError> {
    let mut ends = Vec::new(alloc);
    let mut at: usize = 0;
    for _ in 0..bytes.len() {
        let Some(words) = bytes.get(at) else {
            break;
        };
        ends.push(at)?;
        at = at.saturating_add(usize::from(*words).saturating_mul(8).max(8));
    }
    ends.push(bytes.len())?;
    Ok(ends)
}

/// The bytes up to the end of the frames before this one.
fn end_of(ends: &[usize], i: usize) -> usize {
    ends.get(i).copied().unwrap_or(0)
}

/// Draws what comes of some frames, in any order and as often as they come, of each fourth only the front;
/// and adds what a follower answers, whose count is to be the place behind those applied.
fn draw(
    alloc: Global,
    drawn: &mut Drawn,
    bytes: &[u8],
    ends: &[usize],
    messages: &mut Vec<Vec<u8>>,
    wanted: &mut Vec<Wanted>,
) -> Result<usize, AllocError> {
    let mut count: usize = 0;
    for _ in 0..drawn.below(40) {
        let i = drawn.below(ends.len().saturating_sub(1));
        let from = end_of(ends, i);
        let frame = front(
            behind(bytes, from),
            end_of(ends, i.saturating_add(1)).saturating_sub(from),
        );
        if drawn.below(4) == 0 {
            messages.push(front(frame, drawn.below(frame.len())).to_vec(alloc)?)?;
            wanted.push(Wanted::NotAFrame)?;
            continue;
        }
        messages.push(frame.to_vec(alloc)?)?;
        let (place, want) = (i as u64, count as u64);
        if place < want {
            wanted.push(Wanted::Known(place))?;
        } else if place > want {
            wanted.push(Wanted::Early(place, want))?;
        } else {
            wanted.push(Wanted::Applied(place))?;
            count = count.saturating_add(1);
        }
    }
    Ok(count)
}

#[test]
fn a_follower_holds_a_prefix_whatever_comes(rt: HostRuntime) -> Result<(), Fail> {
    let alloc = rt.alloc();
    let heap = formatted(&rt, 4)?;
    let mut scripts = Vec::new(alloc);
    for script in &SCRIPTS {
        scripts.push(script.as_bytes())?;
    }
    let primary = ran(&rt, &["ship", "heap", "a", "b", "c", "d"], &scripts, &heap)?;
    assert!(&rt; primary.status == 0);
    let ends = bounds(alloc, &primary.bytes)?;
    let many = ends.len().saturating_sub(1);
    assert!(&rt; many == 14);
    // What the heap holds after each prefix.
    let mut prefixes = Vec::new(alloc);
    for count in 0..many.saturating_add(1) {
        let prefix = front(&primary.bytes, end_of(&ends, count));
        let found = ran(&rt, &["follow", "heap", "s"], &[prefix], &heap)?;
        prefixes.push(found.device.words().to_vec(alloc)?)?;
    }
    let whole = prefixes.get(many).map(|words| words.as_slice());
    assert!(&rt; whole == Some(primary.device.words()));
    let mut drawn = Drawn { state: 20 };
    for list in 0..1000 {
        let mut messages = Vec::new(alloc);
        let mut wanted = Vec::new(alloc);
        let count = draw(
            alloc,
            &mut drawn,
            &primary.bytes,
            &ends,
            &mut messages,
            &mut wanted,
        )?;
        let found = follow_messages(&rt, heap.clone()?, &messages)?;
        let told = found.answers;
        right("told of list", list, are_told(&wanted, &told))?;
        let prefix = prefixes.get(count).map(|words| words.as_slice());
        right(
            "held behind list",
            list,
            prefix == Some(found.device.words()),
        )?;
    }
    Ok(())
}
