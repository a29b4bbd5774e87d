//! How a caller waits while its call is not answered, how it is woken, and how calls gather before a
//! pass.
//!
//! A caller sleeps on its own turn, and not in the lock. Who blocks in the lock sleeps while the next pass
//! scans, and is woken only to find its call answered: so each pass finds few calls. No wait rests on a wake:
//! each sleep ends by itself, and after some of them the caller waits for the lock.
ghost use Rattle.std.specs.Prelude.{◌≤◌};
ghost use Rattle.rom_lr.specs.Seats.{IsPosted, IsSeatOf};

use rom_lr::{Seat, Shared};
use rom_model::{MAX_CALLERS, Object};
use rom_rule::TURN;
use std::sync::Wait;
use std::thread::yield_now;
use std::time::Duration;

/// The most that a caller sleeps before its second look, in milliseconds, and by how much longer it
/// sleeps at each look. Who is to run the next pass may be passed over just before it falls asleep, so the first
/// sleeps are short; 64 of them take two seconds, which outlast the passes of a slow disk. Where a sync takes
/// 20 ms, passes of sixteen callers hold 15.5 calls; with sleeps of one millisecond each they held 3.4.
const NAP: u64 = 1;

/// How often a caller lets others run before it sleeps, where passes are short. The answer is mostly there by
/// then. In memory a drill of sixteen callers with 10,000 items each has some hundred sleeps in place of
/// 150,000, and takes half the time.
const LINGERS: u32 = 20;

/// How often, at most, others are let run before a pass that would not find all that are wanted.
const GATHERS: u32 = 100;

/// Lets other threads run a few times, until the posted call is answered. Where a pass is shorter than
/// it takes to fall asleep and be woken, this serves before [`nap`].
pub fn linger<O: Object>(shared: &Shared<O>, seat: &Seat)
    requires of { IsSeatOf shared.now seat.now }
{
    for _ in 0..LINGERS {
        if !is_posted(shared, seat.number) {
            break;
        }
        yield_now();
    }
}

/// Sleeps while the posted call is not answered, until the caller is woken, and for a millisecond at
/// most, and one more for each look that the caller has `looked` before. It may return at once. It makes
/// no step and tells nothing, so the caller looks with [`answered`](crate::answered) afterwards.
pub fn nap<O: Object, R: Wait>(rt: &R, shared: &Shared<O>, seat: &Seat, looked: u64)
    requires of { IsSeatOf shared.now seat.now }
    requires posted { IsPosted seat.now }
{
    let at = shared.layout.slot(seat.number, TURN) as usize;
    // The low 32 bits of the odd turn, which is twice the number of calls posted before, and one.
    let before = (seat.posted - 1) % (1 << 31);
    let odd = (2 * before + 1) as u32;
    // Who answers stores the turn, and then looks whether the caller sleeps. Who sleeps says so first, and then
    // the system compares the turn, before it puts the caller to sleep. So the one sees the sleeper, or the other
    // the turn.
    shared.add_sleeper(seat.number);
    // The sleep takes no seat and changes no word, so the rule of the table knows nothing of it. It ends by
    // itself, since `wake_next` may miss a caller that is about to fall asleep.
    shared.table.shared.park_timeout(
        rt,
        at,
        odd,
        Duration::from_millis(NAP.saturating_mul(looked.saturating_add(1))),
    );
    shared.remove_sleeper(seat.number);
}

/// Wakes a caller where it sleeps. Where it does not, this does nothing.
pub(crate) fn wake<O: Object>(shared: &Shared<O>, caller: u32)
    requires within { (1 ≤ caller) × (caller ≤ shared.now.layout.callers) }
{
    if shared.is_asleep(caller) {
        let at = shared.layout.slot(caller, TURN) as usize;
        shared.table.shared.wake_one(at);
    }
}

/// Wakes the first caller that has a call posted, where it sleeps, so that it may run the next pass.
/// Who has run a pass calls this once it has given the lock back. Who took the lock and found its own call
/// answered does not: it held the lock for one load, and whoever found it taken then wakes by itself. Where
/// nobody sleeps this does nothing. It may miss a caller that found the lock taken and does not sleep yet, and
/// that one then sleeps to its end.
pub fn wake_next<O: Object>(shared: &Shared<O>) {
    if shared.is_any_asleep() {
        for i in 0..shared.layout.callers() {
            if is_posted(shared, 1 + i) {
                wake(shared, 1 + i);
                break;
            }
        }
    }
}

// Whether a caller's turn is odd, by a load with no seat, which tells a contract nothing.
fn is_posted<O: Object>(shared: &Shared<O>, caller: u32) -> bool
    requires within { (1 ≤ caller) × (caller ≤ shared.now.layout.callers) }
{
    let at = shared.layout.slot(caller, TURN) as usize;
    shared.table.shared.peek(at) % 2 == 1
}

/// Lets other threads run a while, as long as one of the wanted callers has no call posted; they are the
/// bits of a set, the caller 1 the lowest. Who is about to run a pass calls this, so that those whom the
/// last passes answered can post again before it. It does not sleep. It gives the set of those that have a
/// call posted. Where none but those that have posted are wanted, it does not wait.
pub fn gather<O: Object>(shared: &Shared<O>, wanted: u32) -> u32 {
    let mut posted = set_of_posted(shared);
    for _ in 0..GATHERS {
        if posted & wanted == wanted {
            break;
        }
        yield_now();
        posted = set_of_posted(shared);
    }
    posted
}

// The callers that have a call posted.
fn set_of_posted<O: Object>(shared: &Shared<O>) -> u32 {
    let mut set: u32 = 0;
    for i in 0..shared.layout.callers().min(MAX_CALLERS) {
        if is_posted(shared, 1 + i) {
            set |= 1 << i;
        }
    }
    set
}
