//! The callers' updates in the order of their places.
ghost use Rattle.std.specs.Prelude.{◌≡◌, ◌<◌, ℕ, length, map, None, Some, IfNone, IfSome};
ghost use Rattle.rom_frame.specs.declared.frame.Frame.{Frame};
ghost use Rattle.rom_replica.specs.Merging.{frames_left, least_from};
ghost use Rattle.rom_replica.specs.Merging as merging;
ghost use Rattle.rom_replica.specs.Updates.{IsUpdateFrame};

use crate::ship::caller::Caller;
use crate::ship::update::Update;

/// Of an earlier caller's index and next place, and this one's, those of the lesser place.
fn nearer(best: Option<(usize, u64)>, i: usize, place: Option<u64>) -> Option<(usize, u64)>
    ensures { result ≡ merging.nearer best i place }
{
    match (best, place) {
        (_, None) => best,
        (None, Some(place)) => Some((i, place)),
        (Some((_, least)), Some(place)) => {
            if place < least {
                Some((i, place))
            } else {
                best
            }
        }
    }
}

/// The index of the caller whose next place is least, and that place.
fn least(callers: &[Caller<'_>]) -> Option<(usize, u64)>
    ensures is { result ≡ merging.least
        (map (λ c. frames_left c.at c.script.now.items c.results.now.items) callers.now) }
    ensures within { IfSome result (λ best. best.0 < length callers.now) }
{
    let mut best = None;
    for i in 0..callers.len() {
        best = nearer(best, i, callers[i].place());
    }
    best
}

/// Takes the next update of the caller whose next place is least.
pub(crate) fn next<'a>(callers: &mut [Caller<'a>]) -> Option<Update<'a>>
    ensures next { IfSome result (λ u. (f : Frame) × IsUpdateFrame u f ×
        (merging.next_update (map (λ c. frames_left c.at c.script.now.items c.results.now.items) callers.old)
        ≡ Some (f, map (λ c. frames_left c.at c.script.now.items c.results.now.items) callers.new))) }
    ensures none { IfNone result
        (merging.next_update (map (λ c. frames_left c.at c.script.now.items c.results.now.items) callers.old) ≡ None) }
{
    let (i, _) = least(callers)?;
    let Some((update, rest)) = callers[i].split() else {
        return None;
    };
    callers[i] = rest;
    Some(update)
}
