//! One caller's updates, in the order of its lines.
ghost use Rattle.std.specs.Prelude.{◌≡◌, ◌+◌, ◌^◌, ◌<◌, ◌≤◌, [], ◌∷◌, drop, length, IsTrue, IsFalse, IfNone, IfSome};
ghost use Rattle.rom_frame.specs.declared.frame.Frame.{Frame};
ghost use Rattle.rom_replica.specs.Merging.{begins_done, frames_left, next_place};
ghost use Rattle.rom_replica.specs.Updates.{IsUpdateFrame};

use crate::ship::update::Update;
use rom_heap::Trio;
use rom_lines::{Line, Results, Script, Told};

/// Whether the line at an index is an update that was done. Neither its call nor its reply is read.
fn is_done(script: &Script<Trio>, results: &Results<Trio>, at: usize) -> bool
    requires line { at < length script.now.items }
    requires result { at < length results.now.items }
    ensures { result ≡ begins_done (drop at script.now.items) (drop at results.now.items) }
{
    matches!(
        (script.line(at), results.at(at)),
        (Line::Update(_), Told::Done(_, _))
    )
}

/// What is left of a caller's lines and of what they were told: those from an index on. The first of them, if
/// one is left, is an update that was done. All lines before it have been passed, so the search for the least
/// place passes none.
#[derive(Clone, Copy)]
pub(crate) struct Caller<'a> {
    pub(crate) script: &'a Script<Trio>,
    pub(crate) results: &'a Results<Trio>,
    pub(crate) at: usize,
    ghost begins: { IsTrue (begins_done (drop at script.now.items) (drop at results.now.items)) },
}

impl<'a> Caller<'a> {
    /// The caller of these lines, from its first update at that index or behind it.
    pub(crate) fn from(
        script: &'a Script<Trio>,
        results: &'a Results<Trio>,
        start: usize,
    ) -> Caller<'a>
        ensures { frames_left result.at result.script.now.items result.results.now.items
            ≡ frames_left start script.now.items results.now.items }
    {
        let mut at = start;
        while at < script.len() && at < results.len() && !is_done(script, results, at) {
            at += 1;
        }
        Caller {
            script,
            results,
            at,
        }
    }

    /// Whether no line is left.
    fn is_over(&self) -> bool
        ensures over { IsTrue result → frames_left self.now.at self.now.script.now.items self.now.results.now.items ≡ [] }
        ensures not_over { IsFalse result → (self.now.at < length self.now.script.now.items)
            × (self.now.at < length self.now.results.now.items) }
        ensures fits { IsFalse result → self.now.at + 1 < 2 ^ 64 }
    {
        self.at >= self.script.len() || self.at >= self.results.len()
    }

    /// The place of its next update.
    pub(crate) fn place(&self) -> Option<u64>
        ensures { result ≡ next_place
            (frames_left self.now.at self.now.script.now.items self.now.results.now.items) }
    {
        if self.is_over() {
            return None;
        }
        match self.results.at(self.at) {
            Told::Done(_, place) => Some(place),
            _ => None,
        }
    }

    /// Its next update, and the caller behind it.
    pub(crate) fn split(&self) -> Option<(Update<'a>, Caller<'a>)>
        ensures next { IfSome result (λ r. (f : Frame) × IsUpdateFrame r.0 f ×
            (frames_left self.now.at self.now.script.now.items self.now.results.now.items
            ≡ f ∷ frames_left r.1.at r.1.script.now.items r.1.results.now.items)) }
        ensures none { IfNone result
            (frames_left self.now.at self.now.script.now.items self.now.results.now.items ≡ []) }
    {
        if self.is_over() {
            return None;
        }
        match (self.script.line(self.at), self.results.at(self.at)) {
            (Line::Update(args), Told::Done(reply, place)) => Some((
                Update { place, args, reply },
                Caller::from(self.script, self.results, self.at + 1),
            )),
            _ => None,
        }
    }
}
