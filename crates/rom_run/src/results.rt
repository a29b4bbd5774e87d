//! What scripts were told, printed.
ghost use Rattle.std.specs.Prelude.{◌≡◌, ◌⊎◌, ◌<◌, ◌≤◌, ◌||◌, length, map, slice_get, IfSome};
ghost use Rattle.std.specs.List.{list_any};
ghost use Rattle.rom_model.specs.Lawful.{IsLawful};
ghost use Rattle.rom_model.specs.Story.{Story};
ghost use Rattle.rom_model.specs.Story as stories;
ghost use Rattle.rom_text.specs.Streams.{StopsWriting, WriteFailed};
ghost use Rattle.rom_run.specs.Played.{IsOutput};
ghost use Rattle.rom_run.specs.Statuses.{exit_number};
ghost use Rattle.rom_run.specs.Statuses as statuses;

use crate::output::Output;
use crate::status::Status;
use rom_lines::{Results, Script, Told, Undone};
use rom_model::Object;
use rom_text::Sink;

/// What was found among results.
#[derive(Clone, Copy)]
struct Found {
    /// A line was no command.
    unread: bool,
    /// The device failed under an update.
    faulted: bool,
}

impl Found {
    /// What was found, and what the result at an index is.
    fn with<O: Object>(self, results: &Results<O>, i: usize) -> Found
        requires { i < length results.now.items }
        ensures unread { IfSome (slice_get results.now.items i) (λ told.
            result.unread ≡ (self.unread || statuses.is_unread told)) }
        ensures faulted { IfSome (slice_get results.now.items i) (λ told.
            result.faulted ≡ (self.faulted || statuses.is_faulted told)) }
    {
        match results.at(i) {
            Told::Unread => Found {
                unread: true,
                ..self
            },
            Told::Undone(Undone::Failed | Undone::Doubt) => Found {
                faulted: true,
                ..self
            },
            _ => self,
        }
    }

    /// What was found, and what is among one caller's results. No reply is read from its words.
    fn among<O: Object>(self, results: &Results<O>) -> Found
        ensures unread { result.unread
            ≡ (self.unread || list_any statuses.is_unread results.now.items) }
        ensures faulted { result.faulted
            ≡ (self.faulted || list_any statuses.is_faulted results.now.items) }
    {
        let mut found = self;
        for i in 0..results.len() {
            found = found.with(results, i);
        }
        found
    }

    /// What is found among the results of all callers.
    fn among_all<O: Object>(results: &[Results<O>]) -> Found
        ensures unread { result.unread
            ≡ list_any (λ v. list_any statuses.is_unread v.items) results.now }
        ensures faulted { result.faulted
            ≡ list_any (λ v. list_any statuses.is_faulted v.items) results.now }
    {
        let mut found = Found {
            unread: false,
            faulted: false,
        };
        for own in results {
            found = found.among(own);
        }
        found
    }
}

/// Whether the device failed under an update of any caller.
pub fn any_faulted<O: Object>(results: &[Results<O>]) -> bool
    ensures { result ≡ list_any (λ v. list_any statuses.is_faulted v.items) results.now }
{
    Found::among_all(results).faulted
}

/// The status of results that are all printed.
fn status_of<O: Object>(results: &[Results<O>]) -> Status
    ensures { exit_number result ≡ statuses.status_of (map (λ v. v.items) results.now) }
{
    let found = Found::among_all(results);
    if found.faulted {
        Status::DeviceFailed
    } else if found.unread {
        Status::Unread
    } else {
        Status::Done
    }
}

/// Prints what an output is of the results of all scripts, and the count at closing.
pub(crate) fn tell_results<O: Object, T: Output<O>, K: Sink>(
    out: &mut K,
    scripts: &[Script<O>],
    results: &[Results<O>],
    count: u64,
) -> Status
    requires { length scripts.now ≤ 16 }
    ensures printed { (story : Story O.State) → count ≡ stories.count story →
        IsLawful O.machine story (map (λ v. v.items) scripts.now) (map (λ v. v.items) results.now)
        → IsOutput K.shown T.shown story (map (λ v. v.items) results.now) out.old out.new
        (exit_number result) }
    ensures statuses { (result ≡ Status.Done) ⊎ (result ≡ Status.Unread)
        ⊎ (result ≡ Status.SinkFailed) ⊎ (result ≡ Status.DeviceFailed) }
    ensures sink_failed { result ≡ Status.SinkFailed → WriteFailed K.shown out.old out.new }
    ensures writing { StopsWriting K.shown out.old out.new }
    ensures rest { K.shown.rest out.new ≡ K.shown.rest out.old }
{
    match T::print(out, scripts, results, count) {
        Err(_) => Status::SinkFailed,
        Ok(()) => status_of(results),
    }
}
