//! How a run ended.
ghost use Rattle.std.specs.Prelude.{◌≡◌};
ghost use Rattle.rom_run.specs.Statuses.{exit_number};

use crate::status::Status;
use crate::worked::Worked;
use rom_store::Session;

/// How a run ended, with all that it was handed.
#[derive(Drop)]
pub struct Ended<D, S> {
    /// The number of a `Status`.
    pub status: u8,
    pub device: D,
    /// The sources, as far as they were read. They come back, so that a clause can say by a source's count
    /// of faults that it failed.
    pub scripts: Vec<S>,
    /// What was done on the heap, where one was opened or made for the command to work on.
    pub session: Option<Session>,
}

impl<D, S> Ended<D, S> {
    /// A run that ended with this status, with all that it was handed.
    pub fn of(status: Status, device: D, scripts: Vec<S>, session: Option<Session>) -> Ended<D, S>
        // Its status is the number of the one handed in; all else is handed on.
        ensures { result ≡ record {
          status = exit_number status;
          device = device;
          scripts = scripts;
          session = session;
        } }
    {
        Ended {
            status: status.number(),
            device,
            scripts,
            session,
        }
    }

    /// A run that ended as the work on its device did, with its sources.
    pub fn after(worked: Worked<D>, scripts: Vec<S>) -> Ended<D, S>
        // Its status is the number of the one that the work ended with; all else is handed on.
        ensures { result ≡ record {
          status = exit_number worked.status;
          device = worked.device;
          scripts = scripts;
          session = worked.session;
        } }
    {
        let Worked {
            device,
            status,
            session,
        } = worked;
        Ended::of(status, device, scripts, session)
    }
}
