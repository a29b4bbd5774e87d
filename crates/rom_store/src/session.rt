//! What a session was.
ghost use Rattle.std.specs.Prelude.{◌≡◌};
ghost use Rattle.rom_model.specs.VecSpace.{words_of_space};
ghost use Rattle.rom_store.specs.Sessions.{callers_in, history_in, records_in, unchanged};

use crate::begun::Begun;
use atomic_table::Badge;
use rom_model::VecSpace;
use rom_rule::View;
use rom_twin::Phase;
use std::marker::Model;
use std::snapshot::Snapshot;

/// A heap as it was opened, what was done on it until it was closed, and what its device needs then. A
/// contract sees its story; the program stores no list of calls.
#[derive(Drop)]
pub struct Session {
    begun: Begun,
    // What the writer knew at the closing, for contracts alone. There is none where nothing could be done.
    writer: Badge<View>,
    phase: Phase,
}

impl Model for Session {
    ghost use Rattle.rom_model.specs.VecSpace.{words_of_space};
    ghost use Rattle.rom_store.specs.Sessions.{SessionSeen, callers_in, history_in, records_in};

    ghost Value = { SessionSeen };

    ghost view = { λ s. record {
      order = s.begun.order;
      image = words_of_space s.begun.image.value;
      faults = s.begun.faults;
      history = history_in s.writer.views;
      records = records_in s.writer.views;
      phase = s.phase;
      callers = callers_in s.writer.views;
    } };
}

impl Session {
    /// The session of a heap that was opened and looked at: nothing was done. `image` has the words of
    /// the heap, and `faults` is the device's count of faults.
    pub fn unchanged(order: u32, image: &VecSpace, faults: u64) -> Session
        ensures { result ≡ unchanged order (words_of_space image.now) faults }
    {
        Session {
            begun: Begun {
                order,
                image: Snapshot::of(image),
                faults,
            },
            writer: Badge::blank(),
            phase: Phase::Clean,
        }
    }

    /// The session that the writer has seen.
    pub(crate) fn of(begun: Begun, writer: Badge<View>, phase: Phase) -> Session
        ensures order { result.order ≡ begun.order }
        ensures image { result.image ≡ words_of_space begun.image.value }
        ensures faults { result.faults ≡ begun.faults }
        ensures history { result.history ≡ history_in writer.views }
        ensures records { result.records ≡ records_in writer.views }
        ensures phase { result.phase ≡ phase }
        ensures callers { result.callers ≡ callers_in writer.views }
    {
        Session {
            begun,
            writer,
            phase,
        }
    }
}
