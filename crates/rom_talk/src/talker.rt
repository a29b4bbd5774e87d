//! A caller and its peer.
ghost use Rattle.std.specs.Prelude.{◌≡◌, ℕ, List, false};
ghost use Rattle.rom_run.specs.Statuses as statuses;
ghost use Rattle.rom_store.specs.Taking.{result_taken};

use crate::ending::Ending;
use rom_lines::{Became, Undone};
use rom_model::Object;
use rom_store::{Pass, Taken};

/// A peer, the right to call for it, and what became of its lines.
#[derive(Drop)]
pub(crate) struct Talker<P> {
    pub pass: Pass,
    pub peer: P,
    /// Whether a line was no command.
    pub unread: bool,
    /// Whether the device failed under an update.
    pub faulted: bool,
    pub ending: Ending,
    // No two talkers, which threads change all the time, share a line of a processor's cache.
    pub apart: [u64; 8],
}

impl<P> Talker<P> {
    /// One with whom nothing has passed yet.
    pub fn new(pass: Pass, peer: P) -> Talker<P>
        ensures pass { result.pass ≡ pass }
        ensures peer { result.peer ≡ peer }
        ensures unread { result.unread ≡ false }
        ensures faulted { result.faulted ≡ false }
    {
        Talker {
            pass,
            peer,
            unread: false,
            faulted: false,
            ending: Ending::Over,
            apart: [0; 8],
        }
    }
}

/// Whether a line was no command.
pub(crate) fn is_unread<O: Object>(taken: &Taken<O::Answer>) -> bool
    ensures { (words : List ℕ) →
        result ≡ statuses.is_unread (result_taken O.machine.words_reply taken.now words) }
{
    match taken {
        Taken::Unread => true,
        _ => false,
    }
}

/// Whether the device failed under it.
pub(crate) fn is_faulted<O: Object>(taken: &Taken<O::Answer>) -> bool
    ensures { (words : List ℕ) →
        result ≡ statuses.is_faulted (result_taken O.machine.words_reply taken.now words) }
{
    match taken {
        Taken::Update(Became::Undone(Undone::Failed | Undone::Doubt)) => true,
        _ => false,
    }
}
