//! Callers and their peers, brought together and parted again.
ghost use Rattle.std.specs.Prelude.{◌≡◌, ◌≤◌, [], length, map, reverse, vec_capacity};
ghost use Rattle.rom_run.specs.Statuses.{exit_number};
ghost use Rattle.rom_store.specs.Indexed.{Indexed};
ghost use Rattle.rom_talk.specs.Seated.{IsUnnoted, number_found};

use crate::ending::Ending;
use crate::talker::Talker;
use rom_run::Status;
use rom_store::Pass;

/// Gives each peer a caller. They stand in the order opposite to that of their numbers.
pub(crate) fn seat_all<P>(passes: &mut Vec<Pass>, peers: &mut Vec<P>, talkers: &mut Vec<Talker<P>>)
    requires many { length passes.old.items ≡ length peers.old.items }
    requires room { (talkers.old.items ≡ []) × (length peers.old.items ≤ vec_capacity talkers.old) }
    ensures many { length talkers.new.items ≡ length passes.old.items }
    ensures callers { map (λ t. t.pass) (reverse talkers.new.items) ≡ passes.old.items }
    ensures met { map (λ t. t.peer) (reverse talkers.new.items) ≡ peers.old.items }
    ensures unnoted { Indexed (λ _ t. IsUnnoted t) talkers.new.items }
    ensures passes { (passes.new.items ≡ []) × (vec_capacity passes.new ≡ vec_capacity passes.old) }
    ensures peers { (peers.new.items ≡ []) × (vec_capacity peers.new ≡ vec_capacity peers.old) }
{
    for _ in 0..peers.len() {
        talkers.push_reserved(Talker::new(passes.take_last(), peers.take_last()));
    }
}

/// Parts callers and peers again, in the order of the callers' numbers.
pub(crate) fn part_all<P>(talkers: &mut Vec<Talker<P>>, passes: &mut Vec<Pass>, peers: &mut Vec<P>)
    requires passes { (passes.old.items ≡ [])
        × (length talkers.old.items ≤ vec_capacity passes.old) }
    requires peers { (peers.old.items ≡ []) × (length talkers.old.items ≤ vec_capacity peers.old) }
    ensures passes { passes.new.items ≡ map (λ t. t.pass) (reverse talkers.old.items) }
    ensures peers { peers.new.items ≡ map (λ t. t.peer) (reverse talkers.old.items) }
{
    // The last one comes first, so that the callers stand in the order of their numbers again.
    for _ in 0..talkers.len() {
        let Talker {
            pass,
            peer,
            unread: _,
            faulted: _,
            ending: _,
            apart: _,
        } = talkers.take_last();
        passes.push_reserved(pass);
        peers.push_reserved(peer);
    }
}

/// The status that all talks lead to.
pub(crate) fn status_found<P>(talkers: &[Talker<P>]) -> Status
    ensures { exit_number result ≡ number_found talkers.now }
{
    if talkers.iter().any(|talker| talker.faulted) {
        Status::DeviceFailed
    } else if talkers.iter().any(|talker| talker.ending == Ending::Unsaid) {
        Status::SinkFailed
    } else if talkers
        .iter()
        .any(|talker| talker.ending == Ending::Unheard)
    {
        Status::ScriptFailed
    } else if talkers.iter().any(|talker| talker.unread) {
        Status::Unread
    } else {
        Status::Done
    }
}
