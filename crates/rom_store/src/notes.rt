//! Notes, by which one caller tells another what it has seen.
ghost use Rattle.std.specs.Prelude.{◌≡◌, ◌+◌, ◌≤◌};
ghost use Rattle.rom_model.specs.Machine.{on_words};
ghost use Rattle.rom_model.specs.Seen.{StartsWith};
ghost use Rattle.rom_lr.specs.Seats.{noted};
ghost use Rattle.rom_store.specs.Callers.{IsCallerOf, IsDatedBy, IsSameCaller};

use crate::label::Label;
use crate::pass::Pass;
use crate::store::Store;
use rom_combine::Shipper;
use rom_device::Device;
use rom_lr::Note;
use rom_model::Object;

impl<D: Device, O: Object, N: Label, W: Shipper> Store<D, O, N, W> {
    /// What this caller has seen, for another to learn. It takes no memory.
    pub fn note(&self, pass: &mut Pass) -> Note
        requires of { IsCallerOf O.Contents N.table N.base pass.old }
        ensures of { IsCallerOf O.Contents N.table N.base pass.new }
        ensures same { IsSameCaller pass.old pass.new }
        ensures still { pass.new.view ≡ record pass.old.view { steps = pass.new.view.steps } }
        ensures note { result.token.table_id ≡ N.table }
        // The note has what the caller has seen, and the moments of that.
        ensures seen { (noted result).seen ≡ pass.old.view.seen }
        ensures moments { (noted result).moments ≡ pass.old.view.moments }
    {
        self.shared.note(&mut pass.seat)
    }

    /// From now on this caller has seen at least what the note's caller had as it made it. So what it
    /// reads later is no older than what that caller had read or done. It takes no memory.
    pub fn learn(&self, pass: &mut Pass, note: Note)
        requires of { IsCallerOf O.Contents N.table N.base pass.old }
        requires note { note.token.table_id ≡ N.table }
        ensures of { IsCallerOf O.Contents N.table N.base pass.new }
        ensures same { IsSameCaller pass.old pass.new }
        // What the caller has now seen begins with all that it had seen.
        ensures later { StartsWith pass.new.view.seen pass.old.view.seen }
        // What the caller has now seen begins with all that the note's caller had seen, too.
        ensures learnt { StartsWith pass.new.view.seen (noted note).seen }
        // It knows the moments at which what it has now seen was committed, and those that it knew stay.
        ensures dated { IsDatedBy O.Contents (on_words O.machine) N.base
            pass.old.view pass.new.view }
        // Those that the note's caller knew are among them.
        ensures moments { StartsWith pass.new.view.moments (noted note).moments }
        // Of what the caller knows only what it has seen, its moments, what it keeps of others and the number of
        // its steps change.
        ensures still { pass.new.view ≡ record pass.old.view {
          seen = pass.new.view.seen;
          moments = pass.new.view.moments;
          joined = pass.new.view.joined;
          steps = pass.new.view.steps;
        } }
    {
        self.shared.learn(&mut pass.seat, note);
    }
}
