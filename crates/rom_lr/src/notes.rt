//! Notes, by which one caller tells another what it has seen.
ghost use Rattle.std.specs.Prelude.{◌≡◌, ℕ, ◌+◌};
ghost use Rattle.rom_model.specs.Machine.{on_words};
ghost use Rattle.rom_lr.specs.Notes.{HasLearnt};
ghost use Rattle.rom_lr.specs.Seats.{IsNoteOf, IsSameSeat, IsSeatOf, noted, view};
ghost use Rattle.rom_rule.specs.Kinds.{note_of, noting};
ghost use Rattle.rom_rule.specs.declared.views.Position.TheVariants.{Out};

use crate::note::Note;
use crate::seats::Seat;
use crate::shared::Shared;
use rom_model::Object;
use rom_rule::{CatchesUp, JoinsViews, Origin, TakesNote};
use std::marker::Brand;

impl<O: Object> Shared<O> {
    /// What the seat has seen, for another to learn, in one step. It takes no memory.
    pub fn note(&self, seat: &mut Seat) -> Note
        requires of { IsSeatOf self.now seat.old }
        requires out { (view seat.old).position ≡ Out }
        ensures same { IsSameSeat seat.old seat.new }
        ensures still { view seat.new ≡ noting (view seat.old) }
        ensures of { IsNoteOf self.now result }
        ensures note { noted result ≡ note_of (view seat.old) }
    {
        let token = self.table.shared.split_seat::<TakesNote>(&mut seat.token);
        Note { token }
    }

    /// The seat has then seen as much as it and the note's caller had, and keeps what the note knew,
    /// in two steps. So what it reads later is no older than what that caller had read. It takes no
    /// memory.
    pub fn learn(&self, seat: &mut Seat, note: Note)
        requires of { IsSeatOf self.now seat.old }
        requires out { (view seat.old).position ≡ Out }
        requires note { IsNoteOf self.now note }
        ensures same { IsSameSeat seat.old seat.new }
        // What the seat has now seen begins with what it had seen, and with what the note's caller had. Its
        // moments are those of this, and those that it and the note knew stay.
        ensures learnt { HasLearnt O.Contents (on_words O.machine) (view seat.old) (noted note)
            (view seat.new) }
    {
        self.learn_as::<Brand>(seat, note);
    }

    // The note's view is spent, and then it is as the opening left every other one.
    fn learn_as<N: Origin>(&self, seat: &mut Seat, note: Note)
        requires picked { N.base ≡ (view seat.old).base }
        requires of { IsSeatOf self.now seat.old }
        requires out { (view seat.old).position ≡ Out }
        requires note { IsNoteOf self.now note }
        ensures same { IsSameSeat seat.old seat.new }
        ensures learnt { HasLearnt O.Contents (on_words O.machine) (view seat.old) (noted note)
            (view seat.new) }
    {
        let Note { token } = note;
        let table = &self.table.shared;
        table.join_seat::<JoinsViews<N>>(&mut seat.token, token);
        table.load::<CatchesUp<O>>(&mut seat.token, self.layout.side() as usize);
    }
}
