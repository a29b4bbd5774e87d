//! How the writer takes in what callers knew, and sees that the records agree with it.
ghost use Rattle.std.specs.Prelude.{◌≡◌, ℕ, ◌<◌, ◌≤◌, length};
ghost use Rattle.std.specs.List.{AllByRecursion};
ghost use Rattle.rom_model.specs.Machine.{on_words};
ghost use Rattle.rom_lr.specs.Seats.{IsAnswered, IsSameWriter, IsSeatOf, IsWriterOf, view, writer_view};
ghost use Rattle.rom_rule.specs.Calls.{told_to_caller};
ghost use Rattle.rom_rule.specs.Kinds.{informed, planned};
ghost use Rattle.rom_rule.specs.Records.{IsKeptInBook, Recorded};
ghost use Rattle.rom_rule.specs.Views.{book_in, plan_of};
ghost use Rattle.rom_rule.specs.declared.views.Position.TheVariants.{Out};

use crate::seats::{Seat, WriterSeat};
use crate::shared::Shared;
use rom_model::Object;
use rom_rule::{JoinsViews, Origin, Reviews};
use std::marker::Brand;

impl<O: Object> Shared<O> {
    /// The writer keeps what a caller knew, in one step. The caller is out and has no call posted,
    /// and its seat is spent. It takes no memory.
    pub fn take_in(&self, writer: &mut WriterSeat, seat: Seat)
        requires of { IsWriterOf self.now writer.old }
        requires caller { IsSeatOf self.now seat }
        requires out { (view seat).position ≡ Out }
        requires none_posted { IsAnswered seat }
        ensures same { IsSameWriter writer.old writer.new }
        // The writer keeps what the caller knew, and what that caller had learnt of others.
        ensures joined { writer_view writer.new ≡ informed (writer_view writer.old) (view seat) }
    {
        self.take_in_as::<Brand>(writer, seat);
    }

    // The caller's view is spent, and then it is as the opening left every other one.
    fn take_in_as<N: Origin>(&self, writer: &mut WriterSeat, seat: Seat)
        requires picked { N.base ≡ (writer_view writer.old).base }
        requires of { IsWriterOf self.now writer.old }
        requires caller { IsSeatOf self.now seat }
        requires out { (view seat).position ≡ Out }
        requires none_posted { IsAnswered seat }
        ensures same { IsSameWriter writer.old writer.new }
        ensures joined { writer_view writer.new ≡ informed (writer_view writer.old) (view seat) }
    {
        self.table
            .shared
            .join_seat::<JoinsViews<N>>(&mut writer.token, seat.token);
    }

    /// Sees, in one step, that the records of all passes agree with what the writer keeps of
    /// callers: each was told what they told it, and what it had seen begins the published history,
    /// which is theirs. They have no calls but those of the table's callers.
    pub fn review(&self, writer: &mut WriterSeat)
        requires of { IsWriterOf self.now writer.old }
        ensures same { IsSameWriter writer.old writer.new }
        ensures still { let v = writer_view writer.old in
            writer_view writer.new ≡ planned v (plan_of v) }
        // Each caller that was taken in was told of its calls what the records tell.
        ensures told { let v = writer_view writer.new in
            AllByRecursion (λ k. 0 < k.number → told_to_caller (plan_of v).told k.number ≡ k.told)
            v.joined }
        // The records tell of calls of the table's callers alone.
        ensures known { let v = writer_view writer.new in
            AllByRecursion (λ x. (0 < x.0.caller) × (x.0.caller ≤ v.base.callers))
            (plan_of v).told }
        // The published history is the one that the records make. What each caller that was taken in had seen
        // begins it, and each of its fronts is the count at the opening or after a pass.
        ensures kept { let v = writer_view writer.new in
            (s : O.State) (n : ℕ) → O.Contents v.base.order v.base.image s n →
            Recorded (on_words O.machine) v.base s n (book_in (plan_of v))
            × AllByRecursion (IsKeptInBook n (book_in (plan_of v))) v.joined }
    {
        self.table
            .shared
            .load::<Reviews<O>>(&mut writer.token, self.layout.side() as usize);
    }
}
