//! Shared main as words that are only loaded, and queries of it.
ghost use Rattle.std.specs.Prelude.{◌≡◌, ℕ};
ghost use Rattle.rom_combine.specs.Looking.{unstepped};
ghost use Rattle.rom_lr.specs.Seats.{IsWriterOf, plan, writer_view};
ghost use Rattle.rom_lr.specs.Writing.{SetsPlan};
ghost use Rattle.rom_rule.specs.Views.{plan_of};

use rom_lr::{Shared, WriterSeat};
use rom_model::{Look, Object};

/// Shared main as words that are only loaded, whichever side is named. Each load is one of the
/// writer's steps. The steps of a batch on the device take their words from here, and from no space of
/// another kind: so what each step leaves is said once.
pub struct MainLook<'a, O: Object> {
    pub(crate) shared: &'a Shared<O>,
    pub(crate) seat: &'a mut WriterSeat,
    ghost of: { IsWriterOf shared.now seat.now },
}

impl<'a, O: Object> Look for MainLook<'a, O> {
    ghost use Rattle.std.specs.Prelude.{ℕ, false};
    ghost use Rattle.atomic_table.specs.Seated.{TableId};
    ghost use Rattle.rom_combine.specs.Looking.{unstepped};
    ghost use Rattle.rom_lr.specs.Seats.{plan, writer_view};
    ghost use Rattle.rom_rule.specs.declared.views.View.{View};

    ghost shown = { record {
      image = λ s. (plan s.seat.now).main;
      tells_loads = false;
      loads = λ _. 0;
      tells_stores = false;
      stores = λ _. 0;
      has_limit = false;
      limit = λ _. 0;
      Rest = ℕ × TableId × ℕ × View;
      rest = λ s. (
        s.seat.ghost_name,
        s.seat.now.token.table_id,
        s.seat.now.token.id,
        unstepped (writer_view s.seat.now),
      );
    } };

    fn load(&mut self, at: u64) -> u64 {
        self.shared.load_main(self.seat, at)
    }

    ghost limit_counts = { λ no. no };
}

/// Answers a query from shared main, whichever side is named. It neither waits nor takes memory.
pub fn ask_main<O: Object>(shared: &Shared<O>, seat: &mut WriterSeat, query: &O::Query) -> O::Answer
    requires of { IsWriterOf shared.now seat.old }
    // Shared main stands for some state and count of the object.
    requires region { let v = writer_view seat.old in
        (s : O.State) × (k : ℕ) × O.Contents v.base.order (plan_of v).main s k }
    ensures same { SetsPlan seat.old seat.new (plan seat.old) }
    // The answer is the object's in the state that shared main stands for.
    ensures told { let v = writer_view seat.old in (s : O.State) (k : ℕ) →
        O.Contents v.base.order (plan_of v).main s k → result ≡ O.machine.tell s query.now }
{
    let order = shared.layout.order();
    let mut look = MainLook { shared, seat };
    let answer = O::answer(&mut look, order, query);
    let MainLook { shared: _, seat: _ } = look;
    answer
}
