//! A store that is closed.
ghost use Rattle.std.specs.Prelude.{◌≡◌, ℕ, ◌+◌, length};
ghost use Rattle.rom_model.specs.History.{after};
ghost use Rattle.rom_model.specs.Machine.{on_words};

use crate::begun::Begun;
use crate::session::Session;
use rom_combine::ask_main;
use rom_device::Device;
use rom_lr::{Shared, WriterSeat};
use rom_model::Object;
use rom_twin::Twin;
use std::marker::Model;

/// A heap whose callers are all done: the last published state can be asked, and then the device be
/// taken back, with the session.
#[derive(Drop)]
pub struct Closed<D: Device, O: Object> {
    pub(crate) twin: Twin<D>,
    pub(crate) shared: Shared<O>,
    pub(crate) seat: WriterSeat,
    pub(crate) begun: Begun,
    pub(crate) count: u64,
}

impl<D: Device, O: Object> Model for Closed<D, O> {
    ghost use Rattle.rom_model.specs.VecSpace.{words_of_space};
    ghost use Rattle.rom_model.specs.Machine.{on_words};
    ghost use Rattle.rom_lr.specs.Seats.{plan, writer_view};
    ghost use Rattle.rom_rule.specs.Views.{records_of};
    ghost use Rattle.rom_store.specs.Closing.{ClosedSeen, IsClosedStore};

    ghost Value = { ClosedSeen D };

    ghost view = { λ c. record {
      device = c.twin.device;
      session = record {
        order = c.begun.order;
        image = words_of_space c.begun.image.value;
        faults = c.begun.faults;
        history = (plan c.seat).history;
        records = records_of (plan c.seat);
        phase = c.twin.phase;
        callers = (writer_view c.seat).joined;
      };
    } };

    ghost invariant = { λ c. let table = c.shared.table.shared in
        IsClosedStore O.Contents (on_words O.machine) table.table_id table.key
        c.seat c.begun c.count };
}

impl<D: Device, O: Object> Closed<D, O> {
    /// The heap's order.
    pub fn order(&self) -> u32
        ensures { result ≡ self.now.session.order }
    {
        self.begun.order
    }

    /// The count of updates at the closing.
    pub fn count(&self) -> u64
        // The count is that at the opening, and one more for each entry of the session's history.
        ensures { let b = self.now.session in
            (s : O.State) (k : ℕ) → O.Contents b.order b.image s k →
            result ≡ k + length b.history }
    {
        self.count
    }

    /// Answers a query from the last published state.
    pub fn ask(&mut self, query: &O::Query) -> O::Answer
        ensures still { self.new ≡ self.old }
        // The answer is the object's in the state after the whole history of the session.
        ensures told { let b = self.old.session in
            (s : O.State) (k : ℕ) → O.Contents b.order b.image s k →
            result ≡ O.machine.tell (after (on_words O.machine) b.order s k b.history) query.now }
    {
        ask_main(&self.shared, &mut self.seat, query)
    }

    /// The device, and what the session was.
    pub fn parts(self) -> (D, Session)
        ensures device { result.0 ≡ self.device }
        ensures session { result.1 ≡ self.session }
    {
        let Closed {
            twin,
            shared: _,
            seat,
            begun,
            count: _,
        } = self;
        let phase = twin.phase();
        let WriterSeat { token, version: _ } = seat;
        (
            twin.into_device(),
            Session::of(begun, token.into_badge(), phase),
        )
    }
}
