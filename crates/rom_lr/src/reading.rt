//! How a caller reads. No call here waits, takes memory or can be refused.
ghost use Rattle.std.specs.Prelude.{◌≡◌, ℕ, ◌+◌, ◌<◌, slice_index, IsTrue};
ghost use Rattle.rom_model.specs.Blocks.{region_len};
ghost use Rattle.rom_model.specs.Machine.{on_words};
ghost use Rattle.rom_lr.specs.Reading.{HasEntered, HasStepped};
ghost use Rattle.rom_lr.specs.Seats.{IsSameSeat, IsSeatOf, view};
ghost use Rattle.rom_lr.specs.Side.{side_number};
ghost use Rattle.rom_rule.specs.Kinds.{moved};
ghost use Rattle.rom_rule.specs.Views.{image_of, is_reading, side_read};
ghost use Rattle.rom_rule.specs.declared.views.Position.TheVariants.{Out};

use crate::seats::Seat;
use crate::shared::Shared;
use crate::side::Side;
use rom_model::Object;
use rom_rule::{Arrives, Departs, LoadsImage, LoadsSide, LoadsVersion};

impl<O: Object> Shared<O> {
    /// Enters the side that readers are sent to, in three steps, and tells which it is. From then on
    /// the seat reads one committed image of it: that of the history that it has then seen.
    pub fn enter(&self, seat: &mut Seat) -> Side
        requires of { IsSeatOf self.now seat.old }
        requires out { (view seat.old).position ≡ Out }
        ensures same { IsSameSeat seat.old seat.new }
        // The image that the seat now reads stands for the state after all that it has now seen, which begins
        // with what it had seen. The front is the count there.
        ensures entered { HasEntered O.Contents (on_words O.machine) seat.old seat.new }
        ensures reads { IsTrue (is_reading (view seat.new).position) }
        ensures side { (result ≡ seat.new.side)
            × (side_number result ≡ side_read (view seat.new).position) }
    {
        let table = &self.table.shared;
        let version = table.load::<LoadsVersion>(&mut seat.token, self.layout.version() as usize);
        let indicator = (seat.home + version) as usize;
        table.store::<Arrives>(&mut seat.token, indicator, 1);
        let side = table.load::<LoadsSide<O>>(&mut seat.token, self.layout.side() as usize);
        seat.version = version;
        seat.side = if side == 0 { Side::Main } else { Side::Back };
        seat.first = match seat.side {
            Side::Main => self.main,
            Side::Back => self.back,
        };
        seat.side
    }

    /// Word `at` of the image that the seat reads, an offset from the region's start, in one step.
    pub fn load(&self, seat: &mut Seat, at: u64) -> u64
        requires of { IsSeatOf self.now seat.old }
        requires entered { IsTrue (is_reading (view seat.old).position) }
        requires inside { at < region_len self.now.layout.order }
        ensures same { IsSameSeat seat.old seat.new }
        ensures still { HasStepped seat.old seat.new 1 }
        // The word is that of the image, whatever the writer does meanwhile.
        ensures word { result ≡ slice_index (image_of (view seat.old).position) at }
    {
        let word = (seat.first + at) as usize;
        self.table.shared.load::<LoadsImage>(&mut seat.token, word)
    }

    /// Leaves the side, in one step. The seat is out then.
    pub fn leave(&self, seat: &mut Seat)
        requires of { IsSeatOf self.now seat.old }
        requires entered { IsTrue (is_reading (view seat.old).position) }
        ensures same { IsSameSeat seat.old seat.new }
        ensures out { view seat.new ≡ moved (view seat.old) Out }
    {
        let indicator = (seat.home + seat.version) as usize;
        self.table
            .shared
            .store::<Departs>(&mut seat.token, indicator, 0);
    }
}
