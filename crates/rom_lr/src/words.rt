//! The writer's loads and stores of region words.
ghost use Rattle.std.specs.Prelude.{◌≡◌, ℕ, ◌+◌, ◌<◌, slice_index, slice_set};
ghost use Rattle.rom_model.specs.Blocks.{region_len};
ghost use Rattle.rom_lr.specs.Seats.{IsWriterOf, plan, steps_of};
ghost use Rattle.rom_lr.specs.Writing.{NobodyReads, SetsPlan};
ghost use Rattle.rom_lr.specs.declared.side.Side.TheVariants.{Back, Main};

use crate::seats::WriterSeat;
use crate::shared::Shared;
use rom_model::Object;
use rom_rule::{LoadsRegion, StoresBack, StoresMain};

impl<O: Object> Shared<O> {
    /// Word `at` of shared main, an offset from the region's start, in one step. Readers of either
    /// side may be about.
    pub fn load_main(&self, seat: &mut WriterSeat, at: u64) -> u64
        requires of { IsWriterOf self.now seat.old }
        requires inside { at < region_len self.now.layout.order }
        ensures still { SetsPlan seat.old seat.new (plan seat.old) }
        ensures step { steps_of seat.new ≡ steps_of seat.old + 1 }
        ensures word { result ≡ slice_index (plan seat.old).main at }
    {
        let word = (self.main + at) as usize;
        self.table.shared.load::<LoadsRegion>(&mut seat.token, word)
    }

    /// Word `at` of shared back, an offset from the region's start, in one step. Readers of either
    /// side may be about.
    pub fn load_back(&self, seat: &mut WriterSeat, at: u64) -> u64
        requires of { IsWriterOf self.now seat.old }
        requires inside { at < region_len self.now.layout.order }
        ensures still { SetsPlan seat.old seat.new (plan seat.old) }
        ensures step { steps_of seat.new ≡ steps_of seat.old + 1 }
        ensures word { result ≡ slice_index (plan seat.old).back at }
    {
        let word = (self.back + at) as usize;
        self.table.shared.load::<LoadsRegion>(&mut seat.token, word)
    }

    /// Replaces word `at` of shared main, an offset from the region's start, in one step. It is asked
    /// for only while nobody reads main: so what a reader has of it never changes under its hands.
    pub fn store_main(&self, seat: &mut WriterSeat, at: u64, value: u64)
        requires of { IsWriterOf self.now seat.old }
        requires inside { at < region_len self.now.layout.order }
        // Nobody reads main.
        requires unread { NobodyReads seat.old Main }
        ensures stored { let p = plan seat.old in
            SetsPlan seat.old seat.new (record p { main = slice_set p.main at value }) }
        ensures step { steps_of seat.new ≡ steps_of seat.old + 1 }
    {
        let word = (self.main + at) as usize;
        self.table
            .shared
            .store::<StoresMain>(&mut seat.token, word, value);
    }

    /// Replaces word `at` of shared back, an offset from the region's start, in one step. It is asked
    /// for only while nobody reads back.
    pub fn store_back(&self, seat: &mut WriterSeat, at: u64, value: u64)
        requires of { IsWriterOf self.now seat.old }
        requires inside { at < region_len self.now.layout.order }
        // Nobody reads back.
        requires unread { NobodyReads seat.old Back }
        ensures stored { let p = plan seat.old in
            SetsPlan seat.old seat.new (record p { back = slice_set p.back at value }) }
        ensures step { steps_of seat.new ≡ steps_of seat.old + 1 }
    {
        let word = (self.back + at) as usize;
        self.table
            .shared
            .store::<StoresBack>(&mut seat.token, word, value);
    }
}
