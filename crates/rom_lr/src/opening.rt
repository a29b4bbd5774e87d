//! How a table is opened, and its callers get their seats.
ghost use Rattle.std.specs.Prelude.{◌≡◌, ℕ, ◌+◌, ◌<◌, ◌≤◌, IfOk, length};
ghost use Rattle.rom_model.specs.Blocks.{IsOrder, region_len};
ghost use Rattle.rom_lr.specs.Opening.{AreNewSeats, dealt_view};
ghost use Rattle.rom_lr.specs.Seats.{IsSameWriter, IsSeatOf, IsWriterOf, opened_with, plan, view, writer_view};
ghost use Rattle.rom_lr.specs.Writing.{NobodyReads};
ghost use Rattle.rom_lr.specs.declared.side.Side.TheVariants.{Main};
ghost use Rattle.rom_rule.specs.Kinds.{dealing, newcomer};
ghost use Rattle.rom_rule.specs.Places.{AreCallers, opening_words};
ghost use Rattle.rom_rule.specs.Views.{opening_view};

use crate::seats::{Seat, WriterSeat};
use crate::shared::Shared;
use crate::side::Side;
use atomic_table::Table;
use crossbeam_utils::CachePadded;
use rom_model::Object;
use rom_rule::{Deals, Key, Layout};
use std::alloc::{AllocError, Global};
use std::snapshot::Snapshot;
use std::sync::atomic::AtomicU64;

/// The words of a table as it is opened: readers are sent to back, no call is posted, and both sides
/// hold the image.
fn opening_words(alloc: Global, layout: Layout, image: &[u64]) -> Result<Vec<u64>, AllocError>
    ensures is { IfOk result (λ words. words.items ≡ opening_words layout.callers image.now) }
{
    let mut words = Vec::from_elem(alloc, 0u64, layout.main(0) as usize)?;
    words[layout.side() as usize] = Side::Back.number();
    words.extend_from_slice(image)?;
    words.extend_from_slice(image)?;
    Ok(words)
}

impl<O: Object> Shared<O> {
    /// The table of a heap's order, from 4 to 16, and a number of callers, from 1 to 16, with the
    /// writer's seat and the seats of all callers, in the order of their numbers. The image is a
    /// well-formed region of that order. Both sides hold it, readers are sent to back, and both waits
    /// count as over. `faults` is the device's count of faults, from which the records of passes go
    /// on. There is no other error than want of memory, and nothing is left behind then.
    pub fn new(
        alloc: Global,
        order: u32,
        callers: u32,
        image: &[u64],
        faults: u64,
    ) -> Result<(Shared<O>, WriterSeat, Vec<Seat>), AllocError>
        requires order { IsOrder order }
        requires callers { AreCallers callers }
        requires sized { length image.now ≡ region_len order }
        requires formed { (s : O.State) × (k : ℕ) × O.Contents order image.now s k }
        ensures of { IfOk result (λ opened. IsWriterOf opened.0 opened.1) }
        ensures layout { IfOk result (λ opened. (opened.0.layout.order ≡ order)
            × (opened.0.layout.callers ≡ callers)) }
        // The table is opened with this order, number of callers, image and count of faults.
        ensures base { IfOk result (λ opened. opened_with opened.0
            ≡ record { order = order; callers = callers; image = image.now; faults = faults }) }
        ensures writer { IfOk result (λ opened. writer_view opened.1
            ≡ dealt_view (opened_with opened.0) callers) }
        // Readers are sent to back, and nobody reads main.
        ensures unread { IfOk result (λ opened. NobodyReads opened.1 Main) }
        ensures many { IfOk result (λ opened. length opened.2.items ≡ callers) }
        // The seats are those of the callers from 1 on, in order, which have seen and done nothing.
        ensures seats { IfOk result (λ opened. AreNewSeats opened.0 opened.2.items) }
    {
        let (shared, mut writer) = Shared::open(alloc, order, callers, image, faults)?;
        let seats = shared.deal_all(alloc, &mut writer)?;
        Ok((shared, writer, seats))
    }

    // The table with the writer's seat alone.
    fn open(
        alloc: Global,
        order: u32,
        callers: u32,
        image: &[u64],
        faults: u64,
    ) -> Result<(Shared<O>, WriterSeat), AllocError>
        requires order { IsOrder order }
        requires callers { AreCallers callers }
        requires sized { length image.now ≡ region_len order }
        requires formed { (s : O.State) × (k : ℕ) × O.Contents order image.now s k }
        ensures of { IfOk result (λ opened. IsWriterOf opened.0 opened.1) }
        ensures layout { IfOk result (λ opened. (opened.0.layout.order ≡ order)
            × (opened.0.layout.callers ≡ callers)) }
        ensures base { IfOk result (λ opened. opened_with opened.0
            ≡ record { order = order; callers = callers; image = image.now; faults = faults }) }
        ensures view { IfOk result (λ opened. writer_view opened.1
            ≡ opening_view (opened_with opened.0)) }
    {
        let layout = Layout::new(order, callers);
        // Both sides are made of the one image: the device has both regions equal then, and to read the other
        // one too would tell nothing new.
        let words = opening_words(alloc, layout, image)?;
        let key = Key {
            layout,
            words: Snapshot::of(&words),
            faults,
        };
        let (table, token) = Table::of_words(alloc, words.as_slice(), &key)?;
        let shared = Shared {
            table,
            layout,
            main: layout.main(0),
            back: layout.back(0),
            asleep: CachePadded::new(AtomicU64::new(0)),
        };
        Ok((shared, WriterSeat { token, version: 0 }))
    }

    // The seats of all callers, from 1 on.
    fn deal_all(&self, alloc: Global, writer: &mut WriterSeat) -> Result<Vec<Seat>, AllocError>
        requires of { IsWriterOf self.now writer.old }
        requires opened { writer_view writer.old ≡ opening_view (opened_with self.now) }
        ensures of { IsWriterOf self.now writer.new }
        ensures writer { IfOk result (λ _. writer_view writer.new
            ≡ dealt_view (opened_with self.now) self.now.layout.callers) }
        ensures many { IfOk result (λ seats. length seats.items ≡ self.now.layout.callers) }
        ensures seats { IfOk result (λ seats. AreNewSeats self.now seats.items) }
    {
        let mut seats = Vec::new(alloc);
        for i in 0..self.layout.callers() {
            let seat = self.deal(writer, i + 1);
            seats.push(seat)?;
        }
        Ok(seats)
    }

    // The seat of the next caller. Numbers go from 1, and none is given twice.
    fn deal(&self, writer: &mut WriterSeat, number: u32) -> Seat
        requires of { IsWriterOf self.now writer.old }
        requires next { number ≡ (plan writer.old).dealt + 1 }
        requires left { number ≤ self.now.layout.callers }
        ensures of { IsSeatOf self.now result }
        ensures number { result.number ≡ number }
        ensures seat { view result ≡ newcomer (writer_view writer.old) }
        ensures same { IsSameWriter writer.old writer.new }
        ensures writer { writer_view writer.new ≡ dealing (writer_view writer.old) }
    {
        let token = self.table.shared.split_seat::<Deals>(&mut writer.token);
        Seat {
            token,
            number,
            home: self.layout.indicator(number, 0),
            version: 0,
            side: Side::Back,
            first: 0,
            posted: 0,
        }
    }
}
