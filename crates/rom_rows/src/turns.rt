//! What the writer does at a table beside its readers, and what one reader tells another.
ghost use Rattle.std.specs.Prelude.{◌≡◌, ℕ, ◌<◌};
ghost use Rattle.rom_model.specs.Blocks.{region_len};
ghost use Rattle.rom_model.specs.Seen.{StartsWith};
ghost use Rattle.rom_lr.specs.Seats.{IsSeatOf, IsWriterOf, view, writer_view};
ghost use Rattle.rom_rows.specs.Untouched.{AtRest};
ghost use Rattle.rom_rule.specs.declared.views.Position.TheVariants.{Out};

use rom_heap::Trio;
use rom_lr::{Seat, Shared, Side, WriterSeat};
use std::sync::Wait;

/// Sends readers to main, and waits until back is left.
pub fn to_main<R: Wait>(rt: &R, shared: &Shared<Trio>, writer: &mut WriterSeat)
    requires of { IsWriterOf shared.now writer.old }
    requires rests { AtRest (writer_view writer.old) }
    ensures of { IsWriterOf shared.now writer.new }
    ensures rests { AtRest (writer_view writer.new) }
{
    shared.switch(writer, Side::Main, 0, 0);
    shared.settle(rt, writer);
}

/// Sends readers to back, and waits until main is left.
pub fn to_back<R: Wait>(rt: &R, shared: &Shared<Trio>, writer: &mut WriterSeat)
    requires of { IsWriterOf shared.now writer.old }
    requires rests { AtRest (writer_view writer.old) }
    ensures of { IsWriterOf shared.now writer.new }
    ensures rests { AtRest (writer_view writer.new) }
{
    shared.switch(writer, Side::Back, 0, 0);
    shared.settle(rt, writer);
}

/// Sends readers to main, stores a word on back once that is left, and tells what the word was before
/// and is then.
pub fn change_back<R: Wait>(
    rt: &R,
    shared: &Shared<Trio>,
    writer: &mut WriterSeat,
    at: u64,
    value: u64,
) -> (u64, u64)
    requires of { IsWriterOf shared.now writer.old }
    requires rests { AtRest (writer_view writer.old) }
    requires inside { at < region_len shared.now.layout.order }
    ensures of { IsWriterOf shared.now writer.new }
    ensures stored { result.1 ≡ value }
{
    shared.switch(writer, Side::Main, 0, 0);
    shared.settle(rt, writer);
    let before = shared.load_back(writer, at);
    shared.store_back(writer, at, value);
    (before, shared.load_back(writer, at))
}

/// Sends readers to main and to back again, stores a word on main once that is left, and tells what
/// the word is then.
pub fn change_main<R: Wait>(
    rt: &R,
    shared: &Shared<Trio>,
    writer: &mut WriterSeat,
    at: u64,
    value: u64,
) -> u64
    requires of { IsWriterOf shared.now writer.old }
    requires rests { AtRest (writer_view writer.old) }
    requires inside { at < region_len shared.now.layout.order }
    ensures of { IsWriterOf shared.now writer.new }
    ensures stored { result ≡ value }
{
    to_main(rt, shared, writer);
    shared.switch(writer, Side::Back, 0, 0);
    // Whoever still reads main leaves it.
    shared.settle(rt, writer);
    // Now nobody reads it.
    shared.store_main(writer, at, value);
    shared.load_main(writer, at)
}

/// Tells the second caller what the first has seen.
pub fn tell(shared: &Shared<Trio>, first: &mut Seat, second: &mut Seat)
    requires first { IsSeatOf shared.now first.old }
    requires second { IsSeatOf shared.now second.old }
    requires first_out { (view first.old).position ≡ Out }
    requires second_out { (view second.old).position ≡ Out }
    ensures first { IsSeatOf shared.now first.new }
    ensures second { IsSeatOf shared.now second.new }
    ensures first_out { (view first.new).position ≡ Out }
    ensures second_out { (view second.new).position ≡ Out }
    ensures told { StartsWith (view second.new).seen (view first.old).seen }
{
    let note = shared.note(first);
    shared.learn(second, note);
}
