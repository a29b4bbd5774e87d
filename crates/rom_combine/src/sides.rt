//! One side made what the other is, where they differ.
ghost use Rattle.std.specs.Prelude.{◌≡◌, ℕ, ◌+◌, ◌<◌, ◌≤◌, slice_index, slice_set};
ghost use Rattle.rom_model.specs.Blocks.{region_len};
ghost use Rattle.rom_combine.specs.Copying.{Copies, with_side, words_at};
ghost use Rattle.rom_lr.specs.Seats.{IsWriterOf, plan, writer_view};
ghost use Rattle.rom_lr.specs.Side.{other_side};
ghost use Rattle.rom_lr.specs.Writing.{NobodyReads, SetsPlan};
ghost use Rattle.rom_ranges.specs.Changes.{SameBut};
ghost use Rattle.rom_ranges.specs.Ranges.{AreWithin};

use rom_lr::{Shared, Side, WriterSeat};
use rom_model::Object;
use rom_ranges::Range;

/// Makes a side what the other one is, while nobody reads it. The ranges hold where they differ. Its
/// callers write down which side, so no test of that is left in the compiled code.
#[inline(always)]
pub(crate) fn copy_to<O: Object>(
    shared: &Shared<O>,
    seat: &mut WriterSeat,
    side: Side,
    ranges: &[Range],
)
    requires of { IsWriterOf shared.now seat.old }
    requires unread { NobodyReads seat.old side }
    requires within { AreWithin (region_len (writer_view seat.old).base.order) ranges.now }
    requires but { let p = plan seat.old in
        SameBut ranges.now (words_at side p) (words_at (other_side side) p) }
    ensures { let p = plan seat.old in
        SetsPlan seat.old seat.new (with_side side (words_at (other_side side) p) p) }
{
    for range in ranges {
        copy_range(shared, seat, side, *range);
    }
}

#[inline(always)]
fn copy_range<O: Object>(shared: &Shared<O>, seat: &mut WriterSeat, side: Side, range: Range)
    requires of { IsWriterOf shared.now seat.old }
    requires unread { NobodyReads seat.old side }
    requires within { range.end ≤ region_len (writer_view seat.old).base.order }
    ensures kept { let p = plan seat.old in
        SetsPlan seat.old seat.new (with_side side (words_at side (plan seat.new)) p) }
    ensures copied { let p = plan seat.old in
        Copies range (words_at (other_side side) p) (words_at side p)
        (words_at side (plan seat.new)) }
{
    for at in range.start..range.end {
        copy_word(shared, seat, side, at);
    }
}

#[inline(always)]
fn copy_word<O: Object>(shared: &Shared<O>, seat: &mut WriterSeat, side: Side, at: u64)
    requires of { IsWriterOf shared.now seat.old }
    requires unread { NobodyReads seat.old side }
    requires inside { at < region_len (writer_view seat.old).base.order }
    ensures { let p = plan seat.old in
        let word = slice_index (words_at (other_side side) p) at in
        SetsPlan seat.old seat.new (with_side side (slice_set (words_at side p) at word) p) }
{
    match side {
        Side::Main => {
            let word = shared.load_back(seat, at);
            shared.store_main(seat, at, word);
        }
        Side::Back => {
            let word = shared.load_main(seat, at);
            shared.store_back(seat, at, word);
        }
    }
}
