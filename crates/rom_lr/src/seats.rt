//! Seats at the shared words.
ghost use Rattle.std.specs.Prelude.{◌≡◌, ◌^◌, ◌<◌, ◌≤◌, [], IsTrue, None, length};
ghost use Rattle.rom_model.specs.Blocks.{region_len};
ghost use Rattle.rom_lr.specs.Side.{side_number};
ghost use Rattle.rom_rule.specs.Places.{indicator_at, indicator_of, side_word_at};
ghost use Rattle.rom_rule.specs.Views.{IsWriter, indicator_in, is_reading, plan_of, side_read};
ghost use Rattle.rom_rule.specs.declared.views.Position.TheVariants.{Out};

use crate::side::Side;
use rom_rule::Token;

/// A caller's seat. A thread may take it along.
#[derive(Drop)]
pub struct Seat {
    pub token: Token,
    /// The caller's number; callers are numbered from 1.
    pub number: u32,
    // Where the first of its indicators stands, so that no arrival or departure counts it out anew. The
    // indicator of a version follows it by that version.
    pub(crate) home: u64,
    /// While it reads, the version at whose indicator it arrived, the side that it reads, and where
    /// that side's words begin in the table. So `leave` and `load` look nothing up: a word costs a sum and a
    /// load.
    pub version: u64,
    pub side: Side,
    pub first: u64,
    /// How many calls it has posted.
    pub posted: u64,
    ghost bare: { token.me.1 ≡ [] },
    ghost plain: { token.me.0.plan ≡ None },
    ghost own: { number ≡ token.me.0.number },
    ghost counted: { posted ≡ length token.me.0.calls },
    ghost numbered: { 0 < token.me.0.number },
    ghost within: { token.me.0.number ≤ token.me.0.base.callers },
    ghost known: { IsTrue (is_reading token.me.0.position) →
        (indicator_of number version ≡ indicator_in token.me.0.position) × (version < 2)
        × (side_number side ≡ side_read token.me.0.position)
        × (first ≡ side_word_at token.me.0.base.order token.me.0.base.callers
        (side_read token.me.0.position) 0) },
    ghost near: { first < 2 ^ 32 },
    ghost placed: { (home ≡ indicator_at (indicator_of number 0)) × (home < 2 ^ 32) },
}

/// The writer's seat. There is one.
#[derive(Drop)]
pub struct WriterSeat {
    pub token: Token,
    /// What the word `version` is.
    pub version: u64,
    ghost bare: { token.me.1 ≡ [] },
    ghost writes: { IsWriter token.me.0 (plan_of token.me.0) },
    ghost sized: { (length (plan_of token.me.0).main ≡ region_len token.me.0.base.order)
        × (length (plan_of token.me.0).back ≡ region_len token.me.0.base.order) },
    ghost out: { token.me.0.position ≡ Out },
    ghost named: { (version ≡ (plan_of token.me.0).version) × (version < 2) },
}
