//! A caller's right to call.
ghost use Rattle.std.specs.Prelude.{◌≡◌, ◌<◌};
ghost use Rattle.rom_lr.specs.Seats.{view};
ghost use Rattle.rom_rule.specs.Kinds.{IsIdleView};
ghost use Rattle.rom_store.specs.Callers.{caller_at};

use rom_lr::Seat;
use std::marker::Model;

/// One caller's right to call. A store makes it as it is started, one for each caller, and a thread may
/// take it along. It keeps what its caller has seen and was told. Between two calls nothing is entered
/// and nothing is posted.
#[derive(Drop)]
pub struct Pass {
    pub(crate) seat: Seat,
}

// Contracts see a pass as a caller, and name no field of its seat. The type's invariant says that the caller
// is out, with no call posted: so no contract carries that into a thread and back.
impl Model for Pass {
    ghost use Rattle.rom_rule.specs.Kinds.{IsIdleView};
    ghost use Rattle.rom_store.specs.Callers.{Caller, caller_at};

    ghost Value = { Caller };

    ghost view = { λ p. caller_at p.seat };

    ghost invariant = { λ p. IsIdleView (caller_at p.seat).view };
}

impl Pass {
    /// The right of a seat's caller.
    pub(crate) fn of(seat: Seat) -> Self
        requires { IsIdleView (view seat) }
        ensures { result ≡ caller_at seat }
    {
        Pass { seat }
    }

    /// The caller's number; callers are numbered from 1.
    pub fn number(&self) -> u32
        ensures number { result ≡ self.now.view.number }
        ensures from_one { 0 < result }
    {
        self.seat.number
    }
}
