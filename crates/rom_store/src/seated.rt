//! A table whose callers have their seats.
ghost use Rattle.std.specs.Prelude.{◌≡◌, ℕ, ◌*◌, All, IfOk, map};
ghost use Rattle.rom_model.specs.Blocks.{IsOrder};
ghost use Rattle.rom_model.specs.VecSpace.{words_of_space};
ghost use Rattle.rom_lr.specs.Seats.{view};
ghost use Rattle.rom_combine.specs.AtRest.{IsReady};
ghost use Rattle.rom_rule.specs.Kinds.{IsIdleView};
ghost use Rattle.rom_rule.specs.Places.{AreCallers};
ghost use Rattle.rom_store.specs.Callers.{caller_at};
ghost use Rattle.rom_store.specs.Seating.{IsSeated, base_for};

use crate::begun::Begun;
use crate::pass::Pass;
use rom_lr::{Seat, Shared, WriterSeat};
use rom_model::{Object, VecSpace};
use rom_ranges::RangeLog;
use std::alloc::{AllocError, Global};
use std::snapshot::Snapshot;

/// The table of a heap's words, with the writer's seat, a log with room for the stores of a call of
/// the greatest weight of each caller, and a pass for each. The device is still to come; nothing takes
/// memory from here on.
#[derive(Drop)]
pub(crate) struct Seated<O: Object> {
    pub shared: Shared<O>,
    pub writer: WriterSeat,
    pub log: RangeLog,
    pub passes: Vec<Pass>,
    pub begun: Begun,
}

// A pass for each seat, in their order.
fn passes_of(alloc: Global, seats: Vec<Seat>) -> Result<Vec<Pass>, AllocError>
    requires idle { All (λ s. IsIdleView (view s)) seats.items }
    ensures passes { IfOk result (λ passes. passes.items ≡ map caller_at seats.items) }
{
    let mut passes = Vec::with_capacity(alloc, seats.len())?;
    for seat in seats {
        passes.push_reserved(Pass::of(seat));
    }
    Ok(passes)
}

// A log with room for the stores of a call of the greatest weight of each caller. An object's numbers of
// stores and of weight may be any; where so many words cannot be counted, there is no memory for them
// either.
fn log_for<O: Object>(alloc: Global, callers: u32) -> Result<RangeLog, AllocError>
    ensures { IfOk result (λ log. IsReady (O.STORES * O.WEIGHT) callers log) }
{
    let stores = O::STORES.checked_mul(O::WEIGHT).ok_or(AllocError)?;
    let room = stores.checked_mul(u64::from(callers)).ok_or(AllocError)?;
    RangeLog::with_room(alloc, room)
}

impl<O: Object> Seated<O> {
    /// The table of this image, for so many callers. `faults` is the device's count of faults.
    pub fn new(
        alloc: Global,
        order: u32,
        callers: u32,
        image: &VecSpace,
        faults: u64,
    ) -> Result<Self, AllocError>
        requires order { IsOrder order }
        requires callers { AreCallers callers }
        requires formed { (s : O.State) × (k : ℕ) × O.Contents order (words_of_space image.now) s k }
        ensures { IfOk result (λ t. IsSeated O.Contents (O.STORES * O.WEIGHT)
            (base_for order callers (words_of_space image.now) faults) t) }
    {
        let (shared, writer, seats) = Shared::new(alloc, order, callers, image.words(), faults)?;
        let log = log_for::<O>(alloc, callers)?;
        let passes = passes_of(alloc, seats)?;
        let begun = Begun {
            order,
            image: Snapshot::of(image),
            faults,
        };
        Ok(Seated {
            shared,
            writer,
            log,
            passes,
            begun,
        })
    }
}
