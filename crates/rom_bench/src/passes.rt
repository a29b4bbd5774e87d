//! Passes of a core behind a table of sixteen callers, on a heap of order 4 in memory. Before each pass every
//! caller posts a call, and after it takes the answer, by the calls with which a store does.
ghost use Rattle.std.specs.Prelude.{◌≡◌, ℕ, All, IfOk, IfSome, false, length, true};
ghost use Rattle.rom_combine.specs.AtRest.{IsCoreOf, IsReady};
ghost use Rattle.rom_lr.specs.Opening.{AreNewSeats, IsNewSeat, dealt_view};
ghost use Rattle.rom_lr.specs.Seats.{IsAnswered, IsPosted, IsSeatOf, IsWriterOf, opened_with, writer_view};
ghost use Rattle.rom_model.specs.Blocks.{region_len};
ghost use Rattle.rom_model.specs.Region.{Contents};
ghost use Rattle.rom_model.specs.State.{empty};
ghost use Rattle.rom_model.specs.VecSpace.{words_of_space};

use crate::stores::{ORDER, WORDS};
use rom_announce::{answered, post_words, take_into};
use rom_combine::{Core, NoGate, NoShipper};
use rom_device::Ram;
use rom_header::{Geometry, write_new};
use rom_heap::Trio;
use rom_lr::{Seat, Shared, WriterSeat};
use rom_model::{Args, Back, Call, LAST_COUNT, Object, VecSpace, new_region};
use rom_ranges::RangeLog;
use rom_twin::{Phase, Twin};
use std::alloc::{AllocError, Global};
use std::sync::Wait;

const CALLERS: u32 = 16;

/// A caller, and whether its call waits for an answer.
#[derive(Drop)]
pub struct Poster {
    seat: Seat,
    waits: bool,
    ghost open: { waits ≡ true → IsPosted seat },
    ghost closed: { waits ≡ false → IsAnswered seat },
}

impl Poster {
    /// A caller at its new seat.
    fn of(shared: &Shared<Trio>, seat: Seat) -> Poster
        requires new { (number : ℕ) × IsNewSeat shared.now number seat }
        ensures of { IsSeatOf shared.now result.seat }
    {
        Poster { seat, waits: false }
    }
}

/// Posts a caller's next call, which gives the map's one key another value, unless one waits.
fn post_next(shared: &Shared<Trio>, poster: &mut Poster, value: u64)
    requires of { IsSeatOf shared.now poster.old.seat }
    ensures of { IsSeatOf shared.now poster.new.seat }
{
    if !poster.waits && poster.seat.posted < LAST_COUNT {
        let mut words = Args::new();
        Trio::put_call_words(&Call::Put(1, value), &mut words);
        post_words(shared, &mut poster.seat, words.as_slice());
        poster.waits = true;
    }
}

/// Takes a caller's answer, and tells whether its call was done.
fn take_next(shared: &Shared<Trio>, poster: &mut Poster) -> bool
    requires of { IsSeatOf shared.now poster.old.seat }
    ensures of { IsSeatOf shared.now poster.new.seat }
{
    if !poster.waits || !answered(shared, &mut poster.seat) {
        return false;
    }
    let mut told = Back::new();
    let place = take_into(shared, &mut poster.seat, &mut told);
    poster.waits = false;
    place < LAST_COUNT
}

fn post_all(shared: &Shared<Trio>, posters: &mut [Poster], value: u64)
    requires of { All (λ p. IsSeatOf shared.now p.seat) posters.old }
    ensures of { All (λ p. IsSeatOf shared.now p.seat) posters.new }
{
    for poster in posters.iter_mut() {
        post_next(shared, poster, value);
    }
}

/// Takes all answers, and tells how many calls were done.
fn take_all(shared: &Shared<Trio>, posters: &mut [Poster]) -> u64
    requires of { All (λ p. IsSeatOf shared.now p.seat) posters.old }
    ensures of { All (λ p. IsSeatOf shared.now p.seat) posters.new }
{
    let mut done = 0u64;
    for poster in posters.iter_mut() {
        if take_next(shared, poster) {
            done = done.wrapping_add(1);
        }
    }
    done
}

/// Makes so many passes, and tells how many calls were done.
fn pass_all<R: Wait>(
    rt: &R,
    shared: &Shared<Trio>,
    core: &mut Core<Ram, Trio>,
    posters: &mut [Poster],
    passes: u64,
) -> u64
    requires core { IsCoreOf shared.now core.old }
    requires of { All (λ p. IsSeatOf shared.now p.seat) posters.old }
{
    let mut done = 0u64;
    for round in 0..passes {
        post_all(shared, posters, round);
        let mut none = NoShipper;
        core.pass(rt, shared, &NoGate, &mut none, &[]);
        let NoShipper = none;
        done = done.wrapping_add(take_all(shared, posters));
    }
    done
}

fn posters_of(
    alloc: Global,
    shared: &Shared<Trio>,
    seats: Vec<Seat>,
) -> Result<Vec<Poster>, AllocError>
    requires seats { AreNewSeats shared.now seats.items }
    ensures of { IfOk result (λ posters. All (λ p. IsSeatOf shared.now p.seat) posters.items) }
{
    let mut posters = Vec::with_capacity(alloc, seats.len())?;
    for seat in seats {
        posters.push(Poster::of(shared, seat))?;
    }
    Ok(posters)
}

/// The heap on a new device, both of whose regions have the words of that one. It is `None` where none
/// was made.
fn twin_of(alloc: Global, region: &VecSpace) -> Result<Option<Twin<Ram>>, AllocError>
    requires sized { length (words_of_space region.now) ≡ region_len 4 }
    ensures made { IfOk result (λ made. IfSome made (λ twin. (twin.phase ≡ Phase.Clean)
        × (twin.order ≡ 4))) }
{
    let mut device = Ram::zeroed(alloc, WORDS)?;
    let Ok(()) = write_new(&mut device, ORDER, region.words()) else {
        return Ok(None);
    };
    Ok(Some(Twin::new(device, Geometry::of_order(ORDER))))
}

/// The core of a table that was opened on this twin's image, of an empty heap. The log has room for 256
/// stores of each caller, which is `Trio::STORES` for each unit of `Trio::WEIGHT`.
fn core_of(
    shared: &Shared<Trio>,
    twin: Twin<Ram>,
    log: RangeLog,
    seat: WriterSeat,
) -> Core<Ram, Trio>
    requires ready { IsReady 256 (writer_view seat).base.callers log }
    requires phase { twin.phase ≡ Phase.Clean }
    requires order { twin.order ≡ 4 }
    requires of { IsWriterOf shared.now seat }
    requires writer { let b = opened_with shared.now in writer_view seat ≡ dealt_view b b.callers }
    requires order_is { (opened_with shared.now).order ≡ 4 }
    requires faults { (opened_with shared.now).faults ≡ 0 }
    requires made { Contents 4 (opened_with shared.now).image empty 0 }
    ensures of { IsCoreOf shared.now result }
{
    Core::new(twin, log, seat)
}

/// Makes so many passes on a new heap, and tells how many calls were done, or `None` where no heap was made.
pub fn make<R: Wait>(rt: &R, alloc: Global, passes: u64) -> Result<Option<u64>, AllocError> {
    let region = new_region::<Trio>(alloc, ORDER)?;
    let Some(twin) = twin_of(alloc, &region)? else {
        return Ok(None);
    };
    let (shared, writer, seats) = Shared::<Trio>::new(alloc, ORDER, CALLERS, region.words(), 0)?;
    let room = u64::from(CALLERS) * Trio::STORES * Trio::WEIGHT;
    let log = RangeLog::with_room(alloc, room)?;
    let mut core = core_of(&shared, twin, log, writer);
    let mut posters = posters_of(alloc, &shared, seats)?;
    Ok(Some(pass_all(rt, &shared, &mut core, posters.as_mut_slice(), passes)))
}
