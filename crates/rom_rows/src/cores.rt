//! Heaps of order 4 behind a table for three callers.
ghost use Rattle.std.specs.Prelude.{◌≡◌, ◌<◌, ◌≤◌, ℕ, IfOk, IsTrue, OnOk, ◌+◌, ◌^◌, length};
ghost use Rattle.rom_device.specs.Device.{IsSynced};
ghost use Rattle.rom_header.specs.Layout.{back_of, main_of, words_needed};
ghost use Rattle.rom_header.specs.Regions.{IsHeap};
ghost use Rattle.rom_model.specs.Region.{Contents};
ghost use Rattle.rom_model.specs.State.{State};
ghost use Rattle.rom_combine.specs.AtRest.{IsCoreOf};
ghost use Rattle.rom_lr.specs.Opening.{AreNewSeats, IsNewSeat};
ghost use Rattle.rom_lr.specs.Seats.{IsPosted, IsSeatOf, view};
ghost use Rattle.rom_rows.specs.Callers.{HasCalls};
ghost use Rattle.rom_model.specs.Blocks.{IsOrder, region_len};
ghost use Rattle.rom_rule.specs.declared.views.Position.TheVariants.{Out};

use crate::callers::{post_call, take_answer, told};
use rom_combine::Core;
use rom_device::Device;
use rom_header::Geometry;
use rom_heap::Trio;
use rom_lr::{Seat, Shared};
use rom_model::{COUNT, Call, Object, Reply, Updated};
use rom_ranges::RangeLog;
use rom_store::{Opened, Refused, open_device};
use rom_twin::Twin;
use std::alloc::{AllocError, Global};
use std::test::Fail;

/// A heap at rest on a device behind a table for three callers, with their seats. The image is that of
/// both regions.
fn table_on<D: Device + Drop>(
    alloc: Global,
    device: D,
    geometry: Geometry,
    image: &[u64],
) -> Result<(Core<D, Trio>, Shared<Trio>, Vec<Seat>), AllocError>
    requires fits { words_needed geometry ≤ D.shown.size device }
    requires order { IsOrder geometry }
    requires heap { IsTrue D.shown.tells_words → IsHeap geometry (D.shown.words device) }
    requires main { IsTrue D.shown.tells_words →
        main_of geometry (D.shown.words device) ≡ image.now }
    requires back { IsTrue D.shown.tells_words →
        back_of geometry (D.shown.words device) ≡ image.now }
    requires certain { IsSynced D.shown device }
    requires sized { length image.now ≡ region_len geometry }
    requires formed { (s : State) × (k : ℕ) × Contents geometry image.now s k }
    ensures of { IfOk result (λ opened. IsCoreOf opened.1 opened.0) }
    ensures order { IfOk result (λ opened. IsOrder opened.1.layout.order) }
    ensures many { IfOk result (λ opened. length opened.2.items ≡ 3) }
    ensures seats { IfOk result (λ opened. AreNewSeats opened.1 opened.2.items) }
{
    let twin = Twin::new(device, geometry);
    let faults = twin.fault_count();
    let (shared, writer, seats) = Shared::<Trio>::new(alloc, geometry.order(), 3, image, faults)?;
    let log = RangeLog::with_room(alloc, 3 * Trio::STORES * Trio::WEIGHT)?;
    let core = Core::new(twin, log, writer);
    Ok((core, shared, seats))
}

/// Opens the heap on a device behind a table for three callers, with the seat of each.
pub(crate) fn seated_on<D: Device + Drop>(
    alloc: Global,
    device: D,
) -> Result<(Core<D, Trio>, Shared<Trio>, (Seat, Seat, Seat)), Fail>
    ensures of { IfOk result (λ opened. IsCoreOf opened.1 opened.0) }
    ensures order { IfOk result (λ opened. IsOrder opened.1.layout.order) }
    ensures first { IfOk result (λ opened. IsNewSeat opened.1 1 opened.2.0) }
    ensures second { IfOk result (λ opened. IsNewSeat opened.1 2 opened.2.1) }
    ensures third { IfOk result (λ opened. IsNewSeat opened.1 3 opened.2.2) }
{
    let (device, geometry, image) = match open_device::<D, Trio>(alloc, device) {
        Ok(
            Opened {
                device,
                geometry,
                image,
            },
        ) => (device, geometry, image),
        Err(Refused { device: _, why: _ }) => return Err("refused".into()),
    };
    let (core, shared, mut seats) = table_on(alloc, device, geometry, &image)?;
    let third = seats.pop().unwrap();
    let second = seats.pop().unwrap();
    let first = seats.pop().unwrap();
    Ok((core, shared, (first, second, third)))
}

/// Each caller posts its first call: to put 1 into the queue, 2 into the set, and 4 under 3 into the
/// map.
pub(crate) fn post_three(
    shared: &Shared<Trio>,
    first: &mut Seat,
    second: &mut Seat,
    third: &mut Seat,
)
    requires first { HasCalls shared.now 0 0 first.old }
    requires second { HasCalls shared.now 0 0 second.old }
    requires third { HasCalls shared.now 0 0 third.old }
    ensures first { HasCalls shared.now 1 0 first.new }
    ensures second { HasCalls shared.now 1 0 second.new }
    ensures third { HasCalls shared.now 1 0 third.new }
{
    post_call(shared, first, Call::Enq(1));
    post_call(shared, second, Call::Add(2));
    post_call(shared, third, Call::Put(3, 4));
}

/// What the seat's posted call is told. It is an error where it is not answered.
pub(crate) fn take_told(
    shared: &Shared<Trio>,
    seat: &mut Seat,
) -> Result<Option<Updated<Reply>>, Fail>
    requires of { IsSeatOf shared.now seat.old }
    requires posted { IsPosted seat.old }
    ensures of { IsSeatOf shared.now seat.new }
    ensures position { (view seat.new).position ≡ (view seat.old).position }
    ensures calls { length (view seat.new).calls ≡ length (view seat.old).calls }
    ensures outcomes { OnOk result (length (view seat.new).outcomes
        ≡ length (view seat.old).outcomes + 1) }
{
    let Some((place, words)) = take_answer(shared, seat) else {
        return Err("not answered".into());
    };
    Ok(told(place, &words))
}

/// What the three posted calls are told.
pub(crate) fn take_three(
    shared: &Shared<Trio>,
    first: &mut Seat,
    second: &mut Seat,
    third: &mut Seat,
) -> Result<[Option<Updated<Reply>>; 3], Fail>
    requires first { HasCalls shared.now 1 0 first.old }
    requires second { HasCalls shared.now 1 0 second.old }
    requires third { HasCalls shared.now 1 0 third.old }
    ensures first { OnOk result (HasCalls shared.now 1 1 first.new) }
    ensures second { OnOk result (HasCalls shared.now 1 1 second.new) }
    ensures third { OnOk result (HasCalls shared.now 1 1 third.new) }
{
    let one = take_told(shared, first)?;
    let two = take_told(shared, second)?;
    let three = take_told(shared, third)?;
    Ok([one, two, three])
}

/// The count of updates in the image that the seat enters.
pub(crate) fn read_count(shared: &Shared<Trio>, seat: &mut Seat) -> u64
    requires of { IsSeatOf shared.now seat.old }
    requires out { (view seat.old).position ≡ Out }
    requires order { IsOrder shared.now.layout.order }
    ensures of { IsSeatOf shared.now seat.new }
    ensures out { (view seat.new).position ≡ Out }
{
    shared.enter(seat);
    let count = shared.load(seat, COUNT);
    shared.leave(seat);
    count
}
