//! A heap that is opened for callers, whose lock isn't made yet.
ghost use Rattle.std.specs.Prelude.{◌≡◌, ℕ, ◌*◌, ◌≤◌, List, [], IfErr, IfOk, IsTrue, false, length};
ghost use Rattle.rom_model.specs.Blocks.{IsOrder};
ghost use Rattle.rom_model.specs.VecSpace.{words_of_space};
ghost use Rattle.rom_device.specs.Device.{IsSynced};
ghost use Rattle.rom_header.specs.Layout.{back_of, main_of, words_needed};
ghost use Rattle.rom_header.specs.Regions.{IsHeap};
ghost use Rattle.rom_lr.specs.Seats.{opened_with};
ghost use Rattle.rom_rule.specs.Places.{AreCallers};
ghost use Rattle.rom_rule.specs.Views.{base_of, plan_of, records_of};
ghost use Rattle.rom_store.specs.Callers.{IsNewCaller};
ghost use Rattle.rom_store.specs.Indexed.{Indexed};
ghost use Rattle.rom_store.specs.Openings.{HasBeenRefused, HasOpenedHeap};
ghost use Rattle.rom_store.specs.Seating.{IsSeated};
ghost use Rattle.rom_store.specs.Start.{device_start};

use crate::begun::Begun;
use crate::held::Held;
use crate::label::Label;
use crate::lone::Lone;
use crate::pace::Pace;
use crate::pass::Pass;
use crate::seated::Seated;
use crate::store::Store;
use rom_combine::{Core, NoShipper, Shipper};
use rom_device::Device;
use rom_header::Geometry;
use rom_lr::Shared;
use rom_model::{Object, VecSpace};
use rom_open::{Opened, Refused, Why, open_device};
use rom_twin::Twin;
use std::alloc::Global;
use std::marker::Model;
use std::sync::Mutex;

/// A heap that is opened for a number of callers. What is left is to start it, which takes no memory
/// and cannot be refused.
#[derive(Drop)]
pub struct Opening<D: Device, O: Object> {
    core: Core<D, O>,
    shared: Shared<O>,
    passes: Vec<Pass>,
    begun: Begun,
    pace: Pace,
}

impl<D: Device, O: Object> Model for Opening<D, O> {
    ghost use Rattle.rom_store.specs.Openings.{IsOpening, Started};

    ghost Value = { Started D };

    ghost view = { λ o. record {
      table_id = o.shared.table.shared.table_id;
      key = o.shared.table.shared.key;
      device = o.core.twin.device;
      passes = o.passes.items;
    } };

    ghost invariant = { λ o. let table = o.shared.table.shared in
        IsOpening D.shown O.Contents table.table_id table.key o.core o.begun };
}

impl<D: Device, O: Object> Opening<D, O> {
    /// The heap of a device at rest, both of whose regions are the words of this table.
    pub(crate) fn of(device: D, geometry: Geometry, seated: Seated<O>, pace: Pace) -> Self
        requires order { IsOrder geometry }
        requires fits { words_needed geometry ≤ D.shown.size device }
        requires heap { IsTrue D.shown.tells_words → IsHeap geometry (D.shown.words device) }
        requires main { IsTrue D.shown.tells_words →
            main_of geometry (D.shown.words device) ≡ words_of_space seated.begun.image.value }
        requires back { IsTrue D.shown.tells_words →
            back_of geometry (D.shown.words device) ≡ words_of_space seated.begun.image.value }
        requires certain { IsSynced D.shown device }
        requires seated { IsSeated O.Contents (O.STORES * O.WEIGHT) (opened_with seated.shared) seated }
        requires order_is { (opened_with seated.shared).order ≡ geometry }
        requires faults { D.shown.faults device ≡ seated.begun.faults }
        ensures opening { result ≡ record {
          table_id = seated.shared.table.shared.table_id;
          key = seated.shared.table.shared.key;
          device = device;
          passes = seated.passes.items;
        } }
    {
        let Seated {
            shared,
            writer,
            log,
            passes,
            begun,
        } = seated;
        Opening {
            core: Core::new(Twin::new(device, geometry), log, writer),
            shared,
            passes,
            begun,
            pace,
        }
    }

    /// The store and its passes, numbered from 1 in order. It takes no memory and is never refused.
    pub fn start<N: Label>(self) -> (Store<D, O, N>, Vec<Pass>)
        requires table { N.table ≡ self.table_id }
        requires base { N.base ≡ base_of self.key }
        requires started { N.start ≡ device_start D.shown self.device }
        // What a stop might have left by now is the same by the label `N` as by the device.
        requires since { IsTrue D.shown.tells_images → (t : ℕ) (i : List ℕ) →
            (N.since t i → D.shown.left_since self.device t i)
            × (D.shown.left_since self.device t i → N.since t i) }
        ensures passes { result.1.items ≡ self.passes }
    {
        self.start_shipping::<N, NoShipper>(NoShipper)
    }

    /// As [`start`](Opening::start), with a shipper, which is handed each batch that is done.
    pub fn start_shipping<N: Label, W: Shipper>(self, shipper: W) -> (Store<D, O, N, W>, Vec<Pass>)
        requires table { N.table ≡ self.table_id }
        requires base { N.base ≡ base_of self.key }
        requires started { N.start ≡ device_start D.shown self.device }
        // What a stop might have left by now is the same by the label `N` as by the device.
        requires since { IsTrue D.shown.tells_images → (t : ℕ) (i : List ℕ) →
            (N.since t i → D.shown.left_since self.device t i)
            × (D.shown.left_since self.device t i → N.since t i) }
        // What the shipper has handed on by now is told by the label, and it has not failed.
        requires ships { IsTrue W.shown.tells → (N.ships ≡ W.shown.state shipper) × (N.ships.failing ≡ false) }
        ensures passes { result.1.items ≡ self.passes }
    {
        let Opening {
            core,
            shared,
            passes,
            begun,
            pace,
        } = self;
        let held = Mutex::new(Held::new(core, shipper));
        (
            Store {
                shared,
                pace,
                apart: [0; 8],
                held,
                begun,
            },
            passes,
        )
    }

    /// As [`start`](Opening::start), where one thread has all callers. It takes no memory and is never refused.
    pub fn start_lone<N: Label>(self) -> Lone<D, O, N>
        requires table { N.table ≡ self.table_id }
        requires base { N.base ≡ base_of self.key }
        requires started { N.start ≡ device_start D.shown self.device }
        // What a stop might have left by now is the same by the label `N` as by the device.
        requires since { IsTrue D.shown.tells_images → (t : ℕ) (i : List ℕ) →
            (N.since t i → D.shown.left_since self.device t i)
            × (D.shown.left_since self.device t i → N.since t i) }
        requires passes { Indexed (IsNewCaller O.Contents N.table N.base) self.passes }
        requires many { length self.passes ≡ N.base.callers }
        ensures base { result.core.view.base ≡ N.base }
        // Nothing is done yet.
        ensures none { (plan_of result.core.view).history ≡ [] }
        ensures unrecorded { records_of (plan_of result.core.view) ≡ [] }
        ensures many { result.many ≡ N.base.callers }
        ensures turns { result.turns ≡ 0 }
    {
        let Opening {
            core,
            shared,
            passes,
            begun,
            pace: _,
        } = self;
        Lone::of(core, shared, passes, begun)
    }
}

/// Opens the heap on a device for 1 to 16 callers. The refusals are those of `open_device`; want of memory
/// may come after it too, and then the heap has been recovered.
#[inline(never)]
pub fn open_store<D: Device + Send, O: Object>(
    alloc: Global,
    device: D,
    callers: u32,
) -> Result<Opening<D, O>, Refused<D>>
    requires callers { AreCallers callers }

    // After `Ok` there are as many callers as were asked for.
    ensures many { IfOk result (λ o.
        (length o.passes ≡ callers) × ((base_of o.key).callers ≡ callers)) }
    // The callers are numbered from 1, in this order, and have seen and done nothing.
    ensures passes { IfOk result (λ o.
        Indexed (IsNewCaller O.Contents o.table_id (base_of o.key)) o.passes) }
    // The image that was opened stands for some state and count.
    ensures formed { IfOk result (λ o. let b = base_of o.key in
        (s : O.State) × (k : ℕ) × O.Contents b.order b.image s k) }
    // The heap was opened by one opening, and no call of the device failed.
    ensures opened { IfOk result (HasOpenedHeap D.shown O.Contents device) }
    // Else the device is refused by the first test that fails, and handed back.
    ensures refused { IfErr result (λ refused. HasBeenRefused D.shown O.Contents O.Rejects device
        refused.device refused.why) }
{
    let Opened {
        device,
        geometry,
        image,
    } = open_device::<D, O>(alloc, device)?;
    let image = VecSpace::of(image);
    let faults = device.fault_count();
    // The last memory that an opening takes: want of it leaves a heap that was recovered.
    match Seated::new(alloc, geometry.order(), callers, &image, faults) {
        Ok(seated) => Ok(Opening::of(device, geometry, seated, Pace::Slow)),
        Err(_) => Err(Refused {
            device,
            why: Why::OutOfMemory,
        }),
    }
}
