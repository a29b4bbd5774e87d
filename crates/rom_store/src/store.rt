//! The store: a heap that callers share.
ghost use Rattle.std.specs.Prelude.{◌≡◌};
ghost use Rattle.rom_model.specs.VecSpace.{words_of_space};
ghost use Rattle.rom_lr.specs.Seats.{opened_with};

use crate::begun::Begun;
use crate::held::Held;
use crate::label::Label;
use crate::pace::Pace;
use rom_combine::{NoShipper, Shipper};
use rom_device::Device;
use rom_lr::Shared;
use rom_model::Object;
use std::sync::Mutex;

/// A heap that callers share, each by its [`Pass`](crate::Pass). Reads take no lock and wait for nobody.
/// Updates are posted, and whoever has the lock does all that are posted in one batch, which the shipper is
/// handed before any of them is answered.
pub struct Store<D: Device, O: Object, N: Label, W: Shipper = NoShipper> {
    pub(crate) shared: Shared<O>,
    pub(crate) pace: Pace,
    // Callers load the fields above at each step, and each look at the lock writes its word, with which `held`
    // begins. Fields lie in the order in which they stand here today, so no cache line has both.
    pub(crate) apart: [u64; 8],
    pub(crate) held: Mutex<Held<D, O, N, W>>,
    pub(crate) begun: Begun,
    ghost named: { shared.table.shared.table_id ≡ N.table },
    ghost based: { opened_with shared ≡ N.base },
    ghost ordered: { begun.order ≡ N.base.order },
    ghost imaged: { words_of_space begun.image.value ≡ N.base.image },
    ghost counted: { begun.faults ≡ N.base.faults },
}
