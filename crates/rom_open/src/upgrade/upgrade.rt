//! The upgrade of a heap on a device.
ghost use Rattle.std.specs.Prelude.{◌<◌, ◌≡◌, ◌≢◌, ◌≤◌, ℕ, List, IfOk, IfErr, IsTrue, Err};
ghost use Rattle.rom_model.specs.Blocks.{IsOrder};
ghost use Rattle.rom_device.specs.Device.{Leaves};
ghost use Rattle.rom_header.specs.Held.{Holds, HoldsOne};
ghost use Rattle.rom_header.specs.Layout.{words_needed};
ghost use Rattle.rom_header.specs.Writing.{Alters};
ghost use Rattle.rom_open.specs.Opens.{Opens};
ghost use Rattle.rom_open.specs.Refusals.{NamesTooFew, named_order};
ghost use Rattle.rom_open.specs.declared.reasons.Why.TheVariants.{TooSmall};
ghost use Rattle.rom_open.specs.UpgradeCalls.{HasUpgradeFaults, UpgradeCalls, UpgradeOfOrder, WithinUpgrade};
ghost use Rattle.rom_open.specs.Upgrading.{HasUpgraded, HoldsEither, IsUpgradeAnswer, UpgradeImage, WithinNamed, upgrade_refusal, upgraded_device};

use crate::upgrade::batch::replace_regions;
use crate::upgrade::renewal::renew_region;
use crate::{Refused, Why, make_ready};
use rom_device::Device;
use rom_model::Renew;
use std::alloc::Global;

/// Makes a heap of version 1 on a device one of version 2, with the same state and the same count, and
/// tells its order. The device comes back whatever is answered.
///
/// The header and the regions are refused as by `open_device`. Then the region that counts is refused: as
/// `NewRegion` where it is of version 2 already, as `Malformed` where it is not well-formed in version 1,
/// and as `OutOfMemory` where there is no memory to see, or for the new region. The device has been
/// recovered then, and is otherwise as it was. A region whose first words say version 2 is not inspected. So
/// an upgrade that was stopped can be given again, however far it came.
///
/// It may be stopped at any moment and run again: every image that a stop leaves could be left before, or
/// holds what the device held, in version 1 or in version 2. After `Device` either may stand there; then
/// it can be opened or upgraded again. A fault at the last write, of IDLE, is answered `Ok`, since the
/// same region counts in either state.
pub fn upgrade_device<D: Device, O: Renew>(alloc: Global, device: D) -> Result<(D, u32), Refused<D>>
    // Where the device tells its words, the answer is exactly theirs.
    ensures answer { IsTrue D.shown.tells_words →
        IsUpgradeAnswer O.earlier (D.shown.words device) result }
    // A device of fewer than 8 words is too small for a header, whether or not it tells its words.
    ensures too_small { D.shown.size device < 8 →
        upgrade_refusal result ≡ Err (TooSmall 8 (D.shown.size device)) }
    // `TooSmall` names how many words are needed, and how many the device has.
    ensures sizes { IfErr result (λ refused. NamesTooFew (D.shown.size device) refused.why) }
    ensures order { IfOk result (λ done. IsOrder done.1) }
    ensures fits { IfOk result (λ done. words_needed done.1 ≤ D.shown.size done.0) }

    // Where images are told: after `Ok` the device, and what a stop leaves, holds in version 2 the state and
    // the count that it held in version 1. Both regions are the same, and the heap's state is IDLE or COPYING.
    ensures upgraded { IsTrue D.shown.tells_images → IfOk result (λ done.
        HasUpgraded O.Contents O.earlier D.shown device done.0) }
    // Words hold at most one order, state and count in version 2.
    ensures one { HoldsOne O.Contents }
    // Words hold at most one order, state and count in version 1.
    ensures one_earlier { HoldsOne O.earlier.Contents }

    // Where images are told, what a stop leaves could be left before, or has the same region that counts, or
    // a new one, which stands in version 2 for the same state and count.
    ensures images { IsTrue D.shown.tells_images →
        Leaves D.shown (UpgradeImage O.Contents O.earlier (D.shown.words device))
        device (upgraded_device result) }
    // Where images are told, what a stop leaves could be left before, or holds in either version the state
    // and the count that the device held in version 1.
    ensures held_images { IsTrue D.shown.tells_images → (s : O.State) (k : ℕ) →
        Holds O.earlier.Contents (named_order (D.shown.words device)) (D.shown.words device) s k →
        Leaves D.shown
        (λ i. HoldsEither O.Contents O.earlier (named_order (D.shown.words device)) i s k)
        device (upgraded_device result) }
    // The size stays. Where the device tells its words, none differs but the state and the two regions.
    ensures within { Alters D.shown WithinNamed device (upgraded_device result) }

    // After each refusal but `Device`, the device was left as an opening leaves it that is refused so.
    ensures opens { IfErr result (λ refused.
        refused.why ≢ Why.Device → Opens D.shown device refused.device (Err refused.why)) }

    // No call follows one that failed. After `Device` the last call failed, after `Ok` and `Twins` it may
    // have failed, and after any other refusal none did.
    ensures faults { HasUpgradeFaults (upgrade_refusal result)
        (D.shown.faults device) (D.shown.faults (upgraded_device result))
        (D.shown.failing (upgraded_device result)) }
    // Where the device tells its words: how many calls were made, by the answer. They are those of an
    // opening, and after `Ok` those of the batch that writes the new region, too. The batch reads nothing,
    // writes all words of both regions and three times the state, and syncs four times.
    ensures calls { IsTrue D.shown.tells_words →
        UpgradeCalls D.shown (D.shown.words device) device (upgraded_device result) (upgrade_refusal result) }
    // Whatever the answer, no more calls were made than one upgrade makes, and none after one that failed.
    ensures within_upgrade { WithinUpgrade D.shown device (upgraded_device result) }
    // After `Ok` the order alone bounds the calls, whether or not the device tells its words.
    ensures by_order { IfOk result (λ done. UpgradeOfOrder D.shown done.1 device done.0) }
{
    let mut device = device;
    match make_ready(alloc, &mut device) {
        Ok(ready) => match renew_region::<O>(alloc, ready.image, ready.geometry) {
            Ok(mut region) => {
                let (device, written) = replace_regions(device, ready.geometry, &mut region);
                match written {
                    Ok(()) => Ok((device, ready.geometry.order())),
                    Err(_) => Err(Refused {
                        device,
                        why: Why::Device,
                    }),
                }
            }
            Err(why) => Err(Refused { device, why }),
        },
        Err(why) => Err(Refused { device, why }),
    }
}
