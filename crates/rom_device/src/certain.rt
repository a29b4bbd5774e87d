//! A word that is written between two syncs.
ghost use Rattle.std.specs.Prelude.{◌≡◌, ◌<◌, ℕ, OnOk, IsTrue, slice_set};
ghost use Rattle.rom_device.specs.Device.{AreSettled, DoubtsNoMore, IsRenewed, IsSynced, Leaves, Makes, WritesWord};

use crate::device::{Device, Failed};

/// Makes all words certain, puts a value at a place, and makes it certain. So a stop never leaves
/// that value while it may leave other words as they were.
pub fn write_certain<D: Device>(device: &mut D, at: u64, value: u64) -> Result<(), Failed>
    requires { at < D.shown.size device.old }
    // Where words are told, after `Ok` that word is the value, and no other has changed.
    ensures written { IsTrue D.shown.tells_words
        → OnOk result (D.shown.words device.new ≡ slice_set (D.shown.words device.old) at value) }
    // Where words are told, whatever it answers: that word is as it was or the value, and no other has
    // changed.
    ensures left { IsTrue D.shown.tells_words
        → WritesWord at value (D.shown.words device.old) (D.shown.words device.new) }
    ensures certain { OnOk result (IsSynced D.shown device.new) }
    // Where images are told, a stop leaves what it might have left before the call, or the words as they
    // read then. In these the value may stand already.
    ensures images { IsTrue D.shown.tells_images
        → Leaves D.shown (WritesWord at value (D.shown.words device.old)) device.old device.new }
    // Where images are told with words in doubt, a stop after `Ok` leaves each word as it reads, but for
    // those in doubt.
    ensures settles { IsTrue D.shown.tells_doubts → OnOk result (AreSettled D.shown device.new) }
    ensures renews { OnOk result (IsRenewed D.shown at device.new) }
    ensures fewer { DoubtsNoMore D.shown device.old device.new }

    // Where no word is in doubt, images are as of a device of which none ever is.
    ensures doubts { IsTrue D.shown.tells_doubts →
        ((place : ℕ) → IsRenewed D.shown place device.old) →
        Leaves D.shown (WritesWord at value (D.shown.words device.old)) device.old device.new }
    ensures size { D.shown.size device.new ≡ D.shown.size device.old }
    // After `Ok` one write and two syncs were made, else at most so many. No call follows one that failed.
    ensures makes { Makes D.shown 0 1 2 device.old device.new result }
{
    device.sync()?;
    device.write(at, value)?;
    device.sync()
}
