//! What a command tells in one line: that a stream is refused, or what became of an adoption.
ghost use Rattle.std.specs.Prelude.{◌≡◌};
ghost use Rattle.rom_text.specs.Text.{line_text};
ghost use Rattle.rom_name.specs.Telling.{IsPrintedOr5, IsUnadoptedTold, TellsAdoption, unadopted_status};
ghost use Rattle.rom_name.specs.Texts.{refusal_text, unadopted_line};

use crate::adoption::{AdoptRefused, adopt};
use crate::meeting::Refusal;
use crate::text::{REFUSED, print_adopted, print_refusal};
use rom_device::Device;
use rom_model::Object;
use rom_text::{Sink, print_text};

/// The status where the line of what was done could not be printed.
const UNTOLD: u8 = 5;

/// The status where the device failed.
const DEVICE_FAILED: u8 = 7;

/// Prints why a stream is refused, and gives the status.
pub fn tell_refusal<K: Sink>(out: &mut K, refusal: &Refusal) -> u8
    ensures told { IsPrintedOr5 K.shown 3 (refusal_text refusal.now) out.old out.new result }
    ensures rest { K.shown.rest out.new ≡ K.shown.rest out.old }
{
    match print_refusal(out, refusal) {
        Ok(()) => REFUSED,
        Err(_) => UNTOLD,
    }
}

/// The line that tells why a copy is made no primary.
fn unadopted_text(why: AdoptRefused) -> &'static str
    ensures { result.now ≡ line_text (unadopted_line why) }
{
    match why {
        AdoptRefused::NoHeap => "refused: not a heap\n",
        AdoptRefused::NoName => "refused: no name\n",
        AdoptRefused::LastEpoch => "refused: last epoch\n",
        AdoptRefused::Device => "device failed\n",
    }
}

/// The status of it.
fn unadopted_number(why: AdoptRefused) -> u8
    ensures { result ≡ unadopted_status why }
{
    match why {
        AdoptRefused::Device => DEVICE_FAILED,
        _ => REFUSED,
    }
}

/// Prints why a copy is made no primary, and gives the status.
fn tell_unadopted<K: Sink>(out: &mut K, why: AdoptRefused) -> u8
    ensures told { IsUnadoptedTold K.shown why out.old out.new result }
    ensures rest { K.shown.rest out.new ≡ K.shown.rest out.old }
{
    let _ = print_text(out, unadopted_text(why));
    unadopted_number(why)
}

/// Makes a copy a primary as `adopt` does, prints what it begins or why it does not, and gives the status: 0, or 5
/// where it is a primary and the line could not be printed, 3 where it is refused, and 7 where the device failed.
pub fn adopt_and_tell<D: Device, O: Object, K: Sink>(device: &mut D, out: &mut K) -> u8
    ensures told { TellsAdoption D.shown K.shown device.old device.new out.old out.new result }
    ensures rest { K.shown.rest out.new ≡ K.shown.rest out.old }
{
    match adopt::<D, O>(device) {
        Ok(adopted) => match print_adopted(out, &adopted) {
            Ok(()) => 0,
            Err(_) => UNTOLD,
        },
        Err(why) => tell_unadopted(out, why),
    }
}
