//! Words in memory, which nobody else changes, so that the contract of `Watched` is met with words told.
ghost use Rattle.std.specs.Prelude.{true, refl};

use crate::watched::Watched;
use rom_device::{Device, Failed, Ram};

impl Watched for Ram {
    ghost use Rattle.rom_device.specs.Ram.{words_of_ram};
    ghost use Rattle.std.specs.Prelude.{length};

    ghost shown = { record {
      size = λ r. length (words_of_ram r);
      tells = true;
      words = λ r _. words_of_ram r;
      now = λ _. 0;
      faults = λ _. 0;
    } };

    fn len(&self) -> u64 {
        Device::len(self)
    }

    fn read_words(&mut self, at: u64, into: &mut [u64]) -> Result<(), Failed> {
        if Device::read_words(self, at, into) < into.len() {
            return Err(Failed);
        }
        Ok(())
    }

    ghost words_fit = { λ _ _ _. refl };

    ghost size_fits = { λ r. r.small };
}
