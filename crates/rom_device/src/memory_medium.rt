//! Words in memory as a medium, so that the contract of one is met with words and images told.
ghost use Rattle.std.specs.Prelude.{false, true};
ghost use Rattle.rom_device.specs.Memory.{shown_by_memory};
ghost use Rattle.rom_device.specs.Images.{may_leave_words, length-words_after, length-MayLeave, since_counts_now, since_only_now};

use crate::device::Device;
use crate::medium::Medium;
use crate::memory::Memory;
use byteorder::{ByteOrder, LittleEndian};

/// Each word that is read or handed over is a call of the memory device, up to the first that fails.
impl Medium for Memory {
    ghost use Rattle.std.specs.Prelude.{◌≡◌, length, reverse};
    ghost use Rattle.std.proofs.Common.{◌∙◌, sym};

    ghost shown = { shown_by_memory };

    ghost missing = { λ _. false };

    // A sync that fails loses nothing, so the next one is believed.
    ghost doubtful = { λ _. false };

    // No program came before.
    ghost lasting = { true };

    ghost never_doubted = { λ _ _ _ no. no };

    fn is_missing(&self) -> bool {
        false
    }

    fn read_at(&mut self, at: u64, into: &mut [u8]) -> bool {
        for index in 0..into.len() / 8 {
            let Ok(word) = self.read(at + index as u64) else {
                return false;
            };
            LittleEndian::write_u64(&mut into[8 * index..], word);
        }
        true
    }

    fn write_at(&mut self, at: u64, bytes: &[u8]) -> bool {
        for index in 0..bytes.len() / 8 {
            let value = LittleEndian::read_u64(&bytes[8 * index..]);
            if self.write(at + index as u64, value).is_err() {
                return false;
            }
        }
        true
    }

    fn sync(&mut self) -> bool {
        Device::sync(self).is_ok()
    }

    ghost tells_both = { λ told. told };

    ghost reads_image = { λ m _. may_leave_words m.start.items (reverse m.made.items) };

    ghost images_fit = { λ m i _ may. length-MayLeave m.start.items (reverse m.made.items) i may ∙
        sym (length-words_after m.start.items (reverse m.made.items)) };

    ghost counts_now = { λ m t i _ _ may. since_counts_now m.start.items t
        (reverse m.made.items) i may };

    ghost only_now = { λ m i _ since. since_only_now m.start.items (reverse m.made.items) i since };
}
