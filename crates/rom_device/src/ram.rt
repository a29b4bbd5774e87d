//! Words in memory whose calls never fail.
ghost use Rattle.std.specs.Prelude.{◌≡◌, ◌<◌, ◌^◌, IfOk, length, replicate};

use crate::device::{Device, Failed};
use std::alloc::{AllocError, Global};

/// Words in memory. No call of it fails, and it does not tell what a stop may leave, since a stop
/// leaves nothing of it.
#[derive(Drop)]
pub struct Ram {
    words: Vec<u64>,
    reads: u64,
    writes: u64,
    syncs: u64,
    ghost small: { length words.items < 2 ^ 64 },
    ghost reads_fit: { reads < 2 ^ 64 },
    ghost writes_fit: { writes < 2 ^ 64 },
    ghost syncs_fit: { syncs < 2 ^ 64 },
}

impl Ram {
    ghost use Rattle.rom_device.specs.Ram.{words_of_ram, reads_of_ram, writes_of_ram, syncs_of_ram};

    /// So many words, each 0. Words that do not fit into memory are want of memory.
    pub fn zeroed(alloc: Global, len: u64) -> Result<Ram, AllocError>
        ensures words { IfOk result (λ ram. words_of_ram ram ≡ replicate len 0) }
        ensures counts { IfOk result (λ ram.
            (reads_of_ram ram ≡ 0) × (writes_of_ram ram ≡ 0) × (syncs_of_ram ram ≡ 0)) }
    {
        Ok(Ram {
            words: vec![in alloc; 0; len as usize]?,
            reads: 0,
            writes: 0,
            syncs: 0,
        })
    }
}

impl Device for Ram {
    ghost use Rattle.std.specs.Prelude.{refl, true, false};
    ghost use Rattle.std.proofs.Common.{arith};

    ghost shown = { record {
      size = λ r. length r.words.items;
      tells_words = true;
      words = λ r. r.words.items;
      tells_images = false;
      leaves = λ _ _. Unit {0};
      clock = λ _. 0;
      left_since = λ _ _ _. Unit {0};
      tells_doubts = false;
      doubted = λ _ _. ⊥;
      reads = λ r. r.reads;
      writes = λ r. r.writes;
      syncs = λ r. r.syncs;
      faults = λ _. 0;
      failing = λ _. false;
    } };

    fn len(&self) -> u64 {
        self.words.len() as u64
    }

    fn fault_count(&self) -> u64 {
        0
    }

    fn read(&mut self, at: u64) -> Result<u64, Failed> {
        self.reads = self.reads.saturating_add(1);
        Ok(self.words[at as usize])
    }

    fn write(&mut self, at: u64, value: u64) -> Result<(), Failed> {
        self.writes = self.writes.saturating_add(1);
        self.words[at as usize] = value;
        Ok(())
    }

    fn sync(&mut self) -> Result<(), Failed> {
        self.syncs = self.syncs.saturating_add(1);
        Ok(())
    }

    ghost tells_both = { λ _. refl };

    ghost reads_image = { λ _ _. tt };

    ghost words_fit = { λ _ _. refl };

    ghost images_fit = { λ _ _ no _. Prim.cc };

    ghost counts_now = { λ _ _ _ _ _ _. tt };

    ghost only_now = { λ _ _ _ _. tt };

    ghost doubts_told = { λ no. Prim.cc };

    ghost size_fits = { λ r. r.small };

    ghost counts_fit = { λ r. (r.reads_fit, r.writes_fit, r.syncs_fit, Prim.omega arith) };
}
