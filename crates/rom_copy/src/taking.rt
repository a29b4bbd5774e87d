//! A heap that is in use, taken into memory.
ghost use Rattle.std.specs.Prelude.{◌≡◌, ◌≢◌, ◌<◌, ◌≤◌, ◌^◌, ℕ, IfErr, IfOk, IsTrue, length};
ghost use Rattle.rom_device.specs.Ram.{words_of_ram};
ghost use Rattle.rom_steady.specs.Rule.{IsKept, Stage};
ghost use Rattle.rom_steady.specs.Seen.{IsFaultOf};
ghost use Rattle.rom_steady.specs.Watched.{IsLater};
ghost use Rattle.rom_steady.specs.declared.steady.Unsteady.TheVariants.{NoHeap};
ghost use Rattle.rom_copy.specs.Whole.{IsOneMoment};

use crate::whole::whole_words;
use rom_device::{Device, Ram};
use rom_steady::{Unsteady, Watched, steady_read};
use std::alloc::{AllocError, Global};

/// These words as a device.
fn in_memory(alloc: Global, words: &[u64]) -> Result<Ram, AllocError>
    ensures { IfOk result (λ ram. words_of_ram ram ≡ words.now) }
{
    let mut ram = Ram::zeroed(alloc, words.len() as u64)?;
    for index in 0..words.len() {
        // No call of it fails.
        let _ = ram.write(index as u64, words[index]);
    }
    Ok(ram)
}

/// Takes a heap that is in use into memory, as one at rest: the region that was committed at one moment, in both
/// regions, with the words of the name. It tries so often. Nothing is written to the heap that is read.
pub fn snapshot<W: Watched>(alloc: Global, words: &mut W, tries: u32) -> Result<Ram, Unsteady>
    // Where words are told and the rule is kept: what is answered is a heap of that order. At one moment of the
    // call its region was the one that was committed, and its words of the name stood there.
    ensures whole { (order : ℕ) (stages : ℕ → Stage) → IsTrue W.shown.tells →
        IsKept order stages (W.shown.words words.old) → IfOk result (λ ram.
        IsOneMoment order stages (W.shown.words words.old) (W.shown.now words.old)
        (W.shown.now words.new) (words_of_ram ram)) }
    // Then it is not told either that there is no heap.
    ensures there { (order : ℕ) (stages : ℕ → Stage) → IsTrue W.shown.tells →
        IsKept order stages (W.shown.words words.old) → IfErr result (λ why. why ≢ NoHeap) }
    // The words are read alone.
    ensures later { IsLater W.shown words.old words.new }
    // `Device` comes exactly where a read failed, which was the last.
    ensures faults { IsFaultOf result (W.shown.faults words.old) (W.shown.faults words.new) }
{
    let read = steady_read(alloc, words, tries)?;
    let whole = whole_words(alloc, &read)?;
    Ok(in_memory(alloc, whole.as_slice())?)
}
