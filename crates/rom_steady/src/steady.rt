//! A heap that is in use, read whole.
ghost use Rattle.std.specs.Prelude.{◌≡◌, ◌≢◌, ◌+◌, ◌<◌, ◌≤◌, ℕ, IfErr, IfOk, IfSome, IsTrue, Some, length};
ghost use Rattle.rom_model.specs.Blocks.{IsOrder, region_len};
ghost use Rattle.rom_header.specs.Layout.{words_needed};
ghost use Rattle.rom_steady.specs.Rule.{IsKept, Stage};
ghost use Rattle.rom_steady.specs.Seen.{IsFaultOf, WasWhole};
ghost use Rattle.rom_steady.specs.Watched.{HasRisen, IsLater};
ghost use Rattle.rom_steady.specs.declared.steady.Unsteady.TheVariants.{NoHeap, OutOfMemory};

use crate::age::{is_as_old, read_age};
use crate::names::{NameWords, read_names};
use crate::region::read_back;
use crate::watched::Watched;
use rom_device::Failed;
use rom_header::{Geometry, HEADER_VERSION, MAGIC};
use std::alloc::{AllocError, Global};

/// What was read of a heap that is in use.
#[derive(Drop)]
pub struct Steady {
    /// The order in word 2.
    pub order: u32,
    /// The words 4 to 7.
    pub names: NameWords,
    /// The words of the region that was committed.
    pub image: Vec<u64>,
}

/// Why nothing was read.
#[derive(Clone, Copy, Debug, PartialEq, Eq)]
pub enum Unsteady {
    /// No heap of this format stands there, or not all of it.
    NoHeap,
    /// A batch came in between, each time; or back stayed another than main under COPYING, as behind a failed write.
    Busy,
    /// There is no memory for a region.
    OutOfMemory,
    /// A read failed.
    Device,
}

impl From<Failed> for Unsteady {
    ghost use Rattle.rom_steady.specs.declared.steady.Unsteady.TheVariants.{Device};

    ghost from_gives = { λ _ e. e ≡ Device };

    fn from(_: Failed) -> Self {
        Unsteady::Device
    }
}

impl From<AllocError> for Unsteady {
    ghost use Rattle.rom_steady.specs.declared.steady.Unsteady.TheVariants.{OutOfMemory};

    ghost from_gives = { λ _ e. e ≡ OutOfMemory };

    fn from(_: AllocError) -> Self {
        Unsteady::OutOfMemory
    }
}

/// Reads the order of the heap, or `None` where these are not the words of one.
fn read_order<W: Watched>(words: &mut W) -> Result<Option<Geometry>, Failed>
    ensures order { (order : ℕ) (stages : ℕ → Stage) → IsTrue W.shown.tells →
        IsKept order stages (W.shown.words words.old) → IfOk result (λ found. found ≡ Some order) }
    ensures fits { IfOk result (λ found. IfSome found (λ geometry.
        words_needed geometry ≤ W.shown.size words.old)) }
    ensures later { IsLater W.shown words.old words.new }
    ensures faults { HasRisen result (W.shown.faults words.old) (W.shown.faults words.new) }
{
    let have = words.len();
    if have < 8 {
        return Ok(None);
    }
    let mut read = [0u64; 3];
    words.read_words(0, &mut read)?;
    if read[0] != MAGIC || read[1] != HEADER_VERSION {
        return Ok(None);
    }
    match Geometry::of(read[2]) {
        Some(geometry) if geometry.need() <= have => Ok(Some(geometry)),
        _ => Ok(None),
    }
}

/// Reads the region that is committed and the words of the name, or `None` where a batch came in between.
fn read_once<W: Watched>(
    words: &mut W,
    geometry: Geometry,
    image: &mut [u64],
) -> Result<Option<NameWords>, Failed>
    requires fits { words_needed geometry ≤ W.shown.size words.old }
    requires image { length image.old ≡ region_len geometry }
    ensures as_long { length image.new ≡ length image.old }
    ensures whole { (stages : ℕ → Stage) → IsTrue W.shown.tells →
        IsKept geometry stages (W.shown.words words.old) →
        IfOk result (λ read. IfSome read (WasWhole geometry stages (W.shown.words words.old)
        (W.shown.now words.old) (W.shown.now words.new) image.new)) }
    ensures later { IsLater W.shown words.old words.new }
    ensures faults { HasRisen result (W.shown.faults words.old) (W.shown.faults words.new) }
{
    let names = read_names(words)?;
    let before = read_age(words, geometry.back())?;
    if !read_back(words, geometry, image)? || !is_as_old(words, geometry, before)? {
        return Ok(None);
    }
    if read_names(words)? != names {
        return Ok(None);
    }
    Ok(Some(names))
}

/// Tries so often to read the region that is committed.
fn read_image<W: Watched>(
    words: &mut W,
    geometry: Geometry,
    image: &mut [u64],
    tries: u32,
) -> Result<NameWords, Unsteady>
    requires fits { words_needed geometry ≤ W.shown.size words.old }
    requires image { length image.old ≡ region_len geometry }
    ensures as_long { length image.new ≡ length image.old }
    ensures whole { (stages : ℕ → Stage) → IsTrue W.shown.tells →
        IsKept geometry stages (W.shown.words words.old) →
        IfOk result (WasWhole geometry stages (W.shown.words words.old)
        (W.shown.now words.old) (W.shown.now words.new) image.new) }
    ensures there { IfErr result (λ why. (why ≢ NoHeap) × (why ≢ OutOfMemory)) }
    ensures later { IsLater W.shown words.old words.new }
    ensures faults { IsFaultOf result (W.shown.faults words.old) (W.shown.faults words.new) }
{
    for _ in 0..tries {
        if let Some(names) = read_once(words, geometry, image)? {
            return Ok(names);
        }
    }
    Err(Unsteady::Busy)
}

/// Reads the heap whole while another program may be writing it: the region that is committed, between two looks at
/// the age of back. Where a batch came in between, it tries again, so many times in all. It writes nothing and
/// waits for nobody.
pub fn steady_read<W: Watched>(alloc: Global, words: &mut W, tries: u32) -> Result<Steady, Unsteady>
    // Where words are told and the rule is kept: at one moment of the call the region was the one that was
    // committed, in a heap of that order, and the words of the name were these.
    ensures whole { (order : ℕ) (stages : ℕ → Stage) → IsTrue W.shown.tells →
        IsKept order stages (W.shown.words words.old) → IfOk result (λ read. (read.order ≡ order) ×
        WasWhole order stages (W.shown.words words.old) (W.shown.now words.old)
        (W.shown.now words.new) read.image.items read.names) }
    // Then it is not told either that there is no heap.
    ensures there { (order : ℕ) (stages : ℕ → Stage) → IsTrue W.shown.tells →
        IsKept order stages (W.shown.words words.old) → IfErr result (λ why. why ≢ NoHeap) }
    ensures order { IfOk result (λ read. IsOrder read.order) }
    ensures sized { IfOk result (λ read. length read.image.items ≡ region_len read.order) }
    // The words are read alone.
    ensures later { IsLater W.shown words.old words.new }
    // `Device` comes exactly where a read failed, which was the last.
    ensures faults { IsFaultOf result (W.shown.faults words.old) (W.shown.faults words.new) }
{
    let Some(geometry) = read_order(words)? else {
        return Err(Unsteady::NoHeap);
    };
    let mut image = vec![in alloc; 0u64; geometry.region() as usize]?;
    let names = read_image(words, geometry, image.as_mut_slice(), tries)?;
    Ok(Steady {
        order: geometry.order(),
        names,
        image,
    })
}
