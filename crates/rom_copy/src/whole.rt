//! The words of a whole heap.
ghost use Rattle.std.specs.Prelude.{◌≡◌, ◌<◌, ◌≤◌, IfOk, length, slice_index};
ghost use Rattle.rom_model.specs.Blocks.{IsOrder, region_len};
ghost use Rattle.rom_header.specs.Layout.{words_needed};
ghost use Rattle.rom_copy.specs.Whole.{HoldsWhole, heap_words};

use rom_header::{HEADER_VERSION, MAGIC, State};
use rom_steady::{NameWords, Steady};
use std::alloc::{AllocError, Global};

/// The place of the count in a region.
const COUNT: usize = 2;

/// How many updates the region has behind it.
pub fn count_of(whole: &Steady) -> u64
    requires { length whole.now.image.items ≡ region_len whole.now.order }
    ensures { result ≡ slice_index whole.now.image.items 2 }
{
    whole.image[COUNT]
}

/// The words of a heap at rest of this order, with these words of the name and this region.
pub fn words_at_rest(
    alloc: Global,
    order: u32,
    names: NameWords,
    region: &[u64],
) -> Result<Vec<u64>, AllocError>
    requires order { IsOrder order }
    requires sized { length region.now ≡ region_len order }
    // Header, IDLE, the words of the name, and the region twice.
    ensures words { IfOk result (λ words. words.items ≡ heap_words order names region.now) }
    ensures long { IfOk result (λ words. length words.items ≡ words_needed order) }
    // In these words this region counts.
    ensures holds { IfOk result (λ words. HoldsWhole order names region.now words.items) }
{
    let header = [
        MAGIC,
        HEADER_VERSION,
        u64::from(order),
        State::Idle.word(),
        names.high,
        names.low,
        names.epoch,
        names.since,
    ];
    let mut words = Vec::new(alloc);
    words.extend_from_slice(&header)?;
    words.extend_from_slice(region)?;
    words.extend_from_slice(region)?;
    Ok(words)
}

/// The words of a heap at rest with this region, this order and these words of the name.
pub fn whole_words(alloc: Global, whole: &Steady) -> Result<Vec<u64>, AllocError>
    requires order { IsOrder whole.now.order }
    requires sized { length whole.now.image.items ≡ region_len whole.now.order }
    // Header, IDLE, the words of the name, and the image in both regions.
    ensures words { IfOk result (λ words.
        words.items ≡ heap_words whole.now.order whole.now.names whole.now.image.items) }
    ensures long { IfOk result (λ words. length words.items ≡ words_needed whole.now.order) }
    // In these words this region counts.
    ensures holds { IfOk result (λ words.
        HoldsWhole whole.now.order whole.now.names whole.now.image.items words.items) }
{
    words_at_rest(alloc, whole.order, whole.names, whole.image.as_slice())
}
