//! What is known of the entries of a region.
ghost use Rattle.std.specs.Prelude.{List, ℕ};
ghost use Rattle.std.specs.FinMap as map;
ghost use Rattle.std.specs.List.{AllByRecursion};
ghost use Rattle.rom_order_region.specs.State.{Pairs};
ghost use Rattle.rom_order_region.specs.Region.{IndexContents};
ghost use Rattle.rom_order_carry.specs.Entries.{EntryFits};

/// Tells the check that the keys and the values of a region have at most 64 bits: they stand in its words. The
/// loop does nothing, and a compiler leaves it out.
pub fn know_entries(words: &[u64])
    ensures fit { (n : ℕ) (s : Pairs) (k : ℕ) → IndexContents n words.now s k
        → AllByRecursion EntryFits (map.entries s) }
{
    for word in words {
        let _word = *word;
    }
}
