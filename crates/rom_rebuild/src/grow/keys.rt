//! The map of a region that is filled.
ghost use Rattle.std.specs.Prelude.{◌≡◌, ◌+◌, ◌≤◌, ℕ, IfSome, MatchOption, None, Some, length, slice_index};
ghost use Rattle.std.specs.FinMap as map;
ghost use Rattle.rom_map.specs.Map.{with_pairs};
ghost use Rattle.rom_model.specs.Blocks.{IsOrder};
ghost use Rattle.rom_model.specs.Region.{Contents, IsWellFormed};
ghost use Rattle.rom_model.specs.State.{State, live};
ghost use Rattle.rom_model.specs.VecSpace.{words_of_space};
ghost use Rattle.rom_rebuild.specs.Filling.{HasRoomFor};

use rom_bucket::find_rising;
use rom_map::{MAP_STAMP, MAP_VALUE, map_put};
use rom_model::{Look, VecSpace};

/// What a key of the map has.
#[derive(Clone, Copy)]
struct Kept {
    value: u64,
    stamp: u64,
}

/// What a key has, where the map has the key. The words stay.
fn find_kept(space: &mut VecSpace, order: u32, key: u64) -> Option<Kept>
    requires order { IsOrder order }
    requires region { IsWellFormed order (words_of_space space.old) }
    ensures is { (s : State) (k : ℕ) → Contents order (words_of_space space.old) s k →
        MatchOption result (map.get s.pairs key ≡ None) (λ kept.
        map.get s.pairs key ≡ Some (record { value = kept.value; stamp = kept.stamp })) }
    // A stamp is no more than the region's count.
    ensures stamp { IfSome result (λ kept.
        kept.stamp ≤ slice_index (words_of_space space.old) 2) }
    ensures words { words_of_space space.new ≡ words_of_space space.old }
{
    let sought = find_rising(space, order, key);
    if !sought.found {
        return None;
    }
    let node = sought.place.node;
    let value = space.load(node + MAP_VALUE);
    let stamp = space.load(node + MAP_STAMP);
    Some(Kept { value, stamp })
}

/// Gives a key the value and the stamp that it has in another region, where it has some there. The two regions
/// have counted as many updates. The words of the other one stay.
fn put_key(from: &mut VecSpace, order: u32, key: u64, space: &mut VecSpace, greater: u32)
    requires order { IsOrder order }
    requires greater { IsOrder greater }
    requires from { IsWellFormed order (words_of_space from.old) }
    requires room { HasRoomFor greater (words_of_space space.old) 1 }
    requires counts { slice_index (words_of_space space.old) 2
        ≡ slice_index (words_of_space from.old) 2 }
    ensures put { (s t : State) (j k : ℕ) → Contents order (words_of_space from.old) s j →
        Contents greater (words_of_space space.old) t k → IfSome (map.get s.pairs key) (λ kept.
        Contents greater (words_of_space space.new) (with_pairs t (map.insert t.pairs key kept)) k) }
    // There is one element more at most, and the count stays.
    ensures more { (t : State) (k : ℕ) → Contents greater (words_of_space space.old) t k →
        (u : State) × Contents greater (words_of_space space.new) u k × (live u ≤ live t + 1) }
    ensures words { words_of_space from.new ≡ words_of_space from.old }
{
    let Some(kept) = find_kept(from, order, key) else {
        return;
    };
    let _ = map_put(space, greater, key, kept.value, kept.stamp);
}

/// Puts the keys of a region's map into the map of another region, which is empty: the last of them first, each
/// with its value and its stamp.
pub fn put_keys(from: &mut VecSpace, order: u32, keys: &[u64], space: &mut VecSpace, greater: u32)
    requires order { IsOrder order }
    requires greater { IsOrder greater }
    requires from { IsWellFormed order (words_of_space from.old) }
    requires room { HasRoomFor greater (words_of_space space.old) (length keys.now) }
    requires counts { slice_index (words_of_space space.old) 2
        ≡ slice_index (words_of_space from.old) 2 }
    ensures put { (s t : State) (k : ℕ) → Contents order (words_of_space from.old) s k →
        Contents greater (words_of_space space.old) t k → keys.now ≡ map.keys s.pairs →
        t.pairs ≡ map.empty → Contents greater (words_of_space space.new) (with_pairs t s.pairs) k }
    ensures words { words_of_space from.new ≡ words_of_space from.old }
{
    let len = keys.len();
    for done in 0..len {
        put_key(from, order, keys[len - 1 - done], space, greater);
    }
}
