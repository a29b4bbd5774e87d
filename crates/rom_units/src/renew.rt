//! Regions of version 1 that become regions of version 2.
ghost use Rattle.std.specs.Prelude.{◌≡◌, ◌<◌, ◌≤◌, ◌^◌, ℕ, length, IfOk};
ghost use Rattle.rom_model.specs.Blocks.{IsOrder};
ghost use Rattle.rom_model.specs.History.{LAST_COUNT};
ghost use Rattle.rom_model.specs.Region.{Contents};
ghost use Rattle.rom_model.specs.State.{State};
ghost use Rattle.rom_model.specs.VecSpace.{words_of_space};

use crate::regions::{FRESH, NEW_PAIRS, OLD, OLD_PAIRS, change, region};
use crate::right::right;
use rom_heap::Trio;
use rom_model::{
    Call, Object, Renew, Unfit, VERSION, VecSpace, blocks_at, bucket, new_region, power_of_two,
    region_len,
};
use std::alloc::{AllocError, Global};
use std::test::Fail;

/// What a region of version 1 becomes, or nothing where it is none.
fn renewed(alloc: Global, words: Vec<u64>, order: u32) -> Result<Option<Vec<u64>>, AllocError>
    requires { IsOrder order }
{
    if words.len() as u64 != region_len(order) {
        return Ok(None);
    }
    let Ok(()) = Trio::inspect_old(alloc, &words, order) else {
        return Ok(None);
    };
    let mut space = VecSpace::of(words);
    Trio::renew(alloc, &mut space, order)?;
    Ok(Some(space.words().to_vec(alloc)?))
}

#[test]
fn regions_are_renewed_word_for_word(rt: HostRuntime) -> Result<(), Fail> {
    let alloc = rt.alloc();
    let rows: [(&[(usize, u64)], &[(usize, u64)]); 3] = [
        (&[OLD], &[]),
        (&OLD_PAIRS, &NEW_PAIRS),
        // Words of free blocks stay.
        (&[OLD, (60, 7), (111, 9)], &[(60, 7), (111, 9)]),
    ];
    for (row, (old, new)) in rows.iter().enumerate() {
        let renewed = renewed(alloc, region(false, old).to_vec(alloc)?, 4)?;
        let words = region(false, new);
        let same = renewed.is_some_and(|found| found.as_slice() == words.as_slice());
        right("renewed", row, same)?;
    }
    assert!(rt; renewed(alloc, FRESH.to_vec(alloc)?, 4)?.is_none());
    Ok(())
}

/// So many keys in no order, all of the first bucket where that is asked.
fn keys_of(
    alloc: Global,
    order: u32,
    many: usize,
    in_one_bucket: bool,
) -> Result<Vec<u64>, AllocError>
    requires { IsOrder order }
    ensures { IfOk result (λ keys. length keys.items ≤ 2 ^ 20) }
{
    let mut keys = Vec::new(alloc);
    for number in 0..1_000_000u64 {
        let key = number.wrapping_mul(0x2545_F491_4F6C_DD1D);
        if keys.len() < many && (!in_one_bucket || bucket(order, key) == 0) {
            keys.push(key)?;
        }
    }
    Ok(keys)
}

/// A heap to which these keys were put, one after another.
fn grown(alloc: Global, order: u32, keys: &[u64]) -> Result<VecSpace, AllocError>
    requires order { IsOrder order }
    requires few { length keys.now ≤ 2 ^ 20 }
    ensures region { IfOk result (λ space. (s : State) × (k : ℕ)
        × Contents order (words_of_space space) s k × (k < LAST_COUNT)) }
{
    let mut space = new_region::<Trio>(alloc, order)?;
    for key in keys {
        Trio::apply(&mut space, order, &Call::Put(*key, !*key));
    }
    Ok(space)
}

/// Makes its region one of version 1 with the same elements in the same blocks: a new key went to the front
/// of its bucket's chain. And the region itself gets the stamps that a renewed one has.
fn aged(alloc: Global, new: &mut [u64], order: u32, keys: &[u64]) -> Result<Vec<u64>, AllocError>
    requires { IsOrder order }
{
    let mut old = new.to_vec(alloc)?;
    let table = blocks_at(order) as usize;
    for head in old
        .iter_mut()
        .skip(table)
        .take(power_of_two(order - 2) as usize)
    {
        *head = 0;
    }
    change(old.as_mut_slice(), &[(VERSION as usize, 1)]);
    // The first free block is the one behind the table, and each next key takes the next.
    let mut node = table.wrapping_add(power_of_two(order - 2) as usize);
    for key in keys {
        let head = table.wrapping_add(bucket(order, *key) as usize);
        let first = old.get(head).copied().unwrap_or(0);
        let words = [
            (node, *key),
            (node.wrapping_add(1), !*key),
            (node.wrapping_add(2), first),
            (node.wrapping_add(3), 0),
            (head, node as u64),
        ];
        change(old.as_mut_slice(), &words);
        change(new, &[(node.wrapping_add(3), 0)]);
        node = node.wrapping_add(4);
    }
    Ok(old)
}

#[test]
fn long_chains_and_a_full_heap_are_renewed(rt: HostRuntime) -> Result<(), Fail> {
    let alloc = rt.alloc();
    // An order, how many keys there are, and whether they are of one bucket.
    for (order, many, in_one_bucket) in [(4, 15, true), (9, 480, true), (16, 61_440, false)] {
        assert!(rt; 4 <= order && order <= 16);
        let keys = keys_of(alloc, order, many, in_one_bucket)?;
        right("keys at order", order as usize, keys.len() == many)?;
        let mut new = grown(alloc, order, &keys)?.words().to_vec(alloc)?;
        let old = aged(alloc, new.as_mut_slice(), order, &keys)?;
        assert!(rt; old.len() as u64 == region_len(order));
        let told = Trio::inspect(alloc, &old, order);
        right(
            "inspected at order",
            order as usize,
            told == Err(Unfit::Old),
        )?;
        let found = renewed(alloc, old, order)?;
        let same = found.is_some_and(|found| found.as_slice() == new.as_slice());
        right("renewed at order", order as usize, same)?;
    }
    Ok(())
}
