//! Blocks of a region that are taken and given back, and the words of the tree.
ghost use Rattle.std.specs.Prelude.{◌≡◌, ◌≢◌, ℕ, ◌≤◌, length, IfOk, IfSome};
ghost use Rattle.rom_model.specs.VecSpace.{words_of_space};
ghost use Rattle.rom_model.specs.Blocks.{IsOrder, region_len};
ghost use Rattle.rom_block.specs.Taken.{IsSomeTree, IsTakenAt};

use crate::regions::{change, region};
use crate::right::right;
use rom_block::{Blocks, Taken, fill_node};
use rom_model::{Rule, Unfit, VecSpace, region_len};
use std::alloc::Global;
use std::test::Fail;

/// A region with all blocks free. Its other words are 77.
fn free_region(alloc: Global, order: u32) -> Result<VecSpace, Fail>
    requires order { IsOrder order }
    ensures len { IfOk result (λ space. length (words_of_space space) ≡ region_len order) }
    ensures tree { IfOk result (λ space. IsSomeTree order (words_of_space space)) }
{
    let mut space = VecSpace::of(vec![in alloc; 77u64; region_len(order) as usize]?);
    Blocks::format(&mut space, order);
    Ok(space)
}

fn take(space: &mut VecSpace, order: u32, want: u32) -> Option<u64>
    requires order { IsOrder order }
    requires want { want ≤ order }
    requires sized { length (words_of_space space.old) ≡ region_len order }
    requires tree { IsSomeTree order (words_of_space space.old) }
    ensures len { length (words_of_space space.new) ≡ region_len order }
    ensures tree { IsSomeTree order (words_of_space space.new) }
    ensures some { IfSome result (λ at. IsTakenAt order want at (words_of_space space.new)) }
    ensures kept { (other at : ℕ) → IsTakenAt order other at (words_of_space space.old)
        → IsTakenAt order other at (words_of_space space.new) }
{
    Blocks::take(space, order, want)
}

fn give(space: &mut VecSpace, order: u32, at: u64, want: u32)
    requires order { IsOrder order }
    requires want { want ≤ order }
    requires sized { length (words_of_space space.old) ≡ region_len order }
    requires taken { IsTakenAt order want at (words_of_space space.old) }
    ensures len { length (words_of_space space.new) ≡ region_len order }
    ensures tree { IsSomeTree order (words_of_space space.new) }
    ensures kept { (other place : ℕ) → other ≤ order → (other ≡ want → place ≢ at)
        → IsTakenAt order other place (words_of_space space.old)
        → IsTakenAt order other place (words_of_space space.new) }
{
    Blocks::give(space, order, at, want)
}

#[test]
fn the_fresh_tree_and_one_unit_more(rt: HostRuntime) -> Result<(), Fail> {
    // The words of other parts stay.
    let mut words = [77; 112];
    words[16..48].copy_from_slice(&region(false, &[])[16..48]);
    let mut space = free_region(rt.alloc(), 4)?;
    assert!(rt; take(&mut space, 4, 0) == Some(48));
    assert!(rt; space.words() == words.as_slice());

    let unit = take(&mut space, 4, 0).expect(&rt, "a unit is free");
    assert!(rt; unit == 52);
    let mut taken = words;
    change(&mut taken, &[(24, 0), (33, 0)]);
    assert!(rt; space.words() == taken.as_slice());
    give(&mut space, 4, unit, 0);
    assert!(rt; space.words() == words.as_slice());

    fill_node(&mut space, 52, [5, 6, 0, 8]);
    change(&mut words, &[(52, 5), (53, 6), (54, 0), (55, 8)]);
    assert!(rt; space.words() == words.as_slice());
    Ok(())
}

#[test]
fn a_full_region_and_two_blocks_given_back(rt: HostRuntime) -> Result<(), Fail> {
    let mut space = free_region(rt.alloc(), 4)?;
    assert!(rt; take(&mut space, 4, 0) == Some(48));

    let unit = take(&mut space, 4, 0).expect(&rt, "a unit is free");
    assert!(rt; unit == 52);
    let pair = take(&mut space, 4, 1).expect(&rt, "two units are free");
    assert!(rt; pair == 56);
    assert!(rt; take(&mut space, 4, 2) == Some(64));
    assert!(rt; take(&mut space, 4, 3) == Some(80));
    assert!(rt; take(&mut space, 4, 0) == None);
    assert!(rt; Blocks::largest_free(&mut space, 4) == None);

    give(&mut space, 4, unit, 0);
    assert!(rt; Blocks::largest_free(&mut space, 4) == Some(0));
    give(&mut space, 4, pair, 1);
    assert!(rt; Blocks::largest_free(&mut space, 4) == Some(1));
    // Units 1 to 3 are free, but they are no block.
    assert!(rt; take(&mut space, 4, 2) == None);
    assert!(rt; take(&mut space, 4, 1) == Some(56));
    Ok(())
}

#[test]
fn an_inspection_names_the_first_word_that_differs(rt: HostRuntime) -> Result<(), Fail> {
    // Words that are changed, and the first that differs. Offset 16 belongs to no node.
    let rows: [(&[(usize, u64)], Option<u64>); 6] = [
        (&[(16, 0)], None),
        (&[(17, 5)], Some(17)),
        (&[(17, 4)], None),
        (&[(47, 0)], Some(47)),
        (&[(47, 0), (32, 1)], Some(32)),
        (&[(47, 0), (32, 1), (33, 0)], Some(32)),
    ];
    let table = [Taken { at: 48, order: 0 }];
    for (row, (changes, differs)) in rows.iter().enumerate() {
        let want = match *differs {
            Some(offset) => Err(Unfit::Malformed {
                offset,
                rule: Rule::Tree,
            }),
            None => Ok(()),
        };
        let words = region(false, changes);
        let told = Blocks::inspect(rt.alloc(), &words, 4, &table);
        right("inspected", row, told == want)?;
    }
    Ok(())
}
