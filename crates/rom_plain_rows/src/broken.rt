//! Regions that break a rule: what the opening of a heap tells of them, and what the inspection tells of
//! long chains of nodes.

use crate::runner::{Program, ran};
use crate::{blobs, indexes};
use rom_device::Device;
use rom_model::{Object, Rule, Unfit, blocks_at, region_len};
use rom_order::Ordered;
use rom_store::NoGate;
use rom_test::{AMPLE, SMALL, changed, right};
use std::alloc::{AllocError, Global};
use std::process::Abort;
use std::sync::Wait;
use std::test::Fail;
use std::thread::Threads;

/// Words of a region that are changed in both of a heap's, and what its opening tells then.
#[derive(Clone, Copy)]
pub struct Broken {
    pub changes: &'static [(usize, u64)],
    pub text: &'static str,
}

/// Makes a heap by the first script, and asserts of each changed one that it is refused as it is to be, or
/// that the second script is told what it is to be told.
fn try_broken<R: Threads + Wait + Sync + AllocGlobal + Abort>(
    rt: &R,
    program: Program,
    scripts: [&str; 2],
    rows: &[Broken],
) -> Result<(), Fail> {
    let alloc = rt.alloc();
    let [script, look] = scripts;
    let zeros = vec![in alloc; 0u64; SMALL]?;
    let made = ran(rt, program, &["try", "a"], &[script], zeros, AMPLE, &NoGate)?;
    assert!(rt; made.status == 0);
    let open = ["run", "heap", "a"];
    for (at, row) in rows.iter().enumerate() {
        let words = changed(alloc, made.device.words(), row.changes)?;
        let found = ran(rt, program, &open, &[look], words, AMPLE, &NoGate)?;
        let status = if row.text.starts_with("refused") {
            3
        } else {
            0
        };
        right(
            program.name(),
            at,
            found.status == status && found.text() == row.text,
        )?;
    }
    Ok(())
}

#[test]
fn broken_regions_are_refused(rt: HostRuntime) -> Result<(), Fail> {
    try_broken(&rt, Program::Blobs, blobs::BEFORE, &blobs::BROKEN)?;
    try_broken(&rt, Program::Index, indexes::BEFORE, &indexes::BROKEN)
}

/// The words of a region of order 9 of whose nodes each has the next one on its right, with the heights
/// that they have then. Nothing is said by its allocator's tree.
fn chain(alloc: Global, nodes: u64) -> Result<Vec<u64>, AllocError> {
    let first = blocks_at(9);
    let mut words = vec![in alloc; 0u64; region_len(9) as usize]?;
    for (offset, word) in [(0, 3), (1, 1), (3, first), (4, nodes)] {
        set(&mut words, offset, word);
    }
    for number in 0..nodes.min(99) {
        let node = first + 8 * number;
        let more = nodes.saturating_sub(number);
        set(&mut words, node, number);
        set(&mut words, node + 3, if more == 1 { 0 } else { node + 8 });
        set(&mut words, node + 4, more);
    }
    Ok(words)
}

fn set(words: &mut [u64], offset: u64, word: u64) {
    if let Some(place) = words.get_mut(offset as usize) {
        *place = word;
    }
}

/// What the inspection says of words that may be a region of order 9.
fn inspected(alloc: Global, words: &[u64]) -> Option<Result<(), Unfit>> {
    if words.len() as u64 != region_len(9) {
        return None;
    }
    Some(Ordered::inspect(alloc, words, 9))
}

#[test]
fn a_chain_of_nodes_is_too_deep_or_not_even(rt: HostRuntime) -> Result<(), Fail> {
    let first = blocks_at(9);
    // How many nodes there are, which of them breaks a rule, at which of its words, and which rule. Up to
    // 25 links lead on, and the lowest node that is not even is the third from the end.
    let rows = [
        (3, 0, 4, Rule::Ends),
        (25, 22, 4, Rule::Ends),
        (26, 24, 3, Rule::Link),
        (99, 24, 3, Rule::Link),
    ];
    for (nodes, node, word, rule) in rows {
        let words = chain(rt.alloc(), nodes)?;
        let offset = first + 8 * node + word;
        let want = Some(Err(Unfit::Malformed { offset, rule }));
        right(
            "nodes",
            nodes as usize,
            inspected(rt.alloc(), &words) == want,
        )?;
    }
    Ok(())
}
