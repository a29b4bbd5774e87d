//! Keys with bytes and indexes that are carried over: what is shown of a heap, what its script makes again, and what it
//! grows to. What is to be told was written by hand.

use crate::runner::{Program, formatted, ran};
use rom_blob::Blobs;
use rom_blob_carry::CarryBlobs;
use rom_carry::Carry;
use rom_device::{Device, Ram};
use rom_dump::{Made, dump, kind_of, put_copy, take_grown};
use rom_model::Object;
use rom_order::Ordered;
use rom_order_carry::CarryOrdered;
use rom_store::NoGate;
use rom_test::{AMPLE, names_of, right, words_of_order};
use rom_text::Collect;
use std::alloc::Global;
use std::sync::Wait;
use std::test::Fail;
use std::thread::Threads;

/// A heap of order 4 that a script makes, and what is told of it.
#[derive(Clone, Copy)]
struct Carried {
    program: Program,
    kind: u64,
    /// Some lines that make it, one after another.
    lines: &'static str,
    /// The lines that carry it over.
    script: &'static str,
    /// What `check` tells behind the region.
    check: &'static str,
    /// The gauges of this kind.
    gauges: &'static str,
    /// What `check` tells of it as one of order 5.
    greater: &'static str,
}

static CARRIED: [Carried; 4] = [
    // A key of 33 bytes has two units and one; then come one byte, and none.
    Carried {
        program: Program::Blobs,
        kind: 2,
        lines: "set 9 -\nset 2 ff\nset 7 000102030405060708090a0b0c0d0e0f101112131415161718191a1b1c1d1e1f20\nset 5 01\ncut 9\nset 1 -\n",
        script: "set 7 000102030405060708090a0b0c0d0e0f101112131415161718191a1b1c1d1e1f20\nset 2 ff\nset 5 01\nset 1 -\n",
        check: "kind keys with bytes\norder 4\ncount 6\nkeys 4 bytes 35\nfree 7\n",
        gauges: "# TYPE romulus_keys gauge\nromulus_keys 4\n# TYPE romulus_bytes gauge\nromulus_bytes 35\n# TYPE romulus_free_units gauge\nromulus_free_units 7\n# TYPE romulus_free_percent gauge\nromulus_free_percent 46\n",
        greater: "kind keys with bytes\norder 5\ncount 6\nkeys 4 bytes 35\nfree 22\n",
    },
    Carried {
        program: Program::Blobs,
        kind: 2,
        lines: "",
        script: "",
        check: "kind keys with bytes\norder 4\ncount 0\nkeys 0 bytes 0\nfree 15\n",
        gauges: "# TYPE romulus_keys gauge\nromulus_keys 0\n# TYPE romulus_bytes gauge\nromulus_bytes 0\n# TYPE romulus_free_units gauge\nromulus_free_units 15\n# TYPE romulus_free_percent gauge\nromulus_free_percent 100\n",
        greater: "kind keys with bytes\norder 5\ncount 0\nkeys 0 bytes 0\nfree 30\n",
    },
    // The greatest key, and a full heap.
    Carried {
        program: Program::Index,
        kind: 3,
        lines: "put 8 1\nput 18446744073709551615 18446744073709551615\nput 0 5\nput 3 4\nput 4 3\nput 5 2\nput 6 1\nput 7 0\nput 9 9\ndel 8\nput 2 6\n",
        script: "put 0 5\nput 2 6\nput 3 4\nput 4 3\nput 5 2\nput 6 1\nput 7 0\nput 18446744073709551615 18446744073709551615\n",
        check: "kind an ordered index\norder 4\ncount 11\nkeys 8\nfree 0\ntotal 18446744073709551636\n",
        gauges: "# TYPE romulus_keys gauge\nromulus_keys 8\n# TYPE romulus_free_keys gauge\nromulus_free_keys 0\n# TYPE romulus_free_percent gauge\nromulus_free_percent 0\n# TYPE romulus_total gauge\nromulus_total 18446744073709551636\n",
        greater: "kind an ordered index\norder 5\ncount 11\nkeys 8\nfree 8\ntotal 18446744073709551636\n",
    },
    Carried {
        program: Program::Index,
        kind: 3,
        lines: "put 2 20\nput 1 10\ndel 1\n",
        script: "put 2 20\n",
        check: "kind an ordered index\norder 4\ncount 3\nkeys 1\nfree 7\ntotal 20\n",
        gauges: "# TYPE romulus_keys gauge\nromulus_keys 1\n# TYPE romulus_free_keys gauge\nromulus_free_keys 7\n# TYPE romulus_free_percent gauge\nromulus_free_percent 87\n# TYPE romulus_total gauge\nromulus_total 20\n",
        greater: "kind an ordered index\norder 5\ncount 3\nkeys 1\nfree 15\ntotal 20\n",
    },
];

/// A device in memory of these words.
fn device_with(alloc: Global, words: &[u64]) -> Result<Ram, Fail> {
    let mut device = Ram::zeroed(alloc, words.len() as u64)?;
    for (at, word) in words.iter().enumerate() {
        let at = at as u64;
        if at >= device.len() || device.write(at, *word).is_err() {
            return Err("a word was not written".into());
        }
    }
    Ok(device)
}

/// What a command tells that ends with 0, of a heap of this object.
fn told<O: Object, C: Carry<O>>(
    alloc: Global,
    words: &[&str],
    device: &mut Ram,
) -> Result<String, Fail> {
    let names = names_of(alloc, words)?;
    let mut out = Collect::with_room(alloc, 4096, 100)?;
    if dump::<Ram, O, C, Collect>(alloc, &names, device, &mut out) != 0 {
        return Err("another status".into());
    }
    Ok(str::from_utf8(out.bytes())?.to_string(alloc)?)
}

/// What `check` tells behind the line of the region.
fn checked<O: Object, C: Carry<O>>(alloc: Global, device: &mut Ram) -> Result<String, Fail> {
    let text = told::<O, C>(alloc, &["check", "heap"], device)?;
    match text.as_str().strip_prefix("region both: idle\n") {
        Some(rest) => Ok(rest.to_string(alloc)?),
        None => Err("another region".into()),
    }
}

/// Looks at a heap of these words, and makes it of order 5.
fn carries<O: Object, C: Carry<O>>(
    alloc: Global,
    at: usize,
    row: &Carried,
    words: &[u64],
) -> Result<(), Fail> {
    let mut device = device_with(alloc, words)?;
    right("kind", at, kind_of(&mut device, None) == Ok(Some(row.kind)))?;
    let script = told::<O, C>(alloc, &["script", "heap"], &mut device)?;
    right("script", at, script.as_str() == row.script)?;
    right(
        "check",
        at,
        checked::<O, C>(alloc, &mut device)?.as_str() == row.check,
    )?;
    let gauges = told::<O, C>(alloc, &["metrics", "heap"], &mut device)?;
    right("gauges", at, gauges.as_str().ends_with(row.gauges))?;
    let Ok(taken) = take_grown::<Ram, O, C>(alloc, &mut device, 5) else {
        return Err("it was not taken".into());
    };
    let mut new = Ram::zeroed(alloc, words_of_order(5) as u64)?;
    let mut out = Collect::with_room(alloc, 100, 100)?;
    right(
        "grown",
        at,
        put_copy(&mut new, Made::Grown, &taken, &mut out) == 0,
    )?;
    right(
        "greater",
        at,
        checked::<O, C>(alloc, &mut new)?.as_str() == row.greater,
    )?;
    let again = told::<O, C>(alloc, &["script", "heap"], &mut new)?;
    right("its script", at, again.as_str() == row.script)
}

/// The words of a new heap of order 4 behind a script, which has as many lines as are counted then.
fn behind<R: Threads + Wait + Sync + AllocGlobal>(
    rt: &R,
    row: &Carried,
    script: &str,
) -> Result<Vec<u64>, Fail> {
    let alloc = rt.alloc();
    let words = formatted(rt, row.program, 4)?;
    let done = ran(
        rt,
        row.program,
        &["run", "heap", "a"],
        &[script],
        words,
        AMPLE,
        &NoGate,
    )?;
    if done.status != 0 {
        return Err("a line was not done".into());
    }
    Ok(done.device.words().to_vec(alloc)?)
}

#[test]
fn each_kind_is_carried_over(rt: HostRuntime) -> Result<(), Fail> {
    let alloc = rt.alloc();
    for (at, row) in CARRIED.iter().enumerate() {
        let words = behind(&rt, row, row.lines)?;
        let again = behind(&rt, row, row.script)?;
        let mut device = device_with(alloc, &again)?;
        if row.program == Program::Blobs {
            carries::<Blobs, CarryBlobs>(alloc, at, row, &words)?;
            let script = told::<Blobs, CarryBlobs>(alloc, &["script", "heap"], &mut device)?;
            right("again", at, script.as_str() == row.script)?;
        } else {
            carries::<Ordered, CarryOrdered>(alloc, at, row, &words)?;
            let script = told::<Ordered, CarryOrdered>(alloc, &["script", "heap"], &mut device)?;
            right("again", at, script.as_str() == row.script)?;
        }
    }
    Ok(())
}
