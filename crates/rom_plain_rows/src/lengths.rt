//! Bytes of every length that are written, grown, shrunk and cut, and heaps that are filled with them,
//! beside the model.

use crate::runner::{Program, formatted, ran};
use crate::units::{Told, Units, units_for};
use rom_store::NoGate;
use rom_test::{AMPLE, Limits};
use std::alloc::{AllocError, Global};
use std::process::Abort;
use std::sync::Wait;
use std::test::Fail;
use std::thread::Threads;

/// Room for what is printed.
const ROOM: u64 = 1_000_000;

/// The heaps: an order, and how many units a heap has.
const HEAPS: [(u32, usize); 2] = [(4, 16), (9, 512)];

/// How many units nodes and blocks have at least where so many bytes find no room, in a heap of so many
/// units: those of its blocks for such bytes, less those of the table, less one.
fn least_units(units: usize, len: usize) -> usize {
    let block = units_for(len).max(1);
    let table = (units / 16 / block).max(1);
    (units / block).saturating_sub(table).saturating_sub(1)
}

/// A script, and what its lines are to be told.
#[derive(Drop)]
struct Script {
    alloc: Global,
    units: usize,
    model: Units,
    /// How often there was no room, and whether it was where the blocks of keys had so many units.
    full: usize,
    is_crowded: bool,
    lines: String,
    told: String,
}

/// So many bytes in digits, which are made from a number, or a dash.
fn digits(alloc: Global, seed: u64, len: usize) -> Result<String, AllocError> {
    let mut text = String::new(alloc);
    if len == 0 {
        text.push('-')?;
    }
    let mut byte = seed;
    for _ in 0..len {
        byte = byte.wrapping_mul(5).wrapping_add(7) % 256;
        text.push(char::from_digit((byte / 16) as u32, 16).unwrap_or('?'))?;
        text.push(char::from_digit((byte % 16) as u32, 16).unwrap_or('?'))?;
    }
    Ok(text)
}

impl Script {
    fn new(alloc: Global, units: usize) -> Result<Script, AllocError> {
        Ok(Script {
            alloc,
            units,
            model: Units::new(alloc, units)?,
            full: 0,
            is_crowded: true,
            lines: String::new(alloc),
            told: String::from_str(alloc, "caller 1\n")?,
        })
    }

    fn tell(&mut self, told: Told, place: u64) -> Result<(), AllocError> {
        let line = match told {
            Told::New => format!(in self.alloc; "new @{place}\n")?,
            Told::Was(len) => format!(in self.alloc; "was {len} @{place}\n")?,
            Told::Full => format!(in self.alloc; "full @{place}\n")?,
            Told::None => format!(in self.alloc; "none @{place}\n")?,
        };
        self.told.push_str(line.as_str())
    }

    /// Gives a key so many bytes, and says what that is told.
    fn set(&mut self, key: u64, len: usize) -> Result<Told, AllocError> {
        let place = self.model.count;
        let bytes = digits(self.alloc, place, len)?;
        let line = format!(in self.alloc; "set {key} {}\n", bytes.as_str())?;
        self.lines.push_str(line.as_str())?;
        let told = self.model.set(key, len)?;
        if let Told::Full = told {
            self.full = self.full.saturating_add(1);
            self.is_crowded &= self.model.units() >= least_units(self.units, len);
        }
        self.tell(told, place)?;
        Ok(told)
    }

    fn cut(&mut self, key: u64) -> Result<(), AllocError> {
        let place = self.model.count;
        let line = format!(in self.alloc; "cut {key}\n")?;
        self.lines.push_str(line.as_str())?;
        let told = self.model.cut(key);
        self.tell(told, place)
    }

    fn fetch(&mut self, key: u64) -> Result<(), AllocError> {
        let line = format!(in self.alloc; "fetch {key}\n")?;
        self.lines.push_str(line.as_str())?;
        let front = self.model.count;
        let line = match self.model.fetch(key) {
            Some((seed, len)) => {
                let bytes = digits(self.alloc, seed, len)?;
                format!(in self.alloc; "bytes {} #{front}\n", bytes.as_str())?
            }
            None => format!(in self.alloc; "none #{front}\n")?,
        };
        self.told.push_str(line.as_str())
    }

    fn size(&mut self) -> Result<(), AllocError> {
        self.lines.push_str("size\n")?;
        let (keys, front) = (self.model.keys(), self.model.count);
        let line = format!(in self.alloc; "keys {keys} #{front}\n")?;
        self.told.push_str(line.as_str())
    }

    fn end(&mut self) -> Result<(), AllocError> {
        let line = format!(in self.alloc; "count {}\n", self.model.count)?;
        self.told.push_str(line.as_str())
    }
}

/// Runs a script on a new heap of that order, and asserts that it is told what the model is.
fn agrees<R: Threads + Wait + Sync + AllocGlobal + Abort>(
    rt: &R,
    script: &mut Script,
    order: u32,
) -> Result<(), Fail> {
    script.end()?;
    let heap = formatted(rt, Program::Blobs, order)?;
    let limits = Limits {
        room: ROOM,
        ..AMPLE
    };
    let found = ran(
        rt,
        Program::Blobs,
        &["run", "heap", "a"],
        &[script.lines.as_str()],
        heap,
        limits,
        &NoGate,
    )?;
    assert!(rt; found.status == 0);
    let told = found.text().lines().zip(script.told.as_str().lines());
    for (is, wanted) in told {
        assert!(rt; is == wanted);
    }
    assert!(rt; found.text() == script.told.as_str());
    Ok(())
}

#[test]
fn bytes_of_each_length_come_and_go(rt: HostRuntime) -> Result<(), Fail> {
    for (order, units) in HEAPS {
        let mut script = Script::new(rt.alloc(), units)?;
        for len in 0usize..257 {
            script.set(1, len)?;
            script.fetch(1)?;
            script.set(2, 256usize.saturating_sub(len))?;
            script.fetch(2)?;
            script.fetch(1)?;
            script.cut(2)?;
        }
        for len in 0usize..257 {
            script.set(1, 256usize.saturating_sub(len))?;
            script.fetch(1)?;
        }
        script.cut(1)?;
        script.fetch(1)?;
        script.size()?;
        agrees(&rt, &mut script, order)?;
    }
    Ok(())
}

#[test]
fn heaps_are_filled_with_bytes_of_each_order(rt: HostRuntime) -> Result<(), Fail> {
    for (order, units) in HEAPS {
        for len in [0, 1, 33, 65, 129] {
            let mut script = Script::new(rt.alloc(), units)?;
            for key in 0..units as u64 {
                if let Told::Full = script.set(key, len)? {
                    break;
                }
            }
            script.size()?;
            script.fetch(0)?;
            script.cut(1)?;
            script.set(1000, len)?;
            script.set(1001, len)?;
            script.set(1002, 0)?;
            script.set(0, 256)?;
            script.fetch(0)?;
            script.size()?;
            assert!(rt; script.full > 0 && script.is_crowded);
            agrees(&rt, &mut script, order)?;
        }
    }
    Ok(())
}

/// A heap in which of each block for such bytes one unit is taken.
fn with_one_of_each(alloc: Global, units: usize, len: usize) -> Result<Script, AllocError> {
    let mut script = Script::new(alloc, units)?;
    for unit in units / 16..units {
        script.set(unit as u64, 0)?;
    }
    for unit in units / 16..units {
        if unit % units_for(len).max(1) != 0 {
            script.cut(unit as u64)?;
        }
    }
    Ok(script)
}

#[test]
fn full_is_told_where_one_unit_of_each_block_is_taken(rt: HostRuntime) -> Result<(), Fail> {
    for (order, units) in HEAPS {
        for len in [0, 1, 33, 65, 129] {
            let mut script = with_one_of_each(rt.alloc(), units, len)?;
            let taken = script.model.units();
            assert!(rt; taken == least_units(units, len).saturating_add(1));
            script.set(1000, len)?;
            assert!(rt; script.full == 1);
            // With one unit fewer there is room, but where a byte takes the unit that its node wants.
            script.cut((units / 2) as u64)?;
            script.set(1001, len)?;
            script.fetch(1001)?;
            script.size()?;
            assert!(rt; script.is_crowded);
            agrees(&rt, &mut script, order)?;
        }
    }
    Ok(())
}
