//! Bytes on their way to a sink, gathered so that they leave in whole blocks.
ghost use Rattle.std.specs.Prelude.{◌≡◌, ◌<◌, ◌≤◌, ◌++◌, IsTrue, [], length, take, drop, OnOk};
ghost use Rattle.arrayvec.specs.ArrayVec.{array_vec_len};
ghost use Rattle.rom_text.specs.Gathered.{Grown, Grown-prop, Hands};
ghost use Rattle.rom_text.specs.Streams.{Prints};

use crate::printing::Report;
use crate::streams::{IoFailed, Sink};
use arrayvec::ArrayVec;
use std::snapshot::Snapshot;

/// How many bytes a block has.
const BLOCK: usize = 4096;

/// A sink that hands what it takes over to another one in blocks of 4,096 bytes. What it has taken is what
/// that sink has taken, and then the bytes that wait here. Standard output has no buffer here, and a write
/// call for each piece of a line would be several calls a line. The block is on the stack, so printing
/// takes no memory.
struct Gathered<'a, O: Sink> {
    out: &'a mut O,
    // The sink as it was lent, for proofs alone.
    opened: Snapshot<O>,
    block: ArrayVec<u8, BLOCK>,
    // How many bytes of the block are handed over.
    handed: usize,
    // Whether the last write failed, and then that of the sink behind did.
    failing: bool,
    ghost within: { handed ≤ array_vec_len block },
    // A sink may fail in the middle of a text. Then the sink has some of the text, and the block, which is
    // let go, has the bytes behind that. Both together have a first part of the text. Since the sink's own
    // bytes only grew, it has a first part by itself.
    ghost grown: { Grown (O.shown.taken opened.value) (O.shown.taken out.now) } by { Grown-prop (O.shown.taken opened.value) (O.shown.taken out.now) },
    ghost failed: { IsTrue failing → IsTrue (O.shown.failing out.now) },
}

impl<'a, O: Sink> Gathered<'a, O> {
    ghost use Rattle.std.specs.Prelude.{false, is_err};

    /// A block in which nothing waits.
    fn over(out: &'a mut O) -> Gathered<'a, O>
        ensures same_sink { result.out.ghost_name ≡ out.entry.ghost_name }
        ensures out { result.out.now ≡ out.old }
        ensures opened { O.shown.taken result.opened.value ≡ O.shown.taken out.old }
        ensures none { result.block.items ≡ [] }
    {
        let opened = Snapshot::of(&*out);
        Gathered {
            out,
            opened,
            block: ArrayVec::new(),
            handed: 0,
            failing: false,
        }
    }

    /// Hands a first part of what waits over.
    fn hand_some(&mut self) -> Result<(), IoFailed>
        requires { self.old.handed < array_vec_len self.old.block }
        ensures hands { Hands O.shown self.old.out.now self.new.out.now
            (drop self.old.handed self.old.block.items)
            (drop self.new.handed self.new.block.items) result }
        ensures block { self.new.block ≡ self.old.block }
        ensures on { OnOk result (self.old.handed < self.new.handed) }
        ensures failing { self.new.failing ≡ is_err result }
        ensures same_sink { self.new.out.ghost_name ≡ self.old.out.ghost_name }
        ensures opened { O.shown.taken self.new.opened.value ≡ O.shown.taken self.old.opened.value }
    {
        self.failing = false;
        let waiting = &self.block.as_slice()[self.handed..];
        match self.out.write(waiting) {
            Ok(count) => {
                self.handed += count as usize;
                Ok(())
            }
            Err(failed) => {
                self.failing = true;
                Err(failed)
            }
        }
    }

    /// Hands all that waits over. It comes once a block, so it stays out of the way of the pieces.
    #[cold]
    #[inline(never)]
    fn hand_over(&mut self) -> Result<(), IoFailed>
        ensures hands { Hands O.shown self.old.out.now self.new.out.now
            (drop self.old.handed self.old.block.items)
            (drop self.new.handed self.new.block.items) result }
        ensures emptied { OnOk result (self.new.block.items ≡ []) }
        ensures none_waits { OnOk result (drop self.new.handed self.new.block.items ≡ []) }
        ensures failing { self.new.failing ≡ is_err result }
        ensures same_sink { self.new.out.ghost_name ≡ self.old.out.ghost_name }
        ensures opened { O.shown.taken self.new.opened.value ≡ O.shown.taken self.old.opened.value }
    {
        self.failing = false;
        while self.handed < self.block.len() {
            self.hand_some()?;
        }
        self.block.clear();
        self.handed = 0;
        Ok(())
    }

    /// Puts the first bytes of a piece behind those that wait, as many as there is room for.
    fn put(&mut self, piece: &[u8]) -> u64
        requires some { 0 < length piece.now }
        requires room { array_vec_len self.old.block < BLOCK }
        ensures count { (0 < result) × (result ≤ length piece.now) }
        ensures waits { drop self.new.handed self.new.block.items
            ≡ drop self.old.handed self.old.block.items ++ take result piece.now }
        ensures out { self.new.out.now ≡ self.old.out.now }
        ensures failing { self.new.failing ≡ false }
        ensures same_sink { self.new.out.ghost_name ≡ self.old.out.ghost_name }
        ensures opened { O.shown.taken self.new.opened.value ≡ O.shown.taken self.old.opened.value }
    {
        self.failing = false;
        let count = piece.len().min(self.block.remaining_capacity());
        match self.block.try_extend_from_slice(&piece[..count]) {
            Ok(()) => count as u64,
            Err(_) => unreachable!(),
        }
    }
}

impl<O: Sink> Drop for Gathered<'_, O> {
    fn drop(self)
        ensures { self.exit.0.now ≡ self.entry.out.now }
    {
        let Gathered {
            out: _,
            opened: _,
            block: _,
            handed: _,
            failing: _,
        } = self;
    }
}

impl<'a, O: Sink> Sink for Gathered<'a, O> {
    ghost use Rattle.std.specs.Prelude.{ℕ, List, Option, drop};
    ghost use Rattle.std.specs.Io.KnownBytes.{append_known};

    ghost shown = { record {
      taken = λ b. append_known (O.shown.taken b.out.now) (drop b.handed b.block.items);
      faults = λ b. O.shown.faults b.out.now;
      failing = λ b. b.failing;
      Rest = ℕ × Option (List ℕ) × O.shown.Rest;
      rest = λ b. (b.out.ghost_name, O.shown.taken b.opened.value, O.shown.rest b.out.now);
    } };

    fn write(&mut self, piece: &[u8]) -> Result<u64, IoFailed> {
        if self.block.is_full() {
            self.hand_over()?;
        }
        Ok(self.put(piece))
    }
}

/// Prints a report into a block, and hands the rest of it over.
fn print_through<R: Report, O: Sink>(out: &mut Gathered<O>, report: &R) -> Result<(), IoFailed>
    requires none { drop out.old.handed out.old.block.items ≡ [] }
    requires opened { O.shown.taken out.old.opened.value ≡ O.shown.taken out.old.out.now }
    ensures prints { Prints O.shown out.old.out.now out.new.out.now result
        (R.shown.text report.now) }
    ensures of_type { OnOk result (R.shown.Fits report.now) }
    ensures same_sink { out.new.out.ghost_name ≡ out.old.out.ghost_name }
{
    report.print(out)?;
    out.hand_over()
}

/// Prints a report. It leaves in blocks of 4,096 bytes, and nothing of it waits after the call. It
/// takes no memory. After `IoFailed` the sink has taken some of the text, from its front.
pub fn print_gathered<R: Report, O: Sink>(out: &mut O, report: &R) -> Result<(), IoFailed>
    // After `Ok` the sink has taken the whole text, as far as it tells. After `IoFailed` it has taken a
    // first part, and its last write failed and no other.
    ensures prints { Prints O.shown out.old out.new result (R.shown.text report.now) }
    ensures of_type { OnOk result (R.shown.Fits report.now) }
{
    let mut gathered = Gathered::over(out);
    print_through(&mut gathered, report)
}
