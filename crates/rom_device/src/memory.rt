//! Words in memory with listed faults, and a list of all calls made.
ghost use Rattle.std.specs.Prelude.{◌≡◌, ◌<◌, ◌≤◌, ◌^◌, ◌∷◌, ◌++◌, [], List, ℕ, true, false, IfOk, IsTrue, ◌↔◌, length, reverse, vec_len, vec_capacity};
ghost use Rattle.std.specs.Bool.{OnTrue, OnFalse};
ghost use Rattle.rom_device.specs.Log.{words_after};
ghost use Rattle.rom_device.specs.Trips.{trip_at};

use crate::call::{CallKind, LoggedCall};
use crate::device::{Device, Failed};
use crate::followed::picked_value;
use crate::trip::Trip;
use std::alloc::{AllocError, Global};

/// Words in memory that list all calls made, fail where they are told to, and tell what a stop at
/// any moment may leave. The moment is the number of calls listed.
///
/// A call past the room fails and is neither listed nor a moment: the word stays, and gains no
/// value that a stop may leave. It counts as a read, a write or a sync, and as a fault.
#[derive(Drop)]
pub struct Memory {
    start: Vec<u64>,
    words: Vec<u64>,
    made: Vec<LoggedCall>,
    room: u64,
    trips: Vec<Trip>,
    reads: u64,
    writes: u64,
    syncs: u64,
    faults: u64,
    failing: bool,
    ghost small: { length start.items < 2 ^ 64 },
    ghost counts_fit: { (reads < 2 ^ 64) × (writes < 2 ^ 64) × (syncs < 2 ^ 64)
        × (faults < 2 ^ 64) },
    ghost as_long: { vec_len words ≡ vec_len start },
    ghost replayed: { words.items ≡ words_after start.items (reverse made.items) },
    ghost within: { vec_len made ≤ room },
    ghost reserved: { room ≤ vec_capacity made },
}

// Lists a call. `false` says that there was no room for it.
fn list(made: &mut Vec<LoggedCall>, room: u64, call: LoggedCall) -> bool
    requires within { vec_len made.old ≤ room }
    requires reserved { room ≤ vec_capacity made.old }
    ensures listed { IsTrue result ↔ (vec_len made.old < room) }
    ensures added { OnTrue result (made.new.items ≡ made.old.items ++ call ∷ []) }
    ensures full { OnFalse result (made.new.items ≡ made.old.items) }
    ensures within { vec_len made.new ≤ room }
    ensures reserved { room ≤ vec_capacity made.new }
{
    (made.len() as u64) < room && made.push(call).is_ok()
}

// The trip by which such a call fails.
fn trip_among(trips: &[Trip], made: &[LoggedCall], call: CallKind, at: u64) -> Option<Trip>
    ensures { result ≡ trip_at trips.now made.now call at }
{
    for trip in trips {
        if trip.fires(made, call, at) {
            return Some(*trip);
        }
    }
    None
}

impl Memory {
    ghost use Rattle.rom_device.specs.Memory.{shown_by_memory, start_of, calls_of, room_of, trips_of, words_of_memory, MemoryCountsNothing, Picks, IsPicked};

    /// A device of these words, with room for so many calls. It takes no memory later.
    pub fn new(
        alloc: Global,
        words: Vec<u64>,
        room: u64,
        trips: Vec<Trip>,
    ) -> Result<Memory, AllocError>
        ensures start { IfOk result (λ m. start_of m ≡ words.items) }
        ensures calls { IfOk result (λ m. calls_of m ≡ []) }
        ensures room { IfOk result (λ m. room_of m ≡ room) }
        ensures trips { IfOk result (λ m. trips_of m ≡ trips.items) }
        ensures counts { IfOk result (λ m. MemoryCountsNothing m) }
    {
        Ok(Memory {
            start: words.clone()?,
            words,
            made: Vec::with_capacity(alloc, room as usize)?,
            room,
            trips,
            reads: 0,
            writes: 0,
            syncs: 0,
            faults: 0,
            failing: false,
        })
    }

    /// The words as they read.
    pub fn words(&self) -> &[u64]
        ensures { result.now ≡ words_of_memory self.now }
    {
        &self.words
    }

    /// How many calls are listed.
    pub fn calls_made(&self) -> u64
        ensures { result ≡ length (calls_of self.now) }
    {
        self.made.len() as u64
    }

    /// What a stop now may leave, by a choice of a number for each word. The possible values of a word are
    /// its last synced value and then those written to it since, in order. The word gets the one of that
    /// number, counted from 0, modulo how many there are. A missing number is 0. It takes no memory. It
    /// goes through the list of calls for each word, which is slow: it serves tests on small heaps.
    pub fn crash(self, choice: &[u64]) -> Vec<u64>
        // Each word has the one of its possible values that was chosen.
        ensures picked { Picks self choice.now result.items }
        // The words are an image that a stop may leave.
        ensures left { shown_by_memory.leaves self result.items }

        // No image is left out: each that a stop may leave is that of some choice.
        ensures every { (image : List ℕ) → shown_by_memory.leaves self image → IsPicked self image }
    {
        let (words, _start, _made) = self.crashed(choice);
        words
    }

    // The same, with the words at its making and the calls made since.
    pub(crate) fn crashed(self, choice: &[u64]) -> (Vec<u64>, Vec<u64>, Vec<LoggedCall>)
        ensures picked { Picks self choice.now result.0.items }
        ensures left { shown_by_memory.leaves self result.0.items }
        ensures every { (image : List ℕ) → shown_by_memory.leaves self image → IsPicked self image }
        ensures start { result.1.items ≡ start_of self }
        ensures made { result.2.items ≡ calls_of self }
    {
        let Memory {
            start,
            mut words,
            made,
            room: _,
            trips: _,
            reads: _,
            writes: _,
            syncs: _,
            faults: _,
            failing: _,
        } = self;
        for at in 0..words.len() {
            let number = choice.get(at).copied().unwrap_or(0);
            words[at] = picked_value(&start, &made, at as u64, number);
        }
        (words, start, made)
    }
}

impl Device for Memory {
    ghost use Rattle.std.specs.Prelude.{◌+◌, OnErr, OnOk, slice_index, slice_set, refl};
    ghost use Rattle.rom_device.specs.Device.{CountsCalls, Does, IsSynced, Makes, OnlyReads, ReadsUpTo, Stays, WritesMany, WritesWord, WritingFailed};
    ghost use Rattle.rom_device.specs.Memory.{shown_by_memory, start_of, words_of_memory, reads_from, Lists, ListsMany, ListsWrites};
    ghost use Rattle.rom_device.specs.declared.call.LoggedCall.TheVariants.{Read, Write, Sync};

    ghost shown = { shown_by_memory };

    fn len(&self) -> u64 {
        self.start.len() as u64
    }

    fn fault_count(&self) -> u64 {
        self.faults
    }

    fn read(&mut self, at: u64) -> Result<u64, Failed>
        requires { at < length (start_of self.old) }
        ensures word { IfOk result (λ word. word ≡ slice_index (words_of_memory self.old) at) }
        ensures only { OnlyReads shown_by_memory self.old self.new }
        ensures counts { CountsCalls shown_by_memory 1 0 0 self.old self.new result }
        // The read is listed where there is room. It fails exactly where there is none or a trip says so.
        ensures lists { Lists (Read at) self.old self.new result }
    {
        self.reads = self.reads.saturating_add(1);
        let tripped = trip_among(&self.trips, &self.made, CallKind::Read, at).is_some();
        self.failing = !list(&mut self.made, self.room, LoggedCall::Read { at }) || tripped;
        if self.failing {
            self.faults = self.faults.saturating_add(1);
            return Err(Failed);
        }
        Ok(self.words[at as usize])
    }

    fn read_words(&mut self, at: u64, into: &mut [u64]) -> usize
        requires { at + length into.old ≤ length (start_of self.old) }
        ensures len { length into.new ≡ length into.old }
        ensures read { (k : ℕ) → k < result
            → slice_index into.new k ≡ slice_index (words_of_memory self.old) (at + k) }
        ensures only { OnlyReads shown_by_memory self.old self.new }
        ensures counts { ReadsUpTo shown_by_memory result (length into.old) self.old self.new }
        // Each word is one call, up to the first that fails. Each is listed where there is room.
        ensures lists { ListsMany (reads_from at (length into.old)) result self.old self.new }
    {
        for index in 0..into.len() {
            let Ok(word) = self.read(at + index as u64) else {
                return index;
            };
            into[index] = word;
        }
        into.len()
    }

    fn write(&mut self, at: u64, value: u64) -> Result<(), Failed>
        requires { at < length (start_of self.old) }
        ensures written { OnOk result (words_of_memory self.new ≡ slice_set (words_of_memory self.old) at value) }
        ensures does { Does shown_by_memory (WritesWord at value) self.old self.new }
        ensures counts { CountsCalls shown_by_memory 0 1 0 self.old self.new result }
        ensures lists { Lists (Write at value true) self.old self.new result }
    {
        self.writes = self.writes.saturating_add(1);
        let trip = trip_among(&self.trips, &self.made, CallKind::Write, at);
        let lands = trip.is_none_or(|trip| trip.keeps_new);
        let call = LoggedCall::Write { at, value, lands };
        let listed = list(&mut self.made, self.room, call);
        if listed && lands {
            self.words[at as usize] = value;
        }
        self.failing = !listed || trip.is_some();
        if self.failing {
            self.faults = self.faults.saturating_add(1);
            return Err(Failed);
        }
        Ok(())
    }

    fn write_words(&mut self, at: u64, values: &[u64]) -> Result<(), Failed>
        requires { at + length values.now ≤ length (start_of self.old) }
        ensures written { OnOk result ((k : ℕ) → k < length values.now
            → slice_index (words_of_memory self.new) (at + k) ≡ slice_index values.now k) }
        ensures failed { OnErr result (WritingFailed shown_by_memory at
            values.now self.old self.new) }
        ensures does { Does shown_by_memory (WritesMany at values.now) self.old self.new }
        ensures makes { Makes shown_by_memory 0 (length values.now) 0 self.old self.new result }
        ensures lists { ListsWrites at values.now self.old self.new result }
    {
        for index in 0..values.len() {
            self.write(at + index as u64, values[index])?;
        }
        Ok(())
    }

    fn sync(&mut self) -> Result<(), Failed>
        ensures certain { OnOk result (IsSynced shown_by_memory self.new) }
        ensures does { Does shown_by_memory Stays self.old self.new }
        ensures counts { CountsCalls shown_by_memory 0 0 1 self.old self.new result }
        ensures lists { Lists (Sync true) self.old self.new result }
    {
        self.syncs = self.syncs.saturating_add(1);
        let done = trip_among(&self.trips, &self.made, CallKind::Sync, 0).is_none();
        self.failing = !list(&mut self.made, self.room, LoggedCall::Sync { done }) || !done;
        if self.failing {
            self.faults = self.faults.saturating_add(1);
            return Err(Failed);
        }
        Ok(())
    }

    ghost use Rattle.rom_device.specs.Doubt.{untold};
    ghost use Rattle.rom_device.specs.Images.{may_leave_words, length-words_after, length-MayLeave, since_counts_now, since_only_now};

    ghost tells_both = { λ _. refl };

    ghost reads_image = { λ m _. may_leave_words m.start.items (reverse m.made.items) };

    ghost words_fit = { λ m _. length-words_after m.start.items (reverse m.made.items) };

    ghost images_fit = { λ m i _ may. length-MayLeave m.start.items (reverse m.made.items) i may };

    ghost counts_now = { λ m t i _ _ may. since_counts_now m.start.items t
        (reverse m.made.items) i may };

    ghost only_now = { λ m i _ since. since_only_now m.start.items (reverse m.made.items) i since };

    ghost doubts_told = { λ never. untold never };

    ghost size_fits = { λ m. m.small };

    ghost counts_fit = { λ m. m.counts_fit };
}
