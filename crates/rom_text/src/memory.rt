//! Sources and sinks in memory, which tell their bytes. They fail as they are told to and for no other
//! reason, so that a test knows each cause.
ghost use Rattle.std.specs.Prelude.{◌≡◌, ℕ, ◌<◌, ◌≤◌, length, take, vec_len, vec_capacity, Some, IfOk};

use crate::streams::{IoFailed, Sink, Source};
use std::alloc::{AllocError, Global};

/// A text that is read in pieces.
#[derive(Drop)]
pub struct Bytes {
    content: Vec<u8>,
    piece: u64,
    trips: Vec<u64>,
    at: usize,
    reads: u64,
    idle: u64,
    faults: u64,
    // Whether the last read gave no byte.
    ended: bool,
    ghost within: { at ≤ vec_len content },
    ghost some: { 0 < piece },
}

impl Bytes {
    ghost use Rattle.std.specs.Prelude.{false};
    ghost use Rattle.rom_text.specs.Memory.{IsUnread, bytes_left, failing_reads, piece_of};

    /// A source that has this text left. Each read gives at most `piece` bytes, and the reads
    /// whose numbers, counted from 1, are among the trips fail.
    pub fn new(content: Vec<u8>, piece: u64, trips: Vec<u64>) -> Bytes
        requires { 0 < piece }
        ensures left { bytes_left result ≡ content.items }
        ensures piece { piece_of result ≡ piece }
        ensures trips { failing_reads result ≡ trips.items }
        ensures counts { IsUnread result }
    {
        Bytes {
            content,
            piece,
            trips,
            at: 0,
            reads: 0,
            idle: 0,
            faults: 0,
            ended: false,
        }
    }
}

fn copy_front(to: &mut [u8], from: &[u8], count: usize)
    requires room { count ≤ length to.old }
    requires there { count ≤ length from.now }
    ensures { take count to.new ≡ take count from.now }
{
    to[..count].copy_from_slice(&from[..count]);
}

impl Source for Bytes {
    ghost use Rattle.std.specs.Prelude.{IsErr, IsTrue, ◌↔◌};
    ghost use Rattle.std.specs.Io.KnownBytes.{ReadConsumes};
    ghost use Rattle.rom_text.specs.Memory.{ReadsOn, bytes_left, piece_of, reads_of, shown_bytes, trips_at};
    ghost use Rattle.rom_text.specs.Streams.{CountsRead};

    ghost shown = { shown_bytes };

    /// It fails exactly where a trip is due, and gives at most its piece.
    fn read(&mut self, buf: &mut [u8]) -> Result<u64, IoFailed>
        ensures within { IfOk result (λ n. n ≤ length buf.new) }
        ensures bytes { ReadConsumes (Some (bytes_left self.old)) (Some (bytes_left self.new))
            result buf.new }
        ensures counts { CountsRead shown_bytes self.old self.new result }

        ensures reads_on { ReadsOn self.old self.new }
        ensures fails { IsErr result ↔ IsTrue (trips_at self.old (reads_of self.new)) }
        ensures piece { IfOk result (λ n. n ≤ piece_of self.old) }
    {
        self.reads = self.reads.saturating_add(1);
        if self.trips.contains(&self.reads) {
            self.idle = self.idle.saturating_add(1);
            self.faults = self.faults.saturating_add(1);
            self.ended = true;
            return Err(IoFailed);
        }
        let rest = &self.content[self.at..];
        let most = self.piece.min(buf.len() as u64).min(rest.len() as u64);
        copy_front(buf, rest, most as usize);
        self.at += most as usize;
        self.ended = most == 0;
        if most == 0 {
            self.idle = self.idle.saturating_add(1);
        }
        Ok(most)
    }
}

/// A sink with room for so many bytes.
#[derive(Drop)]
pub struct Collect {
    bytes: Vec<u8>,
    room: usize,
    piece: u64,
    faults: u64,
    // Whether the last write failed.
    failing: bool,
    ghost within: { vec_len bytes ≤ room },
    ghost reserved: { room ≤ vec_capacity bytes },
    ghost some: { 0 < piece },
}

impl Collect {
    ghost use Rattle.std.specs.Prelude.{false};
    ghost use Rattle.rom_text.specs.Memory.{IsUnwritten, bytes_room, bytes_taken, write_piece_of};

    /// A sink that has taken nothing. It takes at most `piece` bytes at a time and `room` bytes in
    /// all; a write with no room left fails.
    pub fn with_room(alloc: Global, room: u64, piece: u64) -> Result<Collect, AllocError>
        requires { 0 < piece }
        ensures room { IfOk result (λ c. bytes_room c ≡ room) }
        ensures piece { IfOk result (λ c. write_piece_of c ≡ piece) }
        ensures unwritten { IfOk result IsUnwritten }
    {
        let bytes = Vec::with_capacity(alloc, room as usize)?;
        Ok(Collect {
            bytes,
            room: room as usize,
            piece,
            faults: 0,
            failing: false,
        })
    }

    /// The bytes taken.
    pub fn bytes(&self) -> &[u8]
        ensures bytes { result.now ≡ bytes_taken self.now }
        ensures within { length result.now ≤ bytes_room self.now }
    {
        &self.bytes
    }
}

impl Sink for Collect {
    ghost use Rattle.std.specs.Prelude.{IsErr, ◌↔◌};
    ghost use Rattle.std.specs.Io.KnownBytes.{WriteAppends};
    ghost use Rattle.rom_text.specs.Memory.{KeepsRoom, bytes_room, bytes_taken, shown_collect, write_piece_of};
    ghost use Rattle.rom_text.specs.Streams.{CountsWrite};

    ghost shown = { shown_collect };

    /// It fails exactly where no room is left, and takes at most its piece.
    fn write(&mut self, piece: &[u8]) -> Result<u64, IoFailed>
        requires { 0 < length piece.now }
        ensures some { IfOk result (λ n. (0 < n) × (n ≤ length piece.now)) }
        ensures bytes { WriteAppends (Some (bytes_taken self.old)) (Some (bytes_taken self.new))
            result piece.now }
        ensures counts { CountsWrite shown_collect self.old self.new result }

        ensures room { KeepsRoom self.old self.new }
        ensures fails { IsErr result ↔ (length (bytes_taken self.old) ≡ bytes_room self.old) }
        ensures piece { IfOk result (λ n. n ≤ write_piece_of self.old) }
    {
        let free = self.room - self.bytes.len();
        self.failing = free == 0;
        if self.failing {
            self.faults = self.faults.saturating_add(1);
            return Err(IoFailed);
        }
        let most = self.piece.min(piece.len() as u64).min(free as u64);
        match self.bytes.extend_from_slice(&piece[..most as usize]) {
            Ok(()) => Ok(most),
            Err(_) => unreachable!(),
        }
    }
}
