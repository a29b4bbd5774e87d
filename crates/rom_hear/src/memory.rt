//! A client in memory, which tells its log. It fails as it is told to and for no other reason, so that a test
//! knows each cause.
ghost use Rattle.std.specs.Prelude.{◌≡◌, ◌⊎◌, ◌↔◌, ℕ, ◌+◌, ◌<◌, ◌≤◌, length, take, vec_len, vec_capacity, Some, IfOk, IsErr, IsTrue};
ghost use Rattle.rom_hear.specs.Marks.{IsHeardOf, IsHeardOf-prop, IsMarked, log_of};

use crate::mark::{Mark, Passed};
use crate::peer::Peer;
use rom_text::IoFailed;
use std::alloc::{AllocError, Global};
use std::snapshot::Snapshot;

/// A text that is heard in pieces, and room for what is said.
#[derive(Drop)]
pub struct Client<K> {
    text: Vec<u8>,
    // How many bytes of the text were heard.
    at: usize,
    piece: u64,
    trips: Vec<u64>,
    askings: u64,
    room: usize,
    taken: usize,
    calls: usize,
    passed: Passed<K>,
    idle: u64,
    // Whether the last asking gave no byte.
    ended: bool,
    unheard: u64,
    unsaid: u64,
    // Whether the last saying failed.
    failing: bool,
    ghost within: { at ≤ vec_len text },
    ghost few: { taken ≤ room },
    ghost some: { 0 < piece },
    ghost all: { vec_len passed.bytes ≡ at + taken },
    ghost bytes: { vec_len text + room ≤ vec_capacity passed.bytes },
    ghost stands: { vec_len passed.marks ≤ calls },
    ghost reserved: { calls ≤ vec_capacity passed.marks },
    ghost marked: { IsMarked passed },
    ghost heard: { IsHeardOf text.items at passed } by { IsHeardOf-prop text.items at passed },
}

impl<K> Client<K> {
    ghost use Rattle.rom_hear.specs.Memory.{IsUnmet, client_calls, client_left, client_log, client_piece, client_room, client_trips};

    /// A client that has this text left, and takes at most so many bytes. At most `piece` bytes pass at a time, the
    /// askings whose numbers, counted from 1, are among the trips fail, and so does each call once so many went
    /// well.
    pub fn new(
        alloc: Global,
        text: Vec<u8>,
        trips: Vec<u64>,
        piece: u64,
        room: usize,
        calls: usize,
    ) -> Result<Client<K>, AllocError>
        requires { 0 < piece }
        ensures left { IfOk result (λ c. client_left c ≡ text.items) }
        ensures trips { IfOk result (λ c. client_trips c ≡ trips.items) }
        ensures piece { IfOk result (λ c. client_piece c ≡ piece) }
        ensures room { IfOk result (λ c. client_room c ≡ room) }
        ensures calls { IfOk result (λ c. client_calls c ≡ calls) }
        ensures unmet { IfOk result IsUnmet }
    {
        let Some(most) = text.len().checked_add(room) else {
            return Err(AllocError);
        };
        let passed = Passed::with_room(alloc, most, calls)?;
        Ok(Client {
            text,
            at: 0,
            piece,
            trips,
            askings: 0,
            room,
            taken: 0,
            calls,
            passed,
            idle: 0,
            ended: false,
            unheard: 0,
            unsaid: 0,
            failing: false,
        })
    }

    /// What has passed, by how many bytes each event had, and all these bytes in their order.
    pub fn log(&self) -> (&[Mark<K>], &[u8])
        ensures { log_of result.0.now result.1.now ≡ client_log self.now }
    {
        (&self.passed.marks, &self.passed.bytes)
    }
}

fn copy_front(to: &mut [u8], from: &[u8], count: usize)
    requires room { count ≤ length to.old }
    requires there { count ≤ length from.now }
    ensures { take count to.new ≡ take count from.now }
{
    to[..count].copy_from_slice(&from[..count]);
}

impl<K> Peer<K> for Client<K> {
    ghost use Rattle.rom_hear.specs.Memory.{IsSameClient, IsSpent, askings_of, client_piece, client_room, client_taken, shown_client, trips_at};
    ghost use Rattle.rom_hear.specs.Peers.{Hears, Says};

    ghost shown = { shown_client };

    fn meet(&mut self) {}

    /// It fails exactly where a trip is due or its calls are spent, and gives at most its piece.
    fn hear(&mut self, buf: &mut [u8]) -> Result<u64, IoFailed>
        ensures within { IfOk result (λ n. n ≤ length buf.new) }
        ensures hears { Hears shown_client self.old self.new result buf.new }

        ensures same { IsSameClient self.old self.new }
        ensures fails { IsErr result
            ↔ (IsTrue (trips_at self.old (askings_of self.new)) ⊎ IsSpent self.old) }
        ensures piece { IfOk result (λ n. n ≤ client_piece self.old) }
    {
        self.askings = self.askings.saturating_add(1);
        if self.trips.contains(&self.askings) || self.passed.marks.len() == self.calls {
            self.idle = self.idle.saturating_add(1);
            self.unheard = self.unheard.saturating_add(1);
            self.ended = true;
            return Err(IoFailed);
        }
        let rest = &self.text[self.at..];
        let most = self.piece.min(buf.len() as u64).min(rest.len() as u64);
        copy_front(buf, rest, most as usize);
        self.at += most as usize;
        self.passed.add(&buf[..most as usize], Mark::Heard(most));
        self.ended = most == 0;
        if most == 0 {
            self.idle = self.idle.saturating_add(1);
        }
        Ok(most)
    }

    /// It fails exactly where no room is left or its calls are spent, and takes at most its piece.
    fn say(&mut self, piece: &[u8], knowing: &K) -> Result<u64, IoFailed>
        requires { 0 < length piece.now }
        ensures some { IfOk result (λ n. (0 < n) × (n ≤ length piece.now)) }
        ensures says { Says shown_client self.old self.new result piece.now knowing.now }

        ensures same { IsSameClient self.old self.new }
        ensures fails { IsErr result
            ↔ ((client_taken self.old ≡ client_room self.old) ⊎ IsSpent self.old) }
        ensures piece { IfOk result (λ n. n ≤ client_piece self.old) }
    {
        let free = self.room - self.taken;
        self.failing = free == 0 || self.passed.marks.len() == self.calls;
        if self.failing {
            self.unsaid = self.unsaid.saturating_add(1);
            return Err(IoFailed);
        }
        let most = self.piece.min(piece.len() as u64).min(free as u64);
        self.taken += most as usize;
        let mark = Mark::Said(most, Snapshot::of(knowing));
        self.passed.add(&piece[..most as usize], mark);
        Ok(most)
    }

    fn part(&mut self) {}
}
