//! What a client in memory keeps of all that passed.
ghost use Rattle.std.specs.Prelude.{◌≡◌, ◌+◌, ◌<◌, ◌≤◌, [], ◌∷◌, ◌++◌, length, vec_len, vec_capacity, IfOk};

use std::alloc::{AllocError, Global};
use std::snapshot::Snapshot;

/// One thing that passed, by how many bytes it had.
#[derive(Drop)]
pub enum Mark<K> {
    /// More was asked for, and so many came.
    Heard(u64),
    /// So many were taken, of one who knew this.
    Said(u64, Snapshot<K>),
}

/// All that passed, in its order.
#[derive(Drop)]
pub struct Passed<K> {
    pub(crate) bytes: Vec<u8>,
    pub(crate) marks: Vec<Mark<K>>,
}

impl<K> Passed<K> {
    ghost use Rattle.rom_hear.specs.Marks.{IsMarked, bytes_of, event_of, log_in};

    /// Nothing, and room for so many bytes, in so many calls.
    pub(crate) fn with_room(
        alloc: Global,
        bytes: usize,
        calls: usize,
    ) -> Result<Passed<K>, AllocError>
        ensures marked { IfOk result IsMarked }
        ensures none { IfOk result (λ p. log_in p ≡ []) }
        ensures no_bytes { IfOk result (λ p. vec_len p.bytes ≡ 0) }
        ensures no_marks { IfOk result (λ p. vec_len p.marks ≡ 0) }
        ensures bytes { IfOk result (λ p. vec_capacity p.bytes ≡ bytes) }
        ensures calls { IfOk result (λ p. vec_capacity p.marks ≡ calls) }
    {
        let bytes = Vec::with_capacity(alloc, bytes)?;
        let marks = Vec::with_capacity(alloc, calls)?;
        Ok(Passed { bytes, marks })
    }

    /// Adds what passed now.
    pub(crate) fn add(&mut self, bytes: &[u8], mark: Mark<K>)
        requires marked { IsMarked self.old }
        requires count { bytes_of mark ≡ length bytes.now }
        requires room { vec_len self.old.bytes + length bytes.now ≤ vec_capacity self.old.bytes }
        requires call { vec_len self.old.marks < vec_capacity self.old.marks }
        ensures marked { IsMarked self.new }
        ensures log { log_in self.new ≡ log_in self.old ++ event_of mark bytes.now ∷ [] }
        ensures bytes { vec_len self.new.bytes ≡ vec_len self.old.bytes + length bytes.now }
        ensures calls { vec_len self.new.marks ≡ vec_len self.old.marks + 1 }
        ensures room { vec_capacity self.old.bytes ≤ vec_capacity self.new.bytes }
        ensures call { vec_capacity self.old.marks ≤ vec_capacity self.new.marks }
    {
        self.bytes.extend_from_slice(bytes).unwrap();
        self.marks.push_reserved(mark);
    }
}
