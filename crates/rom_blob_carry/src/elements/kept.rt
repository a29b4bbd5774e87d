//! A key with its bytes.
ghost use Rattle.std.specs.Prelude.{◌≡◌, ◌≤◌, IfOk, length};
ghost use Rattle.rom_blob_region.specs.State.{body_units};

use rom_blob_region::{Chunk, order_for};
use rom_model::power_of_two;
use std::alloc::{AllocError, Global};

/// A key with its bytes, which are no more than a key may have. It takes as much memory as it has bytes, where a
/// `Chunk` has room for 256.
#[derive(Drop)]
pub struct Kept {
    key: u64,
    bytes: Vec<u8>,
    ghost few: { length bytes.items ≤ 256 },
}

impl Kept {
    ghost use Rattle.rom_blob_region.specs.Texts.{AreBytes};

    /// This key with these bytes.
    pub fn of(alloc: Global, key: u64, bytes: &Chunk) -> Result<Kept, AllocError>
        ensures key { IfOk result (λ kept. kept.key ≡ key) }
        ensures bytes { IfOk result (λ kept. kept.bytes.items ≡ bytes.now) }
        ensures are { AreBytes bytes.now }
    {
        let padded = bytes.padded();
        Ok(Kept {
            key,
            bytes: Vec::from_slice(alloc, &padded[..bytes.len() as usize])?,
        })
    }

    /// The key.
    pub fn key(&self) -> u64
        ensures { result ≡ self.now.key }
    {
        self.key
    }

    /// The bytes.
    pub fn bytes(&self) -> &[u8]
        ensures bytes { result.now ≡ self.now.bytes.items }
        ensures few { length result.now ≤ 256 }
    {
        &self.bytes
    }
}

/// How many units the block of so many bytes has.
pub fn body_units(len: u64) -> u64
    ensures is { result ≡ body_units len }
    ensures few { result ≤ 8 }
{
    if len == 0 {
        return 0;
    }
    power_of_two(order_for(len))
}
