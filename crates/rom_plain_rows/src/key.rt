//! One key with bytes, in the plainest form. Scripts that name no other are replayed on it.

use rom_test::{Asked, Replayed};
use std::alloc::{AllocError, Global};

/// The digits of the key's bytes, where it is there.
#[derive(Drop)]
pub struct Key {
    digits: String,
    is_there: bool,
}

impl Key {
    /// The key is not there.
    pub fn new(alloc: Global) -> Key {
        Key {
            digits: String::new(alloc),
            is_there: false,
        }
    }
}

impl Replayed for Key {
    fn asked(&self, line: &str) -> Asked {
        let (name, _) = line.split_once(" ").unwrap_or((line, ""));
        match name {
            "set" | "cut" => Asked::Update,
            "fetch" | "size" => Asked::Query,
            _ => Asked::Unread,
        }
    }

    fn update(&mut self, alloc: Global, line: &str, place: u64) -> Result<String, AllocError> {
        let sets = line.starts_with("set ");
        let len = self.digits.len() / 2;
        let told = match (self.is_there, sets) {
            (true, _) => format!(in alloc; "was {len} @{place}"),
            (false, true) => format!(in alloc; "new @{place}"),
            (false, false) => format!(in alloc; "none @{place}"),
        };
        let (_, digits) = line.rsplit_once(" ").unwrap_or(("", ""));
        self.digits = digits.to_string(alloc)?;
        self.is_there = sets;
        told
    }

    fn answer(&self, alloc: Global, line: &str, front: u64) -> Result<String, AllocError> {
        if line == "size" {
            let keys = u64::from(self.is_there);
            return format!(in alloc; "keys {keys} #{front}");
        }
        if !self.is_there {
            return format!(in alloc; "none #{front}");
        }
        let digits = self.digits.as_str();
        format!(in alloc; "bytes {digits} #{front}")
    }
}
