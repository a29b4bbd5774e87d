//! A counter in the plainest form.

use rom_test::{Asked, Replayed};
use std::alloc::{AllocError, Global};

/// The sum of what was added.
#[derive(Drop)]
pub struct Sum {
    pub value: u64,
}

impl Replayed for Sum {
    fn asked(&self, line: &str) -> Asked {
        match line.split_once(" ") {
            Some(("add", _)) => Asked::Update,
            _ if line == "get" => Asked::Query,
            _ => Asked::Unread,
        }
    }

    fn update(&mut self, alloc: Global, line: &str, place: u64) -> Result<String, AllocError> {
        let (_, digits) = line.split_once(" ").unwrap_or(("", ""));
        let amount = digits.parse::<u64>().unwrap_or(0);
        self.value = self.value.saturating_add(amount);
        let value = self.value;
        format!(in alloc; "sum {value} @{place}")
    }

    fn answer(&self, alloc: Global, _line: &str, front: u64) -> Result<String, AllocError> {
        let value = self.value;
        format!(in alloc; "sum {value} #{front}")
    }
}
